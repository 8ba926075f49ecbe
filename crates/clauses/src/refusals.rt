// Why an inspection refuses a call.
ghost use Rattle.std.specs.Prelude.{◌≡◌};
ghost use Rattle.clauses.specs.Refusals.{number_of};

#[derive(Debug, Clone, Copy, PartialEq, Eq)]
pub enum Refusal {
    IndexCount = 5,
    TableSize = 6,
    KindOrIndex = 7,
    LiteralRange = 8,
    NotAscending = 9,
    WrongShape = 10,
    SideTooLong = 11,
    NotThere = 12,
    Misfit = 13,
    LiteralMissing = 14,
    LoopEnded = 15,
    NewSideTooLong = 17,
    NothingLeft = 18,
}

impl Refusal {
    // The number by which the refusal is reported; each layer has this method, since each promises its own numbers.
    pub fn number(self) -> u8
        ensures { result ≡ number_of self }
    {
        self as u8
    }
}
