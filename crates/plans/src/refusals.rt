// Why a plan is refused, where it is filled or judged.
ghost use Rattle.std.specs.Prelude.{◌≡◌};
ghost use Rattle.plans.specs.Refusals.{plan_number};

#[derive(Debug, Clone, Copy, PartialEq, Eq)]
pub enum PlanRefusal {
    TableTooShort = 6,
    NotAscending = 9,
    OutOfRange = 19,
}

impl PlanRefusal {
    // The number by which the refusal is reported; each layer has this method, since each promises its own numbers.
    pub fn number(self) -> u8
        ensures { result ≡ plan_number self }
    {
        self as u8
    }
}
