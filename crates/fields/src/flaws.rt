// What is wrong with a field.
ghost use Rattle.std.specs.Prelude.{◌≡◌};
ghost use Rattle.fields.specs.Flaws.{flaw_number};

// Each flaw with its number.
#[derive(Debug, Clone, Copy, PartialEq, Eq)]
pub enum Flaw {
    PastEnd = 1,
    UnknownTag = 2,
    WrongLength = 3,
    MisplacedBegin = 4,
}

// A flaw, and the offset of the field's tag byte in its file.
#[derive(Debug, Clone, Copy, PartialEq, Eq)]
pub struct ReaderFault {
    pub flaw: Flaw,
    pub offset: usize,
}

impl Flaw {
    // The number by which the flaw is reported; each layer has this method, since each promises its own numbers.
    pub fn number(self) -> u8
        ensures { result ≡ flaw_number self }
    {
        self as u8
    }

    // The fault of a field at an offset.
    pub(crate) fn at(self, offset: usize) -> ReaderFault
        ensures { (result.flaw ≡ self) × (result.offset ≡ offset) }
    {
        ReaderFault { flaw: self, offset }
    }
}
