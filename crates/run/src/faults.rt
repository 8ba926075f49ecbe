// Why a run refuses a field, and where it stands.
ghost use Rattle.std.specs.Prelude.{◌≡◌, Some};
ghost use Rattle.run.specs.Faults.{layer_of, refused_number};
ghost use Rattle.run.specs.Words.{fault_text, file_text};
ghost use Rattle.run.specs.declared.faults.Refused.TheVariants as refused;

use clauses::Refusal;
use fields::ReaderFault;
use plans::PlanRefusal;
use std::fmt;

// Not a `Source`: a fault names the file alone, and has no count of indices.
#[derive(Debug, Clone, Copy, PartialEq, Eq)]
pub enum File {
    Book,
    Work,
}

// The cases of `Refused` without what they carry: a fault is told by a number and its layer.
#[derive(Debug, Clone, Copy, PartialEq, Eq)]
pub enum Layer {
    Reader,
    Plan,
    Inspection,
}

// The fault of the layer that refused a field, whole.
#[derive(Debug, Clone, Copy, PartialEq, Eq)]
pub enum Refused {
    Reader(ReaderFault),
    Plan(PlanRefusal),
    Inspection(Refusal),
}

// What is refused, in which file, and the offset of the field.
#[derive(Debug, Clone, Copy, PartialEq, Eq)]
pub struct Fault {
    pub refused: Refused,
    pub file: File,
    pub offset: usize,
}

impl fmt::Display for File {
    ghost output = { λ file. Some (file_text file) };

    fn fmt<W: fmt::Write>(&self, f: &mut fmt::Formatter<W>) -> fmt::Result {
        match self {
            File::Book => f.write_str("book"),
            File::Work => f.write_str("work"),
        }
    }
}

impl fmt::Display for Fault {
    ghost output = { λ fault. Some (fault_text fault) };

    fn fmt<W: fmt::Write>(&self, f: &mut fmt::Formatter<W>) -> fmt::Result {
        let number = self.number();
        let offset = self.offset;
        write!(f, "no {number} {offset}")
    }
}

// A `From` for each layer by hand, since no derive states which case `?` makes.
impl From<ReaderFault> for Refused {
    ghost from_gives = { λ fault r. r ≡ refused.Reader fault };

    fn from(fault: ReaderFault) -> Refused {
        Refused::Reader(fault)
    }
}

impl From<PlanRefusal> for Refused {
    ghost from_gives = { λ refusal r. r ≡ refused.Plan refusal };

    fn from(refusal: PlanRefusal) -> Refused {
        Refused::Plan(refusal)
    }
}

impl From<Refusal> for Refused {
    ghost from_gives = { λ refusal r. r ≡ refused.Inspection refusal };

    fn from(refusal: Refusal) -> Refused {
        Refused::Inspection(refusal)
    }
}

impl Refused {
    // The fault of a field at an offset of a file.
    pub(crate) fn at(self, file: File, offset: usize) -> Fault
        ensures { (result.refused ≡ self) × (result.file ≡ file) × (result.offset ≡ offset) }
    {
        Fault {
            refused: self,
            file,
            offset,
        }
    }
}

impl Fault {
    // Not a cast: each layer's refusals have numbers of their own.
    pub fn number(self) -> u8
        ensures { result ≡ refused_number self.refused }
    {
        match self.refused {
            Refused::Reader(fault) => fault.flaw.number(),
            Refused::Plan(refusal) => refusal.number(),
            Refused::Inspection(refusal) => refusal.number(),
        }
    }

    pub fn layer(self) -> Layer
        ensures { result ≡ layer_of self.refused }
    {
        match self.refused {
            Refused::Reader(_) => Layer::Reader,
            Refused::Plan(_) => Layer::Plan,
            Refused::Inspection(_) => Layer::Inspection,
        }
    }
}
