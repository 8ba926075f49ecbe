// What the lines made so far say of the book.
ghost use Rattle.std.specs.Prelude.{◌≡◌};
ghost use Rattle.calls.specs.Calls.{Call, answer};
ghost use Rattle.inspection.specs.Told.{Lowest, told_verdict};
ghost use Rattle.inspection.specs.Held.{model_of};

use crate::state::Inspection;
use clauses::Line;
use std::fmt;

// Impossible names the lowest line that no system keeps.
// Not an Option, since the two answers are words of the report.
#[derive(Debug, Clone, Copy, PartialEq, Eq)]
pub enum Verdict {
    Impossible(usize),
    Undecided,
}

impl<'a> Inspection<'a> {
    // Whether some line shows that no system keeps the rules.
    pub fn verdict(&self) -> Verdict
        ensures answer { told_verdict result ≡ answer (model_of self.now) Call.verdict }
        ensures lowest { Lowest (model_of self.now).lines result }
    {
        self.lines[..self.made]
            .iter()
            .position(Line::refutes)
            .map_or(Verdict::Undecided, Verdict::Impossible)
    }
}

impl fmt::Display for Verdict {
    ghost use Rattle.std.specs.Prelude.{Some};
    ghost use Rattle.inspection.specs.Texts.{verdict_text};

    ghost output = { λ verdict. Some (verdict_text verdict) };

    fn fmt<W: fmt::Write>(&self, f: &mut fmt::Formatter<W>) -> fmt::Result {
        match self {
            Verdict::Impossible(line) => write!(f, "impossible {line}"),
            Verdict::Undecided => f.write_str("undecided"),
        }
    }
}
