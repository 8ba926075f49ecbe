// What a field of a work comes to.
ghost use Rattle.std.specs.Prelude.{Some};
ghost use Rattle.run.specs.Words.{outcome_text};

use judging::Judgement;
use std::fmt;

// The line that it made, or how its plan was judged.
#[derive(Debug, Clone, Copy, PartialEq, Eq)]
pub enum Outcome {
    Line(usize),
    Judged(Judgement),
}

impl fmt::Display for Outcome {
    ghost output = { λ outcome. Some (outcome_text outcome) };

    fn fmt<W: fmt::Write>(&self, f: &mut fmt::Formatter<W>) -> fmt::Result {
        match self {
            Outcome::Line(line) => write!(f, "line {line}"),
            Outcome::Judged(judgement) => write!(f, "{judgement}"),
        }
    }
}
