// What comes of judging a plan.
use std::fmt;

// Every rule is kept; or the lowest rule that is broken, by the number of its line, and for it the lowest state.
// No Option: it is the answer that is reported, and each of the two has a word there.
#[derive(Debug, Clone, Copy, PartialEq, Eq)]
pub enum Judgement {
    Kept,
    Broken { rule: usize, state: usize },
}

impl fmt::Display for Judgement {
    ghost use Rattle.std.specs.Prelude.{Some};
    ghost use Rattle.judging.specs.Texts.{judgement_text};

    ghost output = { λ judgement. Some (judgement_text judgement) };

    fn fmt<W: fmt::Write>(&self, f: &mut fmt::Formatter<W>) -> fmt::Result {
        match self {
            Judgement::Kept => f.write_str("kept"),
            Judgement::Broken { rule, state } => write!(f, "broken {rule} {state}"),
        }
    }
}
