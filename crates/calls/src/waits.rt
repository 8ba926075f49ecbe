// What a sometime line waits for.
ghost use Rattle.std.specs.Prelude.{◌≡◌};
ghost use Rattle.calls.specs.Waits.{wait_of};

use clauses::{Kind, Line, Literal, Scope};

// The moves that it speaks of, and its goal.
#[derive(Debug, Clone, Copy, Default, PartialEq, Eq)]
pub struct Wait {
    pub scope: Scope,
    pub goal: Literal,
}

impl Wait {
    // What the line waits for, if it is a sometime line.
    pub fn of(line: &Line) -> Option<Wait>
        ensures { result ≡ wait_of line.now }
    {
        match (line.kind, line.right.literals()) {
            (Kind::Sometime(scope), [goal, ..]) => Some(Wait { scope, goal: *goal }),
            _ => None,
        }
    }
}
