// The call that adds a rule.
ghost use Rattle.calls.specs.Calls.{Call};
ghost use Rattle.inspection.specs.Told.{Does, told_line};

use crate::state::Inspection;
use calls::Wait;
use clauses::rules::rule_line;
use clauses::{Literal, Refusal};

impl<'a> Inspection<'a> {
    // Adds the rule of a kind's number, an index and two sides, and answers its line.
    // The kind is a number, since this call itself refuses one that names no kind.
    pub fn rule(
        &mut self,
        kind: u8,
        index: u8,
        left: &[Literal],
        right: &[Literal],
    ) -> Result<usize, Refusal>
        ensures { Does (told_line result) (Call.rule kind index left.now right.now) self.old self.new }
    {
        let line = rule_line(self.indices, kind, index, left, right)?;
        self.has_room()?;
        self.waits.admit(Wait::of(&line))?;
        Ok(self.put(line))
    }
}
