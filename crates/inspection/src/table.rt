// How a line is stored in the table.
ghost use Rattle.std.specs.Prelude.{◌≡◌, true, false, length, IfOk, Some, None, MatchResult};
ghost use Rattle.clauses.specs.declared.refusals.Refusal.TheVariants.{NotThere, NothingLeft};
ghost use Rattle.calls.specs.Calls.{Answer, full, line_at, with_made};
ghost use Rattle.inspection.specs.Told.{Leaves, Stores, told_line};
ghost use Rattle.inspection.specs.Held.{MayHave, model_of};

use crate::state::Inspection;
use clauses::{Line, Refusal};

impl<'a> Inspection<'a> {
    // Refused where the table has no place for another line.
    pub(crate) fn has_room(&self) -> Result<(), Refusal>
        ensures { MatchResult result (λ _. full (model_of self.now) ≡ false) (λ e. (e ≡ NothingLeft) × (full (model_of self.now) ≡ true)) }
    {
        if self.made >= self.room {
            return Err(Refusal::NothingLeft);
        }
        Ok(())
    }

    // Writes the line at the free place, and answers its number.
    pub(crate) fn put(&mut self, line: Line) -> usize
        requires room { full (model_of self.old) ≡ false }
        requires allowed { MayHave (model_of self.old) line }
        ensures { Leaves (Answer.line result) (Answer.line (length (model_of self.old).lines)) self.old self.new (with_made (model_of self.old) (Some line)) }
    {
        let number = self.made;
        self.lines[number] = line;
        self.made = number + 1;
        number
    }

    // Stores a line where there is room, and answers its number.
    pub(crate) fn store(&mut self, line: Line) -> Result<usize, Refusal>
        requires { MayHave (model_of self.old) line }
        ensures { Stores (told_line result) self.old self.new line }
    {
        self.has_room()?;
        Ok(self.put(line))
    }

    // The line of a number, if it has been made.
    pub(crate) fn line_at(&self, number: usize) -> Result<&Line, Refusal>
        ensures value { MatchResult result (λ line. line_at (model_of self.now).lines number ≡ Some line.now) (λ e. (e ≡ NotThere) × (line_at (model_of self.now).lines number ≡ None)) }
        ensures allowed { IfOk result (λ line. MayHave (model_of self.now) line.now) }
    {
        self.lines[..self.made].get(number).ok_or(Refusal::NotThere)
    }
}
