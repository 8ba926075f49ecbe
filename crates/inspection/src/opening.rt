// How an inspection is opened: first the index count and the table are checked, then the table is lent.
ghost use Rattle.std.specs.Prelude.{◌≡◌, min, length};
ghost use Rattle.clauses.specs.Refusals.{number_of, FirstOr};
ghost use Rattle.calls.specs.Calls.{open_causes};
ghost use Rattle.calls.specs.Models.{fresh};
ghost use Rattle.inspection.specs.Held.{model_of};

use crate::state::Inspection;
use crate::waits::Waits;
use clauses::{Line, Refusal};

// An index count and a table's length that an inspection may have.
// Checked apart from `Inspection`, since a function cannot answer a Result of a struct that holds a lent table.
#[derive(Clone, Copy)]
pub struct Opening {
    indices: u8,
    room: usize,
}

impl Opening {
    // Refuses a count or a table that no inspection may have.
    pub fn check(indices: u8, lines: &[Line]) -> Result<Opening, Refusal>
        ensures { FirstOr number_of (open_causes indices (length lines.now)) (λ o. (o.indices ≡ indices) × (o.room ≡ length lines.now)) result }
    {
        if !(1..=16).contains(&indices) {
            return Err(Refusal::IndexCount);
        }
        let room = lines.len();
        if !(1..=4096).contains(&room) {
            return Err(Refusal::TableSize);
        }
        Ok(Opening { indices, room })
    }

    // An inspection with no lines. It uses no more of the table than was checked.
    pub fn open<'a>(self, lines: &'a mut [Line]) -> Inspection<'a>
        ensures model { model_of result ≡ fresh self.indices (min self.room (length lines.old)) }
        ensures table { result.lines.now ≡ lines.old }
        ensures lent { result.lines.ghost_name ≡ lines.entry.ghost_name }
    {
        let room = self.room.min(lines.len());
        Inspection {
            indices: self.indices,
            room,
            made: 0,
            waits: Waits::new(),
            lines,
        }
    }
}

impl<'a> Inspection<'a> {
    // The count of indices that it was opened with.
    pub fn indices(&self) -> u8
        ensures { result ≡ (model_of self.now).indices }
    {
        self.indices
    }
}
