// The record of an inspection, and its table of lines, which is lent.
ghost use Rattle.std.specs.Prelude.{◌≡◌, ◌≤◌, true, length, take};
ghost use Rattle.calls.specs.Lawful.{indexed, lawful};
ghost use Rattle.inspection.specs.Waits.{given_out};

use crate::waits::Waits;
use clauses::Line;

// The first `made` lines of the table are made; those beyond are the caller's.
// `room` too: the table may be longer than was checked, and it is kept whole, since every line of it is promised.
// A count beside the table, since the table is the caller's memory, and no byte beyond the count may change.
// No `Model`, since its value would be these fields again: callers match the lines made with the front of the table.
#[derive(Drop)]
pub struct Inspection<'a> {
    pub(crate) indices: u8,
    pub(crate) room: usize,
    pub(crate) made: usize,
    pub(crate) waits: Waits,
    pub(crate) lines: &'a mut [Line],
    ghost within: { made ≤ room },
    ghost fits: { room ≤ length lines.now },
    ghost lawful: { lawful (given_out waits) (take made lines.now) ≡ true },
    ghost indexed: { indexed indices (take made lines.now) ≡ true },
}
