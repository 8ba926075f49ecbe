// Sides and lines.
ghost use Rattle.std.specs.Prelude.{◌≡◌, ◌≤◌, length};
ghost use Rattle.clauses.specs.Lines.{literals, refutes, side_for};

use crate::kinds::Kind;
use crate::literals::Literal;

// The most literals that a side has.
pub const PLACES: usize = 16;

// A side: `count` literals at the front, and 0 in the places beyond.
// No `ArrayVec`, since every byte of a table that is lent is fixed, and so is each place of a side.
#[derive(Debug, Clone, Copy, PartialEq, Eq)]
pub struct Side {
    pub(crate) count: u8,
    pub(crate) places: [Literal; PLACES],
}

// A line of the table: a rule where it is marked, and of the loop that it belongs to, if any.
#[derive(Debug, Clone, Copy, PartialEq, Eq)]
pub struct Line {
    pub kind: Kind,
    pub left: Side,
    pub right: Side,
    pub mark: bool,
    pub belongs: Option<u8>,
}

impl Side {
    pub(crate) const EMPTY: Side = Side {
        count: 0,
        places: [Literal(0); PLACES],
    };

    // The side of these literals, where they fit.
    #[tactic(auto, using(crate::proofs::Joining::side_fits, crate::proofs::Joining::rest_zero))]
    pub fn of(items: &[Literal]) -> Option<Side>
        ensures { result ≡ side_for items.now }
    {
        if items.len() > PLACES {
            return None;
        }
        let mut places = [Literal(0); PLACES];
        places[..items.len()].copy_from_slice(items);
        Some(Side {
            // `as`, since the proof shows that nothing is lost: `try_from` would add a failure to unwrap.
            count: items.len() as u8,
            places,
        })
    }

    pub fn literals(&self) -> &[Literal]
        ensures value { result.now ≡ literals self.now }
        ensures short { length result.now ≤ 16 }
    {
        let n = usize::from(self.count).min(PLACES);
        &self.places[..n]
    }
}

impl Line {
    // A line to fill a new table with.
    pub const BLANK: Line = Line {
        kind: Kind::Start,
        left: Side::EMPTY,
        right: Side::EMPTY,
        mark: false,
        belongs: None,
    };

    // No system keeps a start or global line with an empty right.
    pub fn refutes(&self) -> bool
        ensures { result ≡ refutes self.now }
    {
        matches!(self.kind, Kind::Start | Kind::Global) && self.right.literals().is_empty()
    }
}
