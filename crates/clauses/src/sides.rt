// New sides from sides.
ghost use Rattle.std.specs.Prelude.{◌≡◌, ◌<◌, ◌≤◌, true, List, [], ◌∷◌, ◌++◌, length};
ghost use Rattle.clauses.specs.Lines.{literals, side_for, side_of};
ghost use Rattle.clauses.specs.Sides.{ascends, has, join, opposites, without};

use crate::lines::{PLACES, Side};
use crate::literals::Literal;

impl Side {
    // Lays one more literal behind the others.
    fn push(&mut self, literal: Literal)
        requires { self.old.count < 16 }
        ensures { (xs : List Literal) → self.old ≡ side_of xs → self.new ≡ side_of (xs ++ literal ∷ []) }
    {
        self.places[usize::from(self.count)] = literal;
        self.count += 1;
    }
}

// Whether the literal is in the side.
#[tactic(auto, using(crate::specs::Literals::literal_order, ordered::proofs::Holding::found_holds))]
pub(crate) fn contains(side: &[Literal], literal: Literal) -> bool
    ensures { ascends side.now ≡ true → result ≡ has side.now literal }
{
    ordered::find(side, &literal).is_some()
}

// The side of the literals of both, where it has place.
#[tactic(auto, using(crate::proofs::Joining::joins))]
pub(crate) fn joined(a: &[Literal], b: &[Literal]) -> Option<Side>
    ensures { ascends a.now ≡ true → ascends b.now ≡ true → result ≡ side_for (join a.now b.now) }
{
    let mut places = [Literal(0); PLACES];
    let count = ordered::join(a, b, &mut places)?;
    Some(Side {
        // `as`, since the proof shows that nothing is lost: `try_from` would add a failure to unwrap.
        count: count as u8,
        places,
    })
}

// The side of these literals but one.
pub(crate) fn without(items: &[Literal], gone: Literal) -> Side
    requires { length items.now ≤ 16 }
    ensures { result ≡ side_of (without gone items.now) }
{
    let mut kept = Side::EMPTY;
    for x in items {
        if *x != gone {
            kept.push(*x);
        }
    }
    kept
}

// The side of the opposites of these literals.
#[tactic(auto, using(crate::proofs::Joining::made_sides))]
pub(crate) fn opposites(items: &[Literal]) -> Side
    requires { length items.now ≤ 16 }
    ensures { result ≡ side_of (opposites items.now) }
{
    let [first, rest @ ..] = items else {
        return Side::EMPTY;
    };
    let others = opposites(rest);
    joined(&[first.opposite()], others.literals()).unwrap()
}
