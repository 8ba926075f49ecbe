// From the parts of the input that a field shows to what a call takes.
ghost use Rattle.std.specs.Prelude.{◌≡◌, ℕ, ◌/◌, ◌≤◌, List, [], length};
ghost use Rattle.run.specs.Elements.{HeldInTurn, literal_of, literals_in_turn, number_of, numbers_in_turn, pair_of, pairs_in_turn};
ghost use Rattle.run.specs.Parts.{literals_of, numbers_of, pairs_of};

use arrayvec::ArrayVec;
use clauses::Literal;
use ordered::Pair;

// What a part of the input holds one after the other, in so many bytes each.
pub(crate) trait Element<const SIZE: usize>: Default + Drop {
    ghost of: { List ℕ → Self };

    ghost all_of: { List ℕ → List Self };

    fn of_bytes(bytes: &[u8; SIZE]) -> Self
        ensures { result ≡ of bytes.now };

    ghost in_turn: { HeldInTurn SIZE of all_of };
}

impl Element<2> for Literal {
    ghost of = { literal_of };

    ghost all_of = { literals_of };

    ghost in_turn = { literals_in_turn };

    fn of_bytes(bytes: &[u8; 2]) -> Literal
        ensures { result ≡ literal_of bytes.now }
    {
        Literal(u16::from_be_bytes(*bytes))
    }
}

impl Element<2> for u16 {
    ghost of = { number_of };

    ghost all_of = { numbers_of };

    ghost in_turn = { numbers_in_turn };

    fn of_bytes(bytes: &[u8; 2]) -> u16
        ensures { result ≡ number_of bytes.now }
    {
        u16::from_be_bytes(*bytes)
    }
}

impl Element<4> for Pair {
    ghost of = { pair_of };

    ghost all_of = { pairs_of };

    ghost in_turn = { pairs_in_turn };

    fn of_bytes(bytes: &[u8; 4]) -> Pair
        ensures { result ≡ pair_of bytes.now }
    {
        let [a, b, c, d] = *bytes;
        Pair {
            first: u16::from_be_bytes([a, b]),
            second: u16::from_be_bytes([c, d]),
        }
    }
}

// Reads the elements that a part holds into a vector that has none; bytes too few for another are left over.
// The vector is lent: one that is answered is copied twice, for each side of a rule.
pub(crate) fn read_elements<T: Element<SIZE>, const SIZE: usize, const ROOM: usize>(
    part: &[u8],
    elements: &mut ArrayVec<T, ROOM>,
)
    requires none { elements.old.items ≡ [] }
    requires room { length part.now / SIZE ≤ ROOM }
    ensures { elements.new.items ≡ T.all_of part.now }
{
    let (chunks, _) = part.as_chunks::<SIZE>();
    for bytes in chunks {
        elements.push(T::of_bytes(bytes));
    }
}
