// The ring: through the states in order, and from the last to the return state.
ghost use Rattle.std.specs.Prelude.{◌≡◌, false, is_some};
ghost use Rattle.clauses.specs.Refusals.{first_of};
ghost use Rattle.plans.specs.Rings.{ring_causes};

use ordered::Pair;

// Nothing stands against what it holds.
#[derive(Clone, Copy)]
pub struct Ring<'a> {
    pub(crate) states: u16,
    pub(crate) indices: u8,
    pub(crate) back: u16,
    pub(crate) truths: &'a [Pair],
    ghost lawful: { is_some (first_of (ring_causes states indices back truths.now)) ≡ false },
}
