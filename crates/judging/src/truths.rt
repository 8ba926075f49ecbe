// Truth at a state of a plan.
ghost use Rattle.std.specs.Prelude.{◌≡◌, ◌<◌};
ghost use Rattle.truth.specs.Truth.{left_at, literal_at, right_at};

use clauses::Literal;
use plans::Plan;

// A plan and one of its states.
#[derive(Drop)]
pub(crate) struct At<'p, P: Plan> {
    pub(crate) plan: &'p P,
    pub(crate) state: u16,
    ghost there: { state < (P.Plan.system plan.now).states },
}

impl<'p, P: Plan> At<'p, P> {
    fn holds(&self, literal: Literal) -> bool
        ensures { result ≡ literal_at (P.Plan.system self.now.plan.now) self.now.state literal }
    {
        self.plan.holds(self.state, literal.atom()) == literal.asserts()
    }

    // Whether every literal of a left holds there.
    pub(crate) fn all_hold(&self, left: &[Literal]) -> bool
        ensures { result ≡ left_at (P.Plan.system self.now.plan.now) left.now self.now.state }
    {
        left.iter().all(|literal| self.holds(*literal))
    }

    // Whether one literal of a right holds there.
    pub(crate) fn any_holds(&self, right: &[Literal]) -> bool
        ensures { result ≡ right_at (P.Plan.system self.now.plan.now) right.now self.now.state }
    {
        right.iter().any(|literal| self.holds(*literal))
    }
}
