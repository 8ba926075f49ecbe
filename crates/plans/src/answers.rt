// How the table plan and the ring answer.
ghost use Rattle.std.specs.Prelude.{◌≡◌, ◌≤◌, true, length};
ghost use Rattle.ordered.specs.Lists.{ascending, count_below, holds};
ghost use Rattle.ordered.specs.Pairs.{pair_rank};
ghost use Rattle.plans.specs.Held.{ring_of, table_of};
ghost use Rattle.plans.specs.Tables.{pair};

use crate::questions::Plan;
use crate::rings::Ring;
use crate::tables::TablePlan;
use ordered::{Pair, find, lower};

// Whether the truths list an atom at a state.
fn listed(truths: &[Pair], state: u16, atom: u16) -> bool
    ensures { ascending pair_rank truths.now ≡ true → result ≡ holds pair_rank truths.now (pair state atom) }
{
    let truth = Pair {
        first: state,
        second: atom,
    };
    find(truths, &truth).is_some()
}

impl<'a> TablePlan<'a> {
    // How many free moves come before the one from a state to another.
    fn moves_before(&self, from: u16, to: u16) -> usize
        ensures within { result ≤ length self.now.moves.now }
        ensures value { result ≡ count_below pair_rank self.now.moves.now (pair from to) }
    {
        let step = Pair {
            first: from,
            second: to,
        };
        lower(self.moves, &step)
    }
}

impl<'a> Plan for TablePlan<'a> {
    ghost system = { table_of };

    fn states(&self) -> u16 {
        self.states
    }

    fn indices(&self) -> u8 {
        self.indices
    }

    fn holds(&self, state: u16, atom: u16) -> bool {
        listed(self.truths, state, atom)
    }

    fn target(&self, state: u16, index: u8) -> u16 {
        if state >= self.states || index >= self.indices {
            return 0;
        }
        self.targets[usize::from(state) * usize::from(self.indices) + usize::from(index)]
    }

    #[tactic(auto, using(crate::proofs::Leading::leading_count))]
    fn free_count(&self, state: u16) -> u16 {
        if state >= self.states {
            return 0;
        }
        // `as`, since the proof shows that nothing is lost: `try_from` would add a failure to unwrap.
        (self.moves_before(state + 1, 0) - self.moves_before(state, 0)) as u16
    }

    fn free_target(&self, state: u16, number: u16) -> u16 {
        if state >= self.states {
            return 0;
        }
        let place = self.moves_before(state, 0) + usize::from(number);
        match self.moves.get(place) {
            Some(step) if step.first == state => step.second,
            _ => 0,
        }
    }
}

// The counts and truths are answered as the table plan's are: a part that both hold would be asked the same three questions.
impl<'a> Plan for Ring<'a> {
    ghost system = { ring_of };

    fn states(&self) -> u16 {
        self.states
    }

    fn indices(&self) -> u8 {
        self.indices
    }

    fn holds(&self, state: u16, atom: u16) -> bool {
        listed(self.truths, state, atom)
    }

    fn target(&self, state: u16, index: u8) -> u16 {
        if state >= self.states || index >= self.indices {
            return 0;
        }
        if state + 1 < self.states {
            state + 1
        } else {
            self.back
        }
    }

    fn free_count(&self, _state: u16) -> u16 {
        0
    }

    fn free_target(&self, _state: u16, _number: u16) -> u16 {
        0
    }
}
