// Marks: a byte for each state of a plan, not 0 where the state is marked.
ghost use Rattle.std.specs.Prelude.{◌≡◌, ℕ, ◌<◌, ◌≤◌, Bool, true, false, length, replicate};
ghost use Rattle.clauses.specs.Lines.{literals};
ghost use Rattle.truth.specs.Decided.{Fits};
ghost use Rattle.truth.specs.Systems.{WellFormed};
ghost use Rattle.truth.specs.Truth.{right_at};
ghost use Rattle.truth.specs.Deciding.{every_next, sooner};
ghost use Rattle.judging.specs.Marks.{Closed, Grows, IfSpeaks, Shows, Within, asked, marked, state_at, unmarked};

use crate::truths::At;
use clauses::{Kind, Line, Literal, Scope};
use plans::Plan;

// A plan of at most 256 states, and a mark for each of them.
#[derive(Drop)]
pub(crate) struct Marked<'p, 'm, P: Plan> {
    pub(crate) plan: &'p P,
    pub(crate) marks: &'m mut [u8],
    ghost formed: { WellFormed (P.Plan.system plan.now) },
    ghost states: { length marks.now ≡ (P.Plan.system plan.now).states },
    ghost few: { length marks.now ≤ 256 },
}

impl<'p, 'm, P: Plan> Marked<'p, 'm, P> {
    ghost use Rattle.judging.specs.OnlyMarks.{OnlyMarks};

    // Marks the states at which the right holds, and no other.
    fn mark_right(&mut self, right: &[Literal])
        ensures only { OnlyMarks self.old self.new }
        ensures shown { Shows self.new.marks.now (right_at (P.Plan.system self.old.plan.now) right.now) }
    {
        let plan = self.plan;
        for (state, mark) in self.marks.iter_mut().enumerate() {
            // Tried: a zip with the numbers of the states, after which nothing is known of the marks; the proof did not close.
            let at = At {
                plan,
                state: state as u16,
            };
            *mark = u8::from(at.any_holds(right));
        }
    }

    // Takes every mark away.
    pub(crate) fn clear(&mut self)
        ensures only { OnlyMarks self.old self.new }
        ensures cleared { self.new.marks.now ≡ replicate (length self.old.marks.now) 0 }
    {
        let marks = &mut *self.marks;
        marks.fill(0);
    }

    // Whether a state is marked.
    pub(crate) fn shows(&self, state: u16) -> bool
        ensures { result ≡ marked self.now.marks.now state }
    {
        self.marks
            .get(usize::from(state))
            .is_some_and(|mark| *mark != 0)
    }

    // Whether every move of the scope leads from a state to a marked one.
    #[tactic(auto, using(crate::proofs::Targets::target_stays, crate::proofs::Targets::free_target_stays))]
    pub(crate) fn next_marked(&self, scope: Scope, state: u16) -> bool
        requires { state < length self.now.marks.now }
        ensures { let sys = P.Plan.system self.now.plan.now in IfSpeaks sys scope (result ≡ every_next sys scope (marked self.now.marks.now) state) }
    {
        match scope {
            Scope::All => {
                (0..self.plan.indices()).all(|index| self.shows(self.plan.target(state, index)))
                    && (0..self.plan.free_count(state)).all(|number| self.shows(
                        self.plan.free_target(state, number),
                    ))
            }
            Scope::Index(index) => self.shows(self.plan.target(state, index)),
        }
    }

    // Marks, from the lowest state up or from the highest down, each from which every move of the scope leads to a marked one; says whether
    // there was one.
    fn grow_once(&mut self, scope: Scope, up: bool) -> bool
        ensures only { OnlyMarks self.old self.new }
        ensures grows { Grows self.old.marks.now self.new.marks.now }
        ensures within { let sys = P.Plan.system self.old.plan.now in IfSpeaks sys scope ((p : ℕ → Bool) → Within self.old.marks.now (sooner sys scope p) → Within self.new.marks.now (sooner sys scope p)) }
        ensures more { result ≡ true → unmarked self.new.marks.now < unmarked self.old.marks.now }
        ensures closed { let sys = P.Plan.system self.old.plan.now in IfSpeaks sys scope (result ≡ false → Closed sys scope self.new.marks.now) }
    {
        let states = self.plan.states();
        let mut grown = false;
        // The order is a flag, since an iterator or a closure would have to promise that it passes every state: no plainer.
        for step in 0..states {
            let state = state_at(states, up, step);
            if !self.shows(state) && self.next_marked(scope, state) {
                self.marks[usize::from(state)] = 1;
                grown = true;
            }
        }
        grown
    }

    // Marks each state from which one sooner or later comes to a marked one, by the moves of the scope. Every other round goes up, so that
    // moves in either direction are followed to their end in one.
    fn grow(&mut self, scope: Scope)
        ensures only { OnlyMarks self.old self.new }
        ensures shown { let sys = P.Plan.system self.old.plan.now in IfSpeaks sys scope ((p : ℕ → Bool) → Shows self.old.marks.now p → Shows self.new.marks.now (sooner sys scope p)) }
    {
        let mut up = false;
        while self.grow_once(scope, up) {
            up = !up;
        }
    }

    // Marks what a rule asks for.
    pub(crate) fn mark_asked(&mut self, rule: &Line)
        ensures only { OnlyMarks self.old self.new }
        ensures shown { let sys = P.Plan.system self.old.plan.now in Fits sys rule.now.kind → Shows self.new.marks.now (asked sys rule.now.kind (literals rule.now.right)) }
    {
        self.mark_right(rule.right.literals());
        if let Kind::Sometime(scope) = rule.kind {
            self.grow(scope);
        }
    }
}

// The state of a step through so many, from the lowest up or from the highest down.
fn state_at(states: u16, up: bool, step: u16) -> u16
    requires { step < states }
    ensures value { result ≡ state_at states up step }
    ensures there { result < states }
{
    if up { step } else { states - 1 - step }
}
