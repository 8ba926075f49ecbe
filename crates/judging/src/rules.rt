// The rules judged one after another.
ghost use Rattle.std.specs.Prelude.{◌≡◌, ◌<◌, ◌≤◌, ◌++◌, length, drop, replicate, IfOk, MatchResult};
ghost use Rattle.clauses.specs.Lines.{literals};
ghost use Rattle.clauses.specs.Refusals.{FirstOr};
ghost use Rattle.truth.specs.Decided.{Fits};
ghost use Rattle.truth.specs.Deciding.{breaks};
ghost use Rattle.truth.specs.Systems.{WellFormed};
ghost use Rattle.plans.specs.Refusals.{plan_number};
ghost use Rattle.judging.specs.Judging.{AllFit, Exactly, judge_causes, judgement};
ghost use Rattle.judging.specs.Marks.{Shows, asked};

use crate::judgements::Judgement;
use crate::marks::Marked;
use crate::truths::At;
use clauses::{Kind, Line};
use plans::{Plan, PlanRefusal};

// The most states of a plan that is judged.
const MOST_STATES: usize = 256;

impl<'p, 'm, P: Plan> Marked<'p, 'm, P> {
    ghost use Rattle.judging.specs.OnlyMarks.{OnlyMarks};

    // Whether the rule is broken at a state, with what it asks for marked.
    fn broken_at(&self, rule: &Line, state: u16) -> bool
        requires { state < length self.now.marks.now }
        ensures { let sys = P.Plan.system self.now.plan.now in Fits sys rule.now.kind → Shows self.now.marks.now (asked sys rule.now.kind (literals rule.now.right)) → result ≡ breaks sys rule.now state }
    {
        let at = At {
            plan: self.plan,
            state,
        };
        match rule.kind {
            Kind::Start => state == 0 && !self.shows(state),
            Kind::Global => !self.shows(state),
            Kind::Step(scope) => at.all_hold(rule.left.literals())
                && !self.next_marked(scope, state),
            Kind::Sometime(_) => at.all_hold(rule.left.literals()) && !self.shows(state),
        }
    }

    // The lowest rule that is broken and the lowest state at which it is; the marks are left as they come.
    fn judged(&mut self, rules: &[Line]) -> Judgement
        ensures only { OnlyMarks self.old self.new }
        ensures told { let sys = P.Plan.system self.old.plan.now in AllFit sys rules.now → result ≡ judgement sys rules.now }
    {
        // Two labelled loops, left at the first break: a required form.
        let mut judgement = Judgement::Kept;
        'rules: for (number, rule) in rules.iter().enumerate() {
            if !rule.mark {
                continue;
            }
            self.mark_asked(rule);
            for state in 0..self.plan.states() {
                if self.broken_at(rule, state) {
                    judgement = Judgement::Broken {
                        rule: number,
                        state: usize::from(state),
                    };
                    break 'rules;
                }
            }
        }
        judgement
    }
}

// Judges a plan with a mark for each of its states; the marks are 0 afterwards.
fn judge_marked<P: Plan>(plan: &P, rules: &[Line], marks: &mut [u8]) -> Judgement
    requires formed { WellFormed (P.Plan.system plan.now) }
    requires states { length marks.old ≡ (P.Plan.system plan.now).states }
    requires few { length marks.old ≤ 256 }
    ensures told { AllFit (P.Plan.system plan.now) rules.now → result ≡ judgement (P.Plan.system plan.now) rules.now }
    ensures cleared { marks.new ≡ replicate (length marks.old) 0 }
{
    // By itself, since a proof follows a whole slice into a struct and out again, and not a part of one.
    let mut marked = Marked { plan, marks };
    let judgement = marked.judged(rules);
    marked.clear();
    judgement
}

// Judges a plan against the rules among these lines, for so many indices; the marks that it uses are 0 afterwards.
pub fn judge_rules<P: Plan>(
    plan: &P,
    indices: u8,
    rules: &[Line],
    marks: &mut [u8],
) -> Result<Judgement, PlanRefusal>
    ensures answer { FirstOr plan_number (judge_causes indices (length marks.old) (P.Plan.system plan.now)) (λ j. AllFit (P.Plan.system plan.now) rules.now → j ≡ judgement (P.Plan.system plan.now) rules.now) result }
    ensures exactly { IfOk result (λ j. AllFit (P.Plan.system plan.now) rules.now → Exactly (P.Plan.system plan.now) rules.now j) }
    ensures marks { MatchResult result (λ _. marks.new ≡ replicate (P.Plan.system plan.now).states 0 ++ drop (P.Plan.system plan.now).states marks.old) (λ _. marks.new ≡ marks.old) }
{
    let states = usize::from(plan.states());
    if marks.len() < states {
        return Err(PlanRefusal::TableTooShort);
    }
    if states > MOST_STATES || plan.indices() != indices {
        return Err(PlanRefusal::OutOfRange);
    }
    Ok(judge_marked(plan, rules, &mut marks[0..states]))
}
