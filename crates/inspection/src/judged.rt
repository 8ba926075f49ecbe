// The call that judges a plan.
ghost use Rattle.std.specs.Prelude.{◌≡◌, ◌++◌, length, drop, replicate, IfOk, MatchResult};
ghost use Rattle.judging.specs.Judging.{Exactly};
ghost use Rattle.calls.specs.Calls.{Call, answer};
ghost use Rattle.inspection.specs.Told.{told_judgement};
ghost use Rattle.inspection.specs.Held.{model_of};

use crate::state::Inspection;
use judging::{Judgement, judge_rules};
use plans::{Plan, PlanRefusal};

impl<'a> Inspection<'a> {
    // Judges a plan against the rules accepted so far: the lowest that is broken, and for it the lowest state. Of the marks it uses
    // one for each state, which is 0 afterwards.
    pub fn judge<P: Plan>(&self, plan: &P, marks: &mut [u8]) -> Result<Judgement, PlanRefusal>
        ensures answer { told_judgement result ≡ answer (model_of self.now) (Call.judge (P.Plan.system plan.now) (length marks.old)) }
        ensures exactly { IfOk result (Exactly (P.Plan.system plan.now) (model_of self.now).lines) }
        ensures marks { MatchResult result (λ _. marks.new ≡ replicate (P.Plan.system plan.now).states 0 ++ drop (P.Plan.system plan.now).states marks.old) (λ _. marks.new ≡ marks.old) }
    {
        judge_rules(plan, self.indices, &self.lines[..self.made], marks)
    }
}
