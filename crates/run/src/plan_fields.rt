// The plans that fields hold: filled, and judged.
ghost use Rattle.std.specs.Prelude.{◌≡◌, ◌≤◌, length};
ghost use Rattle.calls.specs.Calls.{Call, answer};
ghost use Rattle.inspection.specs.Told.{told_judgement};
ghost use Rattle.inspection.specs.Held.{model_of};
ghost use Rattle.run.specs.Runs.{reply, ring_request, table_request};

use crate::parts::read_elements;
use arrayvec::ArrayVec;
use inspection::Inspection;
use judging::Judgement;
use ordered::Pair;
use plans::{Plan, PlanRefusal, Ring, TablePlan};

// Judges a plan with a mark for each state that a plan may have.
fn judge<P: Plan>(inspection: &Inspection, plan: &P) -> Result<Judgement, PlanRefusal>
    ensures { told_judgement result ≡ answer (model_of inspection.now) (Call.judge (P.Plan.system plan.now) 256) }
{
    let mut marks = [0; 256];
    inspection.judge(plan, &mut marks)
}

// Judges the table plan of a field; its parts come one by one, as the field shows them and the call takes them.
pub(crate) fn judge_table(
    inspection: &Inspection,
    states: u16,
    targets: &[u8],
    truths: &[u8],
    moves: &[u8],
) -> Result<Judgement, PlanRefusal>
    requires short { (length targets.now ≤ 65535) × (length truths.now ≤ 65535) × (length moves.now ≤ 65535) }
    ensures { told_judgement result ≡ reply (model_of inspection.now) (table_request (model_of inspection.now).indices states targets.now truths.now moves.now) }
{
    let mut led: ArrayVec<u16, 32767> = ArrayVec::new();
    let mut held: ArrayVec<Pair, 16383> = ArrayVec::new();
    let mut free: ArrayVec<Pair, 16383> = ArrayVec::new();
    read_elements(targets, &mut led);
    read_elements(truths, &mut held);
    read_elements(moves, &mut free);
    let mut plan = TablePlan::new();
    plan.fill(states, inspection.indices(), &led, &held, &free)?;
    judge(inspection, &plan)
}

// Judges the ring of a field, whose parts come one by one too.
pub(crate) fn judge_ring(
    inspection: &Inspection,
    states: u16,
    back: u16,
    truths: &[u8],
) -> Result<Judgement, PlanRefusal>
    requires short { length truths.now ≤ 65535 }
    ensures { told_judgement result ≡ reply (model_of inspection.now) (ring_request (model_of inspection.now).indices states back truths.now) }
{
    let mut held: ArrayVec<Pair, 16383> = ArrayVec::new();
    read_elements(truths, &mut held);
    let mut plan = Ring::new();
    plan.fill(states, inspection.indices(), back, &held)?;
    judge(inspection, &plan)
}
