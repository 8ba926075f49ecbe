// The table plan: targets by state and then by index, truths and free moves as ascending pairs, all lent.
ghost use Rattle.std.specs.Prelude.{◌≡◌, false, is_some};
ghost use Rattle.clauses.specs.Refusals.{first_of};
ghost use Rattle.plans.specs.Tables.{table_causes};

use ordered::Pair;

// Nothing stands against the tables that it holds.
#[derive(Clone, Copy)]
pub struct TablePlan<'a> {
    pub(crate) states: u16,
    pub(crate) indices: u8,
    pub(crate) targets: &'a [u16],
    pub(crate) truths: &'a [Pair],
    pub(crate) moves: &'a [Pair],
    ghost lawful: { is_some (first_of (table_causes states indices targets.now truths.now moves.now)) ≡ false },
}
