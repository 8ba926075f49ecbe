// How plans are made and filled.
ghost use Rattle.std.specs.Prelude.{◌≡◌, [], ◌∷◌, MatchResult, ⊤};
ghost use Rattle.clauses.specs.Refusals.{FirstOr};
ghost use Rattle.plans.specs.Held.{ring_of, table_of};
ghost use Rattle.plans.specs.Refusals.{plan_number};
ghost use Rattle.plans.specs.Rings.{ring_causes, ring_system};
ghost use Rattle.plans.specs.Tables.{all_under, moves_fit, pairs_below, sized, table_causes, table_system, truths_fit};

use crate::refusals::PlanRefusal;
use crate::rings::Ring;
use crate::tables::TablePlan;
use ordered::{Pair, pairs_ascend};

// 1 to 256 states and 1 to 16 indices.
fn sized(states: u16, indices: u8) -> bool
    ensures { result ≡ sized states indices }
{
    (1..=256).contains(&states) && (1..=16).contains(&indices)
}

// Whether every number is below the bound.
fn all_under(bound: u16, numbers: &[u16]) -> bool
    ensures { result ≡ all_under bound numbers.now }
{
    numbers.iter().all(|number| *number < bound)
}

// Whether the numbers of every pair are below their bounds.
fn pairs_below(one: u16, two: u16, pairs: &[Pair]) -> bool
    ensures { result ≡ pairs_below one two pairs.now }
{
    pairs
        .iter()
        .all(|pair| pair.first < one && pair.second < two)
}

fn truths_fit(states: u16, truths: &[Pair]) -> bool
    ensures { result ≡ truths_fit states truths.now }
{
    truths.len() <= 8192 && pairs_below(states, 1024, truths)
}

fn moves_fit(states: u16, moves: &[Pair]) -> bool
    ensures { result ≡ moves_fit states moves.now }
{
    moves.len() <= 4096 && pairs_below(states, states, moves)
}

// The first cause against tables of so many states and indices. They are given one by one, as the call that fills takes them.
fn check_tables(
    states: u16,
    indices: u8,
    targets: &[u16],
    truths: &[Pair],
    moves: &[Pair],
) -> Result<(), PlanRefusal>
    ensures { FirstOr plan_number (table_causes states indices targets.now truths.now moves.now) (λ _. ⊤) result }
{
    let used = targets
        .get(..usize::from(states) * usize::from(indices))
        .ok_or(PlanRefusal::TableTooShort)?;
    if !pairs_ascend(truths) || !pairs_ascend(moves) {
        return Err(PlanRefusal::NotAscending);
    }
    if !sized(states, indices)
        || !all_under(states, used)
        || !truths_fit(states, truths)
        || !moves_fit(states, moves)
    {
        return Err(PlanRefusal::OutOfRange);
    }
    Ok(())
}

impl<'a> TablePlan<'a> {
    // A lone state of one index, without truths or free moves.
    pub fn new() -> TablePlan<'a>
        ensures { table_of result ≡ table_system 1 1 (0 ∷ []) [] [] }
    {
        TablePlan {
            states: 1,
            indices: 1,
            targets: &[0],
            truths: &[],
            moves: &[],
        }
    }

    // Takes these tables in the place of all that it had; refused, it stays as it was.
    pub fn fill(
        &mut self,
        states: u16,
        indices: u8,
        targets: &'a [u16],
        truths: &'a [Pair],
        moves: &'a [Pair],
    ) -> Result<(), PlanRefusal>
        ensures answer { FirstOr plan_number (table_causes states indices targets.now truths.now moves.now) (λ _. ⊤) result }
        ensures after { MatchResult result (λ _. table_of self.new ≡ table_system states indices targets.now truths.now moves.now) (λ _. table_of self.new ≡ table_of self.old) }
    {
        check_tables(states, indices, targets, truths, moves)?;
        *self = TablePlan {
            states,
            indices,
            targets,
            truths,
            moves,
        };
        Ok(())
    }
}

// The first cause against a ring, given one by one as the call that fills takes it. No part is shared with the tables: a cause of the
// order goes before every cause of the range.
fn check_ring(states: u16, indices: u8, back: u16, truths: &[Pair]) -> Result<(), PlanRefusal>
    ensures { FirstOr plan_number (ring_causes states indices back truths.now) (λ _. ⊤) result }
{
    if !pairs_ascend(truths) {
        return Err(PlanRefusal::NotAscending);
    }
    if !sized(states, indices) || back >= states || !truths_fit(states, truths) {
        return Err(PlanRefusal::OutOfRange);
    }
    Ok(())
}

impl<'a> Ring<'a> {
    // A lone state of one index, without truths.
    pub fn new() -> Ring<'a>
        ensures { ring_of result ≡ ring_system 1 1 0 [] }
    {
        Ring {
            states: 1,
            indices: 1,
            back: 0,
            truths: &[],
        }
    }

    // Takes these numbers and truths in the place of all that it had; refused, it stays as it was.
    pub fn fill(
        &mut self,
        states: u16,
        indices: u8,
        back: u16,
        truths: &'a [Pair],
    ) -> Result<(), PlanRefusal>
        ensures answer { FirstOr plan_number (ring_causes states indices back truths.now) (λ _. ⊤) result }
        ensures after { MatchResult result (λ _. ring_of self.new ≡ ring_system states indices back truths.now) (λ _. ring_of self.new ≡ ring_of self.old) }
    {
        check_ring(states, indices, back, truths)?;
        *self = Ring {
            states,
            indices,
            back,
            truths,
        };
        Ok(())
    }
}
