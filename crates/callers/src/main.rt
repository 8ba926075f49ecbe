// Plans filled and judged by a caller of its own.
#![tactic(auto)]

use clauses::{Line, Literal};
use inspection::{Inspection, Opening};
use ordered::Pair;
use plans::{Plan, PlanRefusal, Ring, TablePlan};

fn show_filled(
    rt: &HostRuntime,
    name: &str,
    filled: Result<(), PlanRefusal>,
) -> anyhow::Result<()> {
    match filled {
        Ok(()) => println!(rt; "{name}: filled")?,
        Err(refusal) => println!(rt; "{name}: no {}", refusal.number())?,
    }
    Ok(())
}

// States and indices at their limits and one past them.
fn show_sizes(rt: &HostRuntime) -> anyhow::Result<()> {
    for (states, indices) in [(1, 1), (256, 16), (0, 1), (257, 1), (1, 0), (1, 17)] {
        let mut ring = Ring::new();
        let filled = ring.fill(states, indices, 0, &[]);
        print!(rt; "{states} states, {indices} indices, ")?;
        show_filled(rt, "a ring", filled)?;
    }
    Ok(())
}

// Tables that are too short, in disorder or out of range, and that 6 comes before 9, and 9 before 19.
fn show_tables(rt: &HostRuntime) -> anyhow::Result<()> {
    let twice = [Pair::default(); 2];
    let mut plan = TablePlan::new();
    show_filled(
        rt,
        "three targets of four, pairs in disorder",
        plan.fill(2, 2, &[0, 0, 0], &twice, &[]),
    )?;
    show_filled(
        rt,
        "pairs in disorder, a target out of range",
        plan.fill(1, 1, &[7], &[], &twice),
    )?;
    show_filled(rt, "a target out of range", plan.fill(1, 1, &[7], &[], &[]))?;
    show_filled(
        rt,
        "a target more than there is use for",
        plan.fill(1, 1, &[0, 7], &[], &[]),
    )?;
    Ok(())
}

fn show_judged<P: Plan>(
    rt: &HostRuntime,
    name: &str,
    inspection: &Inspection,
    plan: &P,
    marks: &mut [u8],
) -> anyhow::Result<()> {
    match inspection.judge(plan, marks) {
        Ok(judgement) => print!(rt; "{name}: {judgement}")?,
        Err(refusal) => print!(rt; "{name}: no {}", refusal.number())?,
    }
    for mark in marks.iter() {
        print!(rt; " {mark}")?;
    }
    println!(rt; "")?;
    Ok(())
}

// The rule "sometime 0" for one index, judged with marks of 9: what is used is 0 afterwards.
fn show_marks(rt: &HostRuntime) -> anyhow::Result<()> {
    let mut lines = [Line::BLANK; 4];
    // The one opening here is lawful, so nothing is shown for another.
    let Ok(opening) = Opening::check(1, &lines) else {
        return Ok(());
    };
    let mut inspection = opening.open(&mut lines);
    let _ = inspection.rule(5, 0, &[], &[Literal(0)]);
    let last = [Pair {
        first: 1,
        second: 0,
    }];
    let mut ring = Ring::new();
    let _ = ring.fill(2, 1, 0, &last);
    show_judged(
        rt,
        "three marks for two states",
        &inspection,
        &ring,
        &mut [9, 9, 9],
    )?;
    show_judged(rt, "one mark for two states", &inspection, &ring, &mut [9])?;
    let _ = ring.fill(2, 1, 0, &[]);
    show_judged(rt, "no truths", &inspection, &ring, &mut [9, 9, 9])?;
    let _ = ring.fill(2, 2, 0, &last);
    show_judged(
        rt,
        "another count of indices",
        &inspection,
        &ring,
        &mut [9, 9, 9],
    )?;
    show_judged(
        rt,
        "a new table plan",
        &inspection,
        &TablePlan::new(),
        &mut [9, 9],
    )
}

fn main(rt: HostRuntime) -> anyhow::Result<()> {
    show_sizes(&rt)?;
    show_tables(&rt)?;
    show_marks(&rt)
}
