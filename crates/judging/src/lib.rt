// Judging a plan: the lowest rule that it breaks, and the lowest state at which it does.
#![tactic(auto)]

pub mod judgements;
mod marks;
pub mod rules;
mod truths;

pub use judgements::Judgement;
pub use rules::judge_rules;
