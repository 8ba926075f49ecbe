// Plans: the six questions that any plan answers, the table plan and the ring.
#![tactic(auto)]

pub mod answers;
pub mod filling;
pub mod questions;
pub mod refusals;
pub mod rings;
pub mod tables;

pub use questions::Plan;
pub use refusals::PlanRefusal;
pub use rings::Ring;
pub use tables::TablePlan;
