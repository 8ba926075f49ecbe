// An inspection: the rules of a book taken in, and what follows from them.
#![tactic(auto)]

pub mod examples;
pub mod judged;
pub mod opening;
pub mod rules;
pub mod state;
pub mod steps;
mod table;
pub mod verdicts;
mod waits;

pub use opening::Opening;
pub use state::Inspection;
pub use verdicts::Verdict;
