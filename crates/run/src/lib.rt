// The run of a book and a work, and its report.
#![tactic(auto)]

mod books;
pub mod faults;
pub mod outcomes;
mod parts;
mod plan_fields;
pub mod reports;
mod runs;
mod works;

pub use faults::{Fault, File, Layer, Refused};
pub use outcomes::Outcome;
pub use reports::report;
