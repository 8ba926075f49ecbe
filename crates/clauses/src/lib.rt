// What a line is: literals, kinds, sides and lines, and the line that a rule makes.
#![tactic(auto)]

pub mod kinds;
pub mod lines;
pub mod literals;
pub mod refusals;
pub mod rules;
mod sides;
pub mod steps;

pub use kinds::{Kind, Scope};
pub use lines::{Line, Side};
pub use literals::Literal;
pub use refusals::Refusal;
