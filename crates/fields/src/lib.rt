// The reader: the fields of a file, shown over the bytes it was lent, and why one is refused.
#![tactic(auto)]

pub mod flaws;
mod layouts;
pub mod shapes;
pub mod walk;

pub use flaws::{Flaw, ReaderFault};
pub use shapes::{Field, Source};
pub use walk::Reader;
