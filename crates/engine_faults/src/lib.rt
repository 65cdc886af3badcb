//! Why an engine stopped, how the program tells it, and what is told of each refusal: why it is, and what to
//! do.
#![tactic(auto)]

mod endings;
mod entries;
mod fault_lines;
mod faults;
mod lookups;

pub use endings::{Ending, end_of};
pub use entries::ENTRIES;
pub use faults::Fault;
pub use lookups::{Entry, entry_named, explain, list};
