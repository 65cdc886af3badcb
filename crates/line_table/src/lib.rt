//! The kinds of queue, the lines of their table with the lines' names, and the table itself; and the queues
//! that a program chooses from.
#![tactic(auto)]

mod kinds;
pub mod laws;
mod lines;
mod shuts;
mod table;

pub use kinds::QueueKind;
pub use lines::{Kind, Line, Section};
