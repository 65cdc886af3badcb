//! One step of an actor at a line of the table, on the shared words of a queue in plain memory.
#![tactic(auto)]

mod actors;
mod calls;
mod memory;
mod outcomes;
mod rows;
mod steps;
mod words;

pub use actors::{ActorOf, Held, Setup, Told};
pub use calls::{begin, give_up};
pub use memory::{MemoryOf, nobody_value};
pub use outcomes::put_down;
pub use steps::stepped;
pub use words::value_of;
