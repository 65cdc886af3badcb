//! Orders of a recorded history in which a push waits until its value is taken, and what it says that none is left to try.
#![tactic(auto)]

mod alone;
mod boards;
mod ending;
pub mod laws;
mod lines;
mod nodes;
mod operations;
mod orders;
mod pending;
mod searching;
mod staying;
mod steps;
mod taking;
mod unchanging;
mod walks;

pub use searching::{Found, searched};
