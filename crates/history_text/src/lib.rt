//! The text of a history: written to a sink, and parsed back.
#![tactic(auto)]

pub mod laws;
mod lines;
mod printers;
mod readers;
mod replies;

pub use lines::step_of;
pub use printers::{print_history, push_call, push_reply};
pub use readers::parse_history;
