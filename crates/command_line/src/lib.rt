//! The command line: what the words after the program's name ask for.
#![tactic(auto)]

mod commands;
mod helps;
mod messages;
mod options;
mod places;
mod queue_commands;
mod show_options;

pub use commands::{Colours, Command, Crew, ShowOptions, Task, read_words};
pub use options::Placing;
