//! The engine of `msq work`: from the text of jobs to the table of their results.
#![tactic(auto)]

mod crews;
mod engine;
mod texts;

pub use crews::{CrewSeats, JobQueue};
pub use engine::work_text;
