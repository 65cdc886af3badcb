//! Jobs, their values, the results of a list of jobs, and texts of jobs.
#![tactic(auto)]

mod gathers;
mod jobs;
mod lines;
mod readers;
mod results;
pub mod text_laws;

pub use gathers::Gather;
pub use jobs::{Job, JobKind, Value, value_of};
pub use readers::parse_jobs;
pub use results::JobResult;
