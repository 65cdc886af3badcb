//! Workers that take jobs from any queue, each in a thread of its own.
#![tactic(auto)]

mod crews;
mod dispatches;
mod gate;
pub mod laws;
mod results;
mod signals;
mod submitter;
mod worker_turns;
mod workers;

pub use crews::{JobsRun, Unrun};
pub use dispatches::{MOST_JOBS, dispatch, dispatch_keeping_seats, run_jobs};
pub use gate::Gate;
pub use results::Dispatched;
pub use signals::{NoMemory, NoneLeft};
pub use submitter::{Given, Unpushed};
pub use worker_turns::{Worked, work_one};
pub use workers::{Back, End};
