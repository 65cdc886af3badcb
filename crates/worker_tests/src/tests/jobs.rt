//! Runs of workers that do jobs.
mod ends;
mod gates;
mod plans;
mod queues;
mod runs;
mod seats;
mod tellings;
pub mod texts;
mod turns;
