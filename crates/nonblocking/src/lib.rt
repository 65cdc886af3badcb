//! The non-blocking queue on shared words.
#![tactic(auto)]

mod algorithm;
mod pop_lines;
mod pop_outcomes;
mod pops;
mod push_lines;
mod push_outcomes;
mod pushes;
mod shut_lines;
mod shut_outcomes;
mod shuts;

pub use algorithm::{MsQueue, MsQueueOf, NonBlockingAlgorithm};
