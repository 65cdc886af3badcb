//! The two-lock queue on shared words: one lock for pushes, and one for pops.
#![tactic(auto)]

mod algorithm;
mod pop_lines;
mod pop_outcomes;
mod pops;
mod push_lines;
mod push_outcomes;
mod pushes;
mod shut_lines;
mod shut_outcomes;
mod shuts;

pub use algorithm::{TwoLockAlgorithm, TwoLockQueue, TwoLockQueueOf};
