//! Queues of values of any type: each value lies in a slot of an arena, and its number goes through a queue of numbers.
#![tactic(auto)]

mod carrier;
mod ends;
mod looks;
mod pops;
mod pushes;
mod queue;

pub use ends::Room;
pub use queue::{MsValueQueue, MsValueQueueOf, QueueOf, TwoLockValueQueue, TwoLockValueQueueOf};
