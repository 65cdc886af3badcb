//! A queue of values with no room, and queues of numbers that go by plans, for tests of what stands on a queue.
#![tactic(auto)]

mod full;
mod listed;
mod planned;

pub use full::{FullQueue, FullSeat, NeverBusy, full_of_numbers};
pub use listed::Listed;
pub use planned::{Plan, Planned};
