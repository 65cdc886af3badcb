//! The text of a recording of a queue, and the history that it stands for: names and values are texts there.
#![tactic(auto)]

mod held;
pub mod laws;
mod lines;
mod lists;
mod numbers;
mod readers;
mod replies;

pub use held::parse_holding;
pub use lines::{ReadCall, ReadOperation, operation_of};
pub use lists::texts_in;
pub use readers::parse_recording;
pub use replies::ReadReply;
