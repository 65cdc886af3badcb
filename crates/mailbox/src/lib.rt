//! Letters between threads, over any queue.
#![tactic(auto)]

mod due_texts;
mod ends;
pub mod laws;
mod office;
mod parcels;
mod receiver;
mod sender;
mod taken_letters;
mod threads;

pub use office::Office;
pub use receiver::{Letter, Receiver};
pub use sender::Sender;
pub use threads::{Task, post};
