//! Letters of any type between threads: an office hands out senders and receivers, and at its end gives what is left.
#![tactic(auto)]

mod ends;
mod new_offices;
mod offices;
mod rings;

pub use ends::Unended;
pub use offices::{Desks, PostOffice};
