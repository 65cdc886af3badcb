//! A bounded queue on a ring of words, whose push claims its place by one exchange of Tail.
#![tactic(auto)]

mod acts;
mod batches;
mod ends;
mod fifo;
pub mod laws;
mod lengths;
mod looks;
mod new_rings;
mod new_seats;
mod places;
mod plans;
mod pops;
mod push_batches;
mod pushes;
mod queue;
mod remains;
mod roles;
mod seat_meets;
mod seats;
mod slots;
mod views;
mod words;

pub use batches::MOST_AT_ONCE;
pub use new_rings::{MOST_SEATS, MOST_WORDS};
pub use queue::RingQueue;
pub use roles::Role;
pub use seats::Seat;
pub use slots::Got;
