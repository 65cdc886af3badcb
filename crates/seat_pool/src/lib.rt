//! Seats that come and go: threads lease the seats of a queue, one after another.
#![tactic(auto)]

mod ends;
mod leases;
mod parts;
mod places;
mod pools;
mod queue;

pub use ends::Unparted;
pub use leases::Lease;
pub use parts::Part;
pub use pools::SeatPool;
