//! Seats that each own a share of their queue.
#![tactic(auto)]

mod acts;
mod ends;
mod looks;
mod seats;
mod shares;

pub use acts::Act;
pub use ends::{EndRoom, Unended};
pub use looks::Look;
pub use seats::OwnedSeat;
pub use shares::deal;
