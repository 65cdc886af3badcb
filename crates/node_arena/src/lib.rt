//! The shared words of a queue, with a seat for each actor, under the rule that words and seats are a world's.
#![tactic(auto)]

mod arena;
mod emptiness;
mod ended;
mod ends;
pub mod laws;
mod leftovers;
mod lengths;
mod looks;
mod new_arenas;
mod new_seats;
mod peeks;
mod places;
mod plans;
mod references;
mod remains;
mod roles;
mod seat_meets;
mod seats;
mod slots;
mod steps;
mod valued;
mod views;
mod words;

pub use arena::{Arena, ArenaOf};
pub use counted_ref::{MOST_COUNT, MOST_NODE, most_count, most_node};
pub use emptiness::Emptiness;
pub use ended::Ended;
pub use leftovers::{LeftValue, LeftValues};
pub use lengths::Len;
pub use line_steps::value_of;
pub use plans::Plan;
pub use roles::Role;
pub use seats::Seat;
pub use slots::Got;
pub use step_machine::{Held, Setup};
pub use views::{Knowing, SeatToken, WordRule, WordTable};
pub use words::{raised, raised_end, raised_unless_shut, word_of};
