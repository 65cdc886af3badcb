//! Whether a recorded history, which has no linearization points, is one of a first-in-first-out queue.
#![tactic(auto)]

mod answers;
mod counts;
mod cuts;
mod held_values;
mod kinds;
mod known;
pub mod laws;
mod marks;
mod operation_order;
mod operations;
mod pairs;
mod parts;
mod placement;
mod reasons;
mod shut_faults;
mod shut_reasons;
mod spread_stamps;
mod stamp_room;
mod stuck;
mod times;
mod value_order;
mod value_reasons;
mod without_shut;

pub use answers::{Held, Placed, Reason, Span, Unknown};
pub use placement::place;
