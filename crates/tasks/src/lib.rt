//! Tasks of any type, which workers run in threads of their own: pools that are given all tasks at once, or fed one by one.
#![tactic(auto)]

mod answers;
mod crews;
mod executor;
mod fed_pools;
mod feeds;
mod gathers;
mod leader;
mod new_pools;
mod new_queues;
mod offers;
mod parts;
mod pools;
mod posts;
mod rooms;
mod runs;
mod stops;
mod turns;
mod worker;

pub use answers::{Done, Outcome};
pub use executor::{Unstarted, run_all};
pub use fed_pools::{Fed, Line, Unfed, run_fed};
pub use feeds::Feed;
pub use gathers::Gather;
pub use new_pools::{line, run_feed};
pub use new_queues::pool_queue;
pub use offers::{Led, lead, offer, offer_all};
pub use pools::{Ran, Unrun, run_on};
pub use rooms::NoRoom;
pub use runs::{Numbered, Task};
pub use stops::{AnyReason, Stop, Unshut};
pub use turns::{End, Worked, run_next, work};
