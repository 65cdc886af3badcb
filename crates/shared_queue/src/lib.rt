//! A queue of values of any type that threads share, whose calls sleep where it is empty, or full; and its senders and
//! receivers, of which the last one of a side shuts the queue as it is dropped.
#![tactic(auto)]

mod at_once;
mod bells;
mod clones;
mod closers;
mod deadlines;
mod meets;
mod new_sides;
mod queue;
mod receiver;
mod receives;
mod recv_calls;
mod send_calls;
mod sender;
mod sends;
mod share;
mod share_deals;
mod shuts;
mod sides;
mod stepped;
mod steps;

pub use at_once::Tried;
pub use deadlines::{Deadline, InTime, Late, Unsent};
pub use new_sides::{receivers, senders};
pub use queue::SharedQueue;
pub use receiver::Receiver;
pub use sender::Sender;
pub use share::Share;
pub use share_deals::deal;
pub use sides::Side;
pub use stepped::{Asked, SteppedQueue};

/// How many turns a try takes of a call that waits, and a call that doesn't wait.
const TURNS: u32 = 8;
