//! Operations of a queue, their histories and the judge of these, and what every queue promises.
#![tactic(auto)]

mod checks;
mod ends;
pub mod laws;
mod operations;
mod queues;
mod refusals;
mod replays;
mod rests;
mod text_causes;

pub use checks::check;
pub use ends::{Close, Unclosed};
pub use operations::{
    Body, Cause, Entry, MOST_ACTOR, MOST_BODY, Op, Reply, Stamped, Taken, Verdict,
};
pub use queues::Fifo;
pub use refusals::{Refusal, WornWord};
pub use rests::Rest;
pub use text_causes::TextCause;
