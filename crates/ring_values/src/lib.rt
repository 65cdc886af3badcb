//! Bounded queues of values on a ring of words: of any type, each in a slot, or of one to three words, each in its place.
#![tactic(auto)]

mod carrier;
mod ends;
mod looks;
mod pops;
mod pushes;
mod queue;
mod remains;
mod word_ends;
mod word_looks;
mod words;

pub use ends::Room;
pub use queue::RingValues;
pub use remains::LeftValues;
pub use word_ends::WordRoom;
pub use words::RingWords;
