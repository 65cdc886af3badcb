//! Calls that sleep until another thread wakes them, over queues of numbers and of values.
mod clones;
mod drawn;
mod ends;
pub mod sides;
pub mod stories;
mod wake_ups;
