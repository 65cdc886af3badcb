//! Queues of values of any type: what every one promises, and each queue of numbers as one, and back; iterators over a queue;
//! what several threads get of several.
#![tactic(auto)]

mod bodies;
pub mod deliveries;
pub mod drained;
mod ends;
mod fifo_ext;
mod items;
pub mod laws;
mod numbered;
mod queues;
mod rests;
mod until_empty;
mod until_shut;

pub use bodies::Bodies;
pub use ends::CloseCarrier;
pub use fifo_ext::FifoExt;
pub use items::{ItemOf, Unpushed};
pub use numbered::Numbers;
pub use queues::Carrier;
pub use rests::RestOf;
pub use until_empty::UntilEmpty;
pub use until_shut::UntilShut;

/// How many turns a call that waits takes at a try, before it lets others go on.
const TURNS: u32 = 8;
