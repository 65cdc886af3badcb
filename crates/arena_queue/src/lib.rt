//! A queue on an arena, whichever of its algorithms it runs.
#![tactic(auto)]

mod algorithms;
pub mod laws;
mod left;
mod looks;
mod queue;

pub use algorithms::Algorithm;
pub use left::Left;
pub use queue::{ArenaQueue, ArenaQueueOf};
