//! Both queues run one atomic line at a time: worlds, their moves, and their histories.
#![tactic(auto)]

mod accesses;
mod actors;
mod benches;
mod commits;
pub mod histories;
pub mod laws;
mod moves;
pub mod non_blocking_laws;
mod places;
pub mod solo;
pub mod stamp_laws;
pub mod two_lock_laws;
mod world;

pub use accesses::{Contents, WordName};
pub use actors::{Move, Stepped};
pub use benches::{Bench, BenchOf, on_bench};
pub use line_steps::{ActorOf, Held, Setup, Told};
pub use moves::step_in;
pub use places::Place;
pub use world::{World, WorldOf};
