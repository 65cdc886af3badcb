//! Worked runs of the step machine, and a push and a pop of a value by hand over the slots of an arena: what each leads to, as contracts.
#![tactic(auto)]

mod hands;
mod judged_runs;
mod non_blocking;
mod references;
mod two_lock;

pub use hands::{load_slot, pop_at_d13, push_at_e9};
pub use judged_runs::verdicts;
pub use non_blocking::{non_blocking_moves_refused, non_blocking_runs};
pub use references::words_of_references;
pub use two_lock::two_lock_runs;
