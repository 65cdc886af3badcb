//! The engines of `msq run` and `msq trace`: from the text of a schedule to the text of its history, or to
//! that of its steps; and the walk over a run that prints it.
#![tactic(auto)]

mod bits;
mod counts;
mod engine;
mod events;
mod lines;
mod printers;
mod printing;
mod runs;
mod stands;
mod traces;
mod tracing;

pub use counts::{RunExtent, first_events, make_all, opening_world, refuse_at};
pub use engine::run_text;
pub use events::make;
pub use printers::RunPrinter;
pub use printing::{moves_in, print_run};
pub use stands::{line_of, push_at, stand_line};
pub use traces::write_trace;
pub use tracing::trace_text;
