//! The engine of `show --html`: a run, or a recorded history and what is found of it, in a page that steps through it.
#![tactic(auto)]

mod contents;
mod engine;
mod followed;
mod given;
mod histories;
mod history_frame;
mod kept;
mod recipes;
mod run_frame;
mod shown;

pub use engine::{Frame, page_recipe, page_text};
pub use histories::history_page;
pub use history_frame::HISTORY_FRAME;
pub use run_frame::RUN_FRAME;
