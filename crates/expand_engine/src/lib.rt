//! The engines of recipes, which have comments, steps up to a line or an end, and repeats: from the text of a
//! recipe to the text of the schedule that it stands for, to its history, or to its trace.
#![tactic(auto)]

mod act_lines;
mod acts;
mod comments;
mod dues;
mod engine;
mod expansions;
pub mod laws;
mod lines;
mod readers;
mod recipes;
mod running;
pub mod text_laws;
mod tracing;
mod unrolled_acts;
mod walks;

pub use acts::Stop;
pub use engine::{expand_text, read_recipe};
pub use expansions::{Expansion, expansion_of};
pub use readers::Recipes;
pub use recipes::{Act, Due, Recipe, Said, Sizes};
pub use running::run_recipe;
pub use tracing::trace_recipe;
pub use unrolled_acts::acts_of;
