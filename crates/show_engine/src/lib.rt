//! The engine of `msq show`: from the text of a schedule or a recipe to a picture of its run, and from that of a history
//! to a timeline, or to a picture of what is found of it; and a sink that colours what is drawn.
#![tactic(auto)]

mod accesses;
mod bars;
mod beside;
mod cells;
mod chains;
mod coloured;
mod counts;
mod effects;
mod engine;
mod frames;
mod legends;
mod move_rows;
mod pictures;
mod reasons;
mod recipes;
mod rows;
mod scales;
mod stand_rows;
mod styles;
mod timeline;

pub use accesses::ACCESSES;
pub use coloured::Coloured;
pub use engine::show_text;
pub use frames::{Meaning, View};
pub use reasons::show_found;
pub use recipes::show_recipe;
pub use styles::Drawing;
pub use timeline::show_history;
