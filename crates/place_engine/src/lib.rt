//! The engines of `msq check` and `msq place`: from the text of a history to the verdict on it; and from that
//! of a recorded history, or of a recording that stands for one, to points for it, or a reason why there are
//! none.
#![tactic(auto)]

mod checks;
mod engine;
mod found_texts;
mod given;
mod held_texts;
mod histories;
mod history_texts;
pub mod laws;
mod overlaps;
mod recorded_texts;
mod recordings;
mod why;

pub use checks::{check_text, history_in};
pub use engine::{Told, place_text};
pub use found_texts::{no_line, tell};
pub use held_texts::place_holding;
pub use histories::record_in;
pub use recorded_texts::{Given, header_of};
pub use recordings::recording_in;
pub use why::{lines_of, places_of, push_given};
