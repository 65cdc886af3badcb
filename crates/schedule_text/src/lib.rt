//! Schedules of what the actors of a queue do, and their texts.
#![tactic(auto)]

mod ahead;
mod event_stream;
mod events;
mod fields;
mod held;
pub mod laws;
mod owned_events;
mod printers;
mod readers;
mod schedules;
mod source_lines;
mod source_schedules;

pub use event_stream::EventStream;
pub use events::event_in;
pub use fields::{Field, kind_in, number_of};
pub use owned_events::Events;
pub use printers::{name_of_kind, print};
pub use readers::{Header, parse};
pub use schedules::{Event, Schedule, Version};
pub use source_schedules::read_schedule;
