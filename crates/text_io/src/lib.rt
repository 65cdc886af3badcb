//! Where texts come from and go to: sources and sinks that count their failures; and texts of lines over
//! them: the lines that are due, their words and numbers, the first faulty line, and one reader of all texts
//! whose first line says how many follow.
#![tactic(auto)]

mod blocks;
mod devices;
mod formats;
mod input;
mod kept;
pub mod laws;
mod line_splits;
mod lines;
mod listing_readers;
mod numbers;
mod parsed_sources;
mod parsers;
mod printable;
mod readers;
mod scripts;
mod short_texts;
mod words;
mod writers;

pub use blocks::{BLOCK, Block};
pub use devices::{Sink, Source};
pub use formats::{ItemError, ListingFormat};
pub use history::TextCause;
pub use kept::{counted, kept_or_range};
pub use line_splits::{line_at, split_once};
pub use lines::{LINE_ROOM, LineBuffer};
pub use listing_readers::{due_line, parse_listing};
pub use numbers::number_in;
pub use parsed_sources::parse_source;
pub use parsers::Parser;
pub use printable::printable_in;
pub use readers::{MOST_BYTES, ReaderSource};
pub use scripts::{Script, Trouble};
pub use short_texts::send;
pub use words::Words;
pub use writers::WriterSink;
