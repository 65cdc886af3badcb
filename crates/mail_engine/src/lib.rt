//! The engine of `msq post`: from the text of mail to the letters taken.
#![tactic(auto)]

mod engine;
mod letter_texts;
mod letters;
mod lines;
mod new_queues;
mod readers;
mod tasks;
pub mod text_laws;
mod texts;

pub use engine::{Carrier, post_text};
pub use letters::{Mail, Outgoing};
pub use new_queues::{mail_queue, mail_ring};
pub use readers::parse_mail;
