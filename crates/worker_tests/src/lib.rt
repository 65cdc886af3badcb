//! Tests of jobs, letters and tasks in threads, over each queue, by their calls: what no clause says.
#![tactic(auto)]

mod numbered_letters;
#[cfg(test)]
mod tests;

pub use numbered_letters::{Came, Load, posted};
