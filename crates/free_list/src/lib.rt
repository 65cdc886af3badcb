//! A line of the table on the words of an arena, and the calls that take a node from the free list or give it back.
#![tactic(auto)]

mod accesses;
pub mod branch;
mod gives;
pub mod onward;
mod outcomes;
mod takes;
mod turns;
mod word_steps;
mod words;

pub use gives::give_back;
pub use outcomes::{
    Reply, RowOutcome, closed, ends, frees, frees as frees_aside, goes, with_node, worn,
};
// Where the table tells a world of more, a running call has nothing to do.
pub use outcomes::{
    closed as closed_with_node, same as effect, same as notes, worn as worn_aside,
    worn as worn_with_node,
};
pub use takes::take;
pub use word_steps::{cleared, exchange, exchanged, load, loaded, store, stored};
pub use words::Word;
