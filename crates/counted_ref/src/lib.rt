//! Counted references: the number of a node and a count, packed into one word.
#![tactic(auto)]

pub mod laws;
mod reference;

pub use reference::{
    CountedRef, CountedRefOf, MOST_COUNT, MOST_NODE, most_count, most_node, shut_node,
};
