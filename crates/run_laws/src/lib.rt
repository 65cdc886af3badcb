//! Laws of runs of a queue on an arena: who pays for turns that fail, and how many pushes the counts of its words leave.
#![tactic(auto)]

pub mod pushes;
pub mod turns;
