//! Progress: how many steps operations take together, and how their calls end.
#![tactic(auto)]

pub mod laws;
