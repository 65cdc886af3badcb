//! Tests of worlds: worked runs with a shut, the words, where nodes are, and what the calls answer.
#![tactic(auto)]

#[cfg(test)]
mod tests;
