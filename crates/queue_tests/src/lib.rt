//! Tests of queues of numbers and of values, of handles and of offices, by their calls: what no clause says.
#![tactic(auto)]

#[cfg(test)]
mod tests;
