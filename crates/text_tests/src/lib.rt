//! Tests of references, line names, devices, verdicts, tables, texts and the engines below the program: what
//! no clause says, by calls.
#![tactic(auto)]

#[cfg(test)]
mod tests;
