//! What a seat may do.

/// What a seat may do: push, pop, or both.
#[derive(Clone, Copy, Debug, PartialEq, Eq)]
pub enum Role {
    /// It may push.
    Giver,
    /// It may pop.
    Taker,
    /// It may push and pop.
    Both,
}
