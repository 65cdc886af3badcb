//! What a seat may do.

/// What a seat may do: push, pop, or both. Each may take and give back nodes.
#[derive(Clone, Copy, Debug, PartialEq, Eq)]
pub enum Role {
    /// It may push.
    Giver,
    /// It may pop.
    Taker,
    /// It may push and pop.
    Both,
}
