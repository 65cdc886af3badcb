//! Which queue.
use crate::lines::Kind;

/// Which queue jobs or letters go over.
#[derive(Clone, Copy, Debug, PartialEq, Eq)]
pub enum QueueKind {
    /// A linked list of nodes, of this kind.
    Linked(Kind),
    /// The ring.
    Ring,
}
