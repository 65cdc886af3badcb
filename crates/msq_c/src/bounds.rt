//! What a handle's seat can see of its queue, as C gets it.
ghost use Rattle.std.specs.Prelude.{◌≡◌};

use arena_queue::Left;

/// Bounds of how many values a queue held.
#[repr(C)]
#[derive(Clone, Copy)]
pub struct MsqLen {
    pub least: u64,
    pub most: u64,
}

/// How many pushes a queue has left, and what the counts of its words leave.
#[repr(C)]
#[derive(Clone, Copy)]
pub struct MsqLeft {
    pub pushes: u64,
    pub free: u64,
    pub tail: u64,
    pub head: u64,
}

impl MsqLeft {
    ghost use Rattle.msq_c.specs.Looks.{left_of, left_in};

    /// What C gets of what is left of a queue of nodes.
    pub(crate) fn of(left: Left) -> MsqLeft
        ensures { result ≡ left_of left }
    {
        MsqLeft {
            pushes: left.pushes,
            free: left.free,
            tail: left.tail,
            head: left.head,
        }
    }

    /// What C gets of how many pushes a ring has left.
    pub(crate) fn of_ring(pushes: u64) -> MsqLeft
        ensures { result ≡ left_in pushes }
    {
        MsqLeft {
            pushes,
            free: u64::MAX,
            tail: pushes,
            head: u64::MAX,
        }
    }
}
