//! Queues that are made anew.
ghost use Rattle.std.specs.Prelude.{IfOk};
ghost use Rattle.std.specs.List.{All};

use history::{Fifo, Refusal};
use node_arena::{Role, Seat};
use nonblocking::MsQueue;
use std::alloc::Global;
use two_lock::TwoLockQueue;

/// How many seats each queue has.
pub const SEATS: usize = 5;

/// The seats of each queue: two that push, two that take, and one that shuts it in the end. None does both, so that each node
/// comes by the free list, which then wears out before the queue's ends do.
const ROLES: [Role; SEATS] = [
    Role::Giver,
    Role::Giver,
    Role::Taker,
    Role::Taker,
    Role::Giver,
];

/// Whose places come where: the last seat is the first one that is taken.
pub const SHUTTER: usize = 0;

pub const LAST_TAKER: usize = 1;

pub const FIRST_TAKER: usize = 2;

pub const LAST_GIVER: usize = 3;

pub const FIRST_GIVER: usize = 4;

/// A queue of which there can be another one.
pub trait Renewable: Fifo + Drop {
    /// A queue with so many nodes and this greatest count, with a seat for each role.
    fn make(alloc: Global, nodes: u32, limit: u64) -> Result<(Self, Vec<Self::Seat>), Refusal>
    where
        Self: Sized,
        ensures { IfOk result (λ r. All (Self.is_seat r.0) r.1.items) };
}

impl Renewable for MsQueue {
    fn make(alloc: Global, nodes: u32, limit: u64) -> Result<(MsQueue, Vec<Seat>), Refusal> {
        MsQueue::new(alloc, nodes, limit, &ROLES)
    }
}

impl Renewable for TwoLockQueue {
    fn make(alloc: Global, nodes: u32, limit: u64) -> Result<(TwoLockQueue, Vec<Seat>), Refusal> {
        TwoLockQueue::new(alloc, nodes, limit, &ROLES)
    }
}
