//! Both queues, with a seat for each worker and, last, one for the submitter.
ghost use Rattle.std.specs.Prelude.{IfOk};
ghost use Rattle.std.specs.List.{All};
ghost use Rattle.arena_queue.specs.Queues.{IsQueueSeat};

use history::Refusal;
use line_table::Kind;
use node_arena::{Role, Seat};
use nonblocking::MsQueue;
use std::alloc::Global;
use two_lock::TwoLockQueue;

/// Each kind of queue.
pub const KINDS: [Kind; 2] = [Kind::TwoLock, Kind::NonBlocking];

/// The greatest count of all.
const GREATEST_COUNT: u64 = 1_099_511_627_775;

// A role that takes for each worker, and then one that gives.
fn roles_of(alloc: Global, workers: usize) -> Result<Vec<Role>, Refusal> {
    let Ok(mut roles) = vec![in alloc; Role::Taker; workers] else {
        return Err(Refusal::Memory);
    };
    match roles.push(Role::Giver) {
        Ok(()) => Ok(roles),
        Err(_) => Err(Refusal::Memory),
    }
}

/// A two-lock queue of so many nodes, with its seats.
pub fn two_lock_of(
    alloc: Global,
    nodes: u32,
    workers: usize,
) -> Result<(TwoLockQueue, Vec<Seat>), Refusal>
    ensures { IfOk result (λ r. All (IsQueueSeat r.0) r.1.items) }
{
    let roles = roles_of(alloc, workers)?;
    match TwoLockQueue::new(alloc, nodes, GREATEST_COUNT, &roles) {
        Ok(made) => Ok(made),
        Err(refusal) => Err(refusal),
    }
}

/// A non-blocking queue of so many nodes, with its seats.
pub fn non_blocking_of(
    alloc: Global,
    nodes: u32,
    workers: usize,
) -> Result<(MsQueue, Vec<Seat>), Refusal>
    ensures { IfOk result (λ r. All (IsQueueSeat r.0) r.1.items) }
{
    non_blocking_with(alloc, nodes, GREATEST_COUNT, workers)
}

/// The same with this greatest count.
pub fn non_blocking_with(
    alloc: Global,
    nodes: u32,
    limit: u64,
    workers: usize,
) -> Result<(MsQueue, Vec<Seat>), Refusal>
    ensures { IfOk result (λ r. All (IsQueueSeat r.0) r.1.items) }
{
    let roles = roles_of(alloc, workers)?;
    match MsQueue::new(alloc, nodes, limit, &roles) {
        Ok(made) => Ok(made),
        Err(refusal) => Err(refusal),
    }
}
