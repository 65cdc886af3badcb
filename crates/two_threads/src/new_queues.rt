//! Both queues, each new, with one seat that pushes and one that pops.
ghost use Rattle.std.specs.Prelude.{◌≡◌, IfOk, IfErr};
ghost use Rattle.two_threads.specs.Duos.{AreDuo, EndsRun, values_to};

use crate::meets::hand_over_by_last_seats;
use crate::threads::run;
use history::{Body, Fifo, Refusal, Taken};
use node_arena::Role;
use nonblocking::MsQueue;
use std::alloc::Global;
use std::sync::Wait;
use std::thread::Threads;
use two_lock::TwoLockQueue;

/// The nodes of a queue: room for 1,023 values, and one node more.
const NODES: u32 = 1024;

/// What is pushed before seats meet.
const MET: u64 = 7;

/// The greatest count: so many values can be taken before Head is worn out.
const LIMIT: u64 = 1_000_000;

/// One thread pushes 1, 2 and so on to `most` on a non-blocking queue, another takes as many values: these, in that order.
///
/// Refusals: `Memory`, `WornOut`, and `BadSize` where `most` is no body's number. Takes memory for the queue and the values,
/// starts threads, and waits.
pub fn on_ms_queue<R: Threads + Wait + Sync>(
    rt: &R,
    alloc: Global,
    most: u64,
) -> Result<Vec<Taken>, Refusal>
    //= callers/two_threads (taken, refusal): On a new queue of either kind 1 to `most` are handed over, pushed by seat 1,
    //=   with no condition.
    ensures taken { IfOk result (λ values. values.items ≡ values_to 1 most) }
    ensures refusal { IfErr result (EndsRun most) }
{
    let roles = [Role::Giver, Role::Taker];
    let (queue, seats) = MsQueue::new(alloc, NODES, LIMIT, &roles)?;
    run_new(rt, alloc, queue, seats, most)
}

/// The same on a two-lock queue.
pub fn on_two_lock_queue<R: Threads + Wait + Sync>(
    rt: &R,
    alloc: Global,
    most: u64,
) -> Result<Vec<Taken>, Refusal>
    //= callers/two_threads (taken, refusal)
    ensures taken { IfOk result (λ values. values.items ≡ values_to 1 most) }
    ensures refusal { IfErr result (EndsRun most) }
{
    let roles = [Role::Giver, Role::Taker];
    let (queue, seats) = TwoLockQueue::new(alloc, NODES, LIMIT, &roles)?;
    run_new(rt, alloc, queue, seats, most)
}

/// A push on a new non-blocking queue, and a pop by a seat that met the pusher's before.
///
/// Refusals: `Memory`, `WornOut`, `Busy`. Takes memory for the queue.
pub fn met(alloc: Global) -> Result<Option<Taken>, Refusal> {
    let (queue, seats) = MsQueue::new(alloc, NODES, LIMIT, &[Role::Giver, Role::Taker])?;
    match Body::new(MET) {
        Some(body) => hand_over_by_last_seats(&queue, seats, body),
        None => Err(Refusal::BadSize),
    }
}

// The run on a new queue, by its two seats.
fn run_new<R: Threads + Wait + Sync, Q: Fifo + Sync + Drop>(
    rt: &R,
    alloc: Global,
    queue: Q,
    mut seats: Vec<Q::Seat>,
    most: u64,
) -> Result<Vec<Taken>, Refusal>
    requires { AreDuo Q.is_seat Q.permits Q.known queue seats.items }
    ensures taken { IfOk result (λ values. values.items ≡ values_to 1 most) }
    ensures refusal { IfErr result (EndsRun most) }
{
    let Some(taker) = seats.pop() else {
        unreachable!()
    };
    let Some(giver) = seats.pop() else {
        unreachable!()
    };
    run(rt, alloc, queue, giver, taker, most)
}
