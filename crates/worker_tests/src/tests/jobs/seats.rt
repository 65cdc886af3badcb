//! Seats of any queue of numbers, told apart by what they may do, and what workers make of a list of sums.
ghost use Rattle.std.specs.Prelude.{IfOk};
ghost use Rattle.std.specs.List.{All};
ghost use Rattle.shared_queue.specs.Queues.{numbers_in};
ghost use Rattle.dispatcher.specs.Workers.{IsTaker, IsGiver};

use carriers::{Carrier, Numbers};
use dispatcher::{Gate, dispatch};
use history::{Body, Fifo, Refusal};
use job_results::Job;
use shared_queue::SharedQueue;
use std::alloc::Global;
use std::sync::Wait;
use std::thread::Threads;

/// These seats, where each may pop. Else `BadSize`.
pub fn takers_of<Q: Fifo>(
    alloc: Global,
    queue: &SharedQueue<Numbers<Q>>,
    seats: Vec<Q::Seat>,
) -> Result<Vec<Q::Seat>, Refusal>
    requires { All (Q.is_seat (numbers_in queue.now)) seats.items }
    ensures { IfOk result (λ takers.
        All (IsTaker Q.is_seat Q.permits Q.known (numbers_in queue.now)) takers.items) }
{
    let mut takers = Vec::new(alloc);
    for seat in seats {
        if !queue.may_pop(&seat) {
            return Err(Refusal::BadSize);
        }
        let Ok(()) = takers.push(seat) else {
            return Err(Refusal::Memory);
        };
    }
    Ok(takers)
}

/// The last of these seats, taken from them, where it may push. Else `BadSize`.
pub fn giver_of<Q: Fifo>(
    queue: &SharedQueue<Numbers<Q>>,
    seats: &mut Vec<Q::Seat>,
) -> Result<Q::Seat, Refusal>
    requires { All (Q.is_seat (numbers_in queue.now)) seats.old.items }
    ensures giver { IfOk result (IsGiver Q.is_seat Q.permits Q.known (numbers_in queue.now)) }
    ensures others { All (Q.is_seat (numbers_in queue.now)) seats.new.items }
{
    let Some(giver) = seats.pop() else {
        return Err(Refusal::BadSize);
    };
    if queue.may_push(&giver) {
        Ok(giver)
    } else {
        Err(Refusal::BadSize)
    }
}

/// So many jobs, each the sum of a number and itself, from 0 on.
pub fn sums(alloc: Global, count: u64) -> Result<Vec<Job>, Refusal> {
    let mut jobs = Vec::new(alloc);
    for number in 0..count {
        let Ok(()) = jobs.push(Job::Add(number, number)) else {
            return Err(Refusal::Memory);
        };
    }
    Ok(jobs)
}

/// How many results of so many jobs the workers give: the last seat submits, and each other one is a worker's. A body may be
/// in the queue before.
pub fn dispatched<R: Threads + Wait + Sync, Q: Fifo + Sync, G: Gate + Sync>(
    rt: &R,
    alloc: Global,
    queue: &SharedQueue<Numbers<Q>>,
    mut seats: Vec<Q::Seat>,
    early: Option<Body>,
    count: u64,
    gate: &G,
) -> Result<usize, Refusal>
    requires { All (Q.is_seat (numbers_in queue.now)) seats.items }
{
    let jobs = sums(alloc, count)?;
    let mut giver = giver_of(queue, &mut seats)?;
    if let Some(body) = early {
        if let Err(unpushed) = queue.push(rt, &mut giver, body) {
            return Err(unpushed.refusal);
        }
    }
    let takers = takers_of(alloc, queue, seats)?;
    let results = dispatch(rt, alloc, queue, giver, takers, &jobs, gate)?;
    Ok(results.len())
}
