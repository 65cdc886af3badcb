//! Seats of one queue, and what each is for.
ghost use Rattle.std.specs.Prelude.{◌≡◌, IfSome};
ghost use Rattle.std.specs.List.{All};
ghost use Rattle.stress.specs.Seated.{MayCall};

use crate::works::Work;
use arena_queue::{Algorithm, ArenaQueueOf};
use carriers::{Carrier, Numbers};
use node_arena::Seat as NodeSeat;
use ring_queue::RingQueue;
use ring_values::RingValues;
use std::alloc::Global;
use value_queue::QueueOf;

/// A queue whose seats can be told to keep their nodes; where it has none, that does nothing.
pub trait Keeping: Carrier {
    /// Tells a seat to keep its nodes.
    fn keep_nodes(&self, seat: &mut Self::Seat)
        requires { Self.is_seat self.now seat.old }
        ensures seat { Self.is_seat self.now seat.new }
        ensures number { (Self.known seat.new).number ≡ (Self.known seat.old).number };
}

impl<T: Send, A: Algorithm<B>, const B: u32> Keeping for QueueOf<T, A, B> {
    fn keep_nodes(&self, seat: &mut NodeSeat<T>) {
        seat.keep_nodes(true);
    }
}

impl<A: Algorithm<B>, const B: u32> Keeping for Numbers<ArenaQueueOf<A, B>> {
    fn keep_nodes(&self, seat: &mut NodeSeat) {
        seat.keep_nodes(true);
    }
}

impl<T: Send + Drop> Keeping for RingValues<T> {
    fn keep_nodes(&self, _seat: &mut Self::Seat) {}
}

impl Keeping for Numbers<RingQueue> {
    fn keep_nodes(&self, _seat: &mut Self::Seat) {}
}

/// A seat, the sender by whose values it pushes, and what a thread does with it.
#[derive(Drop)]
pub struct Job<S: Drop> {
    pub seat: S,
    pub from: u64,
    pub work: Work,
}

// A job for this work by the last of these seats, where it may push and pop.
fn job_of<Q: Keeping>(
    queue: &Q,
    seats: &mut Vec<Q::Seat>,
    work: Work,
    keeps: bool,
) -> Option<Job<Q::Seat>>
    requires { All (Q.is_seat queue.now) seats.old.items }
    ensures rest { All (Q.is_seat queue.now) seats.new.items }
    ensures job { IfSome result
        (λ job. MayCall Q.is_seat Q.permits Q.known queue.now job.seat) }
{
    let mut seat = seats.pop()?;
    if !queue.may_push(&seat) || !queue.may_pop(&seat) {
        return None;
    }
    if keeps {
        queue.keep_nodes(&mut seat);
    }
    Some(Job {
        seat,
        from: seats.len() as u64,
        work,
    })
}

/// A job for each of these works, by a seat that may push and pop, the last one first, and keeps its nodes or doesn't. A
/// sender is the number of its seat less one. None where a seat or memory is missing.
pub fn jobs_of<Q: Keeping>(
    alloc: Global,
    queue: &Q,
    mut seats: Vec<Q::Seat>,
    works: &[Work],
    keeps: bool,
) -> Option<Vec<Job<Q::Seat>>>
    requires { All (Q.is_seat queue.now) seats.items }
    ensures { IfSome result
        (λ jobs. All (λ job. MayCall Q.is_seat Q.permits Q.known queue.now job.seat) jobs.items) }
{
    let mut jobs = Vec::new(alloc);
    for work in works {
        let job = job_of(queue, &mut seats, *work, keeps)?;
        let Ok(()) = jobs.push(job) else {
            return None;
        };
    }
    Some(jobs)
}
