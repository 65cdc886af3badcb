//! A seat in one of the queues.
use crate::deeds::{give, shut, take};
use history::{Fifo, Refusal, Taken};
use std::alloc::Global;
use std::sync::{Arc, Wait};

/// A seat with a share of its queue. The type says that it is one of this queue's, so a lock keeps that.
#[derive(Drop)]
pub struct Place<Q: Fifo + Drop> {
    queue: Arc<Q, Global>,
    seat: Q::Seat,
    ghost sits: { ∥ Q.is_seat queue.value seat ∥₁ },
}

impl<Q: Fifo + Drop> Place<Q> {
    /// A seat of a queue, with a share of the queue.
    pub fn new(queue: Arc<Q, Global>, seat: Q::Seat) -> Place<Q>
        requires { Q.is_seat queue.value seat }
    {
        Place { queue, seat }
    }

    /// Pushes the numbers from `first` on that are below `end`, up to one that is refused; that one, and why.
    pub fn give<R: Wait>(&mut self, rt: &R, first: u64, end: u64) -> Result<(), (u64, Refusal)> {
        give(rt, &*self.queue, &mut self.seat, first, end)
    }

    /// Takes values until the queue is shut and empty, and puts them behind those of a list.
    pub fn take<R: Wait>(&mut self, rt: &R, values: &mut Vec<Taken>) -> Result<(), Refusal> {
        take(rt, &*self.queue, &mut self.seat, values)
    }

    /// Shuts the queue, unless another seat did so.
    pub fn shut<R: Wait>(&mut self, rt: &R) -> Result<(), Refusal> {
        shut(rt, &*self.queue, &mut self.seat)
    }
}
