//! Queues one behind another.
use crate::places::Place;
use crate::queues::{Renewable, SEATS};
use history::Refusal;
use std::alloc::Global;
use std::sync::{Arc, Mutex, Wait};

/// The nodes of the first queue.
const FIRST_NODES: u32 = 8;

/// The places in a queue that no thread came for yet.
type Places<Q> = Vec<Option<Place<Q>>>;

/// Queues one behind another, each with twice as many nodes as the one before it.
#[derive(Drop)]
pub struct Line<Q: Renewable> {
    alloc: Global,
    queues: Mutex<Vec<Places<Q>>>,
}

impl<Q: Renewable> Line<Q> {
    /// No queue.
    pub fn new(alloc: Global) -> Line<Q> {
        Line {
            alloc,
            queues: Mutex::new(Vec::new(alloc)),
        }
    }

    /// Makes the queue of this number, from 0 on, unless there is one.
    pub fn link<R: Wait>(&self, rt: &R, number: usize) -> Result<(), Refusal> {
        let mut queues = self.queues.lock(rt);
        if number < queues.len() {
            return Ok(());
        }
        let doublings = u32::try_from(queues.len()).unwrap_or(u32::MAX);
        let Some(nodes) = FIRST_NODES.checked_shl(doublings) else {
            return Err(Refusal::BadSize);
        };
        let places = places_in(self.alloc, nodes)?;
        match queues.push(places) {
            Ok(()) => Ok(()),
            Err(_) => Err(Refusal::Memory),
        }
    }

    /// A thread's place in the queue of this number; none where there is no such queue, or the thread has come for it.
    pub fn place<R: Wait>(&self, rt: &R, number: usize, thread: usize) -> Option<Place<Q>> {
        let mut guard = self.queues.lock(rt);
        let queues = &mut *guard;
        if number >= queues.len() {
            return None;
        }
        let places = &mut queues[number];
        if thread >= places.len() {
            return None;
        }
        places[thread].take()
    }
}

// The places in a new queue with so many nodes. By its greatest count a node is taken from the free list about twice, and the free
// list is what wears out first.
fn places_in<Q: Renewable>(alloc: Global, nodes: u32) -> Result<Places<Q>, Refusal> {
    let (queue, mut seats) = Q::make(alloc, nodes, 2 * u64::from(nodes) + 1)?;
    let Ok(queue) = Arc::new(alloc, queue) else {
        return Err(Refusal::Memory);
    };
    let mut places = Vec::new(alloc);
    for _ in 0..SEATS {
        let (Some(seat), Ok(share)) = (seats.pop(), Arc::try_clone(&queue)) else {
            return Err(Refusal::Memory);
        };
        if places.push(Some(Place::new(share, seat))).is_err() {
            return Err(Refusal::Memory);
        }
    }
    Ok(places)
}
