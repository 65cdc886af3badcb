//! The ends of queues, as one: what is left is counted.
use super::threads::takes;
use crate::loads::Load;
use crate::seats::Keeping;
use crate::tallies::Tally;
use arena_queue::{Algorithm, ArenaQueueOf};
use carriers::{Carrier, CloseCarrier, ItemOf, Numbers};
use history::{Body, Close, Refusal};
use ring_queue::RingQueue;
use ring_values::RingValues;
use std::alloc::Global;
use std::sync::Wait;
use value_queue::QueueOf;

/// What an end tells: how many values were taken before, where the queue counts them, whether the seats handed in made all
/// calls, and whether the queue was shut before.
#[derive(Clone, Copy, Debug)]
pub struct End {
    pub taken: Option<u64>,
    pub whole: bool,
    pub was_shut: bool,
}

/// A queue that can be ended.
pub trait Ending: Keeping + Sized {
    /// Ends the queue with all its seats, and counts what is left; none where memory is refused.
    fn end<R: Wait>(
        self,
        rt: &R,
        alloc: Global,
        seats: Vec<Self::Seat>,
        last: &mut Tally,
    ) -> Option<End>;
}

// The end of a queue of values that is closed.
fn closed<T: Load, Q: CloseCarrier<Item = T> + Drop>(
    queue: Q,
    alloc: Global,
    seats: Vec<Q::Seat>,
    last: &mut Tally,
) -> Option<End> {
    let (rest, _end) = queue.close(alloc, seats).ok()?;
    let (taken, whole, was_shut) = (Some(rest.taken()), rest.whole(), rest.was_shut());
    for item in rest {
        takes(last, &item, false);
    }
    Some(End {
        taken,
        whole,
        was_shut,
    })
}

impl<T: Load, A: Algorithm<24>> Ending for QueueOf<T, A, 24> {
    fn end<R: Wait>(
        self,
        _rt: &R,
        alloc: Global,
        seats: Vec<Self::Seat>,
        last: &mut Tally,
    ) -> Option<End> {
        closed(self, alloc, seats, last)
    }
}

impl<T: Load> Ending for RingValues<T> {
    fn end<R: Wait>(
        self,
        _rt: &R,
        alloc: Global,
        seats: Vec<Self::Seat>,
        last: &mut Tally,
    ) -> Option<End> {
        closed(self, alloc, seats, last)
    }
}

impl<A: Algorithm<24>> Ending for Numbers<ArenaQueueOf<A, 24>> {
    fn end<R: Wait>(
        self,
        _rt: &R,
        alloc: Global,
        seats: Vec<Self::Seat>,
        last: &mut Tally,
    ) -> Option<End> {
        let (rest, _end) = self.into_queue().close(alloc, seats).ok()?;
        let (taken, whole, was_shut) = (Some(rest.taken()), rest.whole(), rest.was_shut());
        for taken in rest {
            let item: ItemOf<Body> = ItemOf {
                value: taken.body,
                from: taken.from,
            };
            takes(last, &item, false);
        }
        Some(End {
            taken,
            whole,
            was_shut,
        })
    }
}

/// A ring of numbers isn't closed: one seat shuts it, and pops until it is found shut and empty.
impl Ending for Numbers<RingQueue> {
    fn end<R: Wait>(
        self,
        rt: &R,
        _alloc: Global,
        mut seats: Vec<Self::Seat>,
        last: &mut Tally,
    ) -> Option<End> {
        let seat = seats.first_mut()?;
        let was_shut = self.shut(rt, seat) == Err(Refusal::Closed);
        for _ in rt.forever() {
            match self.pop(rt, seat) {
                Ok(Some(item)) => takes(last, &item, false),
                Ok(None) => break,
                Err(refusal) => {
                    return Some(End {
                        taken: None,
                        whole: refusal == Refusal::Closed,
                        was_shut,
                    });
                }
            }
        }
        None
    }
}
