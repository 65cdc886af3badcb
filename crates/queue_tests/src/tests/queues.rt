//! Each queue that tests make and close: queues of numbers, as queues of values, and queues of values.
use super::values::{Numbered, Value};
use arena_queue::{Algorithm, ArenaQueueOf};
use carriers::{Carrier, CloseCarrier, Numbers, RestOf};
use history::{Close, Refusal, Rest};
use node_arena::Role;
use picked::{EitherQueue, EitherSeat};
use ring_queue::{RingQueue, Role as RingRole};
use ring_values::{RingValues, RingWords};
use std::alloc::Global;
use value_queue::QueueOf;

/// A greatest count, or a last place, that no run with this one gets near.
pub const AMPLE: u64 = 1_000_000;

/// What a closed queue leaves: how many values were taken, the first ones of those left, each with its pusher
/// and its number, whether it is whole, and whether it was shut.
#[derive(Clone, Copy, Debug, PartialEq, Eq)]
pub struct Left {
    pub taken: u64,
    pub first: [Option<(u16, u64)>; 4],
    pub whole: bool,
    pub was_shut: bool,
}

/// A queue with its seats, or why there is none.
pub type Making<Q, S> = Result<(Q, Vec<S>), Refusal>;

/// A queue that is made, and closed.
pub trait Made: Carrier<Item: Value> + Drop + Sized {
    /// A queue with room for so many values, if no seat keeps a node; with this greatest count, or last
    /// place, and a seat for each role.
    fn made(alloc: Global, room: u32, limit: u64, roles: &[Role]) -> Making<Self, Self::Seat>;

    /// What the queue leaves that is closed with these seats.
    fn leaves(self, alloc: Global, seats: Vec<Self::Seat>) -> Result<Left, Refusal>;
}

// The first values of those left.
fn first_of(left: &mut impl Iterator<Item = (u16, u64)>) -> [Option<(u16, u64)>; 4] {
    let mut first = [None; 4];
    for place in 0..4 {
        first[place] = left.next();
    }
    first
}

// What this rest of a queue of numbers has.
fn left_in(rest: Rest) -> Left {
    let (taken, whole, was_shut) = (rest.taken(), rest.whole(), rest.was_shut());
    let first = first_of(&mut rest.map(|taken| (taken.from, taken.body.number())));
    Left {
        taken,
        first,
        whole,
        was_shut,
    }
}

// The same of a queue of values.
fn left_of<T: Numbered>(rest: RestOf<T>) -> Left {
    let (taken, whole, was_shut) = (rest.taken(), rest.whole(), rest.was_shut());
    let first = first_of(&mut rest.map(|item| (item.from, item.value.number())));
    Left {
        taken,
        first,
        whole,
        was_shut,
    }
}

impl<A: Algorithm<B>, const B: u32> Made for Numbers<ArenaQueueOf<A, B>> {
    // One node is always in the queue.
    fn made(alloc: Global, room: u32, limit: u64, roles: &[Role]) -> Making<Self, Self::Seat> {
        let (queue, seats) = ArenaQueueOf::<A, B>::new(alloc, room + 1, limit, roles)?;
        Ok((Numbers::new(queue), seats))
    }

    fn leaves(self, alloc: Global, seats: Vec<Self::Seat>) -> Result<Left, Refusal> {
        let (rest, _end) = self.into_queue().close(alloc, seats)?;
        Ok(left_in(rest))
    }
}

impl<T: Value, A: Algorithm<B>, const B: u32> Made for QueueOf<T, A, B> {
    fn made(alloc: Global, room: u32, limit: u64, roles: &[Role]) -> Making<Self, Self::Seat> {
        QueueOf::<T, A, B>::new(alloc, room + 1, limit, roles)
    }

    fn leaves(self, alloc: Global, seats: Vec<Self::Seat>) -> Result<Left, Refusal> {
        let (rest, _end) = self.close(alloc, seats)?;
        Ok(left_of(rest))
    }
}

/// The same roles, of seats of a ring.
pub fn ring_roles(alloc: Global, roles: &[Role]) -> Result<Vec<RingRole>, Refusal> {
    let mut rings = Vec::new(alloc);
    for role in roles {
        let role = match role {
            Role::Giver => RingRole::Giver,
            Role::Taker => RingRole::Taker,
            Role::Both => RingRole::Both,
        };
        if rings.push(role).is_err() {
            return Err(Refusal::Memory);
        }
    }
    Ok(rings)
}

impl Made for Numbers<RingQueue> {
    fn made(alloc: Global, room: u32, limit: u64, roles: &[Role]) -> Making<Self, Self::Seat> {
        let (queue, seats) = RingQueue::new(alloc, room, limit, &ring_roles(alloc, roles)?)?;
        Ok((Numbers::new(queue), seats))
    }

    fn leaves(self, alloc: Global, seats: Vec<Self::Seat>) -> Result<Left, Refusal> {
        let (rest, _end) = self.into_queue().close(alloc, seats)?;
        Ok(left_in(rest))
    }
}

impl<T: Value> Made for RingValues<T> {
    fn made(alloc: Global, room: u32, limit: u64, roles: &[Role]) -> Making<Self, Self::Seat> {
        RingValues::<T>::new(alloc, room, limit, &ring_roles(alloc, roles)?)
    }

    fn leaves(self, alloc: Global, seats: Vec<Self::Seat>) -> Result<Left, Refusal> {
        let (rest, _end) = self.close(alloc, seats)?;
        Ok(left_of(rest))
    }
}

macro_rules! made_of_words {
    ($($k:literal)*) => {$(
        impl Made for RingWords<$k> {
            fn made(
                alloc: Global,
                room: u32,
                limit: u64,
                roles: &[Role],
            ) -> Making<Self, Self::Seat> {
                RingWords::new(alloc, room, limit, &ring_roles(alloc, roles)?)
            }

            fn leaves(self, alloc: Global, seats: Vec<Self::Seat>) -> Result<Left, Refusal> {
                let (rest, _end) = self.close(alloc, seats)?;
                Ok(left_of(rest))
            }
        }
    )*};
}

made_of_words!(1 2 3);

// A queue of one of two kinds, with room for its end by its seats.
fn leaves_of<A, B>(
    queue: EitherQueue<A, B>,
    alloc: Global,
    seats: Vec<EitherSeat<A::Seat, B::Seat>>,
) -> Result<Left, Refusal>
where
    A: CloseCarrier<Item: Numbered> + Drop,
    B: CloseCarrier<Item = A::Item> + Drop,
{
    let room = queue.values_room(alloc, seats.len())?;
    let (rest, _end) = queue.close_values_with(room, seats);
    Ok(left_of(rest))
}

/// Of the first kind.
impl<T: Value, A, L, const B: u32> Made for EitherQueue<A, QueueOf<T, L, B>>
where
    A: Made + CloseCarrier<Item = T>,
    L: Algorithm<B>,
{
    fn made(alloc: Global, room: u32, limit: u64, roles: &[Role]) -> Making<Self, Self::Seat> {
        let (queue, seats) = A::made(alloc, room, limit, roles)?;
        Ok((
            EitherQueue::First(queue),
            EitherSeat::all_first(alloc, seats)?,
        ))
    }

    fn leaves(self, alloc: Global, seats: Vec<Self::Seat>) -> Result<Left, Refusal> {
        leaves_of(self, alloc, seats)
    }
}

/// Of the second, a ring.
impl<T: Value, A: Made + CloseCarrier<Item = T>> Made for EitherQueue<A, RingValues<T>> {
    fn made(alloc: Global, room: u32, limit: u64, roles: &[Role]) -> Making<Self, Self::Seat> {
        let (queue, seats) = RingValues::made(alloc, room, limit, roles)?;
        Ok((
            EitherQueue::Second(queue),
            EitherSeat::all_second(alloc, seats)?,
        ))
    }

    fn leaves(self, alloc: Global, seats: Vec<Self::Seat>) -> Result<Left, Refusal> {
        leaves_of(self, alloc, seats)
    }
}
