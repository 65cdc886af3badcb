//! A queue of one of two kinds, of one that is there with its seats; and its end, for which its seats are taken out of theirs.
ghost use Rattle.std.specs.Prelude.{◌≡◌, ◌≤◌, [], length, map, vec_capacity, IfOk, IfErr};
ghost use Rattle.std.specs.List.{All};
ghost use Rattle.history.specs.Ends.{Closes};
ghost use Rattle.picked.specs.Either.{IsEitherSeat, IsFirst, IsSecond, first_of, second_of, as_first, as_second, either_permits, either_known};
ghost use Rattle.picked.specs.EitherEnds.{HasEitherRoom, EitherAsks, EitherEnds, AreTaken};

use crate::either::{EitherQueue, EitherSeat};
use history::{Close, Fifo, Refusal, Rest, Taken};
use std::alloc::Global;

/// Memory for the end of a queue of one of two kinds: for the values left, and for its seats as those of its kind.
#[derive(Drop)]
pub enum EitherRoom<V: Drop, S: Drop, W: Drop, T: Drop> {
    /// For one of the first kind.
    First(V, Vec<S>),
    /// For one of the second.
    Second(W, Vec<T>),
}

/// What the end of a queue of one of two kinds gives beside the rest: what that of the queue within does.
#[derive(Drop)]
pub enum EitherEnd<C: Drop, D: Drop> {
    /// One of the first kind.
    First(C),
    /// One of the second.
    Second(D),
}

impl<S: Drop, T: Drop> EitherSeat<S, T> {
    /// The seats of a queue of the first kind as those of one of two kinds, in their order.
    ///
    /// Refused by `Memory` alone; the seats are then given up. Takes memory for the list, and doesn't wait.
    ///
    /// ```rust
    /// let (queue, seats) = AnyValues::<Job>::new(alloc, Kind::NonBlocking, 1024, &roles)?;
    /// let seats = EitherSeat::all_first(alloc, seats)?;
    /// let queue: EitherQueue<AnyValues<Job>, RingValues<Job>> = EitherQueue::First(queue);
    /// ```
    pub fn all_first(alloc: Global, seats: Vec<S>) -> Result<Vec<EitherSeat<S, T>>, Refusal>
        //= library/either_made (seats, only_memory): A queue and its seats become one of two kinds and its seats, in
        //=   their order, each of which is the queue's. Or Memory.
        ensures seats { IfOk result (λ r. r.items ≡ map as_first seats.items) }
        ensures only_memory { IfErr result (λ refusal. refusal ≡ Refusal.Memory) }
    {
        let Ok(mut list) = Vec::with_capacity(alloc, seats.len()) else {
            return Err(Refusal::Memory);
        };
        for seat in seats {
            list.push_reserved(EitherSeat::First(seat));
        }
        Ok(list)
    }

    /// The seats of a queue of the second kind as those of one of two kinds, in their order.
    ///
    /// Refused by `Memory` alone; the seats are then given up. Takes memory for the list, and doesn't wait.
    pub fn all_second(alloc: Global, seats: Vec<T>) -> Result<Vec<EitherSeat<S, T>>, Refusal>
        //= library/either_made (seats, only_memory)
        ensures seats { IfOk result (λ r. r.items ≡ map as_second seats.items) }
        ensures only_memory { IfErr result (λ refusal. refusal ≡ Refusal.Memory) }
    {
        let Ok(mut list) = Vec::with_capacity(alloc, seats.len()) else {
            return Err(Refusal::Memory);
        };
        for seat in seats {
            list.push_reserved(EitherSeat::Second(seat));
        }
        Ok(list)
    }
}

// The seat within one of the first kind.
pub(crate) fn first_in<S: Drop, T: Drop>(seat: EitherSeat<S, T>) -> S
    requires { IsFirst seat }
    ensures { seat ≡ as_first result }
{
    match seat {
        EitherSeat::First(seat) => seat,
        EitherSeat::Second(_) => unreachable!(),
    }
}

// The seat within one of the second.
pub(crate) fn second_in<S: Drop, T: Drop>(seat: EitherSeat<S, T>) -> T
    requires { IsSecond seat }
    ensures { seat ≡ as_second result }
{
    match seat {
        EitherSeat::First(_) => unreachable!(),
        EitherSeat::Second(seat) => seat,
    }
}

// What `take` makes of each seat, put into a list with room for them.
pub(crate) fn taken_out<X: Drop, S: Drop, F: Fn(X) -> S + Drop>(
    seats: Vec<X>,
    mut room: Vec<S>,
    take: F,
) -> Vec<S>
    requires each { All (F.pre take) seats.items }
    requires empty { room.items ≡ [] }
    requires room { length seats.items ≤ vec_capacity room }
    ensures { AreTaken (F.post take) seats.items result.items }
{
    for seat in seats {
        room.push_reserved(take(seat));
    }
    room
}

// Room for so many seats.
pub(crate) fn seats_room<S: Drop>(alloc: Global, count: usize) -> Result<Vec<S>, Refusal>
    ensures room { IfOk result (λ r. (r.items ≡ []) × (count ≤ vec_capacity r)) }
    ensures only_memory { IfErr result (λ refusal. refusal ≡ Refusal.Memory) }
{
    match Vec::with_capacity(alloc, count) {
        Ok(room) => Ok(room),
        Err(_) => Err(Refusal::Memory),
    }
}

impl<A: Fifo + Drop, B: Fifo + Drop> EitherQueue<A, B> {
    /// This queue, of the first kind, with its seats, in their order.
    ///
    /// Refused by `Memory` alone; the queue is then given up. Takes memory for the list, and doesn't wait.
    ///
    /// ```rust
    /// let (queue, seats) = PickedQueue::new(alloc, Kind::NonBlocking, 1024, &roles)?;
    /// let (queue, seats) = EitherQueue::<PickedQueue, RingQueue>::of_first(alloc, queue, seats)?;
    /// ```
    pub fn of_first(
        alloc: Global,
        queue: A,
        seats: Vec<A::Seat>,
    ) -> Result<(EitherQueue<A, B>, Vec<EitherSeat<A::Seat, B::Seat>>), Refusal>
        requires { All (A.is_seat queue) seats.items }
        //= library/either_made (queue, seats, each, only_memory)
        ensures queue { IfOk result (λ r. r.0 ≡ first_of queue) }
        ensures seats { IfOk result (λ r. r.1.items ≡ map as_first seats.items) }
        ensures each { IfOk result (λ r. All (IsEitherSeat A.is_seat B.is_seat r.0) r.1.items) }
        ensures only_memory { IfErr result (λ refusal. refusal ≡ Refusal.Memory) }
    {
        let list = EitherSeat::all_first(alloc, seats)?;
        Ok((EitherQueue::First(queue), list))
    }

    /// This queue, of the second kind, with its seats, in their order.
    ///
    /// Refused by `Memory` alone; the queue is then given up. Takes memory for the list, and doesn't wait.
    ///
    /// ```rust
    /// let (queue, seats) = RingQueue::new(alloc, 1024, limit, &roles)?;
    /// let (queue, seats) = EitherQueue::<PickedQueue, RingQueue>::of_second(alloc, queue, seats)?;
    /// ```
    pub fn of_second(
        alloc: Global,
        queue: B,
        seats: Vec<B::Seat>,
    ) -> Result<(EitherQueue<A, B>, Vec<EitherSeat<A::Seat, B::Seat>>), Refusal>
        requires { All (B.is_seat queue) seats.items }
        //= library/either_made (queue, seats, each, only_memory)
        ensures queue { IfOk result (λ r. r.0 ≡ second_of queue) }
        ensures seats { IfOk result (λ r. r.1.items ≡ map as_second seats.items) }
        ensures each { IfOk result (λ r. All (IsEitherSeat A.is_seat B.is_seat r.0) r.1.items) }
        ensures only_memory { IfErr result (λ refusal. refusal ≡ Refusal.Memory) }
    {
        let list = EitherSeat::all_second(alloc, seats)?;
        Ok((EitherQueue::Second(queue), list))
    }
}

impl<A: Close + Drop, B: Close + Drop> EitherQueue<A, B> {
    /// Memory with which the queue is ended by so many seats.
    ///
    /// Refused by `Memory` alone. Takes memory for the values left and the seats, and doesn't wait.
    pub fn room(
        &self,
        alloc: Global,
        seats: usize,
    ) -> Result<EitherRoom<Vec<Taken>, A::Seat, Vec<Taken>, B::Seat>, Refusal>
        //= library/either_end (room, only_memory): A queue of one of two kinds, both of which meet `Close`, is ended
        //=   as the queue within: which room is enough, with room for the seats, which seats are, what is left, and
        //=   which end shows it, are as of that queue. Or Memory.
        ensures room { IfOk result (HasEitherRoom A.has_room B.has_room self.now seats) }
        ensures only_memory { IfErr result (λ refusal. refusal ≡ Refusal.Memory) }
    {
        match self {
            EitherQueue::First(queue) => {
                let values = queue.room(alloc)?;
                Ok(EitherRoom::First(values, seats_room(alloc, seats)?))
            }
            EitherQueue::Second(queue) => {
                let values = queue.room(alloc)?;
                Ok(EitherRoom::Second(values, seats_room(alloc, seats)?))
            }
        }
    }

    /// Ends the queue and the seats handed in, as `Close::close_with` of the queue within does. It is no `Close` itself, since
    /// its seats have to be taken out of theirs: its room is for them too.
    ///
    /// Takes no memory and doesn't wait.
    ///
    /// ```rust
    /// let room = queue.room(alloc, seats.len())?;
    /// let (mut rest, _) = queue.close_with(room, seats);
    /// let front = rest.next();
    /// ```
    pub fn close_with(
        self,
        room: EitherRoom<Vec<Taken>, A::Seat, Vec<Taken>, B::Seat>,
        seats: Vec<EitherSeat<A::Seat, B::Seat>>,
    ) -> (Rest, EitherEnd<A::End, B::End>)
        requires room { HasEitherRoom A.has_room B.has_room self (length seats.items) room }
        requires seats { All (IsEitherSeat A.is_seat B.is_seat self) seats.items }
        requires asked { EitherAsks A.asks B.asks self
            (map (either_known A.known B.known) seats.items) }
        //= library/either_end (rest, ends)
        ensures rest { Closes (either_permits A.permits B.permits self)
            (map (either_known A.known B.known) seats.items) result.0 }
        ensures ends { EitherEnds A.ends B.ends self result.1 result.0 }
    {
        match (self, room) {
            (EitherQueue::First(queue), EitherRoom::First(values, room)) => {
                let (rest, end) = queue.close_with(values, taken_out(seats, room, first_in));
                (rest, EitherEnd::First(end))
            }
            (EitherQueue::Second(queue), EitherRoom::Second(values, room)) => {
                let (rest, end) = queue.close_with(values, taken_out(seats, room, second_in));
                (rest, EitherEnd::Second(end))
            }
            _ => unreachable!(),
        }
    }
}
