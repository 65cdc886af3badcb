//! Each call is that of the queue within.
use crate::forwards::of_either;
use history::{Body, Fifo, Refusal, Taken};

/// A queue of one of two kinds. Threads share it by reference, each with a seat of its own.
///
/// ```rust
/// let (queue, seats) = RingQueue::new(alloc, 1024, limit, &roles)?;
/// let queue: EitherQueue<PickedQueue, RingQueue> = EitherQueue::Second(queue);
/// ```
#[derive(Drop)]
pub enum EitherQueue<A: Drop, B: Drop> {
    /// One of the first kind.
    First(A),
    /// One of the second.
    Second(B),
}

/// A seat of a queue of one of two kinds.
#[derive(Drop)]
pub enum EitherSeat<S: Drop, T: Drop> {
    /// One of a queue of the first kind.
    First(S),
    /// One of a queue of the second.
    Second(T),
}

//= library/either: A queue of one of two kinds, both of which meet `Fifo`, meets it too; what causes a refusal is what causes it
//=   in the queue within.
impl<A: Fifo + Drop, B: Fifo + Drop> Fifo for EitherQueue<A, B> {
    ghost use Rattle.history.specs.Seats.{IsSound};
    ghost use Rattle.picked.specs.Either.{IsEitherSeat, either_permits, either_known, EitherCause, either_sound, either_alike, either_prop};

    type Seat = EitherSeat<A::Seat, B::Seat>;

    ghost is_seat = { IsEitherSeat A.is_seat B.is_seat };

    ghost permits = { either_permits A.permits B.permits };

    ghost known = { either_known A.known B.known };

    ghost push_cause = { EitherCause A.push_cause B.push_cause };

    ghost pop_cause = { EitherCause A.pop_cause B.pop_cause };

    ghost shut_cause = { EitherCause A.shut_cause B.shut_cause };

    ghost sound = { either_sound IsSound A.is_seat B.is_seat A.permits B.permits A.known B.known A.sound B.sound };

    ghost closed_alike = { either_alike A.push_cause B.push_cause A.shut_cause B.shut_cause A.closed_alike B.closed_alike };

    ghost seat_prop = { either_prop A.is_seat B.is_seat A.seat_prop B.seat_prop };

    fn try_push(
        &self,
        seat: &mut EitherSeat<A::Seat, B::Seat>,
        body: Body,
        turns: u32,
    ) -> Result<(), Refusal> {
        of_either!(self, seat, queue => queue.try_push(seat, body, turns))
    }

    fn try_pop(
        &self,
        seat: &mut EitherSeat<A::Seat, B::Seat>,
        turns: u32,
    ) -> Result<Option<Taken>, Refusal> {
        of_either!(self, seat, queue => queue.try_pop(seat, turns))
    }

    fn try_shut(&self, seat: &mut EitherSeat<A::Seat, B::Seat>, turns: u32) -> Result<(), Refusal> {
        of_either!(self, seat, queue => queue.try_shut(seat, turns))
    }

    fn meet(
        &self,
        one: &mut EitherSeat<A::Seat, B::Seat>,
        other: &mut EitherSeat<A::Seat, B::Seat>,
    ) {
        match (self, one, other) {
            (EitherQueue::First(queue), EitherSeat::First(one), EitherSeat::First(other)) => {
                queue.meet(one, other)
            }
            (EitherQueue::Second(queue), EitherSeat::Second(one), EitherSeat::Second(other)) => {
                queue.meet(one, other)
            }
            _ => unreachable!(),
        }
    }

    fn may_push(&self, seat: &EitherSeat<A::Seat, B::Seat>) -> bool {
        of_either!(self, seat, queue => queue.may_push(seat))
    }

    fn may_pop(&self, seat: &EitherSeat<A::Seat, B::Seat>) -> bool {
        of_either!(self, seat, queue => queue.may_pop(seat))
    }
}
