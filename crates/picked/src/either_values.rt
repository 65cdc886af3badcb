//! A queue of values of one of two kinds: each call is that of the queue within, and so is its end.
ghost use Rattle.std.specs.Prelude.{◌≡◌, length, map, IfOk, IfErr};
ghost use Rattle.std.specs.List.{All};
ghost use Rattle.carriers.specs.Ends.{ClosesOf};
ghost use Rattle.picked.specs.Either.{IsEitherSeat, either_permits, either_known};
ghost use Rattle.picked.specs.EitherEnds.{HasEitherRoom, EitherAsks, EitherEnds};

use crate::either::{EitherQueue, EitherSeat};
use crate::either_seats::{EitherEnd, EitherRoom, first_in, seats_room, second_in, taken_out};
use crate::forwards::of_either;
use carriers::{Carrier, CloseCarrier, ItemOf, RestOf, Unpushed};
use history::Refusal;
use std::alloc::Global;

//= values/either: A queue of one of two kinds, both of which meet `Carrier` with values of one type, meets it too; what causes a
//=   refusal is what causes it in the queue within.
impl<A: Carrier + Drop, B: Carrier<Item = A::Item> + Drop> Carrier for EitherQueue<A, B> {
    ghost use Rattle.carriers.specs.Knowledge.{IsSoundOf};
    ghost use Rattle.picked.specs.Either.{EitherCause, either_sound, either_alike, either_prop};

    type Item = A::Item;

    type Seat = EitherSeat<A::Seat, B::Seat>;

    ghost is_seat = { IsEitherSeat A.is_seat B.is_seat };

    ghost permits = { either_permits A.permits B.permits };

    ghost known = { either_known A.known B.known };

    ghost push_cause = { EitherCause A.push_cause B.push_cause };

    ghost pop_cause = { EitherCause A.pop_cause B.pop_cause };

    ghost shut_cause = { EitherCause A.shut_cause B.shut_cause };

    ghost sound = { either_sound IsSoundOf A.is_seat B.is_seat A.permits B.permits A.known B.known A.sound B.sound };

    ghost closed_alike = { either_alike A.push_cause B.push_cause A.shut_cause B.shut_cause A.closed_alike B.closed_alike };

    ghost seat_prop = { either_prop A.is_seat B.is_seat A.seat_prop B.seat_prop };

    #[inline(always)]
    fn try_push(
        &self,
        seat: &mut EitherSeat<A::Seat, B::Seat>,
        value: A::Item,
        turns: u32,
    ) -> Result<(), Unpushed<A::Item>> {
        of_either!(self, seat, queue => queue.try_push(seat, value, turns))
    }

    #[inline(always)]
    fn try_pop(
        &self,
        seat: &mut EitherSeat<A::Seat, B::Seat>,
        turns: u32,
    ) -> Result<Option<ItemOf<A::Item>>, Refusal> {
        of_either!(self, seat, queue => queue.try_pop(seat, turns))
    }

    fn try_shut(&self, seat: &mut EitherSeat<A::Seat, B::Seat>, turns: u32) -> Result<(), Refusal> {
        of_either!(self, seat, queue => queue.try_shut(seat, turns))
    }

    fn meet(
        &self,
        one: &mut EitherSeat<A::Seat, B::Seat>,
        other: &mut EitherSeat<A::Seat, B::Seat>,
    ) {
        match (self, one, other) {
            (EitherQueue::First(queue), EitherSeat::First(one), EitherSeat::First(other)) => {
                queue.meet(one, other)
            }
            (EitherQueue::Second(queue), EitherSeat::Second(one), EitherSeat::Second(other)) => {
                queue.meet(one, other)
            }
            _ => unreachable!(),
        }
    }

    fn may_push(&self, seat: &EitherSeat<A::Seat, B::Seat>) -> bool {
        of_either!(self, seat, queue => queue.may_push(seat))
    }

    fn may_pop(&self, seat: &EitherSeat<A::Seat, B::Seat>) -> bool {
        of_either!(self, seat, queue => queue.may_pop(seat))
    }
}

impl<A: CloseCarrier + Drop, B: CloseCarrier<Item = A::Item> + Drop> EitherQueue<A, B> {
    /// Memory with which a queue of values is ended by so many seats.
    ///
    /// Refused by `Memory` alone. Takes memory for the values left and the seats, and doesn't wait.
    pub fn values_room(
        &self,
        alloc: Global,
        seats: usize,
    ) -> Result<EitherRoom<A::Room, A::Seat, B::Room, B::Seat>, Refusal>
        //= values/either_end (room, only_memory): A queue of one of two kinds, both of which meet `CloseCarrier` with
        //=   values of one type, is ended as the queue within: which room is enough, with room for the seats, which
        //=   seats are, what is left, and which end shows it, are as of that queue. Or Memory.
        ensures room { IfOk result (HasEitherRoom A.has_room B.has_room self.now seats) }
        ensures only_memory { IfErr result (λ refusal. refusal ≡ Refusal.Memory) }
    {
        match self {
            EitherQueue::First(queue) => {
                let values = queue.room(alloc)?;
                Ok(EitherRoom::First(values, seats_room(alloc, seats)?))
            }
            EitherQueue::Second(queue) => {
                let values = queue.room(alloc)?;
                Ok(EitherRoom::Second(values, seats_room(alloc, seats)?))
            }
        }
    }

    /// Ends the queue and the seats handed in, as `CloseCarrier::close_with` of the queue within does. It is no `CloseCarrier`
    /// itself, since its seats have to be taken out of theirs: its room is for them too.
    ///
    /// Takes no memory and doesn't wait.
    ///
    /// ```rust
    /// let room = queue.values_room(alloc, seats.len())?;
    /// let (mut rest, _) = queue.close_values_with(room, seats);
    /// let front = rest.next();
    /// ```
    pub fn close_values_with(
        self,
        room: EitherRoom<A::Room, A::Seat, B::Room, B::Seat>,
        seats: Vec<EitherSeat<A::Seat, B::Seat>>,
    ) -> (RestOf<A::Item>, EitherEnd<A::End, B::End>)
        requires room { HasEitherRoom A.has_room B.has_room self (length seats.items) room }
        requires seats { All (IsEitherSeat A.is_seat B.is_seat self) seats.items }
        requires asked { EitherAsks A.asks B.asks self
            (map (either_known A.known B.known) seats.items) }
        //= values/either_end (rest, ends)
        ensures rest { ClosesOf (either_permits A.permits B.permits self)
            (map (either_known A.known B.known) seats.items) result.0 }
        ensures ends { EitherEnds A.ends B.ends self result.1 result.0 }
    {
        match (self, room) {
            (EitherQueue::First(queue), EitherRoom::First(values, room)) => {
                let (rest, end) = queue.close_with(values, taken_out(seats, room, first_in));
                (rest, EitherEnd::First(end))
            }
            (EitherQueue::Second(queue), EitherRoom::Second(values, room)) => {
                let (rest, end) = queue.close_with(values, taken_out(seats, room, second_in));
                (rest, EitherEnd::Second(end))
            }
            _ => unreachable!(),
        }
    }
}
