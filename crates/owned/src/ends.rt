//! The end of a queue of values whose seats own it.
ghost use Rattle.std.specs.Prelude.{◌≡◌, ◌+◌, ◌≤◌, ◌++◌, ◌∷◌, [], length, map, vec_capacity, IfOk, IfErr};
ghost use Rattle.std.specs.List.{All};
ghost use Rattle.carriers.specs.Ends.{ClosesOf};
ghost use Rattle.owned.specs.Owned.{queue_of, seat_of};

use crate::seats::OwnedSeat;
use carriers::{Carrier, CloseCarrier, RestOf};
use history::Refusal;
use std::alloc::Global;
use std::sync::Arc;

/// A queue that wasn't ended by its seats, and what they were.
#[derive(Drop)]
pub enum Unended<C: Carrier + Drop> {
    /// Others have a share of the queue: the seats are as they were.
    InUse(OwnedSeat<C>, Vec<OwnedSeat<C>>),
    /// Memory was refused: the seats are as they were.
    Memory(OwnedSeat<C>, Vec<OwnedSeat<C>>),
    /// Others got a share of the queue while those of the seats were given up: one share of it, and the seats without.
    Raced(Arc<C, Global>, Vec<C::Seat>),
}

// The seats, whose shares are given up, in a list with room for them.
fn without_shares<C: Carrier + Drop>(
    owned: Vec<OwnedSeat<C>>,
    last: C::Seat,
    mut seats: Vec<C::Seat>,
) -> Vec<C::Seat>
    requires empty { seats.items ≡ [] }
    requires room { length owned.items + 1 ≤ vec_capacity seats }
    ensures { result.items ≡ map seat_of owned.items ++ last ∷ [] }
{
    for one in owned {
        let OwnedSeat { queue: _, seat } = one;
        seats.push_reserved(seat);
    }
    seats.push_reserved(last);
    seats
}

impl<C: Carrier + Drop> OwnedSeat<C> {
    ghost use Rattle.owned.specs.Unended.{GivesBack};

    /// The queue of the seat, as its share shows it. Takes no memory and doesn't wait.
    pub fn queue(&self) -> &C
        ensures { result.now ≡ queue_of self.now }
    {
        &self.queue
    }

    /// The queue itself, and its seats without their shares, this one last: who has all of them may end it by what its type
    /// has for that. The list is an empty one with room for the seats.
    ///
    /// Refused `InUse` and `Raced` as `close_with` is. Takes no memory and doesn't wait.
    ///
    /// ```rust
    /// let room = Vec::with_capacity(alloc, others.len() + 1)?;
    /// let (queue, seats) = last.into_queue(room, others)?;
    /// ```
    pub fn into_queue(
        self,
        room: Vec<C::Seat>,
        others: Vec<OwnedSeat<C>>,
    ) -> Result<(C, Vec<C::Seat>), Unended<C>>
        requires empty { room.items ≡ [] }
        requires room { length others.items + 1 ≤ vec_capacity room }
        requires others { All (λ s. queue_of s ≡ queue_of self) others.items }
        //= library/into_queue (queue, seats, sit, back): A queue that comes out is that of the shares given up, with
        //=   their seats, each of which is the queue's. One that doesn't comes back as at `close_with`.
        ensures queue { IfOk result (λ r. r.0 ≡ queue_of self) }
        ensures seats { IfOk result
            (λ r. r.1.items ≡ map seat_of others.items ++ seat_of self ∷ []) }
        ensures sit { IfOk result (λ r. All (C.is_seat r.0) r.1.items) }
        ensures back { IfErr result (GivesBack self others.items) }
    {
        if self.shares() - 1 != others.len() {
            return Err(Unended::InUse(self, others));
        }
        let OwnedSeat { queue, seat } = self;
        let seats = without_shares(others, seat, room);
        match Arc::try_unwrap(queue) {
            Ok(queue) => Ok((queue, seats)),
            Err(queue) => Err(Unended::Raced(queue, seats)),
        }
    }
}

/// Memory for the end of a queue by its seats: for the values left, and for the seats without their shares.
#[derive(Drop)]
pub struct EndRoom<C: CloseCarrier> {
    values: C::Room,
    seats: Vec<C::Seat>,
}

impl<C: CloseCarrier + Drop> OwnedSeat<C> {
    ghost use Rattle.owned.specs.Unended.{GivesBack, HasEndRoom};

    /// Memory with which this seat and so many others end their queue.
    ///
    /// Refused by `Memory` alone. Takes memory for the seats and the values left, and doesn't wait.
    pub fn room(&self, alloc: Global, others: usize) -> Result<EndRoom<C>, Refusal>
        //= library/end_room (room, only_memory): Room for the end of a queue by seats of it is room for what is left, and
        //=   for the seats. Or Memory.
        ensures room { IfOk result (HasEndRoom C.has_room (queue_of self.now) others) }
        ensures only_memory { IfErr result (λ refusal. refusal ≡ Refusal.Memory) }
    {
        let Some(count) = others.checked_add(1) else {
            return Err(Refusal::Memory);
        };
        let values = self.queue.room(alloc)?;
        match Vec::with_capacity(alloc, count) {
            Ok(seats) => Ok(EndRoom { values, seats }),
            Err(_) => Err(Refusal::Memory),
        }
    }

    /// Ends the queue by this seat and others of the same queue: what is left, how many values were taken, whether these
    /// seats made all pushes and pops and, where the queue was shut, the shut, and whether it was; with it comes the queue's
    /// end.
    ///
    /// Refused `InUse` where the queue has not just as many shares: the seats come back as they were. `Raced` where others
    /// got a share while these were given up: the queue comes back, with one share, and the seats, which are as they were
    /// but have none (`OwnedSeat::new` gives them one). Takes no memory and doesn't wait.
    pub fn close_with(
        self,
        room: EndRoom<C>,
        others: Vec<OwnedSeat<C>>,
    ) -> Result<(RestOf<C::Item>, C::End), Unended<C>>
        requires room { HasEndRoom C.has_room (queue_of self) (length others.items) room }
        requires others { All (λ s. queue_of s ≡ queue_of self) others.items }
        requires asked { C.asks (queue_of self)
            (map (λ s. C.known (seat_of s)) (others.items ++ self ∷ [])) }
        //= library/close (rest, ends, back): What is left of a queue ended by seats of it is what its own `close` says of
        //=   these. A queue that isn't ended comes back, with its seats: at `InUse` and `Memory` as they were, at `Raced`
        //=   without their shares. When which of them is answered, no clause says.
        ensures rest { IfOk result (λ r. ClosesOf (C.permits (queue_of self))
            (map (λ s. C.known (seat_of s)) (others.items ++ self ∷ [])) r.0) }
        ensures ends { IfOk result (λ r. C.ends (queue_of self) r.1 r.0) }
        ensures back { IfErr result (GivesBack self others.items) }
    {
        let EndRoom { values, seats } = room;
        let (queue, seats) = self.into_queue(seats, others)?;
        Ok(queue.close_with(values, seats))
    }

    /// Ends the queue as `close_with` does, with room that it takes first.
    ///
    /// Refused as `close_with` is, or `Memory`: the seats come back as they were. Takes memory for the seats and the values
    /// left, and doesn't wait.
    pub fn close(
        self,
        alloc: Global,
        others: Vec<OwnedSeat<C>>,
    ) -> Result<(RestOf<C::Item>, C::End), Unended<C>>
        requires others { All (λ s. queue_of s ≡ queue_of self) others.items }
        requires asked { C.asks (queue_of self)
            (map (λ s. C.known (seat_of s)) (others.items ++ self ∷ [])) }
        //= library/close (rest, ends, back)
        ensures rest { IfOk result (λ r. ClosesOf (C.permits (queue_of self))
            (map (λ s. C.known (seat_of s)) (others.items ++ self ∷ [])) r.0) }
        ensures ends { IfOk result (λ r. C.ends (queue_of self) r.1 r.0) }
        ensures back { IfErr result (GivesBack self others.items) }
    {
        match self.room(alloc, others.len()) {
            Ok(room) => self.close_with(room, others),
            Err(_) => Err(Unended::Memory(self, others)),
        }
    }
}
