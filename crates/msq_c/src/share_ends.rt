//! The end of a queue whose calls are stepped, by handles.
ghost use Rattle.std.specs.Prelude.{◌≡◌, ◌+◌, ◌≤◌, ◌++◌, ◌∷◌, ℕ, List, [], map, length, vec_capacity, true, IfOk, IfErr, OnOk};
ghost use Rattle.std.specs.List.{All};
ghost use Rattle.shared_queue.specs.Sharing.{share_queue};
ghost use Rattle.msq_c.specs.Blocks.{numbers};
ghost use Rattle.msq_c.specs.Ends.{IsRoomless};
ghost use Rattle.msq_c.specs.NewShares.{share_at};
ghost use Rattle.msq_c.specs.ShareEnds.{AreOfOne, KeepSeats, HasRoomOf, RefusesRoom, IsWith};
ghost use Rattle.msq_c.specs.ShareEnds.{ClosesHandles, RefusesClose, seat_at, queue_at};
ghost use Rattle.msq_c.specs.ShareEnds.{has_numbers_room, closes_numbers, ends_numbers};
ghost use Rattle.msq_c.specs.WordEnds.{AreFull, AreEmpty};

use crate::ends::End;
use crate::seat_blocks::{Queue, QueueSeat, RestRoom, rest_room};
use crate::share_blocks::ShareBlock;
use crate::slots::{Slot, all_are_full, empties, lift};
use crate::troubles::Trouble;
use carriers::{Carrier, Numbers};
use history::{Refusal, Rest};
use std::alloc::Global;
use std::sync::Arc;

/// A queue that is ended by seats without their shares.
pub trait EndQueue: Carrier + Drop + Sized {
    /// Memory for what may be left of the queue, and its seats as those of its kind.
    type Room: Drop;

    /// What is left.
    type Rest: Drop;

    /// What an end gives beside the rest.
    type End: Drop;

    // There is room for the end of a queue by so many seats, which are enough for it.
    ghost has_room: { Self → ℕ → Self.Room → Type 0 };

    // A queue was closed by these seats, with this rest.
    ghost closes: { Self → List Self.Seat → Self.Rest → Type 0 };

    // This is the end of a queue, and it leaves this rest.
    ghost ends: { Self → Self.End → Self.Rest → Type 0 };

    /// Room for the end by so many seats, where they are enough.
    fn end_room(&self, alloc: Global, count: usize) -> Result<Self::Room, Trouble>
        ensures room { IfOk result (has_room self.now count) }
        ensures refused { IfErr result IsRoomless };

    /// Ends the queue by these seats.
    fn end_with(self, room: Self::Room, seats: Vec<Self::Seat>) -> (Self::Rest, Self::End)
        requires room { has_room self (length seats.items) room }
        requires seats { All (Self.is_seat self) seats.items }
        ensures closes { closes self seats.items result.0 }
        ensures ends { ends self result.1 result.0 };
}

impl EndQueue for Numbers<Queue> {
    type Room = RestRoom;

    type Rest = Rest;

    type End = End;

    ghost has_room = { has_numbers_room };

    ghost closes = { closes_numbers };

    ghost ends = { ends_numbers };

    fn end_room(&self, alloc: Global, count: usize) -> Result<RestRoom, Trouble> {
        rest_room(alloc, self.queue(), count)
    }

    fn end_with(self, room: RestRoom, seats: Vec<QueueSeat>) -> (Rest, End)
        requires room { has_numbers_room self (length seats.items) room }
        requires seats { All (numbers.is_seat self) seats.items }
        ensures closes { closes_numbers self seats.items result.0 }
        ensures ends { ends_numbers self result.1 result.0 }
    {
        self.into_queue().close_with(room, seats)
    }
}

// Room for the end of the queue of a full handle by so many seats, where they are enough.
fn room_at<C: EndQueue, H: Slot<ShareBlock<C>>>(
    alloc: Global,
    slot: &mut H,
    count: usize,
) -> Result<C::Room, Trouble>
    requires { H.holds slot.old ≡ true }
    ensures full { H.holds slot.new ≡ true }
    ensures seat { H.own slot.new ≡ H.own slot.old }
    ensures room { IfOk result (C.has_room (queue_at H.own slot.old) count) }
    ensures refused { IfErr result IsRoomless }
{
    let own = lift(alloc, slot);
    let room = own.queue().end_room(alloc, count);
    *slot = H::of(own);
    room
}

// Room for the end of the queue of full handles by all of them.
fn room_of<C: EndQueue, H: Slot<ShareBlock<C>>>(
    alloc: Global,
    slots: &mut [H],
) -> Result<C::Room, Trouble>
    requires { AreFull H.holds slots.old }
    ensures seats { KeepSeats H.holds H.own slots.old slots.new }
    ensures room { IfOk result (HasRoomOf H.holds H.own C.has_room slots.old) }
    ensures refused { IfErr result (RefusesRoom slots.old) }
{
    if slots.is_empty() {
        return Err(Trouble::BadSize);
    }
    let count = slots.len();
    room_at::<C, H>(alloc, &mut slots[0], count)
}

// The seats of full handles, whose shares are given up, and this seat last.
fn without_shares<C: Carrier + Drop, H: Slot<ShareBlock<C>>>(
    alloc: Global,
    handles: Vec<H>,
    last: C::Seat,
    mut seats: Vec<C::Seat>,
) -> Vec<C::Seat>
    requires full { AreFull H.holds handles.items }
    requires empty { seats.items ≡ [] }
    requires room { length handles.items + 1 ≤ vec_capacity seats }
    ensures seats { result.items ≡ map (seat_at H.own) handles.items ++ last ∷ [] }
    ensures sit { (q : C) → C.is_seat q last
        → All (λ h. share_queue (share_at H.own h) ≡ q) handles.items
        → All (C.is_seat q) result.items }
{
    for handle in handles {
        let (_, seat) = Box::into_inner(handle.into_seat(alloc))
            .into_share()
            .into_parts();
        seats.push_reserved(seat);
    }
    seats.push_reserved(last);
    seats
}

// Ends the queue of full handles, the last one and others.
fn ended<C: EndQueue, H: Slot<ShareBlock<C>>>(
    alloc: Global,
    room: C::Room,
    seats: Vec<C::Seat>,
    last: H,
    others: Vec<H>,
) -> Result<(C::Rest, C::End), Trouble>
    requires last { H.holds last ≡ true }
    requires full { AreFull H.holds others.items }
    requires one { All (IsWith H.own last) others.items }
    requires room { C.has_room (queue_at H.own last) (length others.items + 1) room }
    requires empty { seats.items ≡ [] }
    requires some { length others.items + 1 ≤ vec_capacity seats }
    ensures closes { IfOk result (λ r. C.closes (queue_at H.own last)
        (map (seat_at H.own) (others.items ++ last ∷ [])) r.0) }
    ensures ends { IfOk result (λ r. C.ends (queue_at H.own last) r.1 r.0) }
    ensures raced { IfErr result (λ refusal. refusal ≡ Trouble.Raced) }
{
    let (share, seat) = Box::into_inner(last.into_seat(alloc))
        .into_share()
        .into_parts();
    let seats = without_shares::<C, H>(alloc, others, seat, seats);
    match Arc::try_unwrap(share) {
        Ok(stepped) => Ok(stepped.into_inner().end_with(room, seats)),
        Err(_) => Err(Trouble::Raced),
    }
}

/// Ends the queue of these handles, which are all that have a share of it.
pub(crate) fn close<C: EndQueue, H: Slot<ShareBlock<C>>>(
    alloc: Global,
    slots: &mut [H],
) -> Result<(C::Rest, C::End), Trouble>
    requires { AreOfOne H.holds H.own slots.old }
    ensures closes { IfOk result (λ r. ClosesHandles H.own C.closes C.ends slots.old r.0 r.1) }
    ensures empty { OnOk result (AreEmpty H.holds slots.new) }
    ensures refused { IfErr result (RefusesClose H.holds H.own slots.old slots.new) }
{
    if !all_are_full::<ShareBlock<C>, H>(slots) {
        return Err(Trouble::NoHandle);
    }
    let Ok(seats) = Vec::with_capacity(alloc, slots.len()) else {
        return Err(Trouble::Refused(Refusal::Memory));
    };
    let room = room_of::<C, H>(alloc, slots)?;
    let mut handles = empties::<ShareBlock<C>, H>(alloc, slots)?;
    slots.swap_with_slice(&mut handles);
    let Some(last) = handles.pop() else {
        return Err(Trouble::BadSize);
    };
    ended::<C, H>(alloc, room, seats, last, handles)
}
