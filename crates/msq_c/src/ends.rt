//! The end of a queue, by handles.
ghost use Rattle.std.specs.Prelude.{◌≡◌, ◌+◌, ◌++◌, ◌∷◌, [], map, length, true, IfOk, IfErr, OnOk};
ghost use Rattle.std.specs.List.{All};
ghost use Rattle.history.specs.Ends.{Closes};
ghost use Rattle.owned.specs.Owned.{seat_of};
ghost use Rattle.msq_c.specs.Queues.{known_of, permits_of, EndsWith};
ghost use Rattle.msq_c.specs.Blocks.{queue_of};
ghost use Rattle.msq_c.specs.Seats.{is_full, block_at, queue_at};
ghost use Rattle.msq_c.specs.Ends.{AreFull, AreEmpty, AreOfOne, KeepSeats, owned_at};
ghost use Rattle.msq_c.specs.Ends.{HasAnyRoom, HasRoomOf, IsRoomless, RefusesRoom};
ghost use Rattle.msq_c.specs.Ends.{ClosesHandles, IsMemory, RefusesClose};

use crate::handles::MsqSeat;
use crate::seat_blocks::{EndRoom, Queue, SeatBlock};
use crate::slots::{Slot, all_are_full, empties, lift};
use crate::troubles::Trouble;
use carriers::Numbers;
use history::{Refusal, Rest};
use node_arena::Ended;
use owned::OwnedSeat;
use picked::EitherEnd;
use std::alloc::Global;

/// What an end of a queue gives beside the rest.
pub(crate) type End = EitherEnd<Ended, ()>;

// Room for the end of the queue of a full handle by so many seats, which are all that have a share of it, and enough.
fn room_at(alloc: Global, slot: &mut MsqSeat, count: usize) -> Result<EndRoom, Trouble>
    requires { is_full slot.old ≡ true }
    ensures full { is_full slot.new ≡ true }
    ensures seat { block_at slot.new ≡ block_at slot.old }
    ensures room { IfOk result (HasAnyRoom (queue_at slot.old) count) }
    ensures refused { IfErr result IsRoomless }
{
    let own = lift(alloc, slot);
    let room = own.room(alloc, count);
    *slot = MsqSeat::of(own);
    room
}

// Room for the end of the queue of full handles by all of them.
fn room_of(alloc: Global, slots: &mut [MsqSeat]) -> Result<EndRoom, Trouble>
    requires { AreFull slots.old }
    ensures seats { KeepSeats slots.old slots.new }
    ensures room { IfOk result (HasRoomOf slots.old) }
    ensures refused { IfErr result (RefusesRoom slots.old) }
{
    if slots.is_empty() {
        return Err(Trouble::BadSize);
    }
    let count = slots.len();
    room_at(alloc, &mut slots[0], count)
}

// The seats of full handles, which are left empty; where memory is refused, as they were.
fn take_all(alloc: Global, slots: &mut [MsqSeat]) -> Result<Vec<OwnedSeat<Numbers<Queue>>>, Trouble>
    requires { AreFull slots.old }
    ensures taken { IfOk result (λ owned. owned.items ≡ map owned_at slots.old) }
    ensures empty { OnOk result (AreEmpty slots.new) }
    ensures refused { IfErr result (λ refusal. IsMemory refusal × (slots.new ≡ slots.old)) }
{
    let Ok(mut owned) = Vec::with_capacity(alloc, slots.len()) else {
        return Err(Trouble::Refused(Refusal::Memory));
    };
    let mut handles = empties::<SeatBlock, MsqSeat>(alloc, slots)?;
    slots.swap_with_slice(&mut handles);
    for handle in handles {
        owned.push_reserved(Box::into_inner(handle.into_seat(alloc)).into_owned());
    }
    Ok(owned)
}

// Ends the queue of these seats, the last one and others.
fn ended(
    room: EndRoom,
    last: OwnedSeat<Numbers<Queue>>,
    others: Vec<OwnedSeat<Numbers<Queue>>>,
) -> Result<(Rest, End), Trouble>
    requires room { HasAnyRoom (queue_of last) (length others.items + 1) room }
    requires others { All (λ s. queue_of s ≡ queue_of last) others.items }
    ensures closes { IfOk result (λ r. Closes (permits_of (queue_of last))
        (map (λ s. known_of (seat_of s)) (others.items ++ last ∷ [])) r.0) }
    ensures ends { IfOk result (λ r. EndsWith (queue_of last) r.1 r.0) }
    ensures raced { IfErr result (λ refusal. refusal ≡ Trouble.Raced) }
{
    let EndRoom { rest, seats } = room;
    match last.into_queue(seats, others) {
        Ok((numbers, seats)) => {
            let queue = numbers.into_queue();
            Ok(queue.close_with(rest, seats))
        }
        Err(_) => Err(Trouble::Raced),
    }
}

/// Ends the queue of these handles, which are all that have a share of it.
pub(crate) fn close(alloc: Global, slots: &mut [MsqSeat]) -> Result<(Rest, End), Trouble>
    requires { AreOfOne slots.old }
    ensures closes { IfOk result (λ r. ClosesHandles slots.old r.0 r.1) }
    ensures empty { OnOk result (AreEmpty slots.new) }
    ensures refused { IfErr result (RefusesClose slots.old slots.new) }
{
    if !all_are_full::<SeatBlock, MsqSeat>(slots) {
        return Err(Trouble::NoHandle);
    }
    let room = room_of(alloc, slots)?;
    let mut owned = take_all(alloc, slots)?;
    let Some(last) = owned.pop() else {
        return Err(Trouble::BadSize);
    };
    ended(room, last, owned)
}
