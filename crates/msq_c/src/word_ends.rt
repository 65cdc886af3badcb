//! The end of a queue of words, by handles.
ghost use Rattle.std.specs.Prelude.{◌≡◌, ◌++◌, ◌∷◌, [], map, length, true, IfOk, IfErr, OnOk};
ghost use Rattle.std.specs.List.{All};
ghost use Rattle.carriers.specs.Ends.{ClosesOf};
ghost use Rattle.value_queue.specs.ValuesSeen.{known_by};
ghost use Rattle.value_queue.specs.Ends.{LeavesValues};
ghost use Rattle.picked.specs.AnyValues.{arena_of, permits_of};
ghost use Rattle.owned.specs.Owned.{queue_of, seat_of};
ghost use Rattle.msq_c.specs.Ends.{IsMemory};
ghost use Rattle.msq_c.specs.WordSeats.{queue_at};
ghost use Rattle.msq_c.specs.WordEnds.{AreFull, AreEmpty, AreOfOne, KeepSeats, owned_at};
ghost use Rattle.msq_c.specs.WordEnds.{HasAnyRoom, HasRoomOf, RefusesRoom};
ghost use Rattle.msq_c.specs.WordEnds.{ClosesHandles, RefusesClose};

use crate::slots::{Slot, all_are_full, empties, lift};
use crate::troubles::Trouble;
use crate::word_blocks::WordsBlock;
use carriers::RestOf;
use history::Refusal;
use node_arena::Ended;
use owned::{EndRoom, OwnedSeat};
use picked::AnyValues;
use std::alloc::Global;

// How many shares there are of the queue of a full handle.
fn shares_at<T: Send + Drop, H: Slot<WordsBlock<AnyValues<T>>>>(
    alloc: Global,
    slot: &mut H,
) -> usize
    requires { H.holds slot.old ≡ true }
    ensures full { H.holds slot.new ≡ true }
    ensures seat { H.own slot.new ≡ H.own slot.old }
{
    let own = lift(alloc, slot);
    let shares = own.shares();
    *slot = H::of(own);
    shares
}

// How many shares there are of the queue of full handles, by the first one.
fn shares_of<T: Send + Drop, H: Slot<WordsBlock<AnyValues<T>>>>(
    alloc: Global,
    slots: &mut [H],
) -> usize
    requires { AreFull H.holds slots.old }
    ensures { KeepSeats H.holds H.own slots.old slots.new }
{
    if slots.is_empty() {
        return 0;
    }
    shares_at::<T, H>(alloc, &mut slots[0])
}

// Room for the end of the queue of a full handle, by its seat and so many others.
fn room_at<T: Send + Drop, H: Slot<WordsBlock<AnyValues<T>>>>(
    alloc: Global,
    slot: &mut H,
    others: usize,
) -> Result<EndRoom<AnyValues<T>>, Trouble>
    requires { H.holds slot.old ≡ true }
    ensures full { H.holds slot.new ≡ true }
    ensures seat { H.own slot.new ≡ H.own slot.old }
    ensures room { IfOk result (HasAnyRoom (queue_at H.own slot.old) others) }
    ensures only_memory { IfErr result IsMemory }
{
    let own = lift(alloc, slot);
    let room = own.room(alloc, others);
    *slot = H::of(own);
    room
}

// Room for the end of the queue of full handles by all of them.
fn room_of<T: Send + Drop, H: Slot<WordsBlock<AnyValues<T>>>>(
    alloc: Global,
    slots: &mut [H],
) -> Result<EndRoom<AnyValues<T>>, Trouble>
    requires { AreFull H.holds slots.old }
    ensures seats { KeepSeats H.holds H.own slots.old slots.new }
    ensures room { IfOk result (HasRoomOf H.holds H.own slots.old) }
    ensures refused { IfErr result (RefusesRoom slots.old) }
{
    if slots.is_empty() {
        return Err(Trouble::BadSize);
    }
    let others = slots.len() - 1;
    room_at::<T, H>(alloc, &mut slots[0], others)
}

// The seats of full handles, which are left empty; where memory is refused, as they were.
fn take_all<T: Send + Drop, H: Slot<WordsBlock<AnyValues<T>>>>(
    alloc: Global,
    slots: &mut [H],
) -> Result<Vec<OwnedSeat<AnyValues<T>>>, Trouble>
    requires { AreFull H.holds slots.old }
    ensures taken { IfOk result (λ owned. owned.items ≡ map (owned_at H.own) slots.old) }
    ensures empty { OnOk result (AreEmpty H.holds slots.new) }
    ensures refused { IfErr result (λ refusal. IsMemory refusal × (slots.new ≡ slots.old)) }
{
    let Ok(mut owned) = Vec::with_capacity(alloc, slots.len()) else {
        return Err(Trouble::Refused(Refusal::Memory));
    };
    let mut handles = empties::<WordsBlock<AnyValues<T>>, H>(alloc, slots)?;
    slots.swap_with_slice(&mut handles);
    for handle in handles {
        owned.push_reserved(Box::into_inner(handle.into_seat(alloc)).into_owned());
    }
    Ok(owned)
}

// Ends the queue of these seats, the last one and others.
fn ended<T: Send + Drop>(
    room: EndRoom<AnyValues<T>>,
    last: OwnedSeat<AnyValues<T>>,
    others: Vec<OwnedSeat<AnyValues<T>>>,
) -> Result<(RestOf<T>, Ended<T>), Trouble>
    requires room { HasAnyRoom (queue_of last) (length others.items) room }
    requires others { All (λ s. queue_of s ≡ queue_of last) others.items }
    ensures closes { IfOk result (λ r. ClosesOf (permits_of (queue_of last))
        (map (λ s. known_by (seat_of s)) (others.items ++ last ∷ [])) r.0) }
    ensures ends { IfOk result (λ r. LeavesValues (arena_of (queue_of last)) r.1 r.0) }
    ensures raced { IfErr result (λ refusal. refusal ≡ Trouble.Raced) }
{
    match last.close_with(room, others) {
        Ok(closed) => Ok(closed),
        Err(_) => Err(Trouble::Raced),
    }
}

/// Ends the queue of these handles, which are all that have a share of it.
pub(crate) fn close<T: Send + Drop, H: Slot<WordsBlock<AnyValues<T>>>>(
    alloc: Global,
    slots: &mut [H],
) -> Result<(RestOf<T>, Ended<T>), Trouble>
    requires { AreOfOne H.holds H.own slots.old }
    ensures closes { IfOk result (λ r. ClosesHandles H.own slots.old r.0 r.1) }
    ensures empty { OnOk result (AreEmpty H.holds slots.new) }
    ensures refused { IfErr result (RefusesClose H.holds H.own slots.old slots.new) }
{
    if !all_are_full::<WordsBlock<AnyValues<T>>, H>(slots) {
        return Err(Trouble::NoHandle);
    }
    if shares_of::<T, H>(alloc, slots) != slots.len() {
        return Err(Trouble::InUse);
    }
    let room = room_of::<T, H>(alloc, slots)?;
    let mut owned = take_all::<T, H>(alloc, slots)?;
    let Some(last) = owned.pop() else {
        return Err(Trouble::BadSize);
    };
    ended(room, last, owned)
}
