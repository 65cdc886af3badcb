//! The end of the queue.
ghost use Rattle.std.specs.Prelude.{◌≡◌, ◌≤◌, [], map, length, vec_capacity, IfOk, IfErr};
ghost use Rattle.std.specs.List.{All};
ghost use Rattle.history.specs.Rests.{taken_of, whole_of, was_shut_of};
ghost use Rattle.carriers.specs.Ends.{ClosesOf};
ghost use Rattle.carriers.specs.Rests.{left_in, taken_in, whole_in, was_shut_in};
ghost use Rattle.ring_queue.specs.Ends.{HasRoomFor};
ghost use Rattle.value_queue.specs.Runs.{as_item};
ghost use Rattle.ring_values.specs.Remains.{rest_in, values_in};
ghost use Rattle.ring_values.specs.ValuesSeen.{known_by};

use crate::queue::RingValues;
use crate::remains::LeftValues;
use carriers::{CloseCarrier, ItemOf, RestOf};
use history::{Refusal, Taken};
use ring_queue::Seat;
use std::alloc::Global;

/// Memory for what may be left of a queue: for a number, a slot and a value of each slot.
#[derive(Drop)]
pub struct Room<T> {
    numbers: Vec<Taken>,
    slots: Vec<Option<T>>,
    values: Vec<ItemOf<T>>,
}

// The values left, moved into an empty list that has room for them.
fn rest_of<T: Drop>(mut left: LeftValues<T>, mut values: Vec<ItemOf<T>>) -> RestOf<T>
    requires room { length (values_in left) ≤ vec_capacity values }
    requires empty { values.items ≡ [] }
    ensures left { left_in result ≡ map as_item (values_in left) }
    ensures taken { taken_in result ≡ taken_of (rest_in left) }
    ensures whole { whole_in result ≡ whole_of (rest_in left) }
    ensures shut { was_shut_in result ≡ was_shut_of (rest_in left) }
{
    let taken = left.taken();
    let whole = left.whole();
    let was_shut = left.was_shut();
    while let Some(front) = left.take_front() {
        values.push(front).unwrap();
    }
    RestOf::of(values, taken, whole, was_shut)
}

impl<T> RingValues<T> {
    ghost use Rattle.ring_values.specs.Ends.{ClosesLeft};
    ghost use Rattle.ring_values.specs.Queues.{plan_of, ring_of, permits_of, IsQueueSeat};

    /// Memory with which `close_values` ends the queue: for a number of each slot, and for what lies in it.
    ///
    /// Refused by `Memory` alone. Takes that memory, and doesn't wait.
    pub fn rooms(&self, alloc: Global) -> Result<(Vec<Taken>, Vec<Option<T>>), Refusal>
        //= ring_values/rooms (numbers, slots, only_memory): Room for an end of a ring of values by `close_values` is room for a
        //=   number of each slot, and for what lies in each. Or Memory.
        ensures numbers { IfOk result (λ r. HasRoomFor (ring_of self.now) r.0) }
        ensures slots { IfOk result (λ r. HasRoomFor (ring_of self.now) r.1) }
        ensures only_memory { IfErr result (λ refusal. refusal ≡ Refusal.Memory) }
    {
        self.ring.rooms(alloc)
    }

    /// Ends a queue whose values need not be `Drop`, with all its seats, as `CloseCarrier::close_with` does: the values left come
    /// out one by one.
    ///
    /// Takes no memory and doesn't wait.
    ///
    /// ```rust
    /// let (numbers, slots) = queue.rooms(alloc)?;
    /// let mut left = queue.close_values(numbers, slots, seats);
    /// while let Some(front) = left.take_front() {
    ///     archive(front.value);
    /// }
    /// ```
    pub fn close_values(
        self,
        numbers: Vec<Taken>,
        slots: Vec<Option<T>>,
        seats: Vec<Seat<T>>,
    ) -> LeftValues<T>
        requires numbers { HasRoomFor (ring_of self) numbers }
        requires slots { HasRoomFor (ring_of self) slots }
        requires seats { All (IsQueueSeat self) seats.items }
        requires all { length seats.items ≡ length (permits_of self) }
        //= ring_values/closed (rest, few): A ring of values that need not be `Drop` tells of its end what `close_with` of
        //=   `CloseCarrier` does, and gives the values left one by one, no more than slots.
        ensures rest { ClosesLeft (permits_of self) (map known_by seats.items) result }
        ensures few { length (values_in result) ≤ (plan_of self).slots }
    {
        let RingValues { ring } = self;
        let (rest, slots) = ring.close_values(numbers, slots, seats);
        LeftValues::of(rest, slots)
    }
}

impl<T: Send + Drop> CloseCarrier for RingValues<T> {
    ghost use Rattle.ring_values.specs.Ends.{HasRoom};
    ghost use Rattle.ring_values.specs.Queues.{permits_of, IsQueueSeat};

    type Room = Room<T>;

    type End = ();

    ghost ends = { λ _ _ _. Unit {0} };

    //= ring_values/rest: An end of a ring of values asks for as many seats as it has. Where each of its seats is among
    //=   them, what is left is whole.
    ghost asks = { λ q seats. length seats ≡ length (permits_of q) };

    //= ring_values/room: Room for what is left of a ring of values is room for a number, a slot and a value of each slot.
    ghost has_room = { HasRoom };

    fn room(&self, alloc: Global) -> Result<Room<T>, Refusal> {
        let (numbers, slots) = self.ring.rooms(alloc)?;
        match Vec::with_capacity(alloc, numbers.capacity()) {
            Ok(values) => Ok(Room {
                numbers,
                slots,
                values,
            }),
            Err(_) => Err(Refusal::Memory),
        }
    }

    fn close_with(self, room: Room<T>, seats: Vec<Seat<T>>) -> (RestOf<T>, ())
        requires room { HasRoom self room }
        requires seats { All (IsQueueSeat self) seats.items }
        requires asked { length (map known_by seats.items) ≡ length (permits_of self) }
        //= ring_values/rest
        ensures rest { ClosesOf (permits_of self) (map known_by seats.items) result.0 }
    {
        let Room {
            numbers,
            slots,
            values,
        } = room;
        let left = self.close_values(numbers, slots, seats);
        (rest_of(left, values), ())
    }
}
