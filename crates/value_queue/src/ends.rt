//! The end of the queue.
ghost use Rattle.std.specs.Prelude.{◌≡◌, ◌≤◌, [], map, length, vec_capacity, IfOk, IfErr};
ghost use Rattle.std.specs.List.{All};
ghost use Rattle.history.specs.Rests.{left_of, taken_of, whole_of, was_shut_of};
ghost use Rattle.carriers.specs.Ends.{ClosesOf};
ghost use Rattle.carriers.specs.Rests.{left_in, taken_in, whole_in, was_shut_in};
ghost use Rattle.node_arena.specs.Ended.{HasRoomFor, Leaves};
ghost use Rattle.node_arena.specs.AsMany.{pushers, pushers_of};
ghost use Rattle.node_arena.specs.Leftovers.{rest_in, values_in};
ghost use Rattle.value_queue.specs.ValuesSeen.{known_by};
ghost use Rattle.value_queue.specs.Runs.{as_item};

use crate::queue::QueueOf;
use arena_queue::Algorithm;
use carriers::{CloseCarrier, ItemOf, RestOf};
use history::{Refusal, Taken};
use node_arena::{Ended, LeftValues, Seat};
use std::alloc::Global;

/// Memory for what may be left of a queue: for a number, a slot and a value of each node.
#[derive(Drop)]
pub struct Room<T> {
    numbers: Vec<Taken>,
    slots: Vec<Option<T>>,
    values: Vec<ItemOf<T>>,
}

// The values left, moved into an empty list that has room for them.
fn rest_of<T: Drop>(mut left: LeftValues<T>, mut values: Vec<ItemOf<T>>) -> RestOf<T>
    requires room { length (values_in left) ≤ vec_capacity values }
    requires empty { values.items ≡ [] }
    ensures left { left_in result ≡ map as_item (values_in left) }
    ensures taken { taken_in result ≡ taken_of (rest_in left) }
    ensures whole { whole_in result ≡ whole_of (rest_in left) }
    ensures shut { was_shut_in result ≡ was_shut_of (rest_in left) }
{
    let taken = left.taken();
    let whole = left.whole();
    let was_shut = left.was_shut();
    while let Some(front) = left.take_front() {
        let item = ItemOf {
            from: front.from,
            value: front.value,
        };
        values.push(item).unwrap();
    }
    RestOf::of(values, taken, whole, was_shut)
}

impl<T, A: Algorithm<B>, const B: u32> QueueOf<T, A, B> {
    ghost use Rattle.value_queue.specs.Ends.{ClosesLeft};
    ghost use Rattle.value_queue.specs.Queues.{arena_of, permits_of, IsQueueSeat};

    /// Ends a queue whose values need not be `Drop`, and the seats handed in, as `CloseCarrier::close_with` does: the values
    /// left come out one by one. There is room for a number and a slot of each node.
    ///
    /// Takes no memory and doesn't wait.
    pub fn close_values(
        self,
        numbers: Vec<Taken>,
        slots: Vec<Option<T>>,
        seats: Vec<Seat<T>>,
    ) -> (LeftValues<T>, Ended<T>)
        requires numbers { HasRoomFor (arena_of self) numbers }
        requires slots { HasRoomFor (arena_of self) slots }
        requires seats { All (IsQueueSeat self) seats.items }
        //= values/closed (rest, few, alike, ends): A queue whose values need not be `Drop` tells of its end what `close_with`
        //=   of `CloseCarrier` does, and gives the values left one by one, no more than nodes. The numbers left are those in
        //=   the words of the `Ended`; they were pushed by the same seats as the values left, in the same order.
        ensures rest { ClosesLeft (permits_of self) (map known_by seats.items) result.0 }
        ensures few { length (values_in result.0) ≤ (arena_of self).plan.setup.size }
        ensures alike { pushers (left_of (rest_in result.0)) ≡ pushers_of (values_in result.0) }
        ensures ends { Leaves (arena_of self) result.1 (rest_in result.0) }
    {
        let QueueOf {
            arena,
            algorithm: _,
            moved: _,
        } = self;
        arena.close_values(numbers, slots, seats)
    }
}

impl<T: Send + Drop, A: Algorithm<B>, const B: u32> CloseCarrier for QueueOf<T, A, B> {
    ghost use Rattle.value_queue.specs.Ends.{HasRoom, LeavesValues};
    ghost use Rattle.value_queue.specs.Queues.{arena_of, permits_of, IsQueueSeat};

    type Room = Room<T>;

    type End = Ended<T>;

    ghost ends = { λ q. LeavesValues (arena_of q) };

    ghost asks = { λ _ _. Unit {0} };

    ghost has_room = { λ q. HasRoom (arena_of q) };

    fn room(&self, alloc: Global) -> Result<Room<T>, Refusal> {
        let (numbers, slots) = self.arena.rooms(alloc)?;
        match Vec::with_capacity(alloc, self.arena.setup().size as usize) {
            Ok(values) => Ok(Room {
                numbers,
                slots,
                values,
            }),
            Err(_) => Err(Refusal::Memory),
        }
    }

    fn close_with(self, room: Room<T>, seats: Vec<Seat<T>>) -> (RestOf<T>, Ended<T>)
        requires room { HasRoom (arena_of self) room }
        requires seats { All (IsQueueSeat self) seats.items }
        ensures rest { ClosesOf (permits_of self) (map known_by seats.items) result.0 }
        ensures ends { LeavesValues (arena_of self) result.1 result.0 }
    {
        let Room {
            numbers,
            slots,
            values,
        } = room;
        let (left, ended) = self.close_values(numbers, slots, seats);
        (rest_of(left, values), ended)
    }
}
