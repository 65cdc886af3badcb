//! The queues of values of a picked split, a new one, and what a seat can see of it.
ghost use Rattle.std.specs.Prelude.{◌≡◌, ◌≤◌, IfOk, IfErr, OnOk, map, length};
ghost use Rattle.std.specs.List.{All};
ghost use Rattle.line_table.specs.declared.lines.Kind.TheVariants.{NonBlocking, TwoLock};
ghost use Rattle.node_arena.specs.Plans.{permits_by, IsPlanned};
ghost use Rattle.node_arena.specs.NewArenas.{IsMade, NewRefused};
ghost use Rattle.node_arena.specs.Seats.{KeepsStored};
ghost use Rattle.value_queue.specs.Queues.{AreNewOf};
ghost use Rattle.value_queue.specs.ValuesSeen.{known_by};
ghost use Rattle.value_queue.specs.Looks.{FoundSoOf, WasSoLongOf};
ghost use Rattle.picked.specs.Splits.{value_limited_plan as limited_plan, non_blocking_plan};
ghost use Rattle.picked.specs.Values.{arena_of, permits_of, IsQueueSeat};

use crate::forwards::{new_of_split, of_split};
use crate::splits::bits_for;
use arena_queue::Algorithm;
use counted_ref::most_count;
use history::{Refusal, Taken};
use node_arena::{Emptiness, Ended, LeftValues, Len, Role, Seat};
use nonblocking::NonBlockingAlgorithm;
use std::alloc::Global;
use two_lock::TwoLockAlgorithm;
use value_queue::{MsValueQueueOf, QueueOf, TwoLockValueQueueOf};

/// A queue of values that runs an algorithm, and whose split is picked by its nodes, so that it lasts as long as one of so
/// many nodes can. Threads share it by reference, each with a seat of its own; its calls are those of a `Carrier`.
///
/// Nothing is asked of the values' type. A queue that isn't `Drop`, since its values aren't, has to be closed.
#[derive(Drop)]
pub enum SplitOf<T, L>
where
    L: Algorithm<16> + Algorithm<20> + Algorithm<24> + Algorithm<28> + Algorithm<32>,
{
    /// Of up to 65,534 nodes.
    Bits16(QueueOf<T, L, 16>),
    /// Of up to 1,048,574 nodes.
    Bits20(QueueOf<T, L, 20>),
    /// Of up to 16,777,214 nodes.
    Bits24(QueueOf<T, L, 24>),
    /// Of up to 268,435,454 nodes.
    Bits28(QueueOf<T, L, 28>),
    /// Of up to 4,294,967,294 nodes.
    Bits32(QueueOf<T, L, 32>),
}

/// The non-blocking queue of values of a picked split.
pub type ValueQueue<T> = SplitOf<T, NonBlockingAlgorithm>;

/// The two-lock queue of values of a picked split.
pub type TwoLockValues<T> = SplitOf<T, TwoLockAlgorithm>;

impl<T> ValueQueue<T> {
    /// A queue with so many nodes and slots, from 2 to 4,294,967,294, and a seat for each role, 1 to 65,535 of them, in
    /// their order. Its split is that of `bits_for(nodes)`, its greatest count the greatest one of that split. One node is
    /// always in the queue, so that it holds a value less than it has nodes.
    ///
    /// Refusals: `BadSize` where one of them is out of its range, else `Memory`. Takes memory for three words and a slot a
    /// node, the seats and their roles, and doesn't wait.
    ///
    /// ```rust
    /// let roles = [Role::Giver, Role::Taker];
    /// let (queue, seats) = ValueQueue::<String>::new(alloc, 1024, &roles)?;
    /// ```
    pub fn new(
        alloc: Global,
        nodes: u32,
        roles: &[Role],
    ) -> Result<(ValueQueue<T>, Vec<Seat<T>>), Refusal>
        //= values/picked (ok, permits, seats, unused, sized, refused): A new queue of values of a picked split is of the
        //=   nodes asked for, of the split for these and its greatest count, or of a limit by hand; its seats may do what
        //=   the roles say and are unused, and its refusals have their causes.
        ensures ok { IfOk result
            (λ r. IsMade (non_blocking_plan nodes roles.now) (arena_of r.0) r.1.items) }
        ensures permits { IfOk result (λ r. permits_of r.0 ≡ permits_by roles.now) }
        ensures seats { IfOk result (λ r. All (IsQueueSeat r.0) r.1.items) }
        ensures unused { IfOk result (λ r. AreNewOf (permits_of r.0) (map known_by r.1.items)) }
        ensures sized { OnOk result (IsPlanned (non_blocking_plan nodes roles.now)) }
        ensures refused { IfErr result (NewRefused (non_blocking_plan nodes roles.now)) }
    {
        ValueQueue::with_limit(alloc, nodes, most_count(bits_for(nodes)), roles)
    }

    /// As `new`, with a greatest count of your own, from 1 to the greatest one of the split: for tests, as a smaller one only
    /// brings `WornOut` sooner.
    ///
    /// ```rust
    /// let (queue, seats) = ValueQueue::<String>::with_limit(alloc, 4, 3, &[Role::Both])?;
    /// ```
    pub fn with_limit(
        alloc: Global,
        nodes: u32,
        limit: u64,
        roles: &[Role],
    ) -> Result<(ValueQueue<T>, Vec<Seat<T>>), Refusal>
        //= values/picked (ok, permits, seats, unused, sized, refused)
        ensures ok { IfOk result
            (λ r. IsMade (limited_plan NonBlocking nodes limit roles.now) (arena_of r.0) r.1.items) }
        ensures permits { IfOk result (λ r. permits_of r.0 ≡ permits_by roles.now) }
        ensures seats { IfOk result (λ r. All (IsQueueSeat r.0) r.1.items) }
        ensures unused { IfOk result (λ r. AreNewOf (permits_of r.0) (map known_by r.1.items)) }
        ensures sized { OnOk result (IsPlanned (limited_plan NonBlocking nodes limit roles.now)) }
        ensures refused { IfErr result (NewRefused (limited_plan NonBlocking nodes limit roles.now)) }
    {
        new_of_split!(nodes, MsValueQueueOf::new(alloc, nodes, limit, roles))
    }

    /// How many values the queue holds, as `QueueOf::len` tells.
    ///
    /// ```rust
    /// if queue.len(&mut seat).least > 1000 {
    ///     start_another_worker();
    /// }
    /// ```
    pub fn len(&self, seat: &mut Seat<T>) -> Len
        requires { IsQueueSeat self.now seat.old }
        ensures seat { IsQueueSeat self.now seat.new }
        ensures stored { KeepsStored seat.old seat.new }
        //= values/len (seat, stored, long)
        ensures long { WasSoLongOf (known_by seat.old) result (known_by seat.new) }
    {
        of_split!(self, queue => queue.len(seat))
    }
}

impl<T> TwoLockValues<T> {
    /// A queue with so many nodes and slots, from 2 to 4,294,967,294, this greatest count, from 1 to that of the split for
    /// the nodes, and a seat for each role, 1 to 65,535 of them, in their order.
    ///
    /// Refusals: `BadSize` where one of them is out of its range, else `Memory`. Takes memory for three words and a slot a
    /// node, the seats and their roles, and doesn't wait.
    ///
    /// ```rust
    /// let (queue, seats) = TwoLockValues::<String>::with_limit(alloc, 1024, most_count(16), &roles)?;
    /// ```
    pub fn with_limit(
        alloc: Global,
        nodes: u32,
        limit: u64,
        roles: &[Role],
    ) -> Result<(TwoLockValues<T>, Vec<Seat<T>>), Refusal>
        //= values/any (ok, permits, seats, unused, sized, refused)
        ensures ok { IfOk result
            (λ r. IsMade (limited_plan TwoLock nodes limit roles.now) (arena_of r.0) r.1.items) }
        ensures permits { IfOk result (λ r. permits_of r.0 ≡ permits_by roles.now) }
        ensures seats { IfOk result (λ r. All (IsQueueSeat r.0) r.1.items) }
        ensures unused { IfOk result (λ r. AreNewOf (permits_of r.0) (map known_by r.1.items)) }
        ensures sized { OnOk result (IsPlanned (limited_plan TwoLock nodes limit roles.now)) }
        ensures refused { IfErr result (NewRefused (limited_plan TwoLock nodes limit roles.now)) }
    {
        new_of_split!(nodes, TwoLockValueQueueOf::new(alloc, nodes, limit, roles))
    }
}

impl<T, L> SplitOf<T, L>
where
    L: Algorithm<16> + Algorithm<20> + Algorithm<24> + Algorithm<28> + Algorithm<32>,
{
    ghost use Rattle.history.specs.Rests.{left_of};
    ghost use Rattle.node_arena.specs.Ended.{HasRoomFor, Leaves};
    ghost use Rattle.node_arena.specs.AsMany.{pushers, pushers_of};
    ghost use Rattle.node_arena.specs.Leftovers.{rest_in, values_in};
    ghost use Rattle.value_queue.specs.Ends.{ClosesLeft};

    /// Whether the queue is empty, as `QueueOf::emptiness` tells.
    ///
    /// ```rust
    /// if queue.emptiness(&mut seat) == Emptiness::ShutEmpty {
    ///     return;
    /// }
    /// ```
    pub fn emptiness(&self, seat: &mut Seat<T>) -> Emptiness
        requires { IsQueueSeat self.now seat.old }
        ensures seat { IsQueueSeat self.now seat.new }
        ensures stored { KeepsStored seat.old seat.new }
        //= values/emptiness (seat, stored, found)
        ensures found { FoundSoOf (known_by seat.old) result (known_by seat.new) }
    {
        of_split!(self, queue => queue.emptiness(seat))
    }

    /// Ends a queue whose values need not be `Drop`, and the seats handed in, as `QueueOf::close_values` does.
    pub fn close_values(
        self,
        numbers: Vec<Taken>,
        slots: Vec<Option<T>>,
        seats: Vec<Seat<T>>,
    ) -> (LeftValues<T>, Ended<T>)
        requires numbers { HasRoomFor (arena_of self) numbers }
        requires slots { HasRoomFor (arena_of self) slots }
        requires seats { All (IsQueueSeat self) seats.items }
        //= values/closed (rest, few, alike, ends)
        ensures rest { ClosesLeft (permits_of self) (map known_by seats.items) result.0 }
        ensures few { length (values_in result.0) ≤ (arena_of self).plan.setup.size }
        ensures alike { pushers (left_of (rest_in result.0)) ≡ pushers_of (values_in result.0) }
        ensures ends { Leaves (arena_of self) result.1 (rest_in result.0) }
    {
        of_split!(self, queue => queue.close_values(numbers, slots, seats))
    }
}
