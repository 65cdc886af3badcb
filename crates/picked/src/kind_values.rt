//! The queue of values of either kind: each call is that of the queue within.
ghost use Rattle.std.specs.Prelude.{◌≡◌, ◌↔◌, IsNone, IfSome, IfOk, IfErr, OnOk, map};
ghost use Rattle.std.specs.List.{All};
ghost use Rattle.line_table.specs.declared.lines.Kind.{Kind};
ghost use Rattle.line_table.specs.declared.lines.Kind.TheVariants.{TwoLock};
ghost use Rattle.node_arena.specs.Plans.{permits_by, IsPlanned};
ghost use Rattle.node_arena.specs.NewArenas.{IsMade, NewRefused};
ghost use Rattle.node_arena.specs.Seats.{KeepsStored, setup_of};
ghost use Rattle.value_queue.specs.Queues.{AreNewOf};
ghost use Rattle.value_queue.specs.Looks.{FoundSoOf, WasSoLongOf};
ghost use Rattle.value_queue.specs.ValuesSeen.{known_by};
ghost use Rattle.picked.specs.Splits.{value_limited_plan as limited_plan, value_picked_plan as picked_plan};
ghost use Rattle.picked.specs.AnyValues.{arena_of, permits_of, IsQueueSeat, carries, PushCause, PopCause, ShutCause};

use crate::forwards::of_kind;
use crate::splits::bits_for;
use crate::values::{TwoLockValues, ValueQueue};
use carriers::{Carrier, CloseCarrier, ItemOf, RestOf, Unpushed};
use counted_ref::most_count;
use history::Refusal;
use line_table::Kind;
use node_arena::{Emptiness, Ended, Len, Role, Seat};
use std::alloc::Global;
use value_queue::Room;

/// A queue of values of either kind whose split is picked by its nodes, so that it lasts as long as one of so many nodes can.
/// Threads share it by reference, each with a seat of its own; its calls are those of a `Carrier`.
#[derive(Drop)]
pub enum AnyValues<T> {
    /// The non-blocking queue.
    NonBlocking(ValueQueue<T>),
    /// The two-lock queue.
    TwoLock(TwoLockValues<T>),
}

impl<T> AnyValues<T> {
    /// A queue of this kind, with so many nodes and slots, from 2 to 4,294,967,294, and a seat for each role, 1 to 65,535 of
    /// them, in their order. Its split is that of `bits_for(nodes)`, its greatest count the greatest one of that split. One
    /// node is always in the queue, so that it holds a value less than it has nodes.
    ///
    /// Refusals: `BadSize` where one of them is out of its range, else `Memory`. Takes memory for three words and a slot a
    /// node, the seats and their roles, and doesn't wait.
    ///
    /// ```rust
    /// let roles = [Role::Giver, Role::Taker];
    /// let (queue, seats) = AnyValues::<String>::new(alloc, Kind::TwoLock, 1024, &roles)?;
    /// ```
    pub fn new(
        alloc: Global,
        kind: Kind,
        nodes: u32,
        roles: &[Role],
    ) -> Result<(AnyValues<T>, Vec<Seat<T>>), Refusal>
        //= values/any (ok, permits, seats, unused, sized, refused): A queue of values of either kind and of a picked split
        //=   meets `Carrier` if its values are `Send`, and `CloseCarrier` if they are `Drop` too; a new one is of the kind and
        //=   nodes asked for, of the split for these and its greatest count, or of a limit by hand; its seats may do what the
        //=   roles say and are unused, and its refusals have their causes.
        ensures ok { IfOk result
            (λ r. IsMade (picked_plan kind nodes roles.now) (arena_of r.0) r.1.items) }
        ensures permits { IfOk result (λ r. permits_of r.0 ≡ permits_by roles.now) }
        ensures seats { IfOk result (λ r. All (IsQueueSeat r.0) r.1.items) }
        ensures unused { IfOk result (λ r. AreNewOf (permits_of r.0) (map known_by r.1.items)) }
        ensures sized { OnOk result (IsPlanned (picked_plan kind nodes roles.now)) }
        ensures refused { IfErr result (NewRefused (picked_plan kind nodes roles.now)) }
    {
        AnyValues::with_limit(alloc, kind, nodes, most_count(bits_for(nodes)), roles)
    }

    /// As `new`, with a greatest count of your own, from 1 to the greatest one of the split: for tests, as a smaller one only
    /// brings `WornOut` sooner.
    ///
    /// ```rust
    /// let (queue, seats) = AnyValues::<String>::with_limit(alloc, Kind::TwoLock, 4, 3, &[Role::Both])?;
    /// ```
    pub fn with_limit(
        alloc: Global,
        kind: Kind,
        nodes: u32,
        limit: u64,
        roles: &[Role],
    ) -> Result<(AnyValues<T>, Vec<Seat<T>>), Refusal>
        //= values/any (ok, permits, seats, unused, sized, refused)
        ensures ok { IfOk result
            (λ r. IsMade (limited_plan kind nodes limit roles.now) (arena_of r.0) r.1.items) }
        ensures permits { IfOk result (λ r. permits_of r.0 ≡ permits_by roles.now) }
        ensures seats { IfOk result (λ r. All (IsQueueSeat r.0) r.1.items) }
        ensures unused { IfOk result (λ r. AreNewOf (permits_of r.0) (map known_by r.1.items)) }
        ensures sized { OnOk result (IsPlanned (limited_plan kind nodes limit roles.now)) }
        ensures refused { IfErr result (NewRefused (limited_plan kind nodes limit roles.now)) }
    {
        match kind {
            Kind::NonBlocking => {
                let (queue, seats) = ValueQueue::with_limit(alloc, nodes, limit, roles)?;
                Ok((AnyValues::NonBlocking(queue), seats))
            }
            Kind::TwoLock => {
                let (queue, seats) = TwoLockValues::with_limit(alloc, nodes, limit, roles)?;
                Ok((AnyValues::TwoLock(queue), seats))
            }
        }
    }

    /// Whether the queue is empty, as `QueueOf::emptiness` tells.
    ///
    /// ```rust
    /// if queue.emptiness(&mut seat) == Emptiness::ShutEmpty {
    ///     return;
    /// }
    /// ```
    pub fn emptiness(&self, seat: &mut Seat<T>) -> Emptiness
        requires { IsQueueSeat self.now seat.old }
        ensures seat { IsQueueSeat self.now seat.new }
        ensures stored { KeepsStored seat.old seat.new }
        //= values/emptiness (seat, stored, found)
        ensures found { FoundSoOf (known_by seat.old) result (known_by seat.new) }
    {
        of_kind!(self, queue => queue.emptiness(seat))
    }

    /// How many values the queue holds, as `QueueOf::len` tells; none exactly of a two-lock queue, whose Tail counts nothing.
    ///
    /// ```rust
    /// if queue.len(&mut seat).is_some_and(|len| len.least > 1000) {
    ///     start_another_worker();
    /// }
    /// ```
    pub fn len(&self, seat: &mut Seat<T>) -> Option<Len>
        requires { IsQueueSeat self.now seat.old }
        ensures seat { IsQueueSeat self.now seat.new }
        ensures stored { KeepsStored seat.old seat.new }
        //= values/any_len (stored, none, long): A queue of values of either kind tells its length as a non-blocking one
        //=   does, and none exactly where it is a two-lock one. The seat stores the same.
        ensures none { IsNone result ↔ ((setup_of (arena_of self.now)).kind ≡ TwoLock) }
        ensures long { IfSome result
            (λ len. WasSoLongOf (known_by seat.old) len (known_by seat.new)) }
    {
        match self {
            AnyValues::NonBlocking(queue) => Some(queue.len(seat)),
            AnyValues::TwoLock(_) => None,
        }
    }
}

//= values/any
impl<T: Send> Carrier for AnyValues<T> {
    ghost use Rattle.value_queue.specs.Sound.{sound-seat, IsQueueSeat-prop};

    type Item = T;

    type Seat = Seat<T>;

    ghost is_seat = { IsQueueSeat };

    ghost permits = { permits_of };

    ghost known = { known_by };

    ghost push_cause = { PushCause };

    ghost pop_cause = { PopCause };

    ghost shut_cause = { ShutCause };

    ghost sound = { λ q s h. sound-seat (arena_of q) (carries q) s h.0.seat };

    ghost closed_alike = { λ _ _ _ _ cause. cause };

    ghost seat_prop = { λ q s. IsQueueSeat-prop (arena_of q) s };

    fn try_push(&self, seat: &mut Seat<T>, value: T, turns: u32) -> Result<(), Unpushed<T>> {
        of_kind!(self, queue => queue.try_push(seat, value, turns))
    }

    fn try_pop(&self, seat: &mut Seat<T>, turns: u32) -> Result<Option<ItemOf<T>>, Refusal> {
        of_kind!(self, queue => queue.try_pop(seat, turns))
    }

    fn try_shut(&self, seat: &mut Seat<T>, turns: u32) -> Result<(), Refusal> {
        of_kind!(self, queue => queue.try_shut(seat, turns))
    }

    fn meet(&self, one: &mut Seat<T>, other: &mut Seat<T>) {
        of_kind!(self, queue => queue.meet(one, other))
    }

    fn may_push(&self, seat: &Seat<T>) -> bool {
        of_kind!(self, queue => queue.may_push(seat))
    }

    fn may_pop(&self, seat: &Seat<T>) -> bool {
        of_kind!(self, queue => queue.may_pop(seat))
    }
}

//= values/any
impl<T: Send + Drop> CloseCarrier for AnyValues<T> {
    ghost use Rattle.carriers.specs.Ends.{ClosesOf};
    ghost use Rattle.value_queue.specs.Ends.{HasRoom, LeavesValues};

    type Room = Room<T>;

    type End = Ended<T>;

    ghost ends = { λ q. LeavesValues (arena_of q) };

    ghost asks = { λ _ _. Unit {0} };

    ghost has_room = { λ q. HasRoom (arena_of q) };

    fn room(&self, alloc: Global) -> Result<Room<T>, Refusal> {
        of_kind!(self, queue => queue.room(alloc))
    }

    fn close_with(self, room: Room<T>, seats: Vec<Seat<T>>) -> (RestOf<T>, Ended<T>)
        requires room { HasRoom (arena_of self) room }
        requires seats { All (IsQueueSeat self) seats.items }
        ensures rest { ClosesOf (permits_of self) (map known_by seats.items) result.0 }
        ensures ends { LeavesValues (arena_of self) result.1 result.0 }
    {
        of_kind!(self, queue => queue.close_with(room, seats))
    }
}
