//! The queue of a picked split: each call is that of the queue within.
ghost use Rattle.std.specs.Prelude.{◌≡◌, ◌↔◌, IsNone, IfSome, IfOk, IfErr, OnOk, map};
ghost use Rattle.std.specs.List.{All};
ghost use Rattle.line_table.specs.declared.lines.Kind.{Kind};
ghost use Rattle.line_table.specs.declared.lines.Kind.TheVariants.{TwoLock};
ghost use Rattle.node_arena.specs.NewArenas.{IsMade, NewRefused};
ghost use Rattle.node_arena.specs.Plans.{permits_by, IsPlanned};
ghost use Rattle.node_arena.specs.Seats.{KeepsStored, known_of, setup_of, plan_of};
ghost use Rattle.node_arena.specs.Looks.{FoundSo, WasSoLong};
ghost use Rattle.arena_queue.specs.Lefts.{HasLeft};
ghost use Rattle.history.specs.Openings.{AreNew};
ghost use Rattle.picked.specs.Splits.{limited_plan, picked_plan};
ghost use Rattle.picked.specs.Picked.{picked_arena_of, picked_permits_of, IsPickedSeat, PickedPushRefused, PickedPopRefused, PickedShutRefused};

use crate::any::AnyQueueOf;
use crate::forwards::{new_of_split, of_split};
use crate::splits::bits_for;
use arena_queue::Left;
use counted_ref::most_count;
use history::{Body, Close, Fifo, Refusal, Rest, Taken};
use line_table::Kind;
use node_arena::{Emptiness, Ended, Len, Role, Seat};
use std::alloc::Global;

/// A queue of either kind whose split is picked by its nodes, so that it lasts as long as one of so many nodes can. Threads
/// share it by reference, each with a seat of its own.
#[derive(Drop)]
pub enum PickedQueue {
    /// Of up to 65,534 nodes.
    Bits16(AnyQueueOf<16>),
    /// Of up to 1,048,574 nodes.
    Bits20(AnyQueueOf<20>),
    /// Of up to 16,777,214 nodes.
    Bits24(AnyQueueOf<24>),
    /// Of up to 268,435,454 nodes.
    Bits28(AnyQueueOf<28>),
    /// Of up to 4,294,967,294 nodes.
    Bits32(AnyQueueOf<32>),
}

impl PickedQueue {
    /// A queue of this kind, with so many nodes, from 2 to 4,294,967,294, and a seat for each role, 1 to 65,535 of them, in
    /// their order. Its split is that of `bits_for(nodes)`, its greatest count the greatest one of that split.
    ///
    /// Refusals: `BadSize` where one of them is out of its range, else `Memory`. Takes memory for two words a node, the
    /// seats and their roles, and doesn't wait.
    ///
    /// ```rust
    /// let (queue, seats) = PickedQueue::new(alloc, Kind::TwoLock, 1024, &[Role::Both])?;
    /// ```
    pub fn new(
        alloc: Global,
        kind: Kind,
        nodes: u32,
        roles: &[Role],
    ) -> Result<(PickedQueue, Vec<Seat>), Refusal>
        //= library/picked (ok, permits, seats, unused, sized, refused): A queue of a picked split meets `Fifo`, and
        //=   `Close`; a new one is of the kind and nodes asked for, of the split for these and its greatest count, or of a
        //=   limit by hand; its seats may do what the roles say and are unused, and its refusals have their causes.
        ensures ok { IfOk result
            (λ r. IsMade (picked_plan kind nodes roles.now) (picked_arena_of r.0) r.1.items) }
        ensures permits { IfOk result (λ r. picked_permits_of r.0 ≡ permits_by roles.now) }
        ensures seats { IfOk result (λ r. All (IsPickedSeat r.0) r.1.items) }
        ensures unused { IfOk result (λ r. AreNew (picked_permits_of r.0) (map known_of r.1.items)) }
        ensures sized { OnOk result (IsPlanned (picked_plan kind nodes roles.now)) }
        ensures refused { IfErr result (NewRefused (picked_plan kind nodes roles.now)) }
    {
        PickedQueue::with_limit(alloc, kind, nodes, most_count(bits_for(nodes)), roles)
    }

    /// As `new`, with a greatest count of your own, from 1 to the greatest one of the split: for tests, as a smaller one only
    /// brings `WornOut` sooner.
    ///
    /// ```rust
    /// let (queue, seats) = PickedQueue::with_limit(alloc, Kind::TwoLock, 4, 3, &[Role::Both])?;
    /// ```
    pub fn with_limit(
        alloc: Global,
        kind: Kind,
        nodes: u32,
        limit: u64,
        roles: &[Role],
    ) -> Result<(PickedQueue, Vec<Seat>), Refusal>
        //= library/picked (ok, permits, seats, unused, sized, refused)
        ensures ok { IfOk result
            (λ r. IsMade (limited_plan kind nodes limit roles.now) (picked_arena_of r.0) r.1.items) }
        ensures permits { IfOk result (λ r. picked_permits_of r.0 ≡ permits_by roles.now) }
        ensures seats { IfOk result (λ r. All (IsPickedSeat r.0) r.1.items) }
        ensures unused { IfOk result (λ r. AreNew (picked_permits_of r.0) (map known_of r.1.items)) }
        ensures sized { OnOk result (IsPlanned (limited_plan kind nodes limit roles.now)) }
        ensures refused { IfErr result (NewRefused (limited_plan kind nodes limit roles.now)) }
    {
        new_of_split!(nodes, AnyQueueOf::new(alloc, kind, nodes, limit, roles))
    }

    /// Whether the queue is empty, as `AnyQueueOf::emptiness` tells.
    ///
    /// ```rust
    /// if queue.emptiness(&mut seat) == Emptiness::ShutEmpty {
    ///     return;
    /// }
    /// ```
    pub fn emptiness(&self, seat: &mut Seat) -> Emptiness
        requires { IsPickedSeat self.now seat.old }
        ensures seat { IsPickedSeat self.now seat.new }
        ensures stored { KeepsStored seat.old seat.new }
        //= atomics/emptiness (seat, stored, found)
        ensures found { FoundSo (known_of seat.old) result (known_of seat.new) }
    {
        of_split!(self, queue => queue.emptiness(seat))
    }

    /// How many values the queue holds, as `AnyQueueOf::len` tells.
    ///
    /// ```rust
    /// if queue.len(&mut seat).is_some_and(|len| len.least > 1000) {
    ///     start_another_worker();
    /// }
    /// ```
    pub fn len(&self, seat: &mut Seat) -> Option<Len>
        requires { IsPickedSeat self.now seat.old }
        ensures seat { IsPickedSeat self.now seat.new }
        ensures stored { KeepsStored seat.old seat.new }
        //= library/len (stored, none, long)
        ensures none { IsNone result ↔ ((setup_of (picked_arena_of self.now)).kind ≡ TwoLock) }
        ensures long { IfSome result
            (λ len. WasSoLong (known_of seat.old) len (known_of seat.new)) }
    {
        of_split!(self, queue => queue.len(seat))
    }

    /// How many pushes are left at least until a word wears out, as `AnyQueueOf::left` tells.
    ///
    /// ```rust
    /// if queue.left(&mut seat).pushes < 1_000_000 {
    ///     make_another_queue();
    /// }
    /// ```
    pub fn left(&self, seat: &mut Seat) -> Left
        requires { IsPickedSeat self.now seat.old }
        ensures seat { IsPickedSeat self.now seat.new }
        ensures stored { KeepsStored seat.old seat.new }
        //= atomics/left (seat, stored, left)
        ensures left { HasLeft (plan_of (picked_arena_of self.now))
            (known_of seat.old) result (known_of seat.new) }
    {
        of_split!(self, queue => queue.left(seat))
    }
}

//= library/picked
impl Fifo for PickedQueue {
    ghost use Rattle.node_arena.specs.Seats.{view};
    ghost use Rattle.node_arena.proofs.Seens.{sound_of};
    ghost use Rattle.node_arena.proofs.OneProof.{IsReady-prop};

    type Seat = Seat;

    ghost is_seat = { IsPickedSeat };

    ghost permits = { picked_permits_of };

    ghost known = { known_of };

    ghost push_cause = { PickedPushRefused };

    ghost pop_cause = { PickedPopRefused };

    ghost shut_cause = { PickedShutRefused };

    ghost sound = { λ q s h. sound_of (picked_arena_of q).plan (view s) h.seat.sits.fitted };

    ghost closed_alike = { λ _ _ _ _ cause. cause };

    ghost seat_prop = { λ q s. IsReady-prop (picked_arena_of q) s };

    #[inline(always)]
    fn try_push(&self, seat: &mut Seat, body: Body, turns: u32) -> Result<(), Refusal> {
        of_split!(self, queue => queue.try_push(seat, body, turns))
    }

    #[inline(always)]
    fn try_pop(&self, seat: &mut Seat, turns: u32) -> Result<Option<Taken>, Refusal> {
        of_split!(self, queue => queue.try_pop(seat, turns))
    }

    fn try_shut(&self, seat: &mut Seat, turns: u32) -> Result<(), Refusal> {
        of_split!(self, queue => queue.try_shut(seat, turns))
    }

    fn meet(&self, one: &mut Seat, other: &mut Seat) {
        of_split!(self, queue => queue.meet(one, other))
    }

    fn may_push(&self, seat: &Seat) -> bool {
        of_split!(self, queue => queue.may_push(seat))
    }

    fn may_pop(&self, seat: &Seat) -> bool {
        of_split!(self, queue => queue.may_pop(seat))
    }
}

//= library/picked
impl Close for PickedQueue {
    ghost use Rattle.history.specs.Ends.{Closes};
    ghost use Rattle.node_arena.specs.Ended.{HasRoomFor, Leaves};

    type End = Ended;

    ghost ends = { λ q. Leaves (picked_arena_of q) };

    ghost asks = { λ _ _. Unit {0} };

    ghost has_room = { λ q. HasRoomFor (picked_arena_of q) };

    fn room(&self, alloc: Global) -> Result<Vec<Taken>, Refusal> {
        of_split!(self, queue => queue.room(alloc))
    }

    fn close_with(self, room: Vec<Taken>, seats: Vec<Seat>) -> (Rest, Ended)
        requires room { HasRoomFor (picked_arena_of self) room }
        requires seats { All (IsPickedSeat self) seats.items }
        ensures rest { Closes (picked_permits_of self) (map known_of seats.items) result.0 }
        ensures ends { Leaves (picked_arena_of self) result.1 result.0 }
    {
        of_split!(self, queue => queue.close_with(room, seats))
    }
}
