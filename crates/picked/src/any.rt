//! The queue of either kind: each call is that of the queue within.
ghost use Rattle.std.specs.Prelude.{◌≡◌, ◌↔◌, IsNone, IfSome, IfOk, IfErr, OnOk, map};
ghost use Rattle.std.specs.List.{All};
ghost use Rattle.counted_ref.specs.Ref.{IsSplit};
ghost use Rattle.line_table.specs.declared.lines.Kind.{Kind};
ghost use Rattle.line_table.specs.declared.lines.Kind.TheVariants.{TwoLock};
ghost use Rattle.node_arena.specs.NewArenas.{plan, IsMade, NewRefused};
ghost use Rattle.node_arena.specs.Plans.{permits_by, IsPlanned};
ghost use Rattle.node_arena.specs.Seats.{KeepsStored, known_of, setup_of, plan_of};
ghost use Rattle.node_arena.specs.Looks.{FoundSo, WasSoLong};
ghost use Rattle.arena_queue.specs.Lefts.{HasLeft};
ghost use Rattle.history.specs.Openings.{AreNew};
ghost use Rattle.picked.specs.Picked.{any_arena_of, any_permits_of, IsAnySeat, any_worn_of};

use crate::forwards::of_kind;
use arena_queue::{Algorithm, Left};
use history::{Body, Close, Fifo, Refusal, Rest, Taken};
use line_table::Kind;
use node_arena::{Emptiness, Ended, Len, Role, Seat};
use nonblocking::{MsQueueOf, NonBlockingAlgorithm};
use std::alloc::Global;
use two_lock::{TwoLockAlgorithm, TwoLockQueueOf};

/// A queue of either kind, with `B` bits, 16 to 32, for the number of a node. Threads share it by reference, each with a
/// seat of its own.
#[derive(Drop)]
pub enum AnyQueueOf<const B: u32>
where
    NonBlockingAlgorithm: Algorithm<B>,
    TwoLockAlgorithm: Algorithm<B>,
{
    /// The non-blocking queue.
    NonBlocking(MsQueueOf<B>),
    /// The two-lock queue.
    TwoLock(TwoLockQueueOf<B>),
}

/// With 24 bits for the number of a node.
pub type AnyQueue = AnyQueueOf<24>;

impl<const B: u32> AnyQueueOf<B> {
    /// A queue of this kind, with so many nodes, the greatest count `limit`, and a seat for each role, in their order; the
    /// ranges are those of `MsQueueOf::new`.
    ///
    /// Refusals: `BadSize` where one of them is out of its range, else `Memory`. Takes memory for two words a node, the
    /// seats and their roles, and doesn't wait.
    ///
    /// ```rust
    /// let (queue, seats) = AnyQueue::new(alloc, Kind::TwoLock, 1024, MOST_COUNT, &[Role::Both])?;
    /// ```
    pub fn new(
        alloc: Global,
        kind: Kind,
        nodes: u32,
        limit: u64,
        roles: &[Role],
    ) -> Result<(AnyQueueOf<B>, Vec<Seat>), Refusal>
        requires split { IsSplit B }
        //= library/any (ok, permits, seats, unused, sized, refused): A queue of either kind meets `Fifo`, and
        //=   `Close`; a new one is of the kind, nodes and greatest count asked for, its seats may do what the roles
        //=   say and are unused, and its refusals have the causes of the kind.
        ensures ok { IfOk result
            (λ r. IsMade (plan B kind nodes limit roles.now) (any_arena_of r.0) r.1.items) }
        ensures permits { IfOk result (λ r. any_permits_of r.0 ≡ permits_by roles.now) }
        ensures seats { IfOk result (λ r. All (IsAnySeat r.0) r.1.items) }
        ensures unused { IfOk result (λ r. AreNew (any_permits_of r.0) (map known_of r.1.items)) }
        ensures sized { OnOk result (IsPlanned (plan B kind nodes limit roles.now)) }
        ensures refused { IfErr result (NewRefused (plan B kind nodes limit roles.now)) }
    {
        match kind {
            Kind::NonBlocking => {
                let (queue, seats) = MsQueueOf::<B>::new(alloc, nodes, limit, roles)?;
                Ok((AnyQueueOf::NonBlocking(queue), seats))
            }
            Kind::TwoLock => {
                let (queue, seats) = TwoLockQueueOf::<B>::new(alloc, nodes, limit, roles)?;
                Ok((AnyQueueOf::TwoLock(queue), seats))
            }
        }
    }

    /// Whether the queue is empty, as it was at a moment no older than what the seat had seen before; or that pops took
    /// effect while the seat looked.
    /// Takes no memory and doesn't wait.
    ///
    /// ```rust
    /// if queue.emptiness(&mut seat) == Emptiness::ShutEmpty {
    ///     return;
    /// }
    /// ```
    pub fn emptiness(&self, seat: &mut Seat) -> Emptiness
        requires { IsAnySeat self.now seat.old }
        ensures seat { IsAnySeat self.now seat.new }
        ensures stored { KeepsStored seat.old seat.new }
        //= atomics/emptiness (seat, stored, found)
        ensures found { FoundSo (known_of seat.old) result (known_of seat.new) }
    {
        of_kind!(self, queue => queue.emptiness(seat))
    }

    /// How many values the queue holds, as bounds of what it held at a moment no older than what the seat had seen before;
    /// none exactly of a two-lock queue, whose Tail counts nothing. Takes no memory and doesn't wait.
    ///
    /// ```rust
    /// if queue.len(&mut seat).is_some_and(|len| len.least > 1000) {
    ///     start_another_worker();
    /// }
    /// ```
    pub fn len(&self, seat: &mut Seat) -> Option<Len>
        requires { IsAnySeat self.now seat.old }
        ensures seat { IsAnySeat self.now seat.new }
        ensures stored { KeepsStored seat.old seat.new }
        //= library/len (stored, none, long): A queue of either kind, or of a picked split, tells its length as a
        //=   non-blocking one does, and none exactly where it is a two-lock one. The seat stores the same.
        ensures none { IsNone result ↔ ((setup_of (any_arena_of self.now)).kind ≡ TwoLock) }
        ensures long { IfSome result
            (λ len. WasSoLong (known_of seat.old) len (known_of seat.new)) }
    {
        match self {
            AnyQueueOf::NonBlocking(queue) => Some(queue.len(seat)),
            AnyQueueOf::TwoLock(_) => None,
        }
    }

    /// How many pushes are left at least until a word wears out, and what the counts of Free, Tail and Head leave. Takes no
    /// memory and doesn't wait.
    ///
    /// ```rust
    /// if queue.left(&mut seat).pushes < 1_000_000 {
    ///     make_another_queue();
    /// }
    /// ```
    pub fn left(&self, seat: &mut Seat) -> Left
        requires { IsAnySeat self.now seat.old }
        ensures seat { IsAnySeat self.now seat.new }
        ensures stored { KeepsStored seat.old seat.new }
        //= atomics/left (seat, stored, left)
        ensures left { HasLeft (plan_of (any_arena_of self.now))
            (known_of seat.old) result (known_of seat.new) }
    {
        of_kind!(self, queue => queue.left(seat))
    }
}

//= library/any
impl<const B: u32> Fifo for AnyQueueOf<B> {
    ghost use Rattle.node_arena.specs.Seats.{view};
    ghost use Rattle.node_arena.proofs.Seens.{sound_of};
    ghost use Rattle.node_arena.proofs.OneProof.{IsReady-prop};
    ghost use Rattle.arena_queue.specs.Answers.{PushCaused, PopCaused, ShutCaused};

    type Seat = Seat;

    ghost is_seat = { IsAnySeat };

    ghost permits = { any_permits_of };

    ghost known = { known_of };

    ghost push_cause = { λ q. PushCaused (any_worn_of q).push (any_arena_of q) };

    ghost pop_cause = { λ q. PopCaused (any_worn_of q).pop (any_arena_of q) };

    ghost shut_cause = { λ q. ShutCaused (any_worn_of q).shut (any_arena_of q) };

    ghost sound = { λ q s h. sound_of (any_arena_of q).plan (view s) h.seat.sits.fitted };

    ghost closed_alike = { λ _ _ _ _ cause. cause };

    ghost seat_prop = { λ q s. IsReady-prop (any_arena_of q) s };

    #[inline(always)]
    fn try_push(&self, seat: &mut Seat, body: Body, turns: u32) -> Result<(), Refusal> {
        of_kind!(self, queue => queue.try_push(seat, body, turns))
    }

    #[inline(always)]
    fn try_pop(&self, seat: &mut Seat, turns: u32) -> Result<Option<Taken>, Refusal> {
        of_kind!(self, queue => queue.try_pop(seat, turns))
    }

    fn try_shut(&self, seat: &mut Seat, turns: u32) -> Result<(), Refusal> {
        of_kind!(self, queue => queue.try_shut(seat, turns))
    }

    fn meet(&self, one: &mut Seat, other: &mut Seat) {
        of_kind!(self, queue => queue.meet(one, other))
    }

    fn may_push(&self, seat: &Seat) -> bool {
        of_kind!(self, queue => queue.may_push(seat))
    }

    fn may_pop(&self, seat: &Seat) -> bool {
        of_kind!(self, queue => queue.may_pop(seat))
    }
}

//= library/any
impl<const B: u32> Close for AnyQueueOf<B> {
    ghost use Rattle.history.specs.Ends.{Closes};
    ghost use Rattle.node_arena.specs.Ended.{HasRoomFor, Leaves};

    type End = Ended;

    //= queues/ends
    ghost ends = { λ q. Leaves (any_arena_of q) };

    //= queues/rest
    ghost asks = { λ _ _. Unit {0} };

    //= queues/room
    ghost has_room = { λ q. HasRoomFor (any_arena_of q) };

    fn room(&self, alloc: Global) -> Result<Vec<Taken>, Refusal> {
        of_kind!(self, queue => queue.room(alloc))
    }

    fn close_with(self, room: Vec<Taken>, seats: Vec<Seat>) -> (Rest, Ended)
        requires room { HasRoomFor (any_arena_of self) room }
        requires seats { All (IsAnySeat self) seats.items }
        ensures rest { Closes (any_permits_of self.entry) (map known_of seats.items) result.0 }
        ensures ends { Leaves (any_arena_of self.entry) result.1 result.0 }
    {
        of_kind!(self, queue => queue.close_with(room, seats))
    }
}
