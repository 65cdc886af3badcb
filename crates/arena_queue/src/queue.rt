//! The queue: its arena, and its calls.
ghost use Rattle.std.specs.Prelude.{◌≡◌, ◌+◌, ◌*◌, ◌≤◌, ◌↔◌, IsNone, IfSome, IfOk, IfErr, OnOk, OnErr, None, true, false};
ghost use Rattle.counted_ref.specs.Ref.{IsSplit};
ghost use Rattle.node_arena.specs.Plans.{IsPlanned};
ghost use Rattle.node_arena.specs.Seats.{carries_of};
ghost use Rattle.node_arena.specs.NewArenas.{plan, NewRefused};
ghost use Rattle.arena_queue.specs.Answers.{IsOfKind};

use crate::algorithms::Algorithm;
use free_list::{give_back, take};
use history::{Body, Close, Fifo, Refusal, Rest, Taken};
use node_arena::{ArenaOf, Ended, Role, Seat};
use std::alloc::Global;
use std::marker::PhantomData;

/// A queue that runs an algorithm on its arena. Threads share it by reference, each with a seat of its own.
#[derive(Drop)]
pub struct ArenaQueueOf<A: Algorithm<B>, const B: u32> {
    pub(crate) arena: ArenaOf<B>,
    algorithm: PhantomData<A>,
    ghost runs: { IsOfKind arena A.kind },
    ghost numbers: { carries_of arena ≡ false },
}

/// With 24 bits for the number of a node.
pub type ArenaQueue<A> = ArenaQueueOf<A, 24>;

impl<A: Algorithm<B>, const B: u32> ArenaQueueOf<A, B> {
    ghost use Rattle.std.specs.Prelude.{map};
    ghost use Rattle.std.specs.List.{All};
    ghost use Rattle.history.specs.Openings.{AreNew};
    ghost use Rattle.node_arena.specs.Plans.{permits_by};
    ghost use Rattle.node_arena.specs.Moments.{WasWord};
    ghost use Rattle.node_arena.specs.Seats.{known_of, plan_of, setup_of};
    ghost use Rattle.arena_queue.specs.Queues.{arena_of, permits_of, IsQueueSeat, IsQueueMade};

    /// A queue with so many nodes, from 2 to the `most_node` of the split, the greatest count `limit`, from 1 to its
    /// `most_count`, and a seat for each role, 1 to 65,535 of them, in their order. One node is always in the queue.
    ///
    /// Refusals: `BadSize` where one of them is out of its range, else `Memory`. Takes memory for two words a node, the
    /// seats and their roles, and doesn't wait.
    ///
    /// ```rust
    /// let roles = [Role::Giver, Role::Taker];
    /// let (queue, seats) = MsQueue::new(alloc, 1024, MOST_COUNT, &roles)?;
    /// ```
    pub fn new(
        alloc: Global,
        nodes: u32,
        limit: u64,
        roles: &[Role],
    ) -> Result<(ArenaQueueOf<A, B>, Vec<Seat>), Refusal>
        requires split { IsSplit B }
        //= queues/opening (ok, permits, seats, unused, sized, refused): A new queue of any algorithm is as a new arena;
        //=   each seat may do what its role says, is in no call, and has seen nothing.
        ensures ok { IfOk result (λ r. IsQueueMade A.kind nodes limit roles.now r.0 r.1.items) }
        ensures permits { IfOk result (λ r. permits_of r.0 ≡ permits_by roles.now) }
        ensures seats { IfOk result (λ r. All (IsQueueSeat r.0) r.1.items) }
        ensures unused { IfOk result (λ r. AreNew (permits_of r.0) (map known_of r.1.items)) }
        ensures sized { OnOk result (IsPlanned (plan B A.kind nodes limit roles.now)) }
        ensures refused { IfErr result (NewRefused (plan B A.kind nodes limit roles.now)) }
    {
        let (arena, seats) = ArenaOf::<B>::new(alloc, A::kind(), nodes, limit, roles)?;
        Ok((
            ArenaQueueOf {
                arena,
                algorithm: PhantomData,
            },
            seats,
        ))
    }

    /// What a word of the queue's arena holds, by one load, for inspection; none exactly where there is no such word. The
    /// clause says no more than that it may hold this in some reachable world, as a new queue's words do: nothing of this
    /// moment, nor of what a seat has seen. Takes no memory and doesn't wait.
    ///
    /// ```rust
    /// // Word 2 is Head. In a new queue it names node 1, with count 0.
    /// assert!(queue.peek(2) == Some(1));
    /// ```
    pub fn peek(&self, word: usize) -> Option<u64>
        //= atomics/peek (none, held)
        ensures none { IsNone result ↔ (6 + 2 * (setup_of (arena_of self.now)).size ≤ word) }
        ensures held { IfSome result (WasWord (plan_of (arena_of self.now)) word) }
    {
        self.arena.peek(word)
    }
}

impl<A: Algorithm<B>, const B: u32> Fifo for ArenaQueueOf<A, B> {
    ghost use Rattle.std.specs.Prelude.{map};
    ghost use Rattle.std.specs.List.{All};
    ghost use Rattle.history.specs.Seats.{MayPush, MayPop};
    ghost use Rattle.history.specs.Answers.{Pushed, PopAnswers, DidShut, StopsPush, StopsPop, StopsShut};
    ghost use Rattle.history.specs.Answers.{PushRefused, PopRefused};
    ghost use Rattle.node_arena.specs.Seats.{known_of, pocket_of, keeps_of, view};
    ghost use Rattle.node_arena.proofs.Seens.{sound_of};
    ghost use Rattle.node_arena.proofs.OneProof.{IsReady-prop};
    ghost use Rattle.arena_queue.specs.Answers.{FailsFewer, PushCaused, FailsFew, FreesItsNode, KeepsItsNode};
    ghost use Rattle.arena_queue.specs.Answers.{PopCaused, ShutCaused};
    ghost use Rattle.arena_queue.specs.Queues.{arena_of, permits_of, IsQueueSeat};

    type Seat = Seat;

    ghost is_seat = { IsQueueSeat };

    ghost permits = { permits_of };

    ghost known = { known_of };

    ghost push_cause = { λ q. PushCaused A.push_worn (arena_of q) };

    ghost pop_cause = { λ q. PopCaused A.pop_worn (arena_of q) };

    ghost shut_cause = { λ q. ShutCaused A.shut_worn (arena_of q) };

    ghost sound = { λ q s h. sound_of (arena_of q).plan (view s) h.seat.sits.fitted };

    ghost closed_alike = { λ q s t turns cause. cause };

    ghost seat_prop = { λ q s. IsReady-prop (arena_of q) s };

    /// Refusals: `NoNode` where at one step all nodes were used and none was free, `WornOut` where at one step the count
    /// of Free or of a word that stops the algorithm's pushes was the greatest one, `Busy` where each of so many turns
    /// failed, and `Closed` where at one step the queue was shut. A push that has no node takes one first, and is refused
    /// `NoNode` also where the queue is shut. A node that the call got stays in the seat's pocket, for its next push, unless
    /// the algorithm says otherwise. Takes no memory and doesn't wait.
    fn try_push(&self, seat: &mut Seat, body: Body, turns: u32) -> Result<(), Refusal>
        requires seat { IsQueueSeat self.now seat.old }
        requires role { MayPush (permits_of self.now) (known_of seat.old).number }
        requires turns { 1 ≤ turns }
        ensures seat { IsQueueSeat self.now seat.new }
        ensures number { (known_of seat.new).number ≡ (known_of seat.old).number }
        //= queues/keeps: A push, a pop and a shut don't change whether their seat keeps its nodes.
        ensures keeps { keeps_of seat.new ≡ keeps_of seat.old }
        ensures pushed { OnOk result (Pushed (known_of seat.old) body (known_of seat.new)) }
        //= queues/done (few, pocket): Of a push or a shut that is done fewer than `turns` turns failed. The push leaves
        //=   its seat's pocket empty; a shut, done or refused, leaves it as it was.
        ensures few { OnOk result (FailsFewer seat.old seat.new turns) }
        ensures pocket { OnOk result (pocket_of seat.new ≡ None) }
        ensures refused { IfErr result
            (λ refusal. PushRefused (known_of seat.old) refusal (known_of seat.new)) }
        ensures refusal { IfErr result StopsPush }
        //= atomics/met_cause
        //= queues/queue_causes: A push, a pop and a shut of either queue are refused only with [their
        //=   cause](../crates/arena_queue/CALLING.md#the-causes-of-refusals): in a reachable world before the call's
        //=   last step or, of `Busy`, in the call's turns.
        ensures caused { IfErr result
            (PushCaused A.push_worn (arena_of self.now) seat.old seat.new turns) }
    {
        let (held, spent) = match seat.pocket() {
            Some(held) => (held, 0),
            None => (take(&self.arena, seat, turns)?, seat.failed()),
        };
        A::push_with_node(&self.arena, seat, held, body, spent, turns)
    }

    /// Refusals: `WornOut` where at one step the count of a word that stops the algorithm's pops was the greatest one,
    /// `Busy` where each of so many turns failed, and `Closed` where at one step the queue was shut and empty. A node in
    /// the pocket is given back first. The node that comes free is given back too, with the turns that are left; where the
    /// seat keeps its nodes (`Seat::keep_nodes`), it stays in the pocket, for its next push. Takes no memory and doesn't
    /// wait.
    fn try_pop(&self, seat: &mut Seat, turns: u32) -> Result<Option<Taken>, Refusal>
        requires seat { IsQueueSeat self.now seat.old }
        requires role { MayPop (permits_of self.now) (known_of seat.old).number }
        requires turns { 1 ≤ turns }
        ensures seat { IsQueueSeat self.now seat.new }
        ensures number { (known_of seat.new).number ≡ (known_of seat.old).number }
        //= queues/keeps
        ensures keeps { keeps_of seat.new ≡ keeps_of seat.old }
        ensures answer { IfOk result (λ o. PopAnswers (known_of seat.old) o (known_of seat.new)) }
        //= queues/answered (few, freed, kept): Of a pop that answers at most `turns` turns failed, those of give backs
        //=   too. The pocket of a seat that keeps no nodes is then empty, or just `turns` failed; that of one that
        //=   keeps them holds a node exactly where a value was taken.
        ensures few { OnOk result (FailsFew seat.old seat.new turns) }
        ensures freed { keeps_of seat.old ≡ false →
            OnOk result (FreesItsNode seat.old seat.new turns) }
        ensures kept { keeps_of seat.old ≡ true → IfOk result (KeepsItsNode seat.new) }
        ensures refused { IfErr result
            (λ refusal. PopRefused (known_of seat.old) refusal (known_of seat.new)) }
        ensures refusal { IfErr result StopsPop }
        //= atomics/met_cause
        //= queues/queue_causes
        ensures caused { IfErr result
            (PopCaused A.pop_worn (arena_of self.now) seat.old seat.new turns) }
    {
        let spent = match seat.pocket() {
            None => 0,
            Some(_) => {
                give_back(&self.arena, seat, turns)?;
                seat.failed()
            }
        };
        A::pop_without_node(&self.arena, seat, spent, turns)
    }

    /// Refusals: `WornOut` where at one step the count of a word that stops the algorithm's shuts was the greatest one,
    /// `Busy` where each of so many turns failed, and `Closed` where at one step the queue was shut. Takes no memory and
    /// doesn't wait.
    fn try_shut(&self, seat: &mut Seat, turns: u32) -> Result<(), Refusal>
        requires seat { IsQueueSeat self.now seat.old }
        requires role { MayPush (permits_of self.now) (known_of seat.old).number }
        requires turns { 1 ≤ turns }
        ensures seat { IsQueueSeat self.now seat.new }
        ensures number { (known_of seat.new).number ≡ (known_of seat.old).number }
        //= queues/keeps
        ensures keeps { keeps_of seat.new ≡ keeps_of seat.old }
        ensures shut { OnOk result (DidShut (known_of seat.old) (known_of seat.new)) }
        //= queues/done (few, pocket)
        ensures few { OnOk result (FailsFewer seat.old seat.new turns) }
        ensures pocket { pocket_of seat.new ≡ pocket_of seat.old }
        ensures refused { IfErr result
            (λ refusal. PushRefused (known_of seat.old) refusal (known_of seat.new)) }
        ensures refusal { IfErr result StopsShut }
        //= atomics/met_cause
        //= queues/queue_causes
        ensures caused { IfErr result
            (ShutCaused A.shut_worn (arena_of self.now) seat.old seat.new turns) }
    {
        A::shut(&self.arena, seat, turns)
    }

    fn meet(&self, one: &mut Seat, other: &mut Seat) {
        self.arena.meet(one, other);
    }

    fn may_push(&self, seat: &Seat) -> bool {
        seat.may_push()
    }

    fn may_pop(&self, seat: &Seat) -> bool {
        seat.may_pop()
    }
}

impl<A: Algorithm<B>, const B: u32> Close for ArenaQueueOf<A, B> {
    ghost use Rattle.std.specs.Prelude.{map};
    ghost use Rattle.std.specs.List.{All};
    ghost use Rattle.history.specs.Ends.{Closes};
    ghost use Rattle.node_arena.specs.Ended.{HasRoomFor, Leaves};
    ghost use Rattle.node_arena.specs.Seats.{known_of};
    ghost use Rattle.arena_queue.specs.Queues.{arena_of, permits_of, IsQueueSeat};

    type End = Ended;

    //= queues/ends
    ghost ends = { λ q. Leaves (arena_of q) };

    //= queues/rest
    ghost asks = { λ _ _. Unit {0} };

    //= queues/room
    ghost has_room = { λ q. HasRoomFor (arena_of q) };

    fn room(&self, alloc: Global) -> Result<Vec<Taken>, Refusal> {
        self.arena.room(alloc)
    }

    fn close_with(self, room: Vec<Taken>, seats: Vec<Seat>) -> (Rest, Ended)
        requires room { HasRoomFor (arena_of self) room }
        requires seats { All (IsQueueSeat self) seats.items }
        ensures rest { Closes (permits_of self) (map known_of seats.items) result.0 }
        ensures ends { Leaves (arena_of self) result.1 result.0 }
    {
        self.arena.close_with(room, seats)
    }
}
