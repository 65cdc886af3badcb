//! The queue's calls.
ghost use Rattle.std.specs.Prelude.{◌≡◌, Err};

use crate::pushes::{body_of, unpushed};
use crate::queue::QueueOf;
use arena_queue::Algorithm;
use carriers::{Carrier, ItemOf, Unpushed};
use history::Refusal;
use node_arena::Seat;
use std::sync::atomic::Ordering::Relaxed;

// A refusal as the answer of a pop. It is a function of its own, since a refusal that is written where a value may stand would
// have LLVM move each value in parts.
#[cold]
#[inline(never)]
fn refused<T>(refusal: Refusal) -> Result<Option<ItemOf<T>>, Refusal>
    ensures { result ≡ Err refusal }
{
    Err(refusal)
}

impl<T: Send, A: Algorithm<B>, const B: u32> Carrier for QueueOf<T, A, B> {
    ghost use Rattle.std.specs.Prelude.{◌≤◌, true, false, None, IfOk, IfErr, OnOk};
    ghost use Rattle.history.specs.Seats.{MayPush, MayPop};
    ghost use Rattle.history.specs.Answers.{StopsPush, StopsPop, StopsShut};
    ghost use Rattle.carriers.specs.Answers.{PushedOf, PopAnswersOf, DidShutOf, PushRefusedOf, PopRefusedOf};
    ghost use Rattle.node_arena.specs.Seats.{pocket_of, keeps_of};
    ghost use Rattle.arena_queue.specs.Answers.{FailsFewer, FailsFew, FreesItsNode, PopCaused, ShutCaused};
    ghost use Rattle.value_queue.specs.ValuesSeen.{known_by};
    ghost use Rattle.value_queue.specs.Queues.{arena_of, permits_of, IsQueueSeat};
    ghost use Rattle.value_queue.specs.Pushes.{PushCaused, MissesFewer};
    ghost use Rattle.value_queue.specs.Pops.{KeepsItsNode};
    ghost use Rattle.value_queue.specs.Sound.{sound-seat, IsQueueSeat-prop};

    type Item = T;

    type Seat = Seat<T>;

    ghost is_seat = { IsQueueSeat };

    ghost permits = { permits_of };

    ghost known = { known_by };

    ghost push_cause = { λ q. PushCaused A.push_worn (arena_of q) };

    ghost pop_cause = { λ q. PopCaused A.pop_worn (arena_of q) };

    ghost shut_cause = { λ q. ShutCaused A.shut_worn (arena_of q) };

    ghost sound = { λ q s h. sound-seat (arena_of q) q.carries s h.0.seat };

    ghost closed_alike = { λ _ _ _ _ cause. cause };

    ghost seat_prop = { λ q s. IsQueueSeat-prop (arena_of q) s };

    /// Refusals: those of a push of a number, with their causes; and `Busy` also where turns failed at slots that others
    /// have: a push tries slots one after another, a turn each, from that of its node's number on. Every second one that is
    /// tried again after that begins behind the slots that were tried before, so that it comes to each slot. A slot is used
    /// again as soon as the pop of its value has taken that out. A node that the call got stays in the seat's pocket, unless
    /// the algorithm says otherwise. Takes no memory and doesn't wait.
    fn try_push(&self, seat: &mut Seat<T>, value: T, turns: u32) -> Result<(), Unpushed<T>>
        requires seat { IsQueueSeat self.now seat.old }
        requires role { MayPush (permits_of self.now) (known_by seat.old).number }
        requires turns { 1 ≤ turns }
        ensures seat { IsQueueSeat self.now seat.new }
        ensures number { (known_by seat.new).number ≡ (known_by seat.old).number }
        //= values/keeps: A push, a pop and a shut of a value don't change whether their seat keeps its nodes.
        ensures keeps { keeps_of seat.new ≡ keeps_of seat.old }
        ensures pushed { OnOk result (PushedOf (known_by seat.old) value (known_by seat.new)) }
        //= values/done (few, missed, pocket): Of a push or a shut that is done fewer than `turns` turns failed, and of the
        //=   push fewer with its tries at slots that were taken, as `Busy` tells of them. The push leaves its seat's pocket
        //=   empty; a shut, done or refused, leaves it as it was.
        ensures few { OnOk result (FailsFewer seat.old seat.new turns) }
        ensures missed { OnOk result (MissesFewer (arena_of self.now) seat.old seat.new turns) }
        ensures pocket { OnOk result (pocket_of seat.new ≡ None) }
        ensures back { IfErr result (λ unpushed. unpushed.value ≡ value) }
        ensures refused { IfErr result
            (λ unpushed. PushRefusedOf (known_by seat.old) unpushed.refusal (known_by seat.new)) }
        ensures refusal { IfErr result (λ unpushed. StopsPush unpushed.refusal) }
        //= values/push_causes: A push of a value is refused only with the cause of a push of a number; or `Busy`,
        //=   where turns and tries at slots failed, `turns` together: each such try was made, at one slot after another,
        //=   and found that slot's flag up, in a state of the table by its rule in which a seat knew no less than this
        //=   one did before the call. The seat made no other try but that of the slot that it got, if it got one.
        ensures caused { IfErr result (λ unpushed.
            PushCaused A.push_worn (arena_of self.now) seat.old seat.new turns unpushed.refusal) }
    {
        let (held, spent) = match self.node(seat, turns) {
            Ok(node) => node,
            Err(refusal) => return unpushed(refusal, value),
        };
        let moved = self.moved.load(Relaxed);
        let first = self.first_slot(held.node, moved);
        let got = match self.arena.get_slot(seat, first, turns - spent) {
            Ok(got) => got,
            Err(refusal) => {
                self.move_on(moved, turns - spent);
                return unpushed(refusal, value);
            }
        };
        self.settle(moved);
        self.arena.put_value(seat, got.slot, value);
        match A::push_with_node(
            &self.arena,
            seat,
            held,
            body_of(got.slot),
            spent + got.failed,
            turns,
        ) {
            Ok(()) => Ok(()),
            Err(refusal) => self.taken_back(seat, got.slot, refusal),
        }
    }

    /// Refusals: those of a pop of a number, with their causes. A node in the pocket is given back first; the one that
    /// comes free is given back too, or stays in the pocket of a seat that keeps its nodes. Takes no memory and doesn't
    /// wait.
    fn try_pop(&self, seat: &mut Seat<T>, turns: u32) -> Result<Option<ItemOf<T>>, Refusal>
        requires seat { IsQueueSeat self.now seat.old }
        requires role { MayPop (permits_of self.now) (known_by seat.old).number }
        requires turns { 1 ≤ turns }
        ensures seat { IsQueueSeat self.now seat.new }
        ensures number { (known_by seat.new).number ≡ (known_by seat.old).number }
        //= values/keeps
        ensures keeps { keeps_of seat.new ≡ keeps_of seat.old }
        ensures answer { IfOk result
            (λ front. PopAnswersOf (known_by seat.old) front (known_by seat.new)) }
        //= values/answered (few, freed, kept): Of a pop that answers at most `turns` turns failed, those of give backs
        //=   too. The pocket of a seat that keeps no nodes is then empty, or just `turns` failed; that of one that
        //=   keeps them holds a node exactly where a value was taken.
        ensures few { OnOk result (FailsFew seat.old seat.new turns) }
        ensures freed { keeps_of seat.old ≡ false →
            OnOk result (FreesItsNode seat.old seat.new turns) }
        ensures kept { keeps_of seat.old ≡ true → IfOk result (KeepsItsNode seat.new) }
        ensures refused { IfErr result
            (λ refusal. PopRefusedOf (known_by seat.old) refusal (known_by seat.new)) }
        ensures refusal { IfErr result StopsPop }
        //= values/other_causes: A pop and a shut of a queue of values are refused only with the cause of those of a
        //=   queue of numbers.
        ensures caused { IfErr result
            (PopCaused A.pop_worn (arena_of self.now) seat.old seat.new turns) }
    {
        match self.pop_slot(seat, turns) {
            Ok(Some(taken)) => Ok(Some(self.take_out(seat, taken))),
            Ok(None) => Ok(None),
            Err(refusal) => refused(refusal),
        }
    }

    /// Refusals: those of a shut of a queue of numbers, with their causes. Takes no memory and doesn't wait.
    fn try_shut(&self, seat: &mut Seat<T>, turns: u32) -> Result<(), Refusal>
        requires seat { IsQueueSeat self.now seat.old }
        requires role { MayPush (permits_of self.now) (known_by seat.old).number }
        requires turns { 1 ≤ turns }
        ensures seat { IsQueueSeat self.now seat.new }
        ensures number { (known_by seat.new).number ≡ (known_by seat.old).number }
        //= values/keeps
        ensures keeps { keeps_of seat.new ≡ keeps_of seat.old }
        ensures shut { OnOk result (DidShutOf (known_by seat.old) (known_by seat.new)) }
        //= values/done (few, pocket)
        ensures few { OnOk result (FailsFewer seat.old seat.new turns) }
        ensures pocket { pocket_of seat.new ≡ pocket_of seat.old }
        ensures refused { IfErr result
            (λ refusal. PushRefusedOf (known_by seat.old) refusal (known_by seat.new)) }
        ensures refusal { IfErr result StopsShut }
        //= values/other_causes
        ensures caused { IfErr result
            (ShutCaused A.shut_worn (arena_of self.now) seat.old seat.new turns) }
    {
        A::shut(&self.arena, seat, turns)
    }

    fn meet(&self, one: &mut Seat<T>, other: &mut Seat<T>) {
        self.arena.meet(one, other);
    }

    fn may_push(&self, seat: &Seat<T>) -> bool {
        seat.may_push()
    }

    fn may_pop(&self, seat: &Seat<T>) -> bool {
        seat.may_pop()
    }
}
