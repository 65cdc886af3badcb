//! The queue's calls.
ghost use Rattle.std.specs.Prelude.{◌≡◌, Err};

use crate::queue::RingValues;
use carriers::{Carrier, ItemOf, Unpushed};
use history::Refusal;
use ring_queue::{Role, Seat};

// A refusal as the answer of a pop. It is a function of its own, since a refusal that is written where a value may stand would
// have LLVM move each value in parts.
#[cold]
#[inline(never)]
fn refused<T>(refusal: Refusal) -> Result<Option<ItemOf<T>>, Refusal>
    ensures { result ≡ Err refusal }
{
    Err(refusal)
}

impl<T: Send> Carrier for RingValues<T> {
    ghost use Rattle.std.specs.Prelude.{◌≤◌, IfOk, IfErr, OnOk};
    ghost use Rattle.history.specs.Seats.{MayPush, MayPop};
    ghost use Rattle.history.specs.Answers.{StopsPush, StopsPop, StopsShut};
    ghost use Rattle.carriers.specs.Answers.{PushedOf, PopAnswersOf, DidShutOf, PushRefusedOf, PopRefusedOf};
    ghost use Rattle.ring_queue.specs.Causes.{PopCaused, ShutCaused};
    ghost use Rattle.ring_values.specs.ValuesSeen.{known_by};
    ghost use Rattle.ring_values.specs.Queues.{plan_of, ring_of, permits_of, IsQueueSeat};
    ghost use Rattle.ring_values.specs.Pushes.{PushCaused};
    ghost use Rattle.ring_values.specs.Sound.{sound-seat, IsQueueSeat-prop};

    type Item = T;

    type Seat = Seat<T>;

    ghost is_seat = { IsQueueSeat };

    ghost permits = { permits_of };

    ghost known = { known_by };

    //= ring_values/causes (push_cause, pop_cause, shut_cause): A push of a value has the causes of a push of a
    //=   number; and for `Busy` that tries at slots failed, all its turns or those before the others, each at a slot
    //=   whose flag was up in a state of the table by its rule in which the seat knew what it knew before the call. A
    //=   pop and a shut have those of a ring of numbers.
    ghost push_cause = { λ q. PushCaused (ring_of q) };

    ghost pop_cause = { λ q. PopCaused (plan_of q) };

    ghost shut_cause = { λ q s t turns refusal. ShutCaused s t refusal };

    ghost sound = { λ q s h. sound-seat (ring_of q) q.carries s h.ready };

    ghost closed_alike = { λ _ _ _ _ cause. cause };

    ghost seat_prop = { λ q s. IsQueueSeat-prop q s };

    /// Refusals: those of a push of a number, with their causes; and `Busy` also where turns failed at slots that others have: a push
    /// tries slots one after another, a turn each, from where its seat's last push stopped, so that one that is tried again comes to
    /// each slot. A slot is used again as soon as the pop of its value has taken that out. Takes no memory and doesn't wait.
    fn try_push(&self, seat: &mut Seat<T>, value: T, turns: u32) -> Result<(), Unpushed<T>>
        requires seat { IsQueueSeat self.now seat.old }
        requires role { MayPush (permits_of self.now) (known_by seat.old).number }
        requires turns { 1 ≤ turns }
        ensures seat { IsQueueSeat self.now seat.new }
        ensures number { (known_by seat.new).number ≡ (known_by seat.old).number }
        ensures pushed { OnOk result (PushedOf (known_by seat.old) value (known_by seat.new)) }
        ensures back { IfErr result (λ unpushed. unpushed.value ≡ value) }
        ensures refused { IfErr result
            (λ unpushed. PushRefusedOf (known_by seat.old) unpushed.refusal (known_by seat.new)) }
        ensures refusal { IfErr result (λ unpushed. StopsPush unpushed.refusal) }
        //= ring_values/causes
        ensures caused { IfErr result (λ unpushed.
            PushCaused (ring_of self.now) seat.old seat.new turns unpushed.refusal) }
    {
        let got = self.load(seat, value, turns)?;
        self.push_slot(seat, got.slot, turns - got.failed)
    }

    /// Refusals: those of a pop of a number, with their causes. Takes no memory and doesn't wait.
    fn try_pop(&self, seat: &mut Seat<T>, turns: u32) -> Result<Option<ItemOf<T>>, Refusal>
        requires seat { IsQueueSeat self.now seat.old }
        requires role { MayPop (permits_of self.now) (known_by seat.old).number }
        requires turns { 1 ≤ turns }
        ensures seat { IsQueueSeat self.now seat.new }
        ensures number { (known_by seat.new).number ≡ (known_by seat.old).number }
        ensures answer { IfOk result
            (λ front. PopAnswersOf (known_by seat.old) front (known_by seat.new)) }
        ensures refused { IfErr result
            (λ refusal. PopRefusedOf (known_by seat.old) refusal (known_by seat.new)) }
        ensures refusal { IfErr result StopsPop }
        //= ring_values/causes
        ensures caused { IfErr result (PopCaused (plan_of self.now) seat.old seat.new turns) }
    {
        match self.ring.pop_in(seat, turns) {
            Ok(Some(taken)) => Ok(Some(self.take_out(seat, taken))),
            Ok(None) => Ok(None),
            Err(refusal) => refused(refusal),
        }
    }

    /// One step. Refusals: `Closed` where the queue was shut before. Takes no memory and doesn't wait.
    fn try_shut(&self, seat: &mut Seat<T>, turns: u32) -> Result<(), Refusal>
        requires seat { IsQueueSeat self.now seat.old }
        requires role { MayPush (permits_of self.now) (known_by seat.old).number }
        requires turns { 1 ≤ turns }
        ensures seat { IsQueueSeat self.now seat.new }
        ensures number { (known_by seat.new).number ≡ (known_by seat.old).number }
        ensures shut { OnOk result (DidShutOf (known_by seat.old) (known_by seat.new)) }
        ensures refused { IfErr result
            (λ refusal. PushRefusedOf (known_by seat.old) refusal (known_by seat.new)) }
        ensures refusal { IfErr result StopsShut }
        //= ring_values/causes
        ensures caused { IfErr result (λ refusal. ShutCaused seat.old seat.new refusal) }
    {
        let _ = turns;
        self.ring.set_shut(seat)
    }

    fn meet(&self, one: &mut Seat<T>, other: &mut Seat<T>) {
        self.ring.meet_seats(one, other);
    }

    fn may_push(&self, seat: &Seat<T>) -> bool {
        match seat.role() {
            Role::Giver | Role::Both => true,
            Role::Taker => false,
        }
    }

    fn may_pop(&self, seat: &Seat<T>) -> bool {
        match seat.role() {
            Role::Taker | Role::Both => true,
            Role::Giver => false,
        }
    }
}
