//! The push of a ring.
ghost use Rattle.std.specs.Prelude.{[], ◌∷◌, OnOk, IfErr};
ghost use Rattle.history.specs.Seats.{MayPush};
ghost use Rattle.history.specs.Answers.{Pushed, PushRefused, StopsPush};
ghost use Rattle.ring_queue.specs.Plans.{permits_of};
ghost use Rattle.ring_queue.specs.Seats.{IsAtRest, IsReady, KeepsName, KeepsSlots, known_of, view};
ghost use Rattle.ring_queue.specs.Hands.{GivesSlot, IsLoaded};
ghost use Rattle.ring_queue.specs.Beside.{IsReadyBy};
ghost use Rattle.ring_queue.specs.Steps.{pushes};
ghost use Rattle.ring_queue.specs.Looks.{SeesRoom, FoundRoom};
ghost use Rattle.ring_queue.specs.Queues.{IsRingSeat, permits_in};
ghost use Rattle.ring_queue.specs.Causes.{PushCaused};
ghost use Rattle.ring_queue.specs.Pushes.{IsStopped, PushSays, PushMoves};

use crate::acts::payload_of;
use crate::looks::TailLook;
use crate::places::SHUT;
use crate::queue::RingQueue;
use crate::seats::Seat;
use history::{Body, Refusal, WornWord};

/// What a turn of a push comes to.
pub(crate) enum PushTurn {
    /// It is done.
    Done,
    /// It is refused for this.
    Stopped(Refusal),
    /// Others had claimed places.
    Failed,
}

impl<T> RingQueue<T> {
    // A push whose seat sees no room reads Tail, and, where there is none by its head, Head.
    fn look_for_room(&self, seat: &mut Seat<T>) -> Result<(), Refusal>
        requires { IsAtRest self.now.plan self.now.table.shared.table_id seat.old }
        ensures seat { IsAtRest self.now.plan self.now.table.shared.table_id seat.new }
        ensures slots { KeepsSlots seat.old seat.new }
        ensures name { KeepsName seat.old seat.new }
        ensures found { OnOk result (FoundRoom self.now.plan seat.old seat.new) }
        ensures stopped { IfErr result (IsStopped self.now.plan seat.old seat.new) }
    {
        match self.look_at_tail(seat) {
            TailLook::Shut => Err(Refusal::Closed),
            TailLook::Worn => Err(Refusal::WornOut(WornWord::Tail)),
            TailLook::Open => {
                if seat.tail < seat.head + self.sizes().most {
                    return Ok(());
                }
                if self.finds_full(seat) {
                    // (A value that isn't pushed leaves its slot, which is the seat's next one then.)
                    seat.near = seat.near.wrapping_sub(1);
                    return Err(Refusal::NoNode);
                }
                Ok(())
            }
        }
    }

    /// A push whose seat sees no room looks for it.
    pub(crate) fn find_room(&self, seat: &mut Seat<T>) -> Result<(), Refusal>
        requires { IsAtRest self.now.plan self.now.table.shared.table_id seat.old }
        ensures seat { IsAtRest self.now.plan self.now.table.shared.table_id seat.new }
        ensures slots { KeepsSlots seat.old seat.new }
        ensures name { KeepsName seat.old seat.new }
        ensures found { OnOk result (FoundRoom self.now.plan seat.old seat.new) }
        ensures stopped { IfErr result (IsStopped self.now.plan seat.old seat.new) }
    {
        let plan = self.sizes();
        if seat.tail < seat.head + plan.most && seat.tail < plan.limit {
            return Ok(());
        }
        self.look_for_room(seat)
    }

    // A push whose seat sees room claims the next place, and fills it.
    fn push_there(&self, seat: &mut Seat<T>, body: Body) -> PushTurn
        requires ready { IsReady self.now.plan self.now.table.shared.table_id seat.old }
        requires role { MayPush (permits_of self.now.plan) (known_of seat.old).number }
        requires room { SeesRoom self.now.plan seat.old }
        requires loaded { IsReadyBy self.now.plan.carries self.now.plan.slots (view seat.old).number
            (pushes (view seat.old).number (body ∷ [])) seat.old.token.me }
        ensures seat { IsReady self.now.plan self.now.table.shared.table_id seat.new }
        ensures name { KeepsName seat.old seat.new }
        ensures says { PushSays self.now.plan seat.old seat.new body result }
        ensures moves { PushMoves self.now.plan seat.old seat.new body result }
    {
        let payload = payload_of(seat.number, body);
        let tail = seat.tail;
        let was = self.claim(seat, &[body], 1);
        if was == tail {
            self.fill(seat, tail, payload);
            PushTurn::Done
        } else if was >= SHUT {
            PushTurn::Stopped(Refusal::Closed)
        } else {
            PushTurn::Failed
        }
    }

    // One turn of a push.
    fn push_turn(&self, seat: &mut Seat<T>, body: Body) -> PushTurn
        requires ready { IsReady self.now.plan self.now.table.shared.table_id seat.old }
        requires role { MayPush (permits_of self.now.plan) (known_of seat.old).number }
        requires loaded { IsLoaded self.now.plan body seat.old }
        ensures seat { IsReady self.now.plan self.now.table.shared.table_id seat.new }
        ensures name { KeepsName seat.old seat.new }
        ensures says { PushSays self.now.plan seat.old seat.new body result }
        ensures moves { PushMoves self.now.plan seat.old seat.new body result }
    {
        match self.find_room(seat) {
            Ok(()) => self.push_there(seat, body),
            Err(refusal) => PushTurn::Stopped(refusal),
        }
    }

    /// Pushes a body at the back, in so many turns at most, which are counted from where the seat has seen Tail in this call.
    /// Where the ring carries values, the body is the number of the slot that is out with the seat, with a value in it, and
    /// the push gives it away.
    ///
    /// Refusals: those of `try_push`. Takes no memory and doesn't wait.
    pub fn push_in(&self, seat: &mut Seat<T>, body: Body, turns: u32) -> Result<(), Refusal>
        requires ready { IsRingSeat self.now seat.old }
        requires role { MayPush (permits_in self.now) (known_of seat.old).number }
        requires loaded { IsLoaded self.now.plan body seat.old }
        ensures seat { IsRingSeat self.now seat.new }
        ensures name { KeepsName seat.old seat.new }
        ensures pushed { OnOk result (Pushed (known_of seat.old) body (known_of seat.new)) }
        ensures refused { IfErr result
            (λ refusal. PushRefused (known_of seat.old) refusal (known_of seat.new)) }
        ensures refusal { IfErr result StopsPush }
        ensures caused { IfErr result (PushCaused self.now.plan seat.old seat.new turns) }
        //= ring/gives (gives, kept): A push of a ring that carries values gives away the slot that it is to push, with the value in
        //=   it: its push of that value is the last that its seat has seen. One that is refused moves no slot.
        ensures gives { OnOk result (GivesSlot self.now.plan body seat.old seat.new) }
        ensures kept { IfErr result (λ _. KeepsSlots seat.old seat.new) }
    {
        // (The first exchange is from the tail that the seat left, which others may have passed long ago.)
        for _ in 0..u64::from(turns) + 1 {
            match self.push_turn(seat, body) {
                PushTurn::Done => return Ok(()),
                PushTurn::Stopped(refusal) => return Err(refusal),
                PushTurn::Failed => {}
            }
        }
        Err(Refusal::Busy)
    }
}
