//! The push of many values at one step.
ghost use Rattle.std.specs.Prelude.{◌≡◌, ◌⊎◌, ◌+◌, ◌^◌, ◌<◌, ◌≤◌, length, take, IfOk, IfErr, false};
ghost use Rattle.history.specs.Seats.{MayPush};
ghost use Rattle.history.specs.Answers.{PushRefused, StopsPush};
ghost use Rattle.ring_queue.specs.Plans.{permits_of};
ghost use Rattle.ring_queue.specs.Knowledge.{standing};
ghost use Rattle.ring_queue.specs.Seats.{Sits, IsReady, KeepsName, known_of, view};
ghost use Rattle.ring_queue.specs.Steps.{contents, AreSmall, HasRoom, PushedAll};
ghost use Rattle.ring_queue.specs.Looks.{SeesRoom};
ghost use Rattle.ring_queue.specs.Queues.{IsNumberSeat, permits_in};
ghost use Rattle.ring_queue.specs.Causes.{PushCaused};
ghost use Rattle.ring_queue.specs.Many.{AreEnough};
ghost use Rattle.ring_queue.specs.Pushes.{ManySays};

use crate::acts::payload_of;
use crate::places::SHUT;
use crate::queue::RingQueue;
use crate::seats::Seat;
use history::{Body, Refusal};

/// What a turn of a push of many comes to.
pub(crate) enum ManyTurn {
    /// It pushed so many.
    Done(usize),
    /// It is refused for this.
    Stopped(Refusal),
    /// Others had claimed places.
    Failed,
}

// Each of these bodies is one. No step of a run.
fn read_all(bodies: &[Body])
    ensures { AreSmall bodies.now }
{
    for i in 0..bodies.len() {
        let _ = bodies[i].number();
    }
}

impl<T> RingQueue<T> {
    // Fills the places that a push claimed from one on for these bodies.
    fn fill_all(&self, seat: &mut Seat<T>, place: u64, bodies: &[Body])
        requires sits { Sits self.now.plan self.now.table.shared.table_id seat.old }
        requires claimed { (view seat.old).stage
            ≡ standing place (contents (known_of seat.old).number bodies.now) }
        requires low { place + length bodies.now < 2 ^ 62 }
        requires unplaced { self.now.plan.placed ≡ false }
        ensures seat { IsReady self.now.plan self.now.table.shared.table_id seat.new }
        ensures name { KeepsName seat.old seat.new }
        ensures places { (seat.new.head ≡ seat.old.head) × (seat.new.tail ≡ seat.old.tail) }
        ensures known { known_of seat.new ≡ known_of seat.old }
    {
        for i in 0..bodies.len() {
            let payload = payload_of(seat.number, bodies[i]);
            self.fill(seat, place + i as u64, payload);
        }
    }

    // For how many of so many bodies the seat sees room.
    fn room_for(&self, seat: &Seat<T>, bodies: usize) -> usize
        requires room { SeesRoom self.now.plan seat.now }
        requires low { (seat.now.head < 2 ^ 62) × (seat.now.tail < 2 ^ 62) }
        requires some { 1 ≤ bodies }
        ensures room { HasRoom self.now.plan seat.now.head seat.now.tail result }
        ensures few { result ≤ bodies }
        ensures rest { result < bodies → (seat.now.head + self.now.plan.most ≤ seat.now.tail + result)
            ⊎ (self.now.plan.limit ≤ seat.now.tail + result) }
    {
        let plan = self.sizes();
        let room = (seat.head + plan.most - seat.tail).min(plan.limit - seat.tail);
        bodies.min(room as usize)
    }

    // A push of many whose seat sees room claims the next places, as many as it sees room for, and fills them.
    fn push_first(&self, seat: &mut Seat<T>, bodies: &[Body]) -> ManyTurn
        requires ready { IsReady self.now.plan self.now.table.shared.table_id seat.old }
        requires role { MayPush (permits_of self.now.plan) (known_of seat.old).number }
        requires room { SeesRoom self.now.plan seat.old }
        requires some { 1 ≤ length bodies.now }
        requires numbers { self.now.plan.carries ≡ false }
        ensures seat { IsReady self.now.plan self.now.table.shared.table_id seat.new }
        ensures name { KeepsName seat.old seat.new }
        ensures says { ManySays self.now.plan seat.old seat.new bodies.now result }
    {
        let count = self.room_for(seat, bodies.len());
        let first = &bodies[..count];
        read_all(first);
        let tail = seat.tail;
        let was = self.claim(seat, first, count as u64);
        if was == tail {
            self.fill_all(seat, tail, first);
            ManyTurn::Done(count)
        } else if was >= SHUT {
            ManyTurn::Stopped(Refusal::Closed)
        } else {
            ManyTurn::Failed
        }
    }

    // One turn of a push of many.
    fn many_turn(&self, seat: &mut Seat<T>, bodies: &[Body]) -> ManyTurn
        requires ready { IsReady self.now.plan self.now.table.shared.table_id seat.old }
        requires role { MayPush (permits_of self.now.plan) (known_of seat.old).number }
        requires some { 1 ≤ length bodies.now }
        requires numbers { self.now.plan.carries ≡ false }
        ensures seat { IsReady self.now.plan self.now.table.shared.table_id seat.new }
        ensures name { KeepsName seat.old seat.new }
        ensures says { ManySays self.now.plan seat.old seat.new bodies.now result }
    {
        match self.find_room(seat) {
            Ok(()) => self.push_first(seat, bodies),
            Err(refusal) => ManyTurn::Stopped(refusal),
        }
    }

    /// Pushes the first of these bodies at the back, in their order and at one step: all of them, or as many as there is room for, in
    /// so many turns at most, 1 or more. How many were pushed: one at least, if there is one. The seat may push.
    ///
    /// Refusals: those of `try_push`; none was pushed then. Takes no memory and doesn't wait.
    ///
    /// ```rust
    /// let mut left = bodies;
    /// while !left.is_empty() {
    ///     match queue.try_push_all(&mut giver, left, 8) {
    ///         Ok(pushed) => left = &left[pushed..],
    ///         Err(Refusal::Busy) | Err(Refusal::NoNode) => backoff.snooze(),
    ///         Err(refusal) => return Err(refusal),
    ///     }
    /// }
    /// ```
    pub fn try_push_all(
        &self,
        seat: &mut Seat<T>,
        bodies: &[Body],
        turns: u32,
    ) -> Result<usize, Refusal>
        requires seat { IsNumberSeat self.now seat.old }
        requires role { MayPush (permits_in self.now) (known_of seat.old).number }
        requires turns { 1 ≤ turns }
        ensures seat { IsNumberSeat self.now seat.new }
        ensures number { (known_of seat.new).number ≡ (known_of seat.old).number }
        //= ring/push_all (count, pushed, refused, refusal, caused): A push of many adds the pushes of the first of its bodies, in
        //=   their order, one behind another: one at least, if there is one, and all, but where by its seat's head the ring was
        //=   then full, or no place up to the limit was left. Its refusals and their causes are those of a push; it then pushed none.
        ensures count { IfOk result (AreEnough self.now.plan seat.new bodies.now) }
        ensures pushed { IfOk result
            (λ count. PushedAll (known_of seat.old) (take count bodies.now) (known_of seat.new)) }
        ensures refused { IfErr result
            (λ refusal. PushRefused (known_of seat.old) refusal (known_of seat.new)) }
        ensures refusal { IfErr result StopsPush }
        ensures caused { IfErr result (PushCaused self.now.plan seat.old seat.new turns) }
    {
        if bodies.is_empty() {
            return Ok(0);
        }
        for _ in 0..u64::from(turns) + 1 {
            match self.many_turn(seat, bodies) {
                ManyTurn::Done(count) => return Ok(count),
                ManyTurn::Stopped(refusal) => return Err(refusal),
                ManyTurn::Failed => {}
            }
        }
        Err(Refusal::Busy)
    }
}
