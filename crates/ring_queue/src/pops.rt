//! The pop of a ring.
ghost use Rattle.std.specs.Prelude.{[], ◌∷◌, ◌≡◌, ◌≤◌, true, IfOk, IfErr, IfSome, IsNone};
ghost use Rattle.ring_queue.specs.Steps.{WasLate};
ghost use Rattle.history.specs.Seats.{MayPop};
ghost use Rattle.history.specs.Answers.{PopAnswers, PopRefused, SeesMore, StopsPop};
ghost use Rattle.ring_queue.specs.Plans.{permits_of};
ghost use Rattle.ring_queue.specs.Seats.{IsAtRest, IsReady, HasNoSlot, KeepsName, KeepsSlots, known_of, view};
ghost use Rattle.ring_queue.specs.Knowledge.{found, unfilled};
ghost use Rattle.ring_queue.specs.Queues.{IsRingSeat, permits_in};
ghost use Rattle.ring_queue.specs.Causes.{PopCaused};
ghost use Rattle.ring_queue.specs.Hands.{PopMoves, TurnMoves};
ghost use Rattle.ring_queue.specs.Turns.{TookNone, TurnSays, Tried, TurnTried};

use crate::looks::EndLook;
use crate::queue::RingQueue;
use crate::seats::Seat;
use history::{Refusal, Taken};
use std::hint::spin_loop;

/// What a turn of a pop comes to.
pub(crate) enum Turn {
    /// It took this value.
    Took(Taken),
    /// The queue was empty.
    Empty,
    /// It was shut and empty.
    Closed,
    /// Others were in the way.
    Failed,
}

// How often a pop pauses before it looks again at a place that isn't filled.
const PAUSES: u32 = 64;

impl<T> RingQueue<T> {
    /// A turn of a pop that found its place not filled.
    pub(crate) fn turn_at_end(&self, seat: &mut Seat<T>) -> Turn
        requires ready { IsAtRest self.now.plan self.now.table.shared.table_id seat.old }
        requires late { WasLate self.now.plan (view seat.old).seen seat.old.head }
        requires due { (view seat.old).stage ≡ unfilled }
        ensures seat { IsAtRest self.now.plan self.now.table.shared.table_id seat.new }
        ensures name { KeepsName seat.old seat.new }
        ensures says { TurnSays self.now.plan seat.old seat.new result }
        ensures moves { TurnMoves self.now.plan seat.old seat.new result }
        ensures tried { TurnTried seat.old seat.new result }
        ensures none { TookNone result }
    {
        match self.look_at_end(seat) {
            EndLook::Empty => Turn::Empty,
            EndLook::Closed => Turn::Closed,
            EndLook::Ahead => {
                self.look_at_head(seat);
                Turn::Failed
            }
        }
    }

    /// A pop reads the word at its place, and where this isn't filled once more after a pause: without it a pop chases the
    /// push that fills its place.
    pub(crate) fn look_twice_at_front(&self, seat: &mut Seat<T>) -> Option<u64>
        requires { IsAtRest self.now.plan self.now.table.shared.table_id seat.old }
        ensures seat { IsAtRest self.now.plan self.now.table.shared.table_id seat.new }
        ensures slots { KeepsSlots seat.old seat.new }
        ensures name { KeepsName seat.old seat.new }
        ensures sees { SeesMore (known_of seat.old) (known_of seat.new) }
        ensures head { seat.new.head ≡ seat.old.head }
        ensures tried { Tried seat.old seat.new 0 }
        ensures filled { IfSome result (λ word. (view seat.new).stage ≡ found (word ∷ [])) }
        ensures late { IsNone result → WasLate self.now.plan (view seat.new).seen seat.new.head }
        ensures due { IsNone result → (view seat.new).stage ≡ unfilled }
    {
        if let Some(word) = self.look_at_front(seat) {
            return Some(word);
        }
        for _ in 0..PAUSES {
            spin_loop();
        }
        self.look_at_front(seat)
    }

    /// One turn of a pop.
    fn pop_turn(&self, seat: &mut Seat<T>) -> Turn
        requires ready { IsReady self.now.plan self.now.table.shared.table_id seat.old }
        requires role { MayPop (permits_of self.now.plan) (known_of seat.old).number }
        requires none { self.now.plan.carries ≡ true → HasNoSlot seat.old }
        ensures seat { IsReady self.now.plan self.now.table.shared.table_id seat.new }
        ensures name { KeepsName seat.old seat.new }
        ensures says { TurnSays self.now.plan seat.old seat.new result }
        ensures moves { TurnMoves self.now.plan seat.old seat.new result }
        ensures tried { TurnTried seat.old seat.new result }
    {
        let Some(word) = self.look_twice_at_front(seat) else {
            return self.turn_at_end(seat);
        };
        match self.take_front(seat, word) {
            Some(taken) => Turn::Took(taken),
            None => Turn::Failed,
        }
    }

    /// Takes the value at the front, in so many turns at most. Where the ring carries values, the value popped is the number of the
    /// slot that comes out with it, with its value in it.
    ///
    /// Refusals: those of `try_pop`. Takes no memory and doesn't wait.
    pub fn pop_in(&self, seat: &mut Seat<T>, turns: u32) -> Result<Option<Taken>, Refusal>
        requires ready { IsRingSeat self.now seat.old }
        requires role { MayPop (permits_in self.now) (known_of seat.old).number }
        requires none { self.now.plan.carries ≡ true → HasNoSlot seat.old }
        ensures seat { IsRingSeat self.now seat.new }
        ensures name { KeepsName seat.old seat.new }
        ensures answer { IfOk result (λ taken. PopAnswers (known_of seat.old) taken (known_of seat.new)) }
        ensures refused { IfErr result
            (λ refusal. PopRefused (known_of seat.old) refusal (known_of seat.new)) }
        ensures refusal { IfErr result StopsPop }
        ensures caused { IfErr result (PopCaused self.now.plan seat.old seat.new turns) }
        //= ring/takes (moves, kept): A pop of a ring that carries values takes the slot that its number names, with the value that
        //=   was pushed there: its pop of that value is the last that its seat has seen, and what this had then seen leads to a
        //=   queue with that value in front. One that answers none, or is refused, moves no slot.
        ensures moves { IfOk result (PopMoves self.now.plan seat.old seat.new) }
        ensures kept { IfErr result (λ _. KeepsSlots seat.old seat.new) }
    {
        for _ in 0..turns {
            match self.pop_turn(seat) {
                Turn::Took(taken) => return Ok(Some(taken)),
                Turn::Empty => return Ok(None),
                Turn::Closed => return Err(Refusal::Closed),
                Turn::Failed => {}
            }
        }
        Err(Refusal::Busy)
    }
}
