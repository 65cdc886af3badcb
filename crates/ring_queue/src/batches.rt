//! The pop of many values at one step.
ghost use Rattle.std.specs.Prelude.{◌≡◌, ◌+◌, ◌≤◌, [], ◌∷◌, length, take, get_or, vec_len, vec_capacity, IfOk, IfErr, false};
ghost use Rattle.history.specs.Seats.{MayPop};
ghost use Rattle.history.specs.Answers.{PopRefused, StopsPop};
ghost use Rattle.ring_queue.specs.Plans.{permits_of};
ghost use Rattle.ring_queue.specs.Seats.{IsReady, KeepsName, known_of, view};
ghost use Rattle.ring_queue.specs.Knowledge.{found};
ghost use Rattle.ring_queue.specs.Causes.{PopCaused};
ghost use Rattle.ring_queue.specs.Queues.{IsNumberSeat, permits_in};
ghost use Rattle.ring_queue.specs.Many.{TakenAll};
ghost use Rattle.ring_queue.specs.Batches.{PopsSome, BatchSays, BatchTried, GoesOn};
ghost use Rattle.ring_queue.specs.Turns.{Tried};

use crate::acts::taken_of;
use crate::looks::EndLook;
use crate::queue::RingQueue;
use crate::seats::Seat;
use history::{Refusal, Taken};

/// What a turn of a pop of many comes to.
pub(crate) enum Batch {
    /// It took so many values.
    Took(usize),
    /// The queue was empty.
    Empty,
    /// It was shut and empty.
    Closed,
    /// Others were in the way.
    Failed,
}

/// How many values a pop of many takes at the most.
pub const MOST_AT_ONCE: usize = 32;

impl<T> RingQueue<T> {
    // A pop that found these words at its places takes their values, and puts them into a list that has room for them; whether no
    // other had raised Head.
    fn take_fronts(&self, seat: &mut Seat<T>, words: &[u64], into: &mut Vec<Taken>) -> bool
        requires ready { IsReady self.now.plan self.now.table.shared.table_id seat.old }
        requires role { MayPop (permits_of self.now.plan) (known_of seat.old).number }
        requires found { (view seat.old).stage ≡ found words.now }
        requires some { 1 ≤ length words.now }
        requires few { length words.now ≤ 32 }
        requires room { vec_len into.old + length words.now ≤ vec_capacity into.old }
        requires numbers { self.now.plan.carries ≡ false }
        ensures seat { IsReady self.now.plan self.now.table.shared.table_id seat.new }
        ensures name { KeepsName seat.old seat.new }
        ensures taken { TakenAll seat.old seat.new into.old into.new words.now result }
        ensures tried { result ≡ false → Tried seat.old seat.new 1 }
    {
        let head = seat.head;
        if self.raise_head(seat, words, words.len() as u64) != head {
            return false;
        }
        for i in 0..words.len() {
            into.push(taken_of(words[i])).unwrap();
        }
        true
    }

    // A pop that found the first of these words at its place reads the next ones, up to so many in all: how many have values.
    fn look_on(&self, seat: &mut Seat<T>, words: &mut [u64; MOST_AT_ONCE], limit: usize) -> usize
        requires ready { IsReady self.now.plan self.now.table.shared.table_id seat.old }
        requires found { (view seat.old).stage ≡ found (take 1 words.old) }
        requires limit { (1 ≤ limit) × (limit ≤ 32) × (limit ≤ self.now.plan.slots) }
        ensures seat { IsReady self.now.plan self.now.table.shared.table_id seat.new }
        ensures name { KeepsName seat.old seat.new }
        ensures on { GoesOn seat.old seat.new words.new limit result }
        ensures tried { Tried seat.old seat.new 0 }
    {
        let mut count = 1;
        while count < limit {
            let Some(word) = self.look_next(seat, &words[..count], count as u64) else {
                return count;
            };
            words[count] = word;
            count += 1;
        }
        count
    }

    // One turn of a pop of many: no more than `most`, for which the list has room.
    fn batch_turn(&self, seat: &mut Seat<T>, most: usize, into: &mut Vec<Taken>) -> Batch
        requires ready { IsReady self.now.plan self.now.table.shared.table_id seat.old }
        requires role { MayPop (permits_of self.now.plan) (known_of seat.old).number }
        requires most { 1 ≤ most }
        requires room { vec_len into.old + most ≤ vec_capacity into.old }
        requires numbers { self.now.plan.carries ≡ false }
        ensures seat { IsReady self.now.plan self.now.table.shared.table_id seat.new }
        ensures name { KeepsName seat.old seat.new }
        ensures says { BatchSays self.now.plan seat.old seat.new most into.old into.new result }
        ensures tried { BatchTried seat.old seat.new result }
    {
        let Some(word) = self.look_twice_at_front(seat) else {
            return match self.look_at_end(seat) {
                EndLook::Empty => Batch::Empty,
                EndLook::Closed => Batch::Closed,
                EndLook::Ahead => {
                    self.look_at_head(seat);
                    Batch::Failed
                }
            };
        };
        let mut words = [0; MOST_AT_ONCE];
        words[0] = word;
        let limit = most.min(MOST_AT_ONCE).min(self.sizes().slots as usize);
        let count = self.look_on(seat, &mut words, limit);
        if self.take_fronts(seat, &words[..count], into) {
            Batch::Took(count)
        } else {
            Batch::Failed
        }
    }

    /// Takes values at the front at one step, no more than `most`, 1 or more, nor than `MOST_AT_ONCE`, in so many turns at most,
    /// 1 or more, and puts them behind what is in a list that has room for `most` more. How many were taken: one at least, or none
    /// where the queue was empty. The seat may pop.
    ///
    /// Refusals: those of `try_pop`; nothing was popped then. Takes no memory and doesn't wait.
    ///
    /// ```rust
    /// let count = queue.try_pop_up_to(&mut taker, 16, &mut values, 8)?;
    /// ```
    pub fn try_pop_up_to(
        &self,
        seat: &mut Seat<T>,
        most: usize,
        into: &mut Vec<Taken>,
        turns: u32,
    ) -> Result<usize, Refusal>
        requires seat { IsNumberSeat self.now seat.old }
        requires role { MayPop (permits_in self.now) (known_of seat.old).number }
        requires most { 1 ≤ most }
        requires room { vec_len into.old + most ≤ vec_capacity into.old }
        requires turns { 1 ≤ turns }
        ensures seat { IsNumberSeat self.now seat.new }
        ensures number { (known_of seat.new).number ≡ (known_of seat.old).number }
        //= ring/pop_up_to (popped, kept, refused, refusal, caused): A pop of many takes one value at least, and no more than it is
        //=   to, adds their pops, one behind another, and puts the values behind what was in the list; or it answers none, as a
        //=   pop does. Its refusals and their causes are those of a pop, and the list is then as before.
        ensures popped { IfOk result (λ count. PopsSome (known_of seat.old) most
            into.old.items into.new.items (known_of seat.new) count) }
        ensures kept { IfErr result (λ refusal. into.new.items ≡ into.old.items) }
        ensures refused { IfErr result
            (λ refusal. PopRefused (known_of seat.old) refusal (known_of seat.new)) }
        ensures refusal { IfErr result StopsPop }
        ensures caused { IfErr result (PopCaused self.now.plan seat.old seat.new turns) }
    {
        for _ in 0..turns {
            match self.batch_turn(seat, most, into) {
                Batch::Took(count) => return Ok(count),
                Batch::Empty => return Ok(0),
                Batch::Closed => return Err(Refusal::Closed),
                Batch::Failed => {}
            }
        }
        Err(Refusal::Busy)
    }
}
