//! An iterator that takes what is in a queue, and ends where it finds none.
ghost use Rattle.std.specs.Prelude.{◌≡◌, false};
ghost use Rattle.std.specs.Iterator.{at_most};
ghost use Rattle.history.specs.Seats.{MayPop};

use crate::TURNS;
use crossbeam_utils::Backoff;
use history::{Fifo, Refusal, Taken};
use std::iter::FusedIterator;
use std::sync::{Forever, Wait};

/// The values of a queue, each popped as it is asked for, until a pop finds the queue empty: it never waits for a value,
/// only while others are in the way. So does crossbeam's `try_iter`.
///
/// After an item `Err` there is no other. Such refusals are `Closed`, where the queue is shut and empty, and `WornOut`.
#[derive(Drop)]
pub struct UntilEmpty<'a, Q: Fifo, R: Wait> {
    queue: &'a Q,
    rt: &'a R,
    seat: &'a mut Q::Seat,
    turns: Forever<'a, R>,
    ended: bool,
}

impl<'a, Q: Fifo, R: Wait> UntilEmpty<'a, Q, R> {
    ghost use Rattle.carriers.specs.Empties.{queue_of, seat_of, has_ended};

    /// The values of this queue, taken by this seat, which may pop. Takes no memory and doesn't wait.
    ///
    /// ```rust
    /// for taken in UntilEmpty::new(&queue, rt, &mut taker) {
    ///     last = Some(taken?.body);
    /// }
    /// ```
    pub fn new(queue: &'a Q, rt: &'a R, seat: &'a mut Q::Seat) -> UntilEmpty<'a, Q, R>
        //= queues/drains (queue, same, seat, ended)
        ensures queue { queue_of result ≡ queue.now }
        ensures same { (seat_of result).ghost_name ≡ seat.entry.ghost_name }
        ensures seat { (seat_of result).now ≡ seat.old }
        ensures ended { has_ended result ≡ false }
    {
        UntilEmpty {
            queue,
            rt,
            seat,
            turns: rt.forever(),
            ended: false,
        }
    }
}

impl<'a, Q: Fifo, R: Wait> Iterator for UntilEmpty<'a, Q, R> {
    ghost use Rattle.carriers.specs.Empties.{CanPop, GivesUntilEmpty, turns_left};

    type Item = Result<Taken, Refusal>;

    ghost can_next = { CanPop Q.is_seat Q.permits Q.known };

    //= queues/until_empty: An `UntilEmpty` gives the values that its seat pops, and no refusal `Busy`, until a pop finds the queue
    //=   empty; that is its end. It gives another refusal of a pop, with its cause, as its last item.
    //=   After its end or its last item it gives nothing and leaves its seat as it is.
    ghost next_gives = { GivesUntilEmpty Q.is_seat Q.known Q.pop_cause };

    ghost remaining = { λ s. at_most (turns_left s) };

    fn next(&mut self) -> Option<Result<Taken, Refusal>> {
        if self.ended {
            return None;
        }
        self.turns.next();
        let backoff = Backoff::new();
        for _ in self.rt.forever() {
            match self.queue.try_pop(self.seat, TURNS) {
                Ok(Some(taken)) => return Some(Ok(taken)),
                Err(Refusal::Busy) => backoff.snooze(),
                Ok(None) => {
                    self.ended = true;
                    return None;
                }
                Err(refusal) => {
                    self.ended = true;
                    return Some(Err(refusal));
                }
            }
        }
        unreachable!()
    }
}

impl<'a, Q: Fifo, R: Wait> FusedIterator for UntilEmpty<'a, Q, R> {}
