//! Pops that sleep while the queue is empty.
ghost use Rattle.std.specs.Prelude.{◌≡◌, IsTrue, IfErr, IfOk, Err};
ghost use Rattle.history.specs.Seats.{MayPop};
ghost use Rattle.history.specs.Answers.{EndsPop};
ghost use Rattle.shared_queue.specs.Queues.{queue_of};
ghost use Rattle.shared_queue.specs.Answers.{ReceivedOf, RecvRefusedOf, RecvAnswersOf, Ends, EndsAfterWaitOf};

use crate::TURNS;
use crate::deadlines::{At, Deadline, InTime, Late, Never};
use crate::queue::SharedQueue;
use crate::steps::{Waiting, refused};
use calls::{Act, Seen, Task, advance};
use carriers::{Carrier, ItemOf};
use crossbeam_utils::Backoff;
use history::Refusal;
use std::sync::Wait;
use std::time::{Clock, Duration, Instant};

impl<C: Carrier> SharedQueue<C> {
    /// Takes the value at the front, and sleeps while there is none, until a push or a shut wakes it. The seat may pop.
    ///
    /// Refusals: `WornOut`, and `Closed` where the queue is shut and empty. Takes no memory, and waits.
    ///
    /// ```rust
    /// let text = queue.recv(rt, &mut taker)?.value;
    /// ```
    pub fn recv<R: Wait>(&self, rt: &R, seat: &mut C::Seat) -> Result<ItemOf<C::Item>, Refusal>
        requires seat { C.is_seat (queue_of self.now) seat.old }
        requires role { MayPop (C.permits (queue_of self.now)) (C.known seat.old).number }
        //= carriers/received (seat, number, received, refused, refusal, caused): A `recv` pops a value; before that its
        //=   seat did nothing to the queue, saw no less, and noted only more. It is refused as a `pop` is, after the same, and has the
        //=   cause of a try of 8 turns.
        ensures seat { C.is_seat (queue_of self.now) seat.new }
        ensures number { (C.known seat.new).number ≡ (C.known seat.old).number }
        ensures received { IfOk result
            (λ front. ReceivedOf (C.known seat.old) front (C.known seat.new)) }
        ensures refused { IfErr result
            (λ refusal. RecvRefusedOf (C.known seat.old) refusal (C.known seat.new)) }
        ensures refusal { IfErr result EndsPop }
        ensures caused { IfErr result (EndsAfterWaitOf C.is_seat C.known C.pop_cause
            (queue_of self.now) seat.old seat.new 8) }
    {
        match self.recv_until(rt, seat, &Never)? {
            InTime::Done(front) => Ok(front),
            InTime::Late(_) => unreachable!(),
        }
    }

    /// Takes the value at the front, and sleeps while there is none, for this time at most; then it looks once more. The
    /// seat may pop. A clock that can't be read ends the time.
    ///
    /// Refusals: as of `recv`. Takes no memory, and waits.
    ///
    /// ```rust
    /// match queue.recv_timeout(rt, &mut taker, Duration::from_millis(10))? {
    ///     InTime::Done(item) => last = Some(item.value),
    ///     InTime::Late(_) => println!(rt; "nothing came")?,
    /// }
    /// ```
    pub fn recv_timeout<R: Wait + Clock>(
        &self,
        rt: &R,
        seat: &mut C::Seat,
        timeout: Duration,
    ) -> Result<InTime<ItemOf<C::Item>, Late<C::Seat>>, Refusal>
        requires seat { C.is_seat (queue_of self.now) seat.old }
        requires role { MayPop (C.permits (queue_of self.now)) (C.known seat.old).number }
        //= carriers/received_in_time (seat, number, answer, refused, refusal, caused): A `recv_timeout` and a `recv_deadline`
        //=   answer as `recv` does, or a `Late`: then the seat, which had waited until the moment that it keeps, found the
        //=   queue empty once more. That a look at the clock made it, no clause says.
        ensures seat { C.is_seat (queue_of self.now) seat.new }
        ensures number { (C.known seat.new).number ≡ (C.known seat.old).number }
        ensures answer { IfOk result (λ answer. RecvAnswersOf C.known seat.old answer seat.new) }
        ensures refused { IfErr result
            (λ refusal. RecvRefusedOf (C.known seat.old) refusal (C.known seat.new)) }
        ensures refusal { IfErr result EndsPop }
        ensures caused { IfErr result (EndsAfterWaitOf C.is_seat C.known C.pop_cause
            (queue_of self.now) seat.old seat.new 8) }
    {
        self.recv_until(rt, seat, &At::after(rt, timeout))
    }

    /// Takes the value at the front, and sleeps while there is none, until this instant at most; then it looks once more.
    /// The seat may pop. A clock that can't be read ends the time.
    ///
    /// Refusals: as of `recv`. Takes no memory, and waits.
    ///
    /// ```rust
    /// let answer = queue.recv_deadline(rt, &mut taker, deadline)?;
    /// ```
    pub fn recv_deadline<R: Wait + Clock>(
        &self,
        rt: &R,
        seat: &mut C::Seat,
        deadline: Instant,
    ) -> Result<InTime<ItemOf<C::Item>, Late<C::Seat>>, Refusal>
        requires seat { C.is_seat (queue_of self.now) seat.old }
        requires role { MayPop (C.permits (queue_of self.now)) (C.known seat.old).number }
        //= carriers/received_in_time (seat, number, answer, refused, refusal, caused)
        ensures seat { C.is_seat (queue_of self.now) seat.new }
        ensures number { (C.known seat.new).number ≡ (C.known seat.old).number }
        ensures answer { IfOk result (λ answer. RecvAnswersOf C.known seat.old answer seat.new) }
        ensures refused { IfErr result
            (λ refusal. RecvRefusedOf (C.known seat.old) refusal (C.known seat.new)) }
        ensures refusal { IfErr result EndsPop }
        ensures caused { IfErr result (EndsAfterWaitOf C.is_seat C.known C.pop_cause
            (queue_of self.now) seat.old seat.new 8) }
    {
        self.recv_until(rt, seat, &At::instant(rt, deadline))
    }

    /// Takes the value at the front, and sleeps while there is none, until the deadline comes; then it looks once more. The
    /// seat may pop.
    ///
    /// Refusals: as of `recv`. Takes no memory, and waits.
    ///
    /// ```rust
    /// let answer = queue.recv_until(rt, &mut taker, &told_to_stop)?;
    /// ```
    pub fn recv_until<R: Wait, D: Deadline>(
        &self,
        rt: &R,
        seat: &mut C::Seat,
        until: &D,
    ) -> Result<InTime<ItemOf<C::Item>, Late<C::Seat>>, Refusal>
        requires seat { C.is_seat (queue_of self.now) seat.old }
        requires role { MayPop (C.permits (queue_of self.now)) (C.known seat.old).number }
        //= carriers/received_until (seat, number, answer, comes, refused, refusal, caused): A `recv_until` and a `send_until`
        //=   answer as `recv_timeout` and `send_timeout` do, and `Late` only where their deadline comes at all.
        ensures seat { C.is_seat (queue_of self.now) seat.new }
        ensures number { (C.known seat.new).number ≡ (C.known seat.old).number }
        ensures answer { IfOk result (λ answer. RecvAnswersOf C.known seat.old answer seat.new) }
        ensures comes { IfOk result (Ends (IsTrue (D.comes until.now))) }
        ensures refused { IfErr result
            (λ refusal. RecvRefusedOf (C.known seat.old) refusal (C.known seat.new)) }
        ensures refusal { IfErr result EndsPop }
        ensures caused { IfErr result (EndsAfterWaitOf C.is_seat C.known C.pop_cause
            (queue_of self.now) seat.old seat.new 8) }
    {
        let mut waiting = Waiting::new(Task::Pop);
        let mut late = None;
        let backoff = Backoff::new();
        for _ in rt.forever() {
            if !waiting.looks() {
                late = self.bells.step_aside(seat, &mut waiting, until);
                continue;
            }
            let answer = self.queue.try_pop(seat, TURNS);
            self.bells.tried(Task::Pop, Seen::Got);
            match answer {
                Ok(Some(front)) => {
                    self.bells.leave(waiting.call, Seen::Got);
                    return Ok(InTime::Done(front));
                }
                Ok(None) => match advance(&mut waiting.call, Seen::Nothing, false) {
                    Act::Sleep(_) => {
                        if let Some(heard) = &waiting.heard {
                            self.sleep_empty(rt, seat, heard, until);
                        }
                    }
                    Act::Tell(_) => match late {
                        Some(late) => return Ok(InTime::Late(late)),
                        None => late = None,
                    },
                    _ => backoff.snooze(),
                },
                Err(Refusal::Busy) => backoff.snooze(),
                Err(refusal) => {
                    self.bells.leave(waiting.call, refused(&refusal));
                    return Err(refusal);
                }
            }
        }
        unreachable!()
    }
}
