//! Pushes that sleep while the queue is full.
ghost use Rattle.std.specs.Prelude.{◌≡◌, IsTrue, IfErr, IfOk, OnOk, Err};
ghost use Rattle.history.specs.Seats.{MayPush};
ghost use Rattle.carriers.specs.Answers.{PushedOf, PushRefusedOf, EndsByTryOf};
ghost use Rattle.shared_queue.specs.Queues.{queue_of};
ghost use Rattle.shared_queue.specs.Answers.{SendAnswersOf, EndsSend, Ends};

use crate::TURNS;
use crate::deadlines::{At, Deadline, InTime, Never, Unsent};
use crate::queue::SharedQueue;
use crate::steps::{Waiting, refused};
use calls::{Act, Seen, Task, advance};
use carriers::{Carrier, Unpushed};
use crossbeam_utils::Backoff;
use history::Refusal;
use std::sync::Wait;
use std::time::{Clock, Duration, Instant};

impl<C: Carrier> SharedQueue<C> {
    /// Pushes a value at the back, and sleeps while there is no node for it, until a pop or a shut wakes it. The seat may
    /// push.
    ///
    /// Refusals: `WornOut`, and `Closed` where the queue is shut; the value comes back. Takes no memory, and waits.
    ///
    /// ```rust
    /// queue.send(rt, &mut giver, text)?;
    /// ```
    pub fn send<R: Wait>(
        &self,
        rt: &R,
        seat: &mut C::Seat,
        value: C::Item,
    ) -> Result<(), Unpushed<C::Item>>
        requires seat { C.is_seat (queue_of self.now) seat.old }
        requires role { MayPush (C.permits (queue_of self.now)) (C.known seat.old).number }
        //= carriers/sent (seat, number, pushed, back, refused, refusal, caused): A `send` pushes the value, or is refused as
        //=   a `push` is, but never for want of a node, with the cause of a try of 8 turns, and hands this very value
        //=   back.
        ensures seat { C.is_seat (queue_of self.now) seat.new }
        ensures number { (C.known seat.new).number ≡ (C.known seat.old).number }
        ensures pushed { OnOk result (PushedOf (C.known seat.old) value (C.known seat.new)) }
        ensures back { IfErr result (λ unpushed. unpushed.value ≡ value) }
        ensures refused { IfErr result
            (λ unpushed. PushRefusedOf (C.known seat.old) unpushed.refusal (C.known seat.new)) }
        ensures refusal { IfErr result (λ unpushed. EndsSend unpushed.refusal) }
        ensures caused { IfErr result
            (λ unpushed. EndsByTryOf C.is_seat C.known C.push_cause
            (queue_of self.now) seat.old seat.new 8 unpushed.refusal) }
    {
        match self.send_until(rt, seat, value, &Never)? {
            InTime::Done(()) => Ok(()),
            InTime::Late(_unsent) => unreachable!(),
        }
    }

    /// Pushes a value at the back, and sleeps while there is no node for it, for this time at most; then it tries once more.
    /// The seat may push. A clock that can't be read ends the time.
    ///
    /// Refusals: as of `send`. Takes no memory, and waits.
    ///
    /// ```rust
    /// match queue.send_timeout(rt, &mut giver, text, Duration::from_millis(10))? {
    ///     InTime::Done(()) => {}
    ///     InTime::Late(unsent) => text = unsent.value,
    /// }
    /// ```
    pub fn send_timeout<R: Wait + Clock>(
        &self,
        rt: &R,
        seat: &mut C::Seat,
        value: C::Item,
        timeout: Duration,
    ) -> Result<InTime<(), Unsent<C::Item, C::Seat>>, Unpushed<C::Item>>
        requires seat { C.is_seat (queue_of self.now) seat.old }
        requires role { MayPush (C.permits (queue_of self.now)) (C.known seat.old).number }
        //= carriers/sent_in_time (seat, number, answer, back, refused, refusal, caused): A `send_timeout` and a
        //=   `send_deadline` answer as `send` does, or a `Late` with this very value: since the moment that it keeps, a push
        //=   by the seat had cause to be refused for want of a node, and it pushed nothing. That a look at the clock made
        //=   it, no clause says.
        ensures seat { C.is_seat (queue_of self.now) seat.new }
        ensures number { (C.known seat.new).number ≡ (C.known seat.old).number }
        ensures answer { IfOk result (λ answer. SendAnswersOf C.is_seat C.known C.push_cause
            (queue_of self.now) value seat.old answer seat.new) }
        ensures back { IfErr result (λ unpushed. unpushed.value ≡ value) }
        ensures refused { IfErr result
            (λ unpushed. PushRefusedOf (C.known seat.old) unpushed.refusal (C.known seat.new)) }
        ensures refusal { IfErr result (λ unpushed. EndsSend unpushed.refusal) }
        ensures caused { IfErr result
            (λ unpushed. EndsByTryOf C.is_seat C.known C.push_cause
            (queue_of self.now) seat.old seat.new 8 unpushed.refusal) }
    {
        self.send_until(rt, seat, value, &At::after(rt, timeout))
    }

    /// Pushes a value at the back, and sleeps while there is no node for it, until this instant at most; then it tries once
    /// more. The seat may push. A clock that can't be read ends the time.
    ///
    /// Refusals: as of `send`. Takes no memory, and waits.
    ///
    /// ```rust
    /// let answer = queue.send_deadline(rt, &mut giver, text, deadline)?;
    /// ```
    pub fn send_deadline<R: Wait + Clock>(
        &self,
        rt: &R,
        seat: &mut C::Seat,
        value: C::Item,
        deadline: Instant,
    ) -> Result<InTime<(), Unsent<C::Item, C::Seat>>, Unpushed<C::Item>>
        requires seat { C.is_seat (queue_of self.now) seat.old }
        requires role { MayPush (C.permits (queue_of self.now)) (C.known seat.old).number }
        //= carriers/sent_in_time (seat, number, answer, back, refused, refusal, caused)
        ensures seat { C.is_seat (queue_of self.now) seat.new }
        ensures number { (C.known seat.new).number ≡ (C.known seat.old).number }
        ensures answer { IfOk result (λ answer. SendAnswersOf C.is_seat C.known C.push_cause
            (queue_of self.now) value seat.old answer seat.new) }
        ensures back { IfErr result (λ unpushed. unpushed.value ≡ value) }
        ensures refused { IfErr result
            (λ unpushed. PushRefusedOf (C.known seat.old) unpushed.refusal (C.known seat.new)) }
        ensures refusal { IfErr result (λ unpushed. EndsSend unpushed.refusal) }
        ensures caused { IfErr result
            (λ unpushed. EndsByTryOf C.is_seat C.known C.push_cause
            (queue_of self.now) seat.old seat.new 8 unpushed.refusal) }
    {
        self.send_until(rt, seat, value, &At::instant(rt, deadline))
    }

    /// Pushes a value at the back, and sleeps while there is no node for it, until the deadline comes; then it tries once
    /// more. The seat may push.
    ///
    /// Refusals: as of `send`. Takes no memory, and waits.
    ///
    /// ```rust
    /// let answer = queue.send_until(rt, &mut giver, text, &told_to_stop)?;
    /// ```
    pub fn send_until<R: Wait, D: Deadline>(
        &self,
        rt: &R,
        seat: &mut C::Seat,
        mut value: C::Item,
        until: &D,
    ) -> Result<InTime<(), Unsent<C::Item, C::Seat>>, Unpushed<C::Item>>
        requires seat { C.is_seat (queue_of self.now) seat.old }
        requires role { MayPush (C.permits (queue_of self.now)) (C.known seat.old).number }
        //= carriers/received_until (seat, number, answer, comes, back, refused, refusal, caused)
        ensures seat { C.is_seat (queue_of self.now) seat.new }
        ensures number { (C.known seat.new).number ≡ (C.known seat.old).number }
        ensures answer { IfOk result (λ answer. SendAnswersOf C.is_seat C.known C.push_cause
            (queue_of self.now) value seat.old answer seat.new) }
        ensures comes { IfOk result (Ends (IsTrue (D.comes until.now))) }
        ensures back { IfErr result (λ unpushed. unpushed.value ≡ value) }
        ensures refused { IfErr result
            (λ unpushed. PushRefusedOf (C.known seat.old) unpushed.refusal (C.known seat.new)) }
        ensures refusal { IfErr result (λ unpushed. EndsSend unpushed.refusal) }
        ensures caused { IfErr result
            (λ unpushed. EndsByTryOf C.is_seat C.known C.push_cause
            (queue_of self.now) seat.old seat.new 8 unpushed.refusal) }
    {
        let mut waiting = Waiting::new(Task::Push);
        let mut late = None;
        let backoff = Backoff::new();
        for _ in rt.forever() {
            if !waiting.looks() {
                late = self.bells.step_aside(seat, &mut waiting, until);
                continue;
            }
            let unshut = match self.look_for_shut(rt, seat) {
                Ok(unshut) => unshut,
                Err(refusal) => {
                    self.bells.leave(waiting.call, refused(&refusal));
                    return Err(Unpushed { refusal, value });
                }
            };
            match self.queue.try_push(seat, value, TURNS) {
                Ok(()) => {
                    self.bells.leave(waiting.call, Seen::Got);
                    return Ok(InTime::Done(()));
                }
                Err(unpushed) => match unpushed.refusal {
                    Refusal::NoNode => {
                        value = unpushed.value;
                        match advance(&mut waiting.call, Seen::Nothing, false) {
                            Act::Sleep(_) => {
                                if let Some(heard) = &waiting.heard {
                                    self.sleep_full(rt, seat, heard, unshut, until);
                                }
                            }
                            Act::Tell(_) => match late {
                                Some(late) => return Ok(InTime::Late(Unsent { late, value })),
                                None => late = None,
                            },
                            _ => backoff.snooze(),
                        }
                    }
                    Refusal::Busy => {
                        value = unpushed.value;
                        backoff.snooze();
                    }
                    _ => {
                        self.bells.leave(waiting.call, refused(&unpushed.refusal));
                        return Err(unpushed);
                    }
                },
            }
        }
        unreachable!()
    }
}
