//! What a receiver does.
ghost use Rattle.std.specs.Prelude.{◌≡◌, IfErr, IfOk};
ghost use Rattle.history.specs.Answers.{StopsPop, EndsPop};
ghost use Rattle.carriers.specs.Answers.{PopAnswersOf, PopRefusedOf};
ghost use Rattle.shared_queue.specs.Answers.{ReceivedOf, RecvRefusedOf, RecvAnswersOf, EndsAfterWaitOf};
ghost use Rattle.shared_queue.specs.Ends.{AnswersToEndOf, IsWornOut, IfEndOf};

use crate::TURNS;
use crate::deadlines::{InTime, Late};
use crate::receiver::Receiver;
use carriers::{Carrier, ItemOf};
use history::Refusal;
use std::sync::Wait;
use std::time::{Clock, Duration, Instant};

impl<C: Carrier + Drop> Receiver<C> {
    ghost use Rattle.shared_queue.specs.Handles.{receiver_queue, receiver_seat};

    /// Receives the value at the front, and sleeps while there is none, until a push or a shut wakes it.
    ///
    /// Refusals: as of the queue's `recv`. Takes no memory, and waits.
    ///
    /// ```rust
    /// let text = receiver.recv(rt)?.value;
    /// ```
    pub fn recv<R: Wait>(&mut self, rt: &R) -> Result<ItemOf<C::Item>, Refusal>
        //= carriers/channel_calls (queue, number, received, refused, refusal, caused): A call by a receiver or a sender has the
        //=   clauses of the queue's own over what its seat knows, asks for nothing, and keeps its queue; one that doesn't wait
        //=   takes 8 turns.
        ensures queue { receiver_queue self.new ≡ receiver_queue self.old }
        ensures number { (C.known (receiver_seat self.new)).number
            ≡ (C.known (receiver_seat self.old)).number }
        ensures received { IfOk result
            (λ front. ReceivedOf (C.known (receiver_seat self.old)) front
            (C.known (receiver_seat self.new))) }
        ensures refused { IfErr result
            (λ refusal. RecvRefusedOf (C.known (receiver_seat self.old)) refusal
            (C.known (receiver_seat self.new))) }
        ensures refusal { IfErr result EndsPop }
        ensures caused { IfErr result (EndsAfterWaitOf C.is_seat C.known C.pop_cause
            (receiver_queue self.old) (receiver_seat self.old) (receiver_seat self.new) 8) }
    {
        self.queue.recv(rt, &mut self.seat)
    }

    /// The value at the front, for which it sleeps; none once the queue is shut and empty.
    ///
    /// Refusals: `WornOut`. Takes no memory, and waits.
    ///
    /// ```rust
    /// while let Some(item) = receiver.recv_or_end(rt)? {
    ///     read(item.from, item.value);
    /// }
    /// ```
    pub fn recv_or_end<R: Wait>(&mut self, rt: &R) -> Result<Option<ItemOf<C::Item>>, Refusal>
        //= carriers/channel_to_the_end (queue, number, next, refusal, caused): A `recv_or_end` answers as `recv`, but none where
        //=   that is refused `Closed`, with the same cause.
        ensures queue { receiver_queue self.new ≡ receiver_queue self.old }
        ensures number { (C.known (receiver_seat self.new)).number
            ≡ (C.known (receiver_seat self.old)).number }
        ensures next { AnswersToEndOf (C.known (receiver_seat self.old)) result
            (C.known (receiver_seat self.new)) }
        ensures refusal { IfErr result IsWornOut }
        ensures caused { IfEndOf result (EndsAfterWaitOf C.is_seat C.known C.pop_cause
            (receiver_queue self.old) (receiver_seat self.old) (receiver_seat self.new) 8) }
    {
        match self.recv(rt) {
            Ok(item) => Ok(Some(item)),
            Err(Refusal::Closed) => Ok(None),
            Err(refusal) => Err(refusal),
        }
    }

    /// Receives the value at the front, and sleeps while there is none, for this time at most; then it looks once more.
    ///
    /// Refusals: as of the queue's `recv_timeout`. Takes no memory, and waits.
    ///
    /// ```rust
    /// let answer = receiver.recv_timeout(rt, Duration::from_millis(10))?;
    /// ```
    pub fn recv_timeout<R: Wait + Clock>(
        &mut self,
        rt: &R,
        timeout: Duration,
    ) -> Result<InTime<ItemOf<C::Item>, Late<C::Seat>>, Refusal>
        //= carriers/channel_calls (queue, number, answer, refused, refusal, caused)
        ensures queue { receiver_queue self.new ≡ receiver_queue self.old }
        ensures number { (C.known (receiver_seat self.new)).number
            ≡ (C.known (receiver_seat self.old)).number }
        ensures answer { IfOk result
            (λ answer. RecvAnswersOf C.known (receiver_seat self.old) answer
            (receiver_seat self.new)) }
        ensures refused { IfErr result
            (λ refusal. RecvRefusedOf (C.known (receiver_seat self.old)) refusal
            (C.known (receiver_seat self.new))) }
        ensures refusal { IfErr result EndsPop }
        ensures caused { IfErr result (EndsAfterWaitOf C.is_seat C.known C.pop_cause
            (receiver_queue self.old) (receiver_seat self.old) (receiver_seat self.new) 8) }
    {
        self.queue.recv_timeout(rt, &mut self.seat, timeout)
    }

    /// Receives the value at the front, and sleeps while there is none, until this instant at most; then it looks once more.
    ///
    /// Refusals: as of the queue's `recv_deadline`. Takes no memory, and waits.
    ///
    /// ```rust
    /// let answer = receiver.recv_deadline(rt, deadline)?;
    /// ```
    pub fn recv_deadline<R: Wait + Clock>(
        &mut self,
        rt: &R,
        deadline: Instant,
    ) -> Result<InTime<ItemOf<C::Item>, Late<C::Seat>>, Refusal>
        //= carriers/channel_calls (queue, number, answer, refused, refusal, caused)
        ensures queue { receiver_queue self.new ≡ receiver_queue self.old }
        ensures number { (C.known (receiver_seat self.new)).number
            ≡ (C.known (receiver_seat self.old)).number }
        ensures answer { IfOk result
            (λ answer. RecvAnswersOf C.known (receiver_seat self.old) answer
            (receiver_seat self.new)) }
        ensures refused { IfErr result
            (λ refusal. RecvRefusedOf (C.known (receiver_seat self.old)) refusal
            (C.known (receiver_seat self.new))) }
        ensures refusal { IfErr result EndsPop }
        ensures caused { IfErr result (EndsAfterWaitOf C.is_seat C.known C.pop_cause
            (receiver_queue self.old) (receiver_seat self.old) (receiver_seat self.new) 8) }
    {
        self.queue.recv_deadline(rt, &mut self.seat, deadline)
    }

    /// Receives the value at the front, in 8 turns at most; none where the queue was empty.
    ///
    /// Refusals: `Busy` where others are in the way, and as of `recv`. Takes no memory and doesn't wait.
    ///
    /// ```rust
    /// if let Some(item) = receiver.try_recv()? {
    ///     text = item.value;
    /// }
    /// ```
    pub fn try_recv(&mut self) -> Result<Option<ItemOf<C::Item>>, Refusal>
        //= carriers/channel_calls (queue, number, answer, refused, refusal, caused)
        ensures queue { receiver_queue self.new ≡ receiver_queue self.old }
        ensures number { (C.known (receiver_seat self.new)).number
            ≡ (C.known (receiver_seat self.old)).number }
        ensures answer { IfOk result
            (λ front. PopAnswersOf (C.known (receiver_seat self.old)) front
            (C.known (receiver_seat self.new))) }
        ensures refused { IfErr result
            (λ refusal. PopRefusedOf (C.known (receiver_seat self.old)) refusal
            (C.known (receiver_seat self.new))) }
        ensures refusal { IfErr result StopsPop }
        ensures caused { IfErr result (C.pop_cause (receiver_queue self.old)
            (receiver_seat self.old) (receiver_seat self.new) 8) }
    {
        self.queue.try_pop(&mut self.seat, TURNS)
    }
}
