//! What a sender does.
ghost use Rattle.std.specs.Prelude.{◌≡◌, IfErr, IfOk, OnOk};
ghost use Rattle.history.specs.Answers.{StopsPush};
ghost use Rattle.carriers.specs.Answers.{PushedOf, PushRefusedOf, EndsByTryOf};
ghost use Rattle.shared_queue.specs.Answers.{SendAnswersOf, EndsSend};

use crate::TURNS;
use crate::deadlines::{InTime, Unsent};
use crate::sender::Sender;
use carriers::{Carrier, Unpushed};
use std::sync::Wait;
use std::time::{Clock, Duration, Instant};

impl<C: Carrier + Drop> Sender<C> {
    ghost use Rattle.shared_queue.specs.Handles.{sender_queue, sender_seat};

    /// Sends a value, and sleeps while there is no room for it, until a pop or a shut wakes it.
    ///
    /// Refusals: as of the queue's `send`; the value comes back. Takes no memory, and waits.
    ///
    /// ```rust
    /// sender.send(rt, text)?;
    /// ```
    pub fn send<R: Wait>(&mut self, rt: &R, value: C::Item) -> Result<(), Unpushed<C::Item>>
        //= carriers/channel_calls (queue, number, pushed, back, refused, refusal, caused)
        ensures queue { sender_queue self.new ≡ sender_queue self.old }
        ensures number { (C.known (sender_seat self.new)).number
            ≡ (C.known (sender_seat self.old)).number }
        ensures pushed { OnOk result
            (PushedOf (C.known (sender_seat self.old)) value (C.known (sender_seat self.new))) }
        ensures back { IfErr result (λ unpushed. unpushed.value ≡ value) }
        ensures refused { IfErr result
            (λ unpushed. PushRefusedOf (C.known (sender_seat self.old)) unpushed.refusal
            (C.known (sender_seat self.new))) }
        ensures refusal { IfErr result (λ unpushed. EndsSend unpushed.refusal) }
        ensures caused { IfErr result
            (λ unpushed. EndsByTryOf C.is_seat C.known C.push_cause
            (sender_queue self.old) (sender_seat self.old) (sender_seat self.new) 8
            unpushed.refusal) }
    {
        self.queue.send(rt, &mut self.seat, value)
    }

    /// Sends a value, and sleeps while there is no room for it, for this time at most; then it tries once more.
    ///
    /// Refusals: as of the queue's `send_timeout`. Takes no memory, and waits.
    ///
    /// ```rust
    /// match sender.send_timeout(rt, text, Duration::from_millis(10))? {
    ///     InTime::Done(()) => {}
    ///     InTime::Late(unsent) => text = unsent.value,
    /// }
    /// ```
    pub fn send_timeout<R: Wait + Clock>(
        &mut self,
        rt: &R,
        value: C::Item,
        timeout: Duration,
    ) -> Result<InTime<(), Unsent<C::Item, C::Seat>>, Unpushed<C::Item>>
        //= carriers/channel_calls (queue, number, answer, back, refused, refusal, caused)
        ensures queue { sender_queue self.new ≡ sender_queue self.old }
        ensures number { (C.known (sender_seat self.new)).number
            ≡ (C.known (sender_seat self.old)).number }
        ensures answer { IfOk result (λ answer. SendAnswersOf C.is_seat C.known C.push_cause
            (sender_queue self.old) value (sender_seat self.old) answer (sender_seat self.new)) }
        ensures back { IfErr result (λ unpushed. unpushed.value ≡ value) }
        ensures refused { IfErr result
            (λ unpushed. PushRefusedOf (C.known (sender_seat self.old)) unpushed.refusal
            (C.known (sender_seat self.new))) }
        ensures refusal { IfErr result (λ unpushed. EndsSend unpushed.refusal) }
        ensures caused { IfErr result
            (λ unpushed. EndsByTryOf C.is_seat C.known C.push_cause
            (sender_queue self.old) (sender_seat self.old) (sender_seat self.new) 8
            unpushed.refusal) }
    {
        self.queue.send_timeout(rt, &mut self.seat, value, timeout)
    }

    /// Sends a value, and sleeps while there is no room for it, until this instant at most; then it tries once more.
    ///
    /// Refusals: as of the queue's `send_deadline`. Takes no memory, and waits.
    ///
    /// ```rust
    /// let answer = sender.send_deadline(rt, text, deadline)?;
    /// ```
    pub fn send_deadline<R: Wait + Clock>(
        &mut self,
        rt: &R,
        value: C::Item,
        deadline: Instant,
    ) -> Result<InTime<(), Unsent<C::Item, C::Seat>>, Unpushed<C::Item>>
        //= carriers/channel_calls (queue, number, answer, back, refused, refusal, caused)
        ensures queue { sender_queue self.new ≡ sender_queue self.old }
        ensures number { (C.known (sender_seat self.new)).number
            ≡ (C.known (sender_seat self.old)).number }
        ensures answer { IfOk result (λ answer. SendAnswersOf C.is_seat C.known C.push_cause
            (sender_queue self.old) value (sender_seat self.old) answer (sender_seat self.new)) }
        ensures back { IfErr result (λ unpushed. unpushed.value ≡ value) }
        ensures refused { IfErr result
            (λ unpushed. PushRefusedOf (C.known (sender_seat self.old)) unpushed.refusal
            (C.known (sender_seat self.new))) }
        ensures refusal { IfErr result (λ unpushed. EndsSend unpushed.refusal) }
        ensures caused { IfErr result
            (λ unpushed. EndsByTryOf C.is_seat C.known C.push_cause
            (sender_queue self.old) (sender_seat self.old) (sender_seat self.new) 8
            unpushed.refusal) }
    {
        self.queue
            .send_deadline(rt, &mut self.seat, value, deadline)
    }

    /// Sends a value, in 8 turns at most.
    ///
    /// Refusals: `NoNode` where there is no room for it, `Busy` where others are in the way, and as of `send`; the value comes
    /// back. Takes no memory and doesn't wait.
    ///
    /// ```rust
    /// match sender.try_send(text) {
    ///     Err(Unpushed { refusal: Refusal::NoNode, value }) => later.push(value)?,
    ///     done => done?,
    /// }
    /// ```
    pub fn try_send(&mut self, value: C::Item) -> Result<(), Unpushed<C::Item>>
        //= carriers/channel_calls (queue, number, pushed, back, refused, refusal, caused)
        ensures queue { sender_queue self.new ≡ sender_queue self.old }
        ensures number { (C.known (sender_seat self.new)).number
            ≡ (C.known (sender_seat self.old)).number }
        ensures pushed { OnOk result
            (PushedOf (C.known (sender_seat self.old)) value (C.known (sender_seat self.new))) }
        ensures back { IfErr result (λ unpushed. unpushed.value ≡ value) }
        ensures refused { IfErr result
            (λ unpushed. PushRefusedOf (C.known (sender_seat self.old)) unpushed.refusal
            (C.known (sender_seat self.new))) }
        ensures refusal { IfErr result (λ unpushed. StopsPush unpushed.refusal) }
        ensures caused { IfErr result
            (λ unpushed. C.push_cause (sender_queue self.old) (sender_seat self.old)
            (sender_seat self.new) 8 unpushed.refusal) }
    {
        self.queue.try_push(&mut self.seat, value, TURNS)
    }
}
