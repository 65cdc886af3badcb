//! Senders of letters.
ghost use Rattle.std.specs.Prelude.{◌≡◌, ◌≤◌, Err, Some, OnOk, IfOk, IfErr, string_bytes};
ghost use Rattle.history.specs.declared.refusals.Refusal.TheVariants.{Memory, BadSize};
ghost use Rattle.history.specs.Answers.{StopsShut, EndsShut};
ghost use Rattle.mailbox.specs.Refusals.{StopsStore, StopsSend, EndsSend, EndsDue, HandsOn};
ghost use Rattle.mailbox.specs.Plans.{Fits, IsDue};
ghost use Rattle.mailbox.specs.Offices.{IsSender, marks, Stored, StoredAs, Sent, SentNothing, HasNoBody};
ghost use Rattle.mailbox.specs.Offices.{HasStored, HasSentTheSame, DidShutOffice};
ghost use Rattle.mailbox.specs.Offices.{SendHadCause, SendEnded};

use crate::office::Office;
use crate::parcels::{Due, Parcel, Shown};
use carriers::Carrier;
use history::{Body, Fifo, Refusal};
use shared_queue::{Deadline, InTime};
use std::sync::Wait;

/// A seat that sends letters, and what shows the last letter that it stored.
#[derive(Drop)]
pub struct Sender<Q: Fifo + Drop> {
    pub(crate) seat: Q::Seat,
    pub(crate) last: Option<Shown>,
}

impl<Q: Fifo + Drop> Sender<Q> {
    // Stores a letter, which may be one of those due; its index as a body.
    fn store<R: Wait>(
        &mut self,
        rt: &R,
        office: &Office<Q>,
        text: String,
        due: Option<Due>,
    ) -> Result<Body, Refusal>
        requires { Fits (marks office.now) due (string_bytes text) }
        ensures seat { self.new.seat ≡ self.old.seat }
        ensures stored { IfOk result (λ body. Stored office.now self.new body (string_bytes text)) }
        ensures memory { result ≡ Err Memory → self.new ≡ self.old }
        ensures no_body { result ≡ Err BadSize → HasNoBody office.now self.old self.new text }
        ensures due { OnOk result (StoredAs self.new due) }
        ensures refusal { IfErr result StopsStore }
    {
        let Ok(pushed) = office.letters.push_shown(rt, Parcel { due, text }) else {
            return Err(Refusal::Memory);
        };
        let index = pushed.index() as u64;
        self.last = Some(pushed);
        match Body::new(index) {
            Some(body) => Ok(body),
            None => Err(Refusal::BadSize),
        }
    }

    /// Sends a letter, in so many turns at most, 1 or more. The office is the one that the sender was made with.
    ///
    /// Refusals, in this order: `Memory`, where the letter can't be stored; `BadSize`, where 2^48 letters or more were
    /// stored; `NoNode`, `WornOut`, `Busy` and `Closed` of the one push, with the letter stored. Nothing is then sent, and
    /// the text is given up. Takes memory for the letter, and may wait for another thread that makes room for letters.
    ///
    /// ```rust
    /// sender.try_send(rt, &office, text, 8)?;
    /// ```
    pub fn try_send<R: Wait>(
        &mut self,
        rt: &R,
        office: &Office<Q>,
        text: String,
        turns: u32,
    ) -> Result<(), Refusal>
        requires office { IsSender Q.is_seat Q.permits Q.known office.now self.old }
        requires turns { 1 ≤ turns }
        ensures office { IsSender Q.is_seat Q.permits Q.known office.now self.new }
        //= letters/sent (sent, refused, stored): A letter sent is stored, and its index is pushed, one more entry of
        //=   the sender's own. A refused one adds no entry; where the queue refused it, its text is stored, at an index
        //=   that is a body; where the queue was shut, the seat notes it.
        ensures sent { OnOk result (Sent Q.known office.now self.old self.new text) }
        ensures refused { IfErr result (λ refusal. SentNothing Q.known self.old refusal self.new) }
        //= letters/refusals (memory, no_body, refusal)
        ensures memory { result ≡ Err Memory → self.new ≡ self.old }
        ensures no_body { result ≡ Err BadSize → HasNoBody office.now self.old self.new text }
        ensures refusal { IfErr result StopsSend }
        ensures stored { IfErr result (HandsOn (λ _. HasStored office.now self.new text)) }
        //= letters/causes
        ensures caused { IfErr result
            (HandsOn (SendHadCause Q.push_cause office.now self.old self.new turns)) }
    {
        let body = self.store(rt, office, text, None)?;
        match office.queue.try_push(&mut self.seat, body, turns) {
            Ok(()) => Ok(()),
            Err(unpushed) => Err(unpushed.refusal),
        }
    }

    /// Sends a letter, and sleeps while there is no node for it, until a take or a shut wakes it. The letter is stored once.
    ///
    /// Refusals as those of `try_send`, but never `Busy` or `NoNode`. Takes memory for the letter, and waits.
    ///
    /// ```rust
    /// sender.send(rt, &office, text)?;
    /// ```
    pub fn send<R: Wait>(&mut self, rt: &R, office: &Office<Q>, text: String) -> Result<(), Refusal>
        requires office { IsSender Q.is_seat Q.permits Q.known office.now self.old }
        ensures office { IsSender Q.is_seat Q.permits Q.known office.now self.new }
        //= letters/sent (sent, refused, stored)
        ensures sent { OnOk result (Sent Q.known office.now self.old self.new text) }
        ensures refused { IfErr result (λ refusal. SentNothing Q.known self.old refusal self.new) }
        //= letters/refusals (memory, no_body, refusal)
        ensures memory { result ≡ Err Memory → self.new ≡ self.old }
        ensures no_body { result ≡ Err BadSize → HasNoBody office.now self.old self.new text }
        ensures refusal { IfErr result EndsSend }
        ensures stored { IfErr result (HandsOn (λ _. HasStored office.now self.new text)) }
        //= letters/causes
        ensures caused { IfErr result
            (HandsOn (SendEnded Q.is_seat Q.known Q.push_cause office.now self.old self.new 8)) }
    {
        let index = self.store(rt, office, text, None)?;
        match office.queue.send(rt, &mut self.seat, index) {
            Ok(()) => Ok(()),
            Err(unpushed) => Err(unpushed.refusal),
        }
    }

    /// As `send`, of a letter that is one of those due; `NoNode` where there was no node for it when the deadline came.
    pub(crate) fn send_due<R: Wait, D: Deadline>(
        &mut self,
        rt: &R,
        office: &Office<Q>,
        text: String,
        due: Due,
        until: &D,
    ) -> Result<(), Refusal>
        requires office { IsSender Q.is_seat Q.permits Q.known office.now self.old }
        requires due { IsDue (marks office.now) due (string_bytes text) }
        ensures office { IsSender Q.is_seat Q.permits Q.known office.now self.new }
        ensures sent { OnOk result (Sent Q.known office.now self.old self.new text) }
        ensures refused { IfErr result (λ refusal. SentNothing Q.known self.old refusal self.new) }
        ensures memory { result ≡ Err Memory → self.new ≡ self.old }
        ensures no_body { result ≡ Err BadSize → HasNoBody office.now self.old self.new text }
        ensures as_due { OnOk result (StoredAs self.new (Some due)) }
        ensures refusal { IfErr result EndsDue }
        ensures stored { IfErr result (HandsOn (λ _. HasStored office.now self.new text)) }
        ensures caused { IfErr result
            (HandsOn (SendEnded Q.is_seat Q.known Q.push_cause office.now self.old self.new 8)) }
    {
        let body = self.store(rt, office, text, Some(due))?;
        match office.queue.send_until(rt, &mut self.seat, body, until) {
            Ok(InTime::Done(())) => Ok(()),
            Ok(InTime::Late(_unsent)) => Err(Refusal::NoNode),
            Err(unpushed) => Err(unpushed.refusal),
        }
    }

    /// Shuts the office's queue, in so many turns at most, 1 or more: no letter is sent after it, and those sent before
    /// stay to be taken. The office is the one that the sender was made with.
    ///
    /// Refusals: `WornOut` and `Busy` of the queue, and `Closed` where it was shut before; this call didn't shut it then.
    /// Takes no memory and doesn't wait.
    ///
    /// ```rust
    /// match sender.try_shut(&office, 8) {
    ///     Err(Refusal::Busy) => backoff.snooze(),
    ///     // By this call, or by one before.
    ///     Ok(()) | Err(Refusal::Closed) => return Ok(()),
    ///     Err(refusal) => return Err(refusal),
    /// }
    /// ```
    pub fn try_shut(&mut self, office: &Office<Q>, turns: u32) -> Result<(), Refusal>
        requires office { IsSender Q.is_seat Q.permits Q.known office.now self.old }
        requires turns { 1 ≤ turns }
        ensures office { IsSender Q.is_seat Q.permits Q.known office.now self.new }
        //= letters/shut (shut, refused, same): A shut of an office adds one shut of the sender's own; a refused one
        //=   adds no entry, and where the queue was shut, the seat notes it. What the sender has sent, and what shows
        //=   the letter that it stored last, stay.
        ensures shut { OnOk result (DidShutOffice Q.known self.old self.new) }
        ensures refused { IfErr result (λ refusal. SentNothing Q.known self.old refusal self.new) }
        ensures same { HasSentTheSame Q.known self.old self.new }
        //= letters/refusals
        ensures refusal { IfErr result StopsShut }
        //= letters/causes
        ensures caused { IfErr result
            (SendHadCause Q.shut_cause office.now self.old self.new turns) }
    {
        office.queue.try_shut(&mut self.seat, turns)
    }

    /// Shuts the office's queue, and tries again while others are in the way.
    ///
    /// Refusals as those of `try_shut`, but never `Busy`. Takes no memory, and waits.
    ///
    /// ```rust
    /// // The receiver goes on until it has taken what was sent.
    /// sender.shut(rt, &office)?;
    /// ```
    pub fn shut<R: Wait>(&mut self, rt: &R, office: &Office<Q>) -> Result<(), Refusal>
        requires office { IsSender Q.is_seat Q.permits Q.known office.now self.old }
        ensures office { IsSender Q.is_seat Q.permits Q.known office.now self.new }
        //= letters/shut (shut, refused, same)
        ensures shut { OnOk result (DidShutOffice Q.known self.old self.new) }
        ensures refused { IfErr result (λ refusal. SentNothing Q.known self.old refusal self.new) }
        ensures same { HasSentTheSame Q.known self.old self.new }
        //= letters/refusals
        ensures refusal { IfErr result EndsShut }
        //= letters/causes
        ensures caused { IfErr result
            (SendEnded Q.is_seat Q.known Q.shut_cause office.now self.old self.new 8) }
    {
        office.queue.shut(rt, &mut self.seat)
    }
}
