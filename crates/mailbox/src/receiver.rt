//! The receiver of letters.
ghost use Rattle.std.specs.Prelude.{◌≡◌, ◌≤◌, ◌≢◌, true, Err, IfErr, IfOk, OnOk, OnErr};
ghost use Rattle.history.specs.declared.refusals.Refusal.TheVariants.{Lost};
ghost use Rattle.carriers.specs.Answers.{PoppedOf, PopRefusedOf};
ghost use Rattle.shared_queue.specs.Answers.{ReceivedOf, RecvRefusedOf};
ghost use Rattle.mailbox.specs.Deliveries.{InOrder};
ghost use Rattle.mailbox.specs.Offices.{IsReceiver, receiver_knows, has_lost};
ghost use Rattle.mailbox.specs.Offices.{ShowsLast, LastIs, LastFits, Read, FoundMissing};
ghost use Rattle.mailbox.specs.Offices.{TakeAnswers, TookText, TookNothing, Loses, RecvAnswers};
ghost use Rattle.mailbox.specs.Offices.{TakeHadCause, TakeEnded, RecvEnded};
ghost use Rattle.mailbox.specs.Refusals.{StopsTake, EndsTake, HandsOn};

use crate::office::Office;
use crate::parcels::{Due, Missing, Shown, find, parcel_at};
use carriers::{Carrier, ItemOf};
use history::{Body, Fifo, Refusal};
use shared_queue::{Deadline, InTime};
use std::sync::Wait;

/// A letter taken: the number of its sender's seat, and its text.
#[derive(Clone, Copy, Debug)]
pub struct Letter<'a> {
    pub from: u16,
    pub text: &'a str,
}

/// The seat that takes letters, what shows the last letter that it took, and the store's answer where one is lost.
#[derive(Drop)]
pub struct Receiver<Q: Fifo + Drop> {
    pub(crate) seat: Q::Seat,
    pub(crate) last: Option<Shown>,
    pub(crate) missing: Option<Missing>,
}

impl<Q: Fifo + Drop> Receiver<Q> {
    // Whether a letter was lost.
    fn has_lost(&self) -> bool
        ensures { result ≡ has_lost self.now }
    {
        self.missing.is_some()
    }

    // The letter that a value names. Refused by `Lost` where the office shows none.
    fn open<'a>(
        &mut self,
        office: &'a Office<Q>,
        front: ItemOf<Body>,
    ) -> Result<Letter<'a>, Refusal>
        ensures seat { self.new.seat ≡ self.old.seat }
        ensures from { IfOk result (λ letter. front.from ≡ letter.from) }
        ensures read { IfOk result
            (λ letter. Read office.now self.new front.value letter.text.now) }
        ensures kept { OnOk result (has_lost self.new ≡ has_lost self.old) }
        ensures missing { OnErr result (FoundMissing self.new front.value) }
        ensures refusal { IfErr result (λ refusal. refusal ≡ Lost) }
    {
        let shown = match find(&office.letters, front.value.number() as usize) {
            Ok(shown) => shown,
            Err(missing) => {
                self.missing = Some(missing);
                return Err(Refusal::Lost);
            }
        };
        let parcel = parcel_at(&office.letters, &shown);
        self.last = Some(shown);
        Ok(Letter {
            from: front.from,
            text: parcel.text.as_str(),
        })
    }

    /// Takes the letter that is due, in so many turns at most, 1 or more; none where there was none. The office is the one
    /// that the receiver was made with.
    ///
    /// Refusals: `WornOut` and `Busy` of the queue, and `Closed` where it is shut and empty, and nothing is then taken;
    /// `Lost` where the office shows no text for what was taken, and from then on always. Takes no memory and doesn't wait.
    ///
    /// ```rust
    /// if let Some(letter) = receiver.try_take(&office, 8)? {
    ///     last = Some(letter.text);
    /// }
    /// ```
    pub fn try_take<'a>(
        &mut self,
        office: &'a Office<Q>,
        turns: u32,
    ) -> Result<Option<Letter<'a>>, Refusal>
        requires office { IsReceiver Q.is_seat Q.permits Q.known office.now self.old }
        requires turns { 1 ≤ turns }
        ensures office { IsReceiver Q.is_seat Q.permits Q.known office.now self.new }
        //= letters/taken: A letter taken names the sender of the one value popped, and is the text that the office
        //=   shows at its body. Where there is none the queue was found empty.
        ensures answer { IfOk result (λ v. TakeAnswers Q.known office.now self.old v self.new) }
        //= letters/in_order
        ensures order { InOrder (receiver_knows Q.known self.new) }
        //= letters/refused_take (refused, lost, stays_lost): A refused take took nothing, and at `Closed` its seat
        //=   notes that the queue was shut and empty; but where a letter is lost, the first such call popped one
        //=   value and keeps that the store has no letter at its body (`Missing`), and each later one changes nothing
        //=   and is refused so too. That a look at the store told so, no clause says.
        ensures refused { IfErr result
            (λ why. why ≢ Lost → TookNothing PopRefusedOf Q.known self.old why self.new) }
        ensures lost { result ≡ Err Lost → Loses PoppedOf Q.known self.old self.new }
        ensures stays_lost { has_lost self.old ≡ true → result ≡ Err Lost }
        //= letters/refusals: A send is refused by `Memory` with the sender as it was, by `BadSize` where the index is
        //=   no body, or as a push; a take as a pop, or by `Lost`; a shut as the queue's. Those that wait are never
        //=   refused by `Busy`, and a `send` never by `NoNode`.
        ensures refusal { IfErr result StopsTake }
        //= letters/causes: A send, a shut or a take refused as the queue's call hands on; one that waits has the cause
        //=   of a try of 8 turns, as for `Fifo::push`, `shut` and `pop`.
        ensures caused { IfErr result
            (HandsOn (TakeHadCause Q.pop_cause office.now self.old self.new turns)) }
    {
        if self.has_lost() {
            return Err(Refusal::Lost);
        }
        let Some(front) = office.queue.try_pop(&mut self.seat, turns)? else {
            return Ok(None);
        };
        let letter = self.open(office, front)?;
        Ok(Some(letter))
    }

    /// Takes the letter that is due, and tries again while others are in the way; none where there was none.
    ///
    /// Refusals as those of `try_take`, but never `Busy`. Takes no memory, and waits.
    ///
    /// ```rust
    /// if let Some(letter) = receiver.take(rt, &office)? {
    ///     last = Some(letter.text);
    /// }
    /// ```
    pub fn take<'a, R: Wait>(
        &mut self,
        rt: &R,
        office: &'a Office<Q>,
    ) -> Result<Option<Letter<'a>>, Refusal>
        requires office { IsReceiver Q.is_seat Q.permits Q.known office.now self.old }
        ensures office { IsReceiver Q.is_seat Q.permits Q.known office.now self.new }
        //= letters/taken
        ensures answer { IfOk result (λ v. TakeAnswers Q.known office.now self.old v self.new) }
        //= letters/in_order
        ensures order { InOrder (receiver_knows Q.known self.new) }
        //= letters/refused_take (refused, lost, stays_lost)
        ensures refused { IfErr result
            (λ why. why ≢ Lost → TookNothing PopRefusedOf Q.known self.old why self.new) }
        ensures lost { result ≡ Err Lost → Loses PoppedOf Q.known self.old self.new }
        ensures stays_lost { has_lost self.old ≡ true → result ≡ Err Lost }
        //= letters/refusals
        ensures refusal { IfErr result EndsTake }
        //= letters/causes
        ensures caused { IfErr result
            (HandsOn (TakeEnded Q.is_seat Q.known Q.pop_cause office.now self.old self.new 8)) }
    {
        if self.has_lost() {
            return Err(Refusal::Lost);
        }
        let Some(front) = office.queue.pop(rt, &mut self.seat)? else {
            return Ok(None);
        };
        let letter = self.open(office, front)?;
        Ok(Some(letter))
    }

    /// Takes the letter that is due, and sleeps while there is none, until a send or a shut wakes it.
    ///
    /// Refusals as those of `take`. Takes no memory, and waits.
    ///
    /// ```rust
    /// // Until a sender shuts the office, and all letters are taken.
    /// let letter = receiver.recv(rt, &office)?;
    /// ```
    pub fn recv<'a, R: Wait>(
        &mut self,
        rt: &R,
        office: &'a Office<Q>,
    ) -> Result<Letter<'a>, Refusal>
        requires office { IsReceiver Q.is_seat Q.permits Q.known office.now self.old }
        ensures office { IsReceiver Q.is_seat Q.permits Q.known office.now self.new }
        //= letters/received (answer, refused, lost, stays_lost, caused): A `recv` takes a letter, or is refused, as a take
        //=   that waits; before that its seat made no entry, saw no less, and noted only more.
        ensures answer { IfOk result (λ letter. TookText ReceivedOf Q.known office.now self.old
            letter.from letter.text.now self.new) }
        //= letters/in_order
        ensures order { InOrder (receiver_knows Q.known self.new) }
        ensures refused { IfErr result
            (λ why. why ≢ Lost → TookNothing RecvRefusedOf Q.known self.old why self.new) }
        ensures lost { result ≡ Err Lost → Loses ReceivedOf Q.known self.old self.new }
        ensures stays_lost { has_lost self.old ≡ true → result ≡ Err Lost }
        //= letters/refusals
        ensures refusal { IfErr result EndsTake }
        ensures caused { IfErr result
            (HandsOn (RecvEnded Q.is_seat Q.known Q.pop_cause office.now self.old self.new 8)) }
    {
        if self.has_lost() {
            return Err(Refusal::Lost);
        }
        let front = office.queue.recv(rt, &mut self.seat)?;
        let letter = self.open(office, front)?;
        Ok(letter)
    }

    /// As `recv`; none where there was no letter after the deadline had come.
    pub(crate) fn recv_until<'a, R: Wait, D: Deadline>(
        &mut self,
        rt: &R,
        office: &'a Office<Q>,
        until: &D,
    ) -> Result<Option<Letter<'a>>, Refusal>
        requires office { IsReceiver Q.is_seat Q.permits Q.known office.now self.old }
        ensures office { IsReceiver Q.is_seat Q.permits Q.known office.now self.new }
        ensures answer { IfOk result (λ v. RecvAnswers Q.known office.now self.old v self.new) }
        ensures order { InOrder (receiver_knows Q.known self.new) }
        ensures refused { IfErr result
            (λ why. why ≢ Lost → TookNothing RecvRefusedOf Q.known self.old why self.new) }
        ensures lost { result ≡ Err Lost → Loses ReceivedOf Q.known self.old self.new }
        ensures refusal { IfErr result EndsTake }
    {
        if self.has_lost() {
            return Err(Refusal::Lost);
        }
        match office.queue.recv_until(rt, &mut self.seat, until)? {
            InTime::Done(front) => Ok(Some(self.open(office, front)?)),
            InTime::Late(_late) => Ok(None),
        }
    }

    /// Which of the texts due the letter is that was taken last; none where it is of no task.
    pub(crate) fn last_due(&self, office: &Office<Q>) -> Option<Due>
        requires shown { ShowsLast office.now self.now }
        ensures is { LastIs self.now result }
        ensures fits { LastFits office.now self.now result }
    {
        match &self.last {
            Some(shown) => parcel_at(&office.letters, shown).due,
            None => None,
        }
    }
}
