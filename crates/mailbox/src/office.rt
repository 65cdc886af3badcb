//! The office: a queue, and the letters that its bodies name.
ghost use Rattle.std.specs.Prelude.{◌≡◌, IfOk, IfErr};
ghost use Rattle.std.specs.List.{All};
ghost use Rattle.mailbox.specs.Openings.{CanSend, CanReceive, Opens};
ghost use Rattle.mailbox.specs.Offices.{IsSender, IsReceiver, TextsAt, Stored, Read};

use crate::parcels::Letters;
use crate::receiver::Receiver;
use crate::sender::Sender;
use boxcar::tag::Tag;
use carriers::Numbers;
use history::{Fifo, Refusal};
use shared_queue::SharedQueue;
use std::alloc::Global;

/// A queue whose bodies are the indexes of letters, and whose calls may sleep. Threads share it by reference.
#[derive(Drop)]
pub struct Office<Q: Fifo + Drop> {
    pub(crate) queue: SharedQueue<Numbers<Q>>,
    pub(crate) letters: Letters,
}

impl<Q: Fifo + Drop> Office<Q> {
    /// An office over a queue, a sender for each of these seats, in order, and the receiver.
    ///
    /// Each sender's seat may push. The receiver's may pop, and no other seat of the queue may. Refused by `Memory`
    /// alone; the queue and the seats are then given up. Takes memory for the senders and for a table of letters, and
    /// doesn't wait.
    ///
    /// ```rust
    /// let (office, senders, receiver) = Office::new(alloc, queue, givers, taker)?;
    /// ```
    pub fn new(
        alloc: Global,
        queue: Q,
        senders: Vec<Q::Seat>,
        receiver: Q::Seat,
    ) -> Result<(Office<Q>, Vec<Sender<Q>>, Receiver<Q>), Refusal>
        requires senders { All (CanSend Q.is_seat Q.permits Q.known queue) senders.items }
        requires receiver { CanReceive Q.is_seat Q.permits Q.known queue receiver }
        //= letters/office (opens, each, receiver, only_memory): A new office has the queue given, a sender for each
        //=   seat, in order, and a receiver that has lost nothing. Or Memory.
        ensures opens { IfOk result (λ r. Opens queue senders.items receiver r.0 r.1.items r.2) }
        ensures each { IfOk result (λ r. All (IsSender Q.is_seat Q.permits Q.known r.0) r.1.items) }
        ensures receiver { IfOk result (λ r. IsReceiver Q.is_seat Q.permits Q.known r.0 r.2) }
        ensures only_memory { IfErr result (λ refusal. refusal ≡ Refusal.Memory) }
    {
        let Ok(letters) = Letters::with_rule(alloc, Tag::empty()) else {
            return Err(Refusal::Memory);
        };
        let mut all = Vec::new(alloc);
        for seat in senders {
            let Ok(()) = all.push(Sender { seat, last: None }) else {
                return Err(Refusal::Memory);
            };
        }
        let receiver = Receiver {
            seat: receiver,
            last: None,
            missing: None,
        };
        let numbers = Numbers::new(queue);
        let queue = SharedQueue::new(numbers);
        Ok((Office { queue, letters }, all, receiver))
    }

    /// The last letter that a sender stored and the last one that the receiver took, where they stand at one index, are
    /// one text. Takes no memory and doesn't wait.
    ///
    /// ```rust
    /// sender.send(rt, &office, text)?;
    /// let letter = receiver.take(rt, &office)?;
    /// office.shows_one_text(&sender, &receiver);
    /// ```
    pub fn shows_one_text(&self, sender: &Sender<Q>, receiver: &Receiver<Q>)
        ghost texts: { TextsAt }
        requires sender { Stored self.now sender.now texts.index texts.stored }
        requires receiver { Read self.now receiver.now texts.index texts.read }
        //= letters/one_text: The last letter that a sender stored and the last one that the receiver took, where they
        //=   stand at one index, are one text.
        ensures { texts.stored ≡ texts.read }
    {
        if let (Some(stored), Some(read)) = (&sender.last, &receiver.last) {
            self.letters.agrees(stored, read);
        }
    }
}
