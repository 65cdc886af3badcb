//! The end of an office.
ghost use Rattle.std.specs.Prelude.{◌≡◌, ◌+◌, ◌≤◌, ◌++◌, IsTrue, nat_eq, length, map, vec_len, vec_capacity, IfErr, IfOk};
ghost use Rattle.std.specs.List.{All, IsDistinct};
ghost use Rattle.std.specs.List.Sorted.{IsPermutation};
ghost use Rattle.carriers.specs.Ends.{ClosesOf};
ghost use Rattle.carriers.specs.Rests.{left_in, whole_in};
ghost use Rattle.carriers.specs.Delivered.{DeliversOf};
ghost use Rattle.carriers.specs.Together.{pushed_by, popped_by};
ghost use Rattle.shared_queue.specs.Handles.{sender_queue, sender_seat, receiver_queue, receiver_seat};

use crate::offices::PostOffice;
use carriers::{Carrier, CloseCarrier, RestOf};
use history::Unclosed;
use shared_queue::{Receiver, Sender, SharedQueue};
use std::alloc::Global;
use std::sync::Arc;

/// An office that wasn't closed, with what came back.
#[derive(Drop)]
pub enum Unended<C: Carrier + Drop> {
    /// Others have a share of the queue: a sender or a receiver that wasn't handed in. All is as it was.
    InUse(PostOffice<C>, Vec<Sender<C>>, Vec<Receiver<C>>),
    /// Memory for a list of the seats was refused. All is as it was.
    Memory(PostOffice<C>, Vec<Sender<C>>, Vec<Receiver<C>>),
    /// Others got a share of the queue while those of the handles were given up: one share of it, and the seats.
    Raced(Arc<SharedQueue<C>, Global>, Vec<C::Seat>),
    /// Memory for the letters left was refused: the queue, and the seats, which close it.
    Unclosed(C, Vec<C::Seat>),
}

// The seats of these senders, behind those that are there.
fn put_senders<C: Carrier + Drop>(senders: Vec<Sender<C>>, seats: &mut Vec<C::Seat>)
    requires { vec_len seats.old + length senders.items ≤ vec_capacity seats.old }
    ensures items { seats.new.items ≡ seats.old.items ++ map sender_seat senders.items }
    ensures capacity { vec_capacity seats.new ≡ vec_capacity seats.old }
{
    for sender in senders {
        seats.push_reserved(sender.into_seat());
    }
}

// The seats of these receivers, behind those that are there.
fn put_receivers<C: Carrier + Drop>(receivers: Vec<Receiver<C>>, seats: &mut Vec<C::Seat>)
    requires { vec_len seats.old + length receivers.items ≤ vec_capacity seats.old }
    ensures items { seats.new.items ≡ seats.old.items ++ map receiver_seat receivers.items }
    ensures capacity { vec_capacity seats.new ≡ vec_capacity seats.old }
{
    for receiver in receivers {
        seats.push_reserved(receiver.into_seat());
    }
}

// How many shares of the queue an office has with so many senders and receivers alone: a side that isn't empty has one too.
fn shares_of(senders: usize, receivers: usize) -> usize {
    1usize
        .saturating_add(senders)
        .saturating_add(senders.min(1))
        .saturating_add(receivers)
        .saturating_add(receivers.min(1))
}

impl<C: CloseCarrier + Drop> PostOffice<C> {
    ghost use Rattle.post_office.specs.Offices.{office_queue, office_seat, known_by};
    ghost use Rattle.post_office.specs.Unended.{GivesBack};

    /// Ends the office, its senders and its receivers: the letters left, from the front, each with the number of the seat that
    /// sent it, how many were taken, and whether these handles and the office did all that was done.
    ///
    /// They did where no handle was dropped before, and the office itself was shut, if anyone was. Not closed `InUse`, `Memory`,
    /// `Raced` or `Unclosed`; see there. Takes memory for the seats and the letters left, and doesn't wait.
    ///
    /// ```rust
    /// let (rest, _end) = office.close(alloc, senders, receivers)?;
    /// for letter in rest {
    ///     read(letter.from, letter.value);
    /// }
    /// ```
    pub fn close(
        self,
        alloc: Global,
        senders: Vec<Sender<C>>,
        receivers: Vec<Receiver<C>>,
    ) -> Result<(RestOf<C::Item>, C::End), Unended<C>>
        requires senders { All (λ h. sender_queue h ≡ office_queue self) senders.items }
        requires receivers { All (λ h. receiver_queue h ≡ office_queue self) receivers.items }
        requires asked { C.asks (office_queue self)
            (known_by self senders.items receivers.items) }
        //= offices/close (rest, ends): What is left of an office that is closed with some senders and receivers is
        //=   what the close of its queue says of their seats and the office's own. The queue names which of them an
        //=   end asks for.
        ensures rest { IfOk result (λ r. ClosesOf (C.permits (office_queue self))
            (known_by self senders.items receivers.items) r.0) }
        ensures ends { IfOk result (λ r. C.ends (office_queue self) r.1 r.0) }
        //= offices/in_order: Of a closed office: what each sender handed in sent is some letters and then what is
        //=   left of it, in order; and what each receiver handed in took of it is a subsequence of these letters.
        ensures in_order { IfOk result (λ r. All
            (λ giver. DeliversOf giver (known_by self senders.items receivers.items) (left_in r.0))
            (known_by self senders.items receivers.items)) }
        //= offices/once: Where the rest is whole, and no two of the seats have one number, the letters sent by those handed in
        //=   are those taken by them and those left, in some order; so none is missing, and each came once.
        ensures once { IfOk result (λ r. IsTrue (whole_in r.0)
            → IsDistinct nat_eq (map (λ k. k.number) (known_by self senders.items receivers.items))
            → IsPermutation (pushed_by (known_by self senders.items receivers.items))
            (popped_by (known_by self senders.items receivers.items) ++ left_in r.0)) }
        //= offices/back: An office that isn't closed comes back: at `InUse` and `Memory` with all handles as they were, at
        //=   `Raced` and `Unclosed` as its queue, with their seats and its own. When which is answered, no clause says.
        ensures back { IfErr result (GivesBack self senders.items receivers.items) }
    {
        if Arc::strong_count(&self.queue) != shares_of(senders.len(), receivers.len()) {
            return Err(Unended::InUse(self, senders, receivers));
        }
        let mut seats = Vec::new(alloc);
        let count = senders.len().saturating_add(receivers.len());
        if seats.reserve(count.saturating_add(1)).is_err() {
            return Err(Unended::Memory(self, senders, receivers));
        }
        let PostOffice { queue, seat } = self;
        put_senders(senders, &mut seats);
        put_receivers(receivers, &mut seats);
        seats.push_reserved(seat);
        match Arc::try_unwrap(queue) {
            Ok(queue) => match queue.into_inner().close(alloc, seats) {
                Ok(end) => Ok(end),
                Err(Unclosed { queue, seats }) => Err(Unended::Unclosed(queue, seats)),
            },
            Err(queue) => Err(Unended::Raced(queue, seats)),
        }
    }
}
