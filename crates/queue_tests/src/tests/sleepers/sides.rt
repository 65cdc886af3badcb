//! What sends values, and what receives them.
use crate::tests::values::Numbered;
use carriers::{Carrier, ItemOf, Numbers, Unpushed};
use history::{Fifo, Refusal};
use node_arena::Role;
use shared_queue::{InTime, Late, Receiver, Sender, SharedQueue, Unsent, receivers, senders};
use std::alloc::Global;
use std::sync::{Arc, Wait};
use std::time::{Clock, Duration, Instant};

/// The greatest count: no word wears out in a test that has this one.
pub const AMPLE: u64 = 1 << 30;

/// Two senders, two receivers, a closer of each side, and a seat that takes what is left.
pub const SEVEN: [Role; 7] = [Role::Both; 7];

/// What became of a value that was to be sent.
#[derive(Drop)]
pub enum Fate<T> {
    Sent,
    /// It came back for this; one that came too late as for want of a node.
    Back(Refusal, T),
}

impl<T> Fate<T> {
    /// That of a push.
    pub fn became(pushed: Result<(), Unpushed<T>>) -> Fate<T> {
        match pushed {
            Ok(()) => Fate::Sent,
            Err(unpushed) => Fate::Back(unpushed.refusal, unpushed.value),
        }
    }
}

/// What sends values in a thread of its own.
pub trait Sends: Send + Drop + Sized {
    type Value: Numbered;

    /// What is left where it goes.
    type Rest: Send + Drop;

    /// Sends a value, as long as it takes.
    fn send<R: Wait>(&mut self, rt: &R, value: Self::Value) -> Fate<Self::Value>;

    /// It goes.
    fn leave(self) -> Self::Rest;

    /// Ends the queue, where it hasn't ended as both senders went.
    fn end<R: Wait>(rt: &R, one: Self::Rest, other: Self::Rest);
}

/// One of some senders, whose calls may wait up to some time.
pub trait SendsInTime: Sends {
    /// How many of them there are.
    fn count(&self) -> usize;

    /// Sends a value at once.
    fn try_send(&mut self, value: Self::Value) -> Fate<Self::Value>;

    /// Sends it in this time.
    fn send_in<R: Wait + Clock>(
        &mut self,
        rt: &R,
        value: Self::Value,
        time: Duration,
    ) -> Fate<Self::Value>;

    /// Sends it until the instant at which this time is over.
    fn send_until<R: Wait + Clock>(
        &mut self,
        rt: &R,
        value: Self::Value,
        time: Duration,
    ) -> Fate<Self::Value>;
}

/// What a receiver got: a value and who sent it.
pub type Got<T> = Result<Option<(u16, T)>, Refusal>;

/// What receives values in a thread of its own.
pub trait Receives: Send + Drop + Sized {
    type Value: Numbered;

    /// Receives a value, as long as it takes; none where the queue is shut and empty.
    fn recv_or_end<R: Wait>(&mut self, rt: &R) -> Got<Self::Value>;
}

/// One of some receivers, whose calls may wait up to some time.
pub trait ReceivesInTime: Receives {
    /// How many of them there are.
    fn count(&self) -> usize;

    /// Receives a value, as long as it takes; refused where the queue is shut and empty.
    fn recv<R: Wait>(&mut self, rt: &R) -> Got<Self::Value>;

    /// Receives one that is there.
    fn try_recv(&mut self) -> Got<Self::Value>;

    /// Receives one in this time.
    fn recv_in<R: Wait + Clock>(&mut self, rt: &R, time: Duration) -> Got<Self::Value>;

    /// Receives one until the instant at which this time is over.
    fn recv_until<R: Wait + Clock>(&mut self, rt: &R, time: Duration) -> Got<Self::Value>;
}

/// The instant at which this time is over; none where the clock can't be read.
pub fn deadline(clock: &impl Clock, time: Duration) -> Option<Instant> {
    match Instant::now(clock) {
        Ok(now) => now.checked_add(time),
        Err(_) => None,
    }
}

// What became of a value that was to be sent in time.
fn became_in_time<T, S>(answer: Result<InTime<(), Unsent<T, S>>, Unpushed<T>>) -> Fate<T> {
    match answer {
        Ok(InTime::Done(())) => Fate::Sent,
        Ok(InTime::Late(unsent)) => Fate::Back(Refusal::NoNode, unsent.value),
        Err(unpushed) => Fate::Back(unpushed.refusal, unpushed.value),
    }
}

// A value that was taken, and who sent it.
fn got<T>(item: ItemOf<T>) -> Option<(u16, T)> {
    Some((item.from, item.value))
}

// The same in time.
fn got_in<T: Drop, S: Drop>(answer: Result<InTime<ItemOf<T>, Late<S>>, Refusal>) -> Got<T> {
    match answer? {
        InTime::Done(item) => Ok(got(item)),
        InTime::Late(_) => Ok(None),
    }
}

impl<C: Carrier<Item: Numbered, Seat: Sync> + Send + Sync + Drop> Sends for Sender<C> {
    type Value = C::Item;

    type Rest = ();

    fn send<R: Wait>(&mut self, rt: &R, value: C::Item) -> Fate<C::Item> {
        Fate::became(Sender::send(self, rt, value))
    }

    fn leave(self) {
        drop(self);
    }

    fn end<R: Wait>(_rt: &R, _one: (), _other: ()) {}
}

impl<C: Carrier<Item: Numbered, Seat: Sync> + Send + Sync + Drop> SendsInTime for Sender<C> {
    fn count(&self) -> usize {
        Sender::count(self)
    }

    fn try_send(&mut self, value: C::Item) -> Fate<C::Item> {
        Fate::became(Sender::try_send(self, value))
    }

    fn send_in<R: Wait + Clock>(
        &mut self,
        rt: &R,
        value: C::Item,
        time: Duration,
    ) -> Fate<C::Item> {
        became_in_time(self.send_timeout(rt, value, time))
    }

    fn send_until<R: Wait + Clock>(
        &mut self,
        rt: &R,
        value: C::Item,
        time: Duration,
    ) -> Fate<C::Item> {
        match deadline(rt, time) {
            Some(deadline) => became_in_time(self.send_deadline(rt, value, deadline)),
            None => Fate::Back(Refusal::Busy, value),
        }
    }
}

impl<C: Carrier<Item: Numbered, Seat: Sync> + Send + Sync + Drop> Receives for Receiver<C> {
    type Value = C::Item;

    fn recv_or_end<R: Wait>(&mut self, rt: &R) -> Got<C::Item> {
        Ok(Receiver::recv_or_end(self, rt)?.and_then(got))
    }
}

impl<C: Carrier<Item: Numbered, Seat: Sync> + Send + Sync + Drop> ReceivesInTime for Receiver<C> {
    fn count(&self) -> usize {
        Receiver::count(self)
    }

    fn recv<R: Wait>(&mut self, rt: &R) -> Got<C::Item> {
        Receiver::recv(self, rt).map(got)
    }

    fn try_recv(&mut self) -> Got<C::Item> {
        Ok(Receiver::try_recv(self)?.and_then(got))
    }

    fn recv_in<R: Wait + Clock>(&mut self, rt: &R, time: Duration) -> Got<C::Item> {
        got_in(self.recv_timeout(rt, time))
    }

    fn recv_until<R: Wait + Clock>(&mut self, rt: &R, time: Duration) -> Got<C::Item> {
        match deadline(rt, time) {
            Some(deadline) => got_in(self.recv_deadline(rt, deadline)),
            None => Ok(None),
        }
    }
}

/// What takes what is left.
pub trait Rests: Drop {
    /// The number of the next value that is left.
    fn next<R: Wait>(&mut self, rt: &R) -> Option<u64>;
}

/// A queue of values, and a seat that takes what is left.
#[derive(Drop)]
pub struct RestOfValues<C: Carrier + Drop> {
    queue: Arc<SharedQueue<C>, Global>,
    seat: C::Seat,
}

impl<C: Carrier<Item: Numbered> + Drop> Rests for RestOfValues<C> {
    fn next<R: Wait>(&mut self, rt: &R) -> Option<u64> {
        match self.queue.pop(rt, &mut self.seat) {
            Ok(Some(item)) => Some(item.value.number()),
            _ => None,
        }
    }
}

/// Two senders and two receivers of a queue, and what takes what is left.
#[derive(Drop)]
pub struct Opened<S, V, L> {
    pub senders: (S, S),
    pub receivers: (V, V),
    pub rest: L,
}

// Two of these seats, and one that closes their side.
fn side_seats<S: Drop>(alloc: Global, seats: &mut Vec<S>) -> Result<(Vec<S>, S), Refusal> {
    let (Some(one), Some(other), Some(closer)) = (seats.pop(), seats.pop(), seats.pop()) else {
        return Err(Refusal::BadSize);
    };
    match vec![in alloc; one, other] {
        Ok(two) => Ok((two, closer)),
        Err(_) => Err(Refusal::Memory),
    }
}

// The two of a list.
fn both<H: Drop>(mut handles: Vec<H>) -> Result<(H, H), Refusal> {
    match (handles.pop(), handles.pop()) {
        (Some(one), Some(other)) => Ok((one, other)),
        _ => Err(Refusal::BadSize),
    }
}

/// The senders and receivers of a queue of numbers with seven seats.
pub fn numbers<Q: Fifo + Drop>(
    alloc: Global,
    (queue, seats): (Q, Vec<Q::Seat>),
) -> Result<Opened<Sender<Numbers<Q>>, Receiver<Numbers<Q>>, RestOfValues<Numbers<Q>>>, Refusal> {
    values(alloc, (Numbers::new(queue), seats))
}

/// The senders and receivers of a queue of values with seven seats.
pub fn values<C: Carrier + Drop>(
    alloc: Global,
    (queue, mut seats): (C, Vec<C::Seat>),
) -> Result<Opened<Sender<C>, Receiver<C>, RestOfValues<C>>, Refusal> {
    let queue = Arc::new(alloc, SharedQueue::new(queue)).map_err(|_| Refusal::Memory)?;
    let (two, closer) = side_seats(alloc, &mut seats)?;
    let senders = both(senders(alloc, &queue, closer, two)?)?;
    let (two, closer) = side_seats(alloc, &mut seats)?;
    let receivers = both(receivers(alloc, &queue, closer, two)?)?;
    let seat = seats.pop().ok_or(Refusal::BadSize)?;
    let rest = RestOfValues { queue, seat };
    Ok(Opened {
        senders,
        receivers,
        rest,
    })
}
