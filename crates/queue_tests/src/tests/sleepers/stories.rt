//! What senders and receivers do, whichever queue they are of.
use super::sides::{Fate, Got, Opened, Receives, ReceivesInTime, Sends, SendsInTime};
use crate::tests::comparisons::same;
use crate::tests::values::{Numbered, Value};
use history::Refusal;
use std::alloc::Global;
use std::process::Abort;
use std::sync::Wait;
use std::test::Fail;
use std::thread;
use std::thread::{Threads, join};
use std::time::{Clock, Duration, Instant};

/// How long one thread lets the other fall asleep, in milliseconds.
pub const PAUSE: u64 = 30;

/// A call that isn't woken ends after so many milliseconds.
pub const LONG: u64 = 20_000;

/// A call that was woken ended before so many milliseconds.
pub const EARLY: u64 = 10_000;

/// How many values each sender sends.
pub const EACH: u64 = 1_000;

/// What came to receivers: how many values, their sum, and how many not behind the one before of the same
/// sender.
#[derive(Clone, Copy, Debug, PartialEq, Eq)]
pub struct Came {
    pub count: u64,
    pub sum: u64,
    pub disordered: u64,
}

impl Came {
    /// All that two senders send, of so many each.
    pub fn all(each: u64) -> Came {
        Came {
            count: 2 * each,
            sum: each * (each - 1),
            disordered: 0,
        }
    }

    /// What came to both.
    pub fn with(self, other: Came) -> Came {
        Came {
            count: self.count.wrapping_add(other.count),
            sum: self.sum.wrapping_add(other.sum),
            disordered: self.disordered.wrapping_add(other.disordered),
        }
    }
}

/// So many milliseconds.
pub fn millis(count: u64) -> Duration {
    Duration::from_millis(count)
}

/// Lets others fall asleep.
pub fn pause(clock: &impl Clock) {
    let _ = thread::sleep(clock, millis(PAUSE));
}

/// The instant that it is; none where the clock can't be read.
pub fn now(clock: &impl Clock) -> Option<Instant> {
    Instant::now(clock).ok()
}

/// How many milliseconds it took; as many as can be where the clock can't be read.
pub fn took(clock: &impl Clock, start: Option<Instant>) -> u64 {
    let (Some(start), Some(now)) = (start, now(clock)) else {
        return u64::MAX;
    };
    now.saturating_duration_since(start).as_millis() as u64
}

/// Sends the numbers below so many, and rests at some; how many were sent.
pub fn sends<R: Wait + Clock, S: Sends<Value: Value>>(
    rt: &R,
    alloc: Global,
    sender: &mut S,
    each: u64,
) -> u64 {
    let mut sent = 0u64;
    for number in 0..each {
        if number % 97 == 0 {
            let _ = thread::sleep(rt, Duration::from_micros(200));
        }
        let Ok(value) = S::Value::made(alloc, number) else {
            return sent;
        };
        if let Fate::Sent = sender.send(rt, value) {
            sent = sent.wrapping_add(1);
        }
    }
    sent
}

/// Receives values until the queue is shut and empty. A sender has a seat of some number below 8.
pub fn receives<R: Wait, V: Receives>(rt: &R, receiver: &mut V) -> Came {
    let mut came = Came {
        count: 0,
        sum: 0,
        disordered: 0,
    };
    let mut next = [0u64; 8];
    for _ in rt.forever() {
        let Ok(Some((from, value))) = receiver.recv_or_end(rt) else {
            break;
        };
        let number = value.number();
        came.count = came.count.wrapping_add(1);
        came.sum = came.sum.wrapping_add(number);
        let from = usize::from(from) % 8;
        if number < next[from] {
            came.disordered = came.disordered.wrapping_add(1);
        }
        next[from] = number.wrapping_add(1);
    }
    came
}

// Sends all, and goes.
fn sends_and_goes<R: Wait + Clock, S: Sends<Value: Value>>(
    rt: &R,
    alloc: Global,
    mut sender: S,
    each: u64,
) -> (u64, S::Rest) {
    let sent = sends(rt, alloc, &mut sender, each);
    (sent, sender.leave())
}

/// Two senders and two receivers hand values over, each in a thread of its own, until the queue ends with the
/// senders: each value comes to one of them, and to each those of a sender in order.
pub fn hands_over<
    R: Abort + Threads + Wait + Clock + Sync,
    S: Sends<Value: Value>,
    V: Receives,
    L: Drop,
>(rt: &R, alloc: Global, opened: Opened<S, V, L>, each: u64) -> Result<(), Fail> {
    let Opened {
        senders: (a, b),
        receivers: (mut c, mut d),
        rest: _rest,
    } = opened;
    let ((one, other), sent) = join(
        rt,
        || join(rt, || receives(rt, &mut c), || receives(rt, &mut d)),
        || {
            let ((first, a), (second, b)) = join(
                rt,
                || sends_and_goes(rt, alloc, a, each),
                || sends_and_goes(rt, alloc, b, each),
            );
            S::end(rt, a, b);
            (first, second)
        },
    );
    same(rt, sent, (each, each), "all were sent");
    same(rt, one.with(other), Came::all(each), "and came");
    Ok(())
}

/// The same of a thousand values of each sender.
pub fn hands_all_over<
    R: Abort + Threads + Wait + Clock + Sync,
    S: Sends<Value: Value>,
    V: Receives,
    L: Drop,
>(rt: &R, alloc: Global, opened: Opened<S, V, L>) -> Result<(), Fail> {
    hands_over(rt, alloc, opened, EACH)
}

// The number that was received.
fn number_in<T: Numbered>(got: Got<T>) -> Result<Option<u64>, Refusal> {
    Ok(got?.map(|(_, value)| value.number()))
}

// Waits for a value so long; the number of what came, and how long that took.
fn receives_late<R: Wait + Clock, V: ReceivesInTime>(
    rt: &R,
    receiver: &mut V,
) -> (Result<Option<u64>, Refusal>, u64) {
    let start = now(rt);
    let answer = number_in(receiver.recv_in(rt, millis(LONG)));
    (answer, took(rt, start))
}

// What became of a value: none where it was sent, else why it came back, and its number.
fn told<T: Numbered>(fate: Fate<T>) -> Option<(Refusal, u64)> {
    match fate {
        Fate::Sent => None,
        Fate::Back(refusal, value) => Some((refusal, value.number())),
    }
}

/// A receiver that sleeps is woken by a value, and two of them as the last sender goes.
pub fn wakes_receivers<
    R: Abort + Threads + Wait + Clock + Sync,
    S: SendsInTime<Value: Value>,
    V: ReceivesInTime,
    L: Drop,
>(rt: &R, alloc: Global, opened: Opened<S, V, L>) -> Result<(), Fail> {
    let Opened {
        senders: (mut a, b),
        receivers: (mut c, mut d),
        rest: _rest,
    } = opened;
    let value = S::Value::made(alloc, 7)?;
    let (sent, came) = join(
        rt,
        || {
            pause(rt);
            told(a.send(rt, value))
        },
        || receives_late(rt, &mut c),
    );
    same(rt, (sent, came.0), (None, Ok(Some(7))), "a value");
    assert!(rt; came.1 < EARLY, "woken by a value");
    let ((one, other), ()) = join(
        rt,
        || join(
            rt,
            || receives_late(rt, &mut c),
            || receives_late(rt, &mut d),
        ),
        || {
            pause(rt);
            let (a, b) = (a.leave(), b.leave());
            S::end(rt, a, b);
        },
    );
    let closed = Err(Refusal::Closed);
    same(rt, (one.0, other.0), (closed, closed), "the end");
    assert!(rt;
        one.1 < EARLY && other.1 < EARLY,
        "woken as the last sender goes"
    );
    Ok(())
}

/// A sender that sleeps beside a queue with room for one value is woken by a pop; one whose time is over has
/// its value back, and not before. A receiver waits as long as it was told, too, and not at all for an
/// instant that is over.
pub fn wakes_senders<
    R: Abort + Threads + Wait + Clock + Sync,
    S: SendsInTime<Value: Value>,
    V: ReceivesInTime,
    L: Drop,
>(rt: &R, alloc: Global, opened: Opened<S, V, L>) -> Result<(), Fail> {
    let Opened {
        senders: (mut a, mut b),
        receivers: (mut c, _d),
        rest: _rest,
    } = opened;
    let start = now(rt);
    same(
        rt,
        number_in(c.recv_in(rt, millis(PAUSE))),
        Ok(None),
        "nothing comes",
    );
    assert!(rt; took(rt, start) >= PAUSE, "as long as it was told");
    let none = number_in(c.recv_until(rt, millis(0)));
    same(rt, none, Ok(None), "at once");
    same(
        rt,
        told(a.send(rt, S::Value::made(alloc, 1)?)),
        None,
        "the first",
    );
    let start = now(rt);
    let late = told(b.send_in(rt, S::Value::made(alloc, 2)?, millis(PAUSE)));
    same(rt, late, Some((Refusal::NoNode, 2)), "it is full");
    assert!(rt; took(rt, start) >= PAUSE, "as long as it was told");
    let third = S::Value::made(alloc, 3)?;
    let ((sent, time), came) = join(
        rt,
        || {
            let start = now(rt);
            let fate = told(a.send_in(rt, third, millis(LONG)));
            (fate, took(rt, start))
        },
        || {
            pause(rt);
            number_in(c.recv(rt))
        },
    );
    same(rt, (sent, came), (None, Ok(Some(1))), "a pop");
    assert!(rt; time < EARLY, "woken by a pop");
    Ok(())
}

/// While a receiver is left a value is sent, and while a sender is left another one may come; once no
/// receiver is, each value comes back.
pub fn ends_by_receivers<
    R: Abort + Wait + Clock,
    S: SendsInTime<Value: Value>,
    V: ReceivesInTime,
    L: Drop,
>(rt: &R, alloc: Global, opened: Opened<S, V, L>) -> Result<(), Fail> {
    let Opened {
        senders: (mut a, b),
        receivers: (mut c, d),
        rest: _rest,
    } = opened;
    same(rt, (a.count(), c.count()), (2, 2), "of each side");
    drop(b);
    drop(d);
    same(rt, (a.count(), c.count()), (1, 1), "one of each is left");
    same(
        rt,
        told(a.send(rt, S::Value::made(alloc, 7)?)),
        None,
        "a receiver is left",
    );
    same(
        rt,
        number_in(c.recv_in(rt, millis(PAUSE))),
        Ok(Some(7)),
        "the value",
    );
    same(
        rt,
        number_in(c.recv_in(rt, millis(PAUSE))),
        Ok(None),
        "a sender is left",
    );
    drop(c);
    let back = told(a.send(rt, S::Value::made(alloc, 8)?));
    same(rt, back, Some((Refusal::Closed, 8)), "no receiver is left");
    Ok(())
}
