//! Runs of senders and receivers that do what is drawn: they rest, wait as long as it takes or for some time,
//! or go early.
use super::sides::{
    AMPLE, Fate, Got, Opened, ReceivesInTime, Rests, SEVEN, SendsInTime, numbers, values,
};
use crate::tests::comparisons::same;
use crate::tests::values::Numbered;
use history::{Body, Refusal};
use nonblocking::MsQueue;
use rand::RngExt;
use rand_pcg::Pcg32;
use std::alloc::{Alloc, Global};
use std::process::Abort;
use std::rt::Env;
use std::sync::atomic::AtomicU64;
use std::sync::atomic::Ordering::SeqCst;
use std::sync::{Arc, Wait};
use std::test::Fail;
use std::thread::{Threads, join};
use std::time::{Clock, Duration};
use std::{env, thread};
use two_lock::TwoLockQueue;
use value_queue::{MsValueQueue, TwoLockValueQueue};

/// How many runs there are, a quarter of them on each queue, unless `MSQ_RUNS` says how many: by hand there
/// were more.
const RUNS: u64 = 120;

/// How many values a sender has.
const EACH: u64 = 24;

/// What a value that was sent, received, left or handed back adds to its count.
const SENT: u64 = 1;

const RECEIVED: u64 = 1 << 8;

const LEFT: u64 = 1 << 16;

const BACK: u64 = 1 << 24;

/// What came of a run: how many values were sent, how many have a count that none may have, and how many were
/// made, and dropped.
#[derive(Clone, Copy, Debug, PartialEq, Eq)]
struct Found {
    sent: u64,
    wrong: u64,
    made: u64,
    dropped: u64,
}

/// A value that counts, as it is dropped, that it was.
struct Counted {
    number: u64,
    drops: Arc<AtomicU64, Global>,
}

impl Drop for Counted {
    fn drop(self) {
        let Self { number: _, drops } = self;
        drops.fetch_add(1, SeqCst);
    }
}

impl Numbered for Counted {
    fn number(&self) -> u64 {
        self.number
    }
}

/// A value that is made where the drops of all are counted.
trait Drawn: Numbered {
    /// The value of this number.
    fn made(number: u64, drops: &Arc<AtomicU64, Global>) -> Option<Self>;
}

impl Drawn for Counted {
    fn made(number: u64, drops: &Arc<AtomicU64, Global>) -> Option<Counted> {
        let drops = Arc::try_clone(drops).ok()?;
        Some(Counted { number, drops })
    }
}

impl Drawn for Body {
    // Nothing becomes of a number that is dropped, so it is counted now.
    fn made(number: u64, drops: &Arc<AtomicU64, Global>) -> Option<Body> {
        drops.fetch_add(1, SeqCst);
        Body::new(number)
    }
}

/// What threads count together.
#[derive(Drop)]
struct Counts<'a> {
    each: &'a [AtomicU64],
    drops: &'a Arc<AtomicU64, Global>,
}

impl<'a> Counts<'a> {
    // Counts a value as sent, received, left or handed back.
    fn count(&self, number: u64, what: u64) {
        if let Some(count) = self.each.get(number as usize) {
            count.fetch_add(what, SeqCst);
        }
    }
}

// A time below so many microseconds.
fn time(draw: &mut Pcg32, most: u64) -> Duration {
    Duration::from_micros(draw.random_range(0..most))
}

// Rests for up to 200 microseconds, or not at all.
fn rest(clock: &impl Clock, draw: &mut Pcg32) {
    if draw.random_range(0..2u32) == 0 {
        let _ = thread::sleep(clock, time(draw, 200));
    }
}

// Sends one value in a way that is drawn.
fn send_somehow<R: Wait + Clock, S: SendsInTime>(
    rt: &R,
    sender: &mut S,
    draw: &mut Pcg32,
    value: S::Value,
) -> Fate<S::Value> {
    let time = time(draw, 300);
    match draw.random_range(0..4u32) {
        0 => sender.send(rt, value),
        1 => sender.send_in(rt, value, time),
        2 => sender.send_until(rt, value, time),
        _ => sender.try_send(value),
    }
}

// Takes one value in a way that is drawn; none where none came.
fn receive_somehow<R: Wait + Clock, V: ReceivesInTime>(
    rt: &R,
    receiver: &mut V,
    draw: &mut Pcg32,
) -> Got<V::Value> {
    let time = time(draw, 300);
    match draw.random_range(0..4u32) {
        0 => receiver.recv(rt),
        1 => receiver.recv_in(rt, time),
        2 => receiver.recv_until(rt, time),
        _ => match receiver.try_recv() {
            Err(Refusal::Busy) => Ok(None),
            answer => answer,
        },
    }
}

// Sends values from this number on, until it goes, early at times; how many it made.
fn send_some<R: Wait + Clock, S: SendsInTime<Value: Drawn>>(
    rt: &R,
    mut sender: S,
    seed: u64,
    first: u64,
    counts: &Counts,
) -> u64 {
    let mut draw = Pcg32::new(seed, first);
    let mut made = 0u64;
    for number in first..first.wrapping_add(EACH) {
        if draw.random_range(0..40u32) == 0 {
            break;
        }
        let Some(value) = S::Value::made(number, counts.drops) else {
            break;
        };
        made = made.wrapping_add(1);
        rest(rt, &mut draw);
        match send_somehow(rt, &mut sender, &mut draw, value) {
            Fate::Sent => counts.count(number, SENT),
            Fate::Back(refusal, value) => {
                counts.count(value.number(), BACK);
                if !matches!(refusal, Refusal::NoNode | Refusal::Busy) {
                    break;
                }
            }
        }
    }
    made
}

// Takes values until the queue is shut and empty, or until it goes, early at times.
fn receive_some<R: Wait + Clock, V: ReceivesInTime>(
    rt: &R,
    mut receiver: V,
    seed: u64,
    stream: u64,
    counts: &Counts,
) {
    let mut draw = Pcg32::new(seed, stream);
    for _ in rt.forever() {
        if draw.random_range(0..60u32) == 0 {
            return;
        }
        rest(rt, &mut draw);
        match receive_somehow(rt, &mut receiver, &mut draw) {
            Ok(Some((_, value))) => counts.count(value.number(), RECEIVED),
            Ok(None) => {}
            Err(_) => return,
        }
    }
}

// Counts for all values of two senders.
fn no_counts(alloc: Global) -> Result<Vec<AtomicU64>, Refusal> {
    let mut counts = Vec::new(alloc);
    for _ in 0..2 * EACH {
        if counts.push(AtomicU64::new(0)).is_err() {
            return Err(Refusal::Memory);
        }
    }
    Ok(counts)
}

// One run; what is left is taken at its end, and the queue dropped.
fn run<R: Threads + Wait + Clock + Sync, S: SendsInTime<Value: Drawn>, V: ReceivesInTime, L: Rests>(
    rt: &R,
    alloc: Global,
    opened: Opened<S, V, L>,
    seed: u64,
) -> Result<Found, Refusal> {
    let Opened {
        senders: (a, b),
        receivers: (c, d),
        rest: mut left,
    } = opened;
    let drops = Arc::new(alloc, AtomicU64::new(0)).map_err(|_| Refusal::Memory)?;
    let each = no_counts(alloc)?;
    let counts = &Counts {
        each: &each[..],
        drops: &drops,
    };
    let ((one, other), _) = join(
        rt,
        || join(
            rt,
            || send_some(rt, a, seed, 0, counts),
            || send_some(rt, b, seed, EACH, counts),
        ),
        || join(
            rt,
            || receive_some(rt, c, seed, 2 * EACH, counts),
            || receive_some(rt, d, seed, 3 * EACH, counts),
        ),
    );
    while let Some(number) = left.next(rt) {
        counts.count(number, LEFT);
    }
    drop(left);
    let mut found = Found {
        sent: 0,
        wrong: 0,
        made: one.wrapping_add(other),
        dropped: drops.load(SeqCst),
    };
    for count in &each {
        match count.load(SeqCst) {
            0 | BACK => {}
            all if all == SENT + RECEIVED || all == SENT + LEFT => found.sent += 1,
            _ => found.wrong += 1,
        }
    }
    Ok(found)
}

// How many runs are made.
fn runs<R: Env + Alloc>(rt: &R) -> u64 {
    match env::var(rt, "MSQ_RUNS") {
        Ok(text) => text.parse().unwrap_or(RUNS),
        Err(_) => RUNS,
    }
}

// The run of this number, over one of the queues of numbers, or of values.
fn run_over<R: AllocGlobal + Threads + Wait + Clock + Sync>(
    rt: &R,
    number: u64,
    nodes: u32,
    seed: u64,
) -> Result<Found, Refusal> {
    let alloc = rt.alloc();
    match number % 4 {
        0 => {
            let made = MsQueue::new(alloc, nodes, AMPLE, &SEVEN)?;
            run(rt, alloc, numbers(alloc, made)?, seed)
        }
        1 => {
            let made = TwoLockQueue::new(alloc, nodes, AMPLE, &SEVEN)?;
            run(rt, alloc, numbers(alloc, made)?, seed)
        }
        2 => {
            let made = MsValueQueue::<Counted>::new(alloc, nodes, AMPLE, &SEVEN)?;
            run(rt, alloc, values(alloc, made)?, seed)
        }
        _ => {
            let made = TwoLockValueQueue::<Counted>::new(alloc, nodes, AMPLE, &SEVEN)?;
            run(rt, alloc, values(alloc, made)?, seed)
        }
    }
}

/// Each run ends, and each value was received once, or is left, or came back; and each was dropped once. The
/// last handle of a side shuts the queue.
#[test]
fn each_value_is_received_or_left_or_comes_back(rt: HostRuntime) -> Result<(), Fail> {
    let mut draw = Pcg32::new(7, 0);
    let mut all = 0u64;
    let runs = runs(&rt);
    for number in 0..runs {
        // (One of the queue, one for a value, and one that whoever goes early may take along, on each side.)
        let nodes = draw.random_range(4..8u32);
        let seed = draw.random_range(0..1u64 << 30);
        let found = run_over(&rt, number, nodes, seed)?;
        let wanted = Found {
            wrong: 0,
            dropped: found.made,
            ..found
        };
        same(&rt, found, wanted, (number, nodes, seed));
        all = all.wrapping_add(found.sent);
    }
    assert!(rt; all > runs, "{all} sent");
    Ok(())
}
