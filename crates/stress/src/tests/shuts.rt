//! A queue is shut while four threads push and pop: no push that begins behind the shut is done, and no value is lost.
use super::ends::Ending;
use super::queues::{linked, ring};
use super::threads::{Done, all_of, pops, pushes};
use crate::loads::Load;
use crate::seats::jobs_of;
use crate::tallies::Tally;
use crate::works::Work;
use carriers::Carrier;
use crossbeam_utils::Backoff;
use history::{Body, Refusal};
use node_arena::{MOST_COUNT, Role};
use nonblocking::NonBlockingAlgorithm;
use ring_queue::Role as RingRole;
use std::alloc::Global;
use std::sync::Wait;
use std::sync::atomic::{AtomicBool, AtomicU64, Ordering};
use std::test::Fail;
use std::thread;
use std::thread::Threads;
use two_lock::TwoLockAlgorithm;

/// Four seats for threads that push and pop, and one that shuts.
const ROLES: [Role; 5] = [Role::Both; 5];

const RING_ROLES: [RingRole; 5] = [RingRole::Both; 5];

/// The sender of the seat that shuts.
const SHUTS: u64 = 4;

/// How often each queue is shut.
const ROUNDS: u64 = 100;

/// How often who shuts looks for the pushes that are to come first.
const LOOKS: u32 = 1_000_000;

/// From how many pushes on a queue is shut, at most.
const MOST_FIRST: u64 = 64;

/// What the threads tell each other beside the queue: how many pushes were done, and whether the shut has returned.
#[derive(Drop)]
struct Signs {
    pushed: AtomicU64,
    shut: AtomicBool,
}

// Pushes and pops until a push finds the queue shut, and pops then until it is empty. Behind that no push is done, and a pop is
// refused as before.
fn until_shut<R: Wait, T: Load, Q: Carrier<Item = T>>(
    rt: &R,
    alloc: Global,
    queue: &Q,
    seat: &mut Q::Seat,
    from: u64,
    signs: &Signs,
) -> Tally {
    let mut tally = Tally::new();
    let mut number = 0;
    for _ in rt.forever() {
        let shut = signs.shut.load(Ordering::SeqCst);
        match pushes(rt, alloc, queue, seat, from, number, &mut tally) {
            Ok(()) => {
                tally.keeps(!shut);
                signs.pushed.fetch_add(1, Ordering::SeqCst);
            }
            Err(Refusal::NoNode) => {}
            Err(refusal) => {
                tally.keeps(refusal == Refusal::Closed);
                break;
            }
        }
        number += 1;
        if !pops_on(rt, queue, seat, signs, &mut tally) {
            break;
        }
    }
    for _ in rt.forever() {
        if !pops_on(rt, queue, seat, signs, &mut tally) {
            break;
        }
    }
    let pushed = pushes(rt, alloc, queue, seat, from, number, &mut tally);
    tally.keeps(pushed == Err(Refusal::Closed));
    tally.keeps(queue.pop(rt, seat).is_err());
    tally
}

// Pops once; whether more may follow. The queue isn't found empty where the shut had returned before.
fn pops_on<R: Wait, T: Load, Q: Carrier<Item = T>>(
    rt: &R,
    queue: &Q,
    seat: &mut Q::Seat,
    signs: &Signs,
    tally: &mut Tally,
) -> bool {
    let shut = signs.shut.load(Ordering::SeqCst);
    match pops(rt, queue, seat, false, false, tally) {
        Ok(popped) => {
            tally.keeps(popped || !shut);
            true
        }
        Err(refusal) => {
            tally.keeps(refusal == Refusal::Closed);
            false
        }
    }
}

// Shuts the queue once so many pushes were done, or after so many looks for them, and a second time, which is refused.
fn shuts<R: Wait, Q: Carrier>(
    rt: &R,
    queue: &Q,
    seat: &mut Q::Seat,
    first: u64,
    signs: &Signs,
) -> Tally {
    let backoff = Backoff::new();
    for _ in 0..LOOKS {
        if signs.pushed.load(Ordering::SeqCst) >= first {
            break;
        }
        backoff.snooze();
    }
    let mut tally = Tally::new();
    tally.keeps(queue.shut(rt, seat).is_ok());
    signs.shut.store(true, Ordering::SeqCst);
    tally.keeps(queue.shut(rt, seat) == Err(Refusal::Closed));
    tally
}

// Whether a round is right in which the queue is shut once so many pushes were done: the values taken are just those pushed,
// nothing is left, each thread took in order until it found the queue shut and empty, and the five seats made all calls.
fn is_shut_once<R: Threads + Wait + Sync, T: Load, Q: Ending<Item = T> + Sync + Drop>(
    rt: &R,
    alloc: Global,
    queue: Q,
    seats: Vec<Q::Seat>,
    first: u64,
) -> Option<bool> {
    let jobs = jobs_of(alloc, &queue, seats, &[Work::Pairs; 5], false)?;
    let signs = Signs {
        pushed: AtomicU64::new(0),
        shut: AtomicBool::new(false),
    };
    let done = thread::map_vec(
        rt,
        jobs,
        &|mut job| {
            let (seat, from) = (&mut job.seat, job.from);
            let tally = if from == SHUTS {
                shuts(rt, &queue, seat, first, &signs)
            } else {
                until_shut(rt, alloc, &queue, seat, from, &signs)
            };
            Done {
                seat: job.seat,
                from,
                tally,
            }
        },
    );
    let (seats, all) = all_of(alloc, done.ok()?)?;
    let mut last = Tally::new();
    let end = queue.end(rt, alloc, seats, &mut last)?;
    let counted = end.taken.is_none() || end.taken == Some(all.taken.total());
    let none_left = last.taken.total() == 0;
    let right = all.is_right(all.pushed.total()) && counted && none_left;
    Some(right && end.whole && end.was_shut)
}

/// A queue over 8 nodes, or a ring of 8 values, is shut a hundred times while four threads push and pop, once 0 to 63 pushes were
/// done.
#[test]
fn a_shut_among_threads_loses_no_value(rt: HostRuntime) -> Result<(), Fail> {
    let alloc = rt.alloc();
    for round in 0..ROUNDS {
        let first = round % MOST_FIRST;
        let (queue, seats) = linked::<TwoLockAlgorithm>(alloc, 8, MOST_COUNT, &ROLES)?;
        let two_lock = is_shut_once(&rt, alloc, queue, seats, first);
        let (queue, seats) = linked::<NonBlockingAlgorithm>(alloc, 8, MOST_COUNT, &ROLES)?;
        let non_blocking = is_shut_once(&rt, alloc, queue, seats, first);
        let (queue, seats) = ring(alloc, 8, MOST_COUNT, &RING_ROLES)?;
        let ring = is_shut_once(&rt, alloc, queue, seats, first);
        let right = [two_lock, non_blocking, ring] == [Some(true); 3];
        assert!(rt;
            right,
            "round {round}: {two_lock:?}, {non_blocking:?}, {ring:?}"
        );
    }
    Ok(())
}
