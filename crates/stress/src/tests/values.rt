//! Values of several types through each queue of values, the ring too, by four threads.
use super::runs::{Run, outcome};
use crate::loads::{Load, Words};
use crate::queues::MOST_PLACE;
use crate::works::Work;
use node_arena::{MOST_COUNT, Role};
use nonblocking::NonBlockingAlgorithm;
use ring_queue::Role as RingRole;
use ring_values::RingValues;
use std::alloc::Global;
use std::sync::Wait;
use std::test::Fail;
use std::thread::Threads;
use two_lock::TwoLockAlgorithm;
use value_queue::QueueOf;

impl Load for Box<u64> {
    fn made(alloc: Global, from: u64, number: u64) -> Option<Box<u64>> {
        Box::new(alloc, u64::made(alloc, from, number)?).ok()
    }

    fn told(&self) -> Option<u64> {
        Some(**self)
    }
}

/// How often each thread does its work, and how many values all push. Those that only push have room for all.
const RUNS: [(&[Work; 4], u64, u64); 3] = [
    (&[Work::Pairs; 4], 10_000, 40_000),
    (
        &[Work::Pushes, Work::Pops, Work::Pushes, Work::Pops],
        10_000,
        20_000,
    ),
    (&[Work::Pushes; 4], 16, 64),
];

// Whether all values of these runs come, or are left, over each queue, with kept nodes and without.
fn all_come<R: Threads + Wait + Sync, T: Load>(rt: &R, alloc: Global) -> Result<bool, Fail> {
    let (roles, ring_roles) = ([Role::Both; 4], [RingRole::Both; 4]);
    let mut right = true;
    for keeps in [false, true] {
        for (works, count, pushed) in RUNS {
            let run = Run {
                works,
                count,
                keeps,
                most: None,
            };
            let (queue, seats) = QueueOf::<T, TwoLockAlgorithm, 24>::new(
                alloc, 65, MOST_COUNT, &roles,
            )?;
            let two_lock = outcome(rt, alloc, queue, seats, run);
            let (queue, seats) = QueueOf::<T, NonBlockingAlgorithm, 24>::new(
                alloc, 65, MOST_COUNT, &roles,
            )?;
            let non_blocking = outcome(rt, alloc, queue, seats, run);
            let (queue, seats) = RingValues::<T>::new(alloc, 64, MOST_PLACE, &ring_roles)?;
            let ring = outcome(rt, alloc, queue, seats, run);
            for came in [two_lock, non_blocking, ring] {
                right = right && matches!(came, Some(it) if it.is_right && it.pushed == pushed);
            }
        }
    }
    Ok(right)
}

/// Each value is taken once, or left, each pusher's in order and as it was made: where each thread pushes and pops, where two push
/// and two pop, and where all push.
#[test]
fn each_value_comes_once_and_as_it_was_made(rt: HostRuntime) -> Result<(), Fail> {
    let alloc = rt.alloc();
    assert!(rt; all_come::<_, u64>(&rt, alloc)?, "a word");
    assert!(rt; all_come::<_, Words>(&rt, alloc)?, "three words");
    assert!(rt; all_come::<_, Box<u64>>(&rt, alloc)?, "a box");
    assert!(rt; all_come::<_, String>(&rt, alloc)?, "a text");
    Ok(())
}
