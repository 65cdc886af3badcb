//! Numbers through each queue, by four threads, with kept nodes and without, and over words that wear out.
use super::runs::{Came, Run, outcome};
use crate::works::works_of;
use arena_queue::{Algorithm, ArenaQueueOf};
use carriers::Numbers;
use history::Refusal;
use node_arena::{MOST_COUNT, Role, Seat};
use nonblocking::NonBlockingAlgorithm;
use ring_queue::{RingQueue, Role as RingRole, Seat as RingSeat};
use std::alloc::Global;
use std::sync::Wait;
use std::test::Fail;
use std::thread::Threads;
use two_lock::TwoLockAlgorithm;

/// How often each thread pushes and pops in the long runs.
const PAIRS: u64 = 50_000;

/// The same in the short runs, where refusals are ordinary.
const FEW_PAIRS: u64 = 100;

/// The last place of a ring in the short runs, before its pushes end.
const FEW_PLACES: u64 = 256;

/// A new queue of numbers with nodes.
pub fn linked<A: Algorithm<24>>(
    alloc: Global,
    nodes: u32,
    limit: u64,
    roles: &[Role],
) -> Result<(Numbers<ArenaQueueOf<A, 24>>, Vec<Seat>), Refusal> {
    let (queue, seats) = ArenaQueueOf::<A, 24>::new(alloc, nodes, limit, roles)?;
    Ok((Numbers::new(queue), seats))
}

/// A new ring of numbers.
pub fn ring(
    alloc: Global,
    values: u32,
    last_place: u64,
    roles: &[RingRole],
) -> Result<(Numbers<RingQueue>, Vec<RingSeat>), Refusal> {
    let (queue, seats) = RingQueue::new(alloc, values, last_place, roles)?;
    Ok((Numbers::new(queue), seats))
}

// Pairs of four threads.
fn pairs_of(count: u64, keeps: bool, most: u64) -> Run {
    Run {
        works: works_of("four"),
        count,
        keeps,
        most: Some(most),
    }
}

// What came of pairs of four threads over a new queue with nodes.
fn over_nodes<R: Threads + Wait + Sync, A: Algorithm<24> + Sync>(
    rt: &R,
    alloc: Global,
    nodes: u32,
    limit: u64,
    count: u64,
    keeps: bool,
) -> Result<Option<Came>, Refusal> {
    let (queue, seats) = linked::<A>(alloc, nodes, limit, &[Role::Both; 4])?;
    Ok(outcome(
        rt,
        alloc,
        queue,
        seats,
        pairs_of(count, keeps, u64::from(nodes)),
    ))
}

// The same over a new ring.
fn over_places<R: Threads + Wait + Sync>(
    rt: &R,
    alloc: Global,
    values: u32,
    last_place: u64,
    count: u64,
) -> Result<Option<Came>, Refusal> {
    let most = u64::from(values);
    let (queue, seats) = ring(alloc, values, last_place, &[RingRole::Both; 4])?;
    Ok(outcome(rt, alloc, queue, seats, pairs_of(count, false, most)))
}

/// Four threads push and pop 50,000 times each over 65 nodes, with kept nodes and without: each value comes once, each sender's
/// in order, and each node but the dummy is found again.
#[test]
fn each_value_comes_once_and_each_node_is_found(rt: HostRuntime) -> Result<(), Fail> {
    let alloc = rt.alloc();
    let due = Some(Came {
        pushed: 4 * PAIRS + 64,
        found: 64,
        is_right: true,
    });
    for keeps in [false, true] {
        let two_lock = over_nodes::<_, TwoLockAlgorithm>(&rt, alloc, 65, MOST_COUNT, PAIRS, keeps)?;
        assert_eq!(rt; two_lock, due, "two-lock, kept nodes: {keeps}");
        let non_blocking = over_nodes::<_, NonBlockingAlgorithm>(
            &rt, alloc, 65, MOST_COUNT, PAIRS, keeps,
        )?;
        assert_eq!(rt; non_blocking, due, "non-blocking, kept nodes: {keeps}");
    }
    Ok(())
}

/// The same over a ring of 64 values, whose pushes find just as much room as there is.
#[test]
fn each_value_comes_once_over_a_ring(rt: HostRuntime) -> Result<(), Fail> {
    let came = over_places(&rt, rt.alloc(), 64, MOST_COUNT, PAIRS)?;
    assert!(rt;
        matches!(came, Some(it) if it.is_right && it.found == 64),
        "{came:?}"
    );
    Ok(())
}

/// On 2 to 4 nodes, at greatest counts of 1 to 5, words wear out and pushes find no node: each value that was pushed comes once,
/// and a node holds one at most, and the dummy none.
#[test]
fn each_value_comes_once_where_words_wear_out(rt: HostRuntime) -> Result<(), Fail> {
    let alloc = rt.alloc();
    for nodes in 2..=4 {
        for limit in 1..=5 {
            for keeps in [false, true] {
                let two_lock = over_nodes::<_, TwoLockAlgorithm>(
                    &rt, alloc, nodes, limit, FEW_PAIRS, keeps,
                )?;
                let non_blocking = over_nodes::<_, NonBlockingAlgorithm>(
                    &rt, alloc, nodes, limit, FEW_PAIRS, keeps,
                )?;
                for came in [two_lock, non_blocking] {
                    let right =
                        matches!(came, Some(it) if it.is_right && it.found < u64::from(nodes));
                    assert!(rt;
                        right,
                        "{nodes} nodes, limit {limit}, kept: {keeps}, {came:?}"
                    );
                }
            }
        }
    }
    Ok(())
}

/// A ring of 1 to 3 values has its last place used up.
#[test]
fn each_value_comes_once_where_places_are_used_up(rt: HostRuntime) -> Result<(), Fail> {
    for values in 1..=3 {
        let came = over_places(&rt, rt.alloc(), values, FEW_PLACES, FEW_PAIRS)?;
        let right = matches!(came, Some(it) if it.is_right && it.found <= u64::from(values));
        assert!(rt; right, "{values} values, {came:?}");
    }
    Ok(())
}
