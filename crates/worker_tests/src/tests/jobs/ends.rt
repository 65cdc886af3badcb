//! How runs of `dispatch` end: by a shut, or without one where it is refused.
ghost use Rattle.std.specs.List.{All};
ghost use Rattle.history.specs.Ends.{AsksAny};

use super::gates::Open;
use super::plans::{Rule, Trouble};
use super::queues::{KINDS, non_blocking_of, non_blocking_with, two_lock_of};
use super::seats::dispatched;
use crate::tests::comparisons::same;
use carriers::Numbers;
use history::{Close, Refusal};
use line_table::Kind;
use mock_queues::Planned;
use shared_queue::SharedQueue;
use std::alloc::Global;
use std::sync::Wait;
use std::sync::atomic::{AtomicU64, Ordering};
use std::test::Fail;
use std::thread::Threads;

/// How many nodes each queue has.
const NODES: u32 = 1024;

/// How jobs and their queue ended.
#[derive(Debug, PartialEq, Drop)]
struct End {
    /// How many results there are.
    results: Result<usize, Refusal>,
    /// How many pops found the queue shut and empty.
    ends: u64,
    /// How many values were taken.
    taken: u64,
    /// Whether a value is left.
    is_left: bool,
    was_shut: bool,
}

impl End {
    // All of so many jobs were done, and each of so many workers ended by the shut.
    fn by_shut(count: u64, workers: u64) -> End {
        End {
            results: Ok(count as usize),
            ends: workers,
            taken: count,
            is_left: false,
            was_shut: true,
        }
    }
}

// How so many jobs end on this queue, by this rule. The queue is closed with none of its seats.
fn end_over<R: Threads + Wait + Sync, Q: Close + Sync + Drop>(
    rt: &R,
    alloc: Global,
    queue: Q,
    seats: Vec<Q::Seat>,
    count: u64,
    rule: Rule,
) -> Result<End, Refusal>
    requires seats { All (Q.is_seat queue) seats.items }
    requires asked { AsksAny Q.asks queue }
{
    let ends = AtomicU64::new(0);
    let planned = Planned::new(queue, Trouble::new(rule, &ends));
    let planned = SharedQueue::new(Numbers::new(planned));
    let results = dispatched(rt, alloc, &planned, seats, None, count, &Open);
    let (mut rest, _end) = planned
        .into_inner()
        .into_queue()
        .close(alloc, Vec::new(alloc))?;
    Ok(End {
        results,
        ends: ends.load(Ordering::SeqCst),
        taken: rest.taken(),
        is_left: rest.next().is_some(),
        was_shut: rest.was_shut(),
    })
}

// The same on a new queue of this kind, with so many workers.
fn end_on<R: Threads + Wait + Sync>(
    rt: &R,
    alloc: Global,
    kind: Kind,
    workers: usize,
    count: u64,
    rule: Rule,
) -> Result<End, Refusal> {
    match kind {
        Kind::TwoLock => {
            let (queue, seats) = two_lock_of(alloc, NODES, workers)?;
            end_over(rt, alloc, queue, seats, count, rule)
        }
        Kind::NonBlocking => {
            let (queue, seats) = non_blocking_of(alloc, NODES, workers)?;
            end_over(rt, alloc, queue, seats, count, rule)
        }
    }
}

/// Jobs end by a shut: each worker finds the queue shut and empty just once, and nothing is left in it. So it is where the
/// first calls of each kind are busy, and where
/// all is pushed, and the queue shut, before the first pop.
#[test]
fn jobs_end_by_a_shut(rt: HostRuntime) -> Result<(), Fail> {
    for kind in KINDS {
        for workers in [1, 2, 64] {
            for rule in [Rule::Busy(10), Rule::ShutFirst] {
                for count in [0, 1, 500] {
                    let found = end_on(&rt, rt.alloc(), kind, workers as usize, count, rule)?;
                    same(
                        &rt,
                        found,
                        End::by_shut(count, workers),
                        format_args!("{count} jobs, {workers} workers, {rule:?}, {kind:?}"),
                    );
                }
            }
        }
    }
    Ok(())
}

/// Two workers each find the queue empty before the first push. They go on, and both jobs are done.
/// A mutant, by hand: a worker that ends at the first empty reply fails here.
#[test]
fn workers_go_on_where_the_queue_is_empty(rt: HostRuntime) -> Result<(), Fail> {
    for kind in KINDS {
        let found = end_on(&rt, rt.alloc(), kind, 2, 2, Rule::Empties(2))?;
        same(&rt, found, End::by_shut(2, 2), format_args!("{kind:?}"));
    }
    Ok(())
}

/// Where jobs are lost the queue is shut all the same: behind a push that was refused, and where no worker is left and no node
/// is free.
/// A mutant, by hand: a dispatch without a shut where a push was refused fails here.
#[test]
fn the_queue_is_shut_where_jobs_are_lost(rt: HostRuntime) -> Result<(), Fail> {
    let no_worker = Rule::WornPops {
        pushes: 0,
        good: 0,
        worn: u64::MAX,
    };
    for kind in KINDS {
        for rule in [Rule::GoodPushes(1), no_worker] {
            let found = end_on(&rt, rt.alloc(), kind, 2, 2000, rule)?;
            same(
                &rt,
                (found.results, found.was_shut),
                (Err(Refusal::Lost), true),
                format_args!("{rule:?}, {kind:?}"),
            );
        }
    }
    Ok(())
}

/// With the greatest count 1 the second push leaves Tail behind for good. So a third one is refused, and so is the shut, and
/// the second value can't be taken: its job is lost, and the workers end.
#[test]
fn jobs_end_where_tail_is_worn(rt: HostRuntime) -> Result<(), Fail> {
    for count in 1..=3 {
        let (queue, seats) = non_blocking_with(rt.alloc(), NODES, 1, 2)?;
        let found = end_over(&rt, rt.alloc(), queue, seats, count, Rule::ShutFirst)?;
        let wanted = match count {
            1 => End::by_shut(1, 2),
            _ => End {
                results: Err(Refusal::Lost),
                ends: 0,
                taken: 1,
                is_left: true,
                was_shut: false,
            },
        };
        same(&rt, found, wanted, count);
    }
    Ok(())
}
