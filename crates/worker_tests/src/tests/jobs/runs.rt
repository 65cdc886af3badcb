//! Runs of `dispatch` on both queues.
ghost use Rattle.std.specs.List.{All};

use super::gates::{Logged, Open, SecondFirst};
use super::plans::{Rule, Trouble};
use super::queues::{KINDS, non_blocking_of, two_lock_of};
use super::seats::dispatched;
use crate::tests::comparisons::same;
use carriers::Numbers;
use dispatcher::Gate;
use history::{Body, Fifo, Refusal};
use line_table::Kind;
use mock_queues::Planned;
use shared_queue::SharedQueue;
use std::alloc::Global;
use std::sync::Wait;
use std::sync::atomic::AtomicU64;
use std::test::Fail;
use std::thread::Threads;

/// How many workers do how many jobs, on a queue of how many nodes, and by which rule its calls are refused or held.
#[derive(Clone, Copy)]
struct Load {
    workers: usize,
    nodes: u32,
    count: u64,
    rule: Option<Rule>,
    /// A body that is in the queue before.
    early: Option<Body>,
}

impl Load {
    fn new(workers: usize, nodes: u32, count: u64) -> Load {
        Load {
            workers,
            nodes,
            count,
            rule: None,
            early: None,
        }
    }
}

// How many results workers give of these jobs, on this queue.
fn done_over<R: Threads + Wait + Sync, Q: Fifo + Sync + Drop, G: Gate + Sync>(
    rt: &R,
    alloc: Global,
    queue: Q,
    seats: Vec<Q::Seat>,
    load: Load,
    gate: &G,
) -> Result<usize, Refusal>
    requires { All (Q.is_seat queue) seats.items }
{
    let Load { count, early, .. } = load;
    match load.rule {
        None => {
            let queue = SharedQueue::new(Numbers::new(queue));
            dispatched(rt, alloc, &queue, seats, early, count, gate)
        }
        Some(rule) => {
            let ends = AtomicU64::new(0);
            let planned = Planned::new(queue, Trouble::new(rule, &ends));
            let planned = SharedQueue::new(Numbers::new(planned));
            dispatched(rt, alloc, &planned, seats, early, count, gate)
        }
    }
}

// The same on a new queue of this kind.
fn done<R: Threads + Wait + Sync, G: Gate + Sync>(
    rt: &R,
    alloc: Global,
    kind: Kind,
    load: Load,
    gate: &G,
) -> Result<usize, Refusal> {
    match kind {
        Kind::TwoLock => {
            let (queue, seats) = two_lock_of(alloc, load.nodes, load.workers)?;
            done_over(rt, alloc, queue, seats, load, gate)
        }
        Kind::NonBlocking => {
            let (queue, seats) = non_blocking_of(alloc, load.nodes, load.workers)?;
            done_over(rt, alloc, queue, seats, load, gate)
        }
    }
}

/// All jobs are done, by few workers and by many, also where there are no jobs, or far more than the queue has room for. No
/// worker at all is refused, and so are more jobs than may be.
/// Mutants, by hand: turns that are always `Lost` fail here, and those that are always `Busy` never end.
#[test]
fn all_jobs_are_done(rt: HostRuntime) -> Result<(), Fail> {
    let cases = [
        (1, 1024, 1000, Ok(1000)),
        (2, 1024, 1000, Ok(1000)),
        (4, 1024, 1000, Ok(1000)),
        (64, 1024, 1000, Ok(1000)),
        (64, 67, 0, Ok(0)),
        (1, 4, 10_000, Ok(10_000)),
        (2, 5, 10_000, Ok(10_000)),
        (64, 67, 10_000, Ok(10_000)),
        (0, 1024, 3, Err(Refusal::BadSize)),
        (2, 1024, 1_000_001, Err(Refusal::BadSize)),
    ];
    for (workers, nodes, count, wanted) in cases {
        for kind in KINDS {
            let load = Load::new(workers, nodes, count);
            let results = done(&rt, rt.alloc(), kind, load, &Open);
            assert_eq!(rt;
                results,
                wanted,
                "{count} jobs, {workers} workers, {nodes} nodes, {kind:?}"
            );
        }
    }
    Ok(())
}

/// Two workers do jobs at one time: the first job is held until the second is done.
/// A mutant, by hand: a dispatch with one thread alone fails here.
#[test]
fn two_workers_run_at_once(rt: HostRuntime) -> Result<(), Fail> {
    for kind in KINDS {
        let gate = SecondFirst::new();
        let results = done(&rt, rt.alloc(), kind, Load::new(2, 1024, 2), &gate);
        assert_eq!(rt; (results, gate.opened()), (Ok(2), true), "{kind:?}");
    }
    Ok(())
}

/// The gate is called before and after each job, once each.
#[test]
fn the_gate_is_called_before_and_after_each_job(rt: HostRuntime) -> Result<(), Fail> {
    for kind in KINDS {
        let gate = Logged::new();
        let results = done(&rt, rt.alloc(), kind, Load::new(1, 1024, 4), &gate);
        assert_eq!(rt; (results, gate.digits()), (Ok(4), 12_345_678), "{kind:?}");
    }
    Ok(())
}

// So many first pops are refused.
fn worn_pops(worn: u64) -> Rule {
    Rule::WornPops {
        pushes: 0,
        good: 0,
        worn,
    }
}

/// A queue that is busy a hundred times does all jobs, and so does one that is found empty four times before the first push.
/// Where pushes are refused, also with the shut, or each worker's pop, jobs are lost, and the workers end; where the shut
/// alone is refused, or one worker's pop, all jobs are done.
/// Mutants, by hand: with a flag that is never looked at, or never set, this doesn't end.
#[test]
fn workers_end_where_the_queue_is_worn_out(rt: HostRuntime) -> Result<(), Fail> {
    let cases = [
        (Rule::Busy(100), Ok(1000)),
        (Rule::Empties(4), Ok(1000)),
        (Rule::GoodPushes(0), Err(Refusal::Lost)),
        (Rule::GoodPushes(10), Err(Refusal::Lost)),
        (Rule::WornTail(0), Err(Refusal::Lost)),
        (Rule::WornTail(10), Err(Refusal::Lost)),
        (Rule::WornTail(u64::MAX), Ok(1000)),
        (worn_pops(1), Ok(1000)),
        (worn_pops(u64::MAX), Err(Refusal::Lost)),
    ];
    for (rule, wanted) in cases {
        for kind in KINDS {
            let mut load = Load::new(4, 1024, 1000);
            load.rule = Some(rule);
            let results = done(&rt, rt.alloc(), kind, load, &Open);
            assert_eq!(rt; results, wanted, "{rule:?}, {kind:?}");
        }
    }
    Ok(())
}

// How many results workers give of jobs, on a queue of 16 nodes of this kind, by this rule.
fn done_by<R: Threads + Wait + Sync, G: Gate + Sync>(
    rt: &R,
    alloc: Global,
    kind: Kind,
    (workers, count): (usize, u64),
    rule: Rule,
    gate: &G,
) -> Result<usize, Refusal> {
    let mut load = Load::new(workers, 16, count);
    load.rule = Some(rule);
    done(rt, alloc, kind, load, gate)
}

/// Workers are refused behind so many pops that took a value: all from then on, or one. What they did before is kept. So all
/// of four jobs are done where four values were taken, or another worker takes them; else they are lost.
/// A mutant, by hand: a dispatch that throws a refused worker's results away fails here.
#[test]
fn results_before_a_refusal_are_kept(rt: HostRuntime) -> Result<(), Fail> {
    for kind in KINDS {
        for (workers, worn, least) in [(1, 1, 4), (1, u64::MAX, 4), (2, u64::MAX, 4), (2, 1, 0)] {
            for good in 0..=6 {
                let rule = Rule::WornPops {
                    pushes: 4,
                    good,
                    worn,
                };
                let found = done_by(&rt, rt.alloc(), kind, (workers, 4), rule, &Open);
                let wanted = if good < least {
                    Err(Refusal::Lost)
                } else {
                    Ok(4)
                };
                same(
                    &rt,
                    found,
                    wanted,
                    format_args!("{workers} workers, {rule:?}, {kind:?}"),
                );
            }
        }
    }
    Ok(())
}

/// Of two workers that did a job each, one or both are refused after it: both jobs are done.
#[test]
fn the_result_of_a_worker_refused_after_its_first_job_is_kept(rt: HostRuntime) -> Result<(), Fail> {
    for kind in KINDS {
        for worn in [1, 2] {
            let gate = SecondFirst::new();
            let rule = Rule::WornPops {
                pushes: 2,
                good: 2,
                worn,
            };
            let found = done_by(&rt, rt.alloc(), kind, (2, 2), rule, &gate);
            same(
                &rt,
                (found, gate.opened()),
                (Ok(2), true),
                format_args!("{worn}, {kind:?}"),
            );
        }
    }
    Ok(())
}

/// The submitter is refused behind so many pushes, and may shut the queue or not: where these are the jobs, or more, all are
/// done.
#[test]
fn jobs_pushed_before_a_refusal_are_done(rt: HostRuntime) -> Result<(), Fail> {
    for kind in KINDS {
        for good in 0..=6 {
            for rule in [Rule::GoodPushes(good), Rule::WornTail(good)] {
                let found = done_by(&rt, rt.alloc(), kind, (2, 4), rule, &Open);
                let wanted = if good < 4 { Err(Refusal::Lost) } else { Ok(4) };
                same(&rt, found, wanted, format_args!("{rule:?}, {kind:?}"));
            }
        }
    }
    Ok(())
}

/// A worker finds the queue empty. Before it goes on, jobs are pushed, and the submitter shuts the queue, or can't and gives
/// up: the worker looked before whether it had, and so does those jobs.
/// A mutant, by hand: a flag that is looked at after the pop that found none fails here.
#[test]
fn jobs_pushed_after_a_pop_found_none_are_done(rt: HostRuntime) -> Result<(), Fail> {
    for kind in KINDS {
        for (count, worn) in [(1, true), (3, true), (3, false)] {
            let rule = Rule::LateShut { worn };
            let found = done_by(&rt, rt.alloc(), kind, (1, count), rule, &Open);
            same(
                &rt,
                found,
                Ok(count as usize),
                format_args!("{count} jobs, {rule:?}, {kind:?}"),
            );
        }
    }
    Ok(())
}

/// A worker that takes a number that no job has, 0 or one above that of the jobs, ends, and the others do all.
#[test]
fn a_number_of_no_job_ends_one_worker(rt: HostRuntime) -> Result<(), Fail> {
    for (workers, wanted) in [(2, Ok(3)), (1, Err(Refusal::Lost))] {
        for number in [0, 4] {
            for kind in KINDS {
                let mut load = Load::new(workers, 16, 3);
                load.early = Body::new(number);
                let results = done(&rt, rt.alloc(), kind, load, &Open);
                assert_eq!(rt; results, wanted, "{number}, {workers} workers, {kind:?}");
            }
        }
    }
    Ok(())
}

// How many results two workers give of three jobs.
fn three_done<R: Threads + Wait + Sync>(
    rt: &R,
    alloc: Global,
    kind: Kind,
) -> Result<usize, Refusal> {
    done(rt, alloc, kind, Load::new(2, 16, 3), &Open)
}

/// Where one allocation is refused, the answer is the usual one, `Memory` or `Lost`, and the next run does all jobs.
#[test]
fn a_refused_allocation_is_told_once(rt: HostRuntime) -> Result<(), Fail> {
    for kind in KINDS {
        let results = match three_done(&rt, rt.alloc(), kind) {
            Err(Refusal::Memory) | Err(Refusal::Lost) => three_done(&rt, rt.alloc(), kind),
            results => results,
        };
        assert_eq!(rt; results, Ok(3), "{kind:?}");
    }
    Ok(())
}
