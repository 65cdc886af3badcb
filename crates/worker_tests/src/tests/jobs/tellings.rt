//! What a run of jobs tells, also where some are lost.
ghost use Rattle.std.specs.List.{All};
ghost use Rattle.history.specs.Ends.{AsksAny};

use super::gates::Open;
use super::plans::{Rule, Trouble};
use super::queues::{KINDS, non_blocking_of, two_lock_of};
use super::seats::{giver_of, sums, takers_of};
use crate::tests::comparisons::same;
use carriers::Numbers;
use dispatcher::{End, Given, JobsRun, run_jobs};
use history::{Close, Refusal, WornWord};
use line_table::Kind;
use mock_queues::Planned;
use shared_queue::SharedQueue;
use std::alloc::Global;
use std::sync::Wait;
use std::sync::atomic::AtomicU64;
use std::test::Fail;
use std::thread::Threads;

/// What a run of jobs told, and what a close of its queue by all its seats did.
#[derive(Debug, PartialEq, Drop)]
struct Told {
    /// How many results the workers brought back.
    results: usize,
    /// How many workers found the queue shut and empty, how many found it empty and were told to end, and how many were refused.
    ends: (usize, usize, usize),
    /// Why the submitter pushed no more.
    refused: Option<Refusal>,
    /// Why it couldn't shut the queue.
    unshut: Option<Refusal>,
    /// How many numbers are left in the queue, whose seats made all that it did.
    left: (usize, bool),
}

// What so many jobs tell on this queue, by this rule.
fn told_over<R: Threads + Wait + Sync, Q: Close + Sync + Drop>(
    rt: &R,
    alloc: Global,
    queue: Q,
    mut seats: Vec<Q::Seat>,
    count: u64,
    rule: Rule,
) -> Result<Told, Refusal>
    requires seats { All (Q.is_seat queue) seats.items }
    requires asked { AsksAny Q.asks queue }
{
    let jobs = sums(alloc, count)?;
    let ends = AtomicU64::new(0);
    let planned = Planned::new(queue, Trouble::new(rule, &ends));
    let planned = SharedQueue::new(Numbers::new(planned));
    let giver = giver_of(&planned, &mut seats)?;
    let takers = takers_of(alloc, &planned, seats)?;
    let JobsRun { giver, workers } = match run_jobs(
        rt, alloc, &planned, giver, takers, &jobs, &Open,
    ) {
        Ok(run) => run,
        Err(unrun) => return Err(unrun.refusal),
    };
    let ends = (
        workers
            .iter()
            .filter(|worker| worker.end == End::Finished)
            .count(),
        workers
            .iter()
            .filter(|worker| worker.end == End::Stopped)
            .count(),
        workers
            .iter()
            .filter(|worker| matches!(worker.end, End::NoMemory(_) | End::Refused(_)))
            .count(),
    );
    let Given {
        seat,
        refused,
        unshut,
    } = giver;
    let mut results = 0;
    let mut seats = vec![in alloc; seat].or(Err(Refusal::Memory))?;
    for worker in workers {
        results += worker.results.len();
        seats.push(worker.seat).or(Err(Refusal::Memory))?;
    }
    let (mut rest, _end) = planned.into_inner().into_queue().close(alloc, seats)?;
    let whole = rest.whole();
    let mut left = 0;
    while rest.next().is_some() {
        left += 1;
    }
    Ok(Told {
        results,
        ends,
        refused: refused.map(|reason| reason.refusal()),
        unshut,
        left: (left, whole),
    })
}

/// A run tells what each worker did, also where all were refused, and why numbers weren't pushed, or the queue not shut. What was
/// pushed and has no result is left in the queue.
#[test]
fn a_run_tells_what_was_done(rt: HostRuntime) -> Result<(), Fail> {
    let worn_pops = Rule::WornPops {
        pushes: 4,
        good: 3,
        worn: u64::MAX,
    };
    let free = Some(Refusal::WornOut(WornWord::Free));
    let tail = Some(Refusal::WornOut(WornWord::Tail));
    let cases = [
        (Rule::ShutFirst, 4, (2, 0, 0), None, None, 0),
        (worn_pops, 3, (0, 0, 2), None, None, 1),
        (Rule::GoodPushes(2), 2, (2, 0, 0), free, None, 0),
        (Rule::WornTail(2), 2, (0, 2, 0), tail, tail, 0),
    ];
    for kind in KINDS {
        for (rule, results, ends, refused, unshut, left) in cases {
            let found = match kind {
                Kind::TwoLock => {
                    let (queue, seats) = two_lock_of(rt.alloc(), 16, 2)?;
                    told_over(&rt, rt.alloc(), queue, seats, 4, rule)
                }
                Kind::NonBlocking => {
                    let (queue, seats) = non_blocking_of(rt.alloc(), 16, 2)?;
                    told_over(&rt, rt.alloc(), queue, seats, 4, rule)
                }
            };
            let wanted = Told {
                results,
                ends,
                refused,
                unshut,
                left: (left, true),
            };
            same(&rt, found, Ok(wanted), format_args!("{rule:?}, {kind:?}"));
        }
    }
    Ok(())
}
