//! Queues that are too small for the tasks, and queues that wear out: what is run by the submitter, and what is left.
use super::counted_tasks::{Counting, Third, calls, others, tasks, wanted};
use crate::tests::comparisons::same;
use arena_queue::Algorithm;
use history::Refusal;
use mock_queues::{FullQueue, NeverBusy};
use node_arena::MOST_COUNT;
use nonblocking::NonBlockingAlgorithm;
use shared_queue::SharedQueue;
use std::alloc::Global;
use std::process::Abort;
use std::sync::Wait;
use std::test::Fail;
use std::thread::Threads;
use tasks::{AnyReason, End, Numbered, Outcome, Ran, Stop, Unrun, pool_queue, run_on, work};
use two_lock::TwoLockAlgorithm;

/// How many tasks there are.
const MANY: u64 = 400;

/// What came of a run: how many tasks were answered, how many were left, how many of either stood at another place, and how
/// many workers found the queue shut and empty.
#[derive(Debug, PartialEq, Drop)]
struct Found {
    answered: u64,
    left: u64,
    wrong: u64,
    finished: usize,
}

fn summed(ran: Ran<Counting, Result<u64, Third>>) -> Found {
    let mut found = Found {
        answered: 0,
        left: 0,
        wrong: 0,
        finished: ran.ends.iter().filter(|end| **end == End::Finished).count(),
    };
    let mut number = 0u64;
    for outcome in ran.outcomes {
        let is_own = match outcome {
            Outcome::Answered(answer) => {
                found.answered += 1;
                answer == wanted(number)
            }
            Outcome::Left(task) => {
                found.left += 1;
                task.number == number
            }
        };
        if !is_own {
            found.wrong += 1;
        }
        number += 1;
    }
    found
}

/// A queue of so many nodes, with this greatest count.
#[derive(Clone, Copy, Debug)]
struct Size {
    nodes: u32,
    limit: u64,
}

// Runs the tasks on a queue of this size by three workers; what came of it, and whether as many as were answered were run.
fn run_on_queue<R: Threads + Wait + Sync, A: Algorithm<24> + Sync>(
    rt: &R,
    alloc: Global,
    size: Size,
) -> Result<(Found, Option<Refusal>, bool), Fail> {
    let calls = calls(alloc, MANY)?;
    let tasks = tasks(alloc, MANY, &calls)?;
    let Size { nodes, limit } = size;
    let (queue, seats) = pool_queue::<Counting, A, 24>(alloc, nodes, limit, 3)?;
    let ran = match run_on(rt, alloc, queue, seats, tasks) {
        Ok(ran) => ran,
        Err(
            Unrun {
                queue: _,
                seats: _,
                tasks: _,
            },
        ) => return Err(Fail::from(Refusal::Memory)),
    };
    let unshut = ran.unshut;
    let found = summed(ran);
    let left = others(&calls, 1) as u64;
    let once = left == found.left && others(&calls, 0) as u64 == MANY - left;
    Ok((found, unshut, once))
}

fn all_are_answered<R: Threads + Wait + Sync + Abort, A: Algorithm<24> + Sync>(
    rt: &R,
    alloc: Global,
) -> Result<(), Fail> {
    for nodes in [2, 3, 50, 401] {
        let size = Size {
            nodes,
            limit: MOST_COUNT,
        };
        let wanted = Found {
            answered: MANY,
            left: 0,
            wrong: 0,
            finished: 3,
        };
        let found = run_on_queue::<_, A>(rt, alloc, size)?;
        same(rt, found, (wanted, None, true), size);
    }
    Ok(())
}

/// A queue with few nodes is no hindrance: the submitter runs what it can't push, and the workers find the queue shut.
#[test]
fn few_nodes_are_enough(rt: HostRuntime) -> Result<(), Fail> {
    all_are_answered::<_, NonBlockingAlgorithm>(&rt, rt.alloc())?;
    all_are_answered::<_, TwoLockAlgorithm>(&rt, rt.alloc())
}

fn some_are_left<R: Threads + Wait + Sync + Abort, A: Algorithm<24> + Sync>(
    rt: &R,
    alloc: Global,
) -> Result<(), Fail> {
    for limit in [1, 3, 9, 31] {
        let size = Size { nodes: 500, limit };
        let (found, _unshut, once) = run_on_queue::<_, A>(rt, alloc, size)?;
        let all = found.answered + found.left;
        same(rt, (all, found.wrong, once), (MANY, 0, true), size);
    }
    Ok(())
}

/// On a queue whose words wear out each task is answered, or comes back unrun, at its own place; and all workers end.
#[test]
fn what_is_left_comes_back(rt: HostRuntime) -> Result<(), Fail> {
    some_are_left::<_, NonBlockingAlgorithm>(&rt, rt.alloc())?;
    some_are_left::<_, TwoLockAlgorithm>(&rt, rt.alloc())
}

/// A worker that finds the queue empty, after it was told that no task comes any more, ends.
#[test]
fn a_stopped_worker_ends(rt: HostRuntime) -> Result<(), Fail> {
    let (queue, seat) = FullQueue::<Numbered<Counting>, _>::new(NeverBusy);
    let stop = Stop::<AnyReason>::new();
    stop.tell();
    let worked = work(&rt, rt.alloc(), &SharedQueue::new(queue), seat, &stop);
    let found = (worked.done.len(), worked.end);
    same(&rt, found, (0, End::Stopped), "nothing to do");
    Ok(())
}
