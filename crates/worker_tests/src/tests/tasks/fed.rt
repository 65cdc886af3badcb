//! Pools that are fed: tasks are asked for as there is room for them, and each result is told as it comes.
use super::counted_tasks::{Calls, Counting, Third, calls, others, task_of, wanted};
use crate::tests::comparisons::same;
use history::Refusal;
use node_arena::MOST_COUNT;
use nonblocking::NonBlockingAlgorithm;
use std::alloc::Global;
use std::sync::{Arc, Wait};
use std::test::Fail;
use std::thread::Threads;
use tasks::{Done, End, Fed, Feed, Numbered, Task, Unfed, line, run_fed, run_feed};

/// So many tasks, one after another; how many results were told, and how many of them weren't their task's own.
#[derive(Drop)]
pub(super) struct Row {
    calls: Calls,
    pub(super) given: u64,
    most: u64,
    pub(super) told: u64,
    pub(super) wrong: u64,
}

impl Row {
    pub(super) fn new(calls: Calls, most: u64) -> Row {
        Row {
            calls,
            given: 0,
            most,
            told: 0,
            wrong: 0,
        }
    }
}

impl Feed<Counting> for Row {
    ghost stands = { λ _ _ _. Unit {0} };

    ghost Kept = { Unit {0} };

    ghost kept = { λ _. tt };

    ghost idle = { λ _. Unit {0} };

    fn next(&mut self) -> Option<Counting> {
        if self.given >= self.most {
            return None;
        }
        let Ok(task) = task_of(self.given, &self.calls) else {
            return None;
        };
        self.given += 1;
        Some(task)
    }

    fn tell(&mut self, done: Done<Result<u64, Third>>) {
        self.told += 1;
        if done.answer != wanted(done.number as u64) {
            self.wrong += 1;
        }
    }
}

/// How many tasks there are where results wear out.
const ROW: u64 = 500;

/// The greatest counts of the queues of results that wear out. At an even one Free may wear out with no node free, and then
/// who sends a result is told that there is no node, and sleeps for good.
const LIMITS: [u64; 5] = [1, 3, 5, 21, 201];

/// How many tasks there are, how many workers, and for how many tasks there is room.
const ROWS: [(u64, Option<usize>, u32); 9] = [
    (0, None, 1),
    (1, Some(0), 1),
    (1, Some(3), 1),
    (500, Some(0), 7),
    (500, Some(1), 1),
    (2000, Some(3), 1),
    (2000, Some(3), 2),
    (3000, Some(8), 20),
    (5000, None, 100),
];

/// Each task of a long row is run once, and its own result told once, through queues with little room too, and without a worker.
#[test]
fn rows_are_told_once(rt: HostRuntime) -> Result<(), Fail> {
    for (most, workers, room) in ROWS {
        let calls = calls(rt.alloc(), most)?;
        let row = Row::new(Arc::try_clone(&calls)?, most);
        let fed = fed(&rt, rt.alloc(), row, workers, room)?;
        let found = (fed.feed.told, fed.feed.wrong, others(&calls, 1));
        same(&rt, found, (most, 0, 0), (most, workers, room));
        let ended = fed.ends.iter().filter(|end| **end == End::Finished).count();
        same(&rt, ended, fed.ends.len(), "each worker finished");
    }
    Ok(())
}

/// Where a word of the queue of results wears out, all threads end, and each task's own result was told, or it comes back unrun.
#[test]
fn a_fed_pool_ends_where_results_wear_out(rt: HostRuntime) -> Result<(), Fail> {
    for limit in LIMITS {
        let calls = calls(rt.alloc(), ROW)?;
        let row = Row::new(Arc::try_clone(&calls)?, ROW);
        let tasks = line::<Numbered<Counting>, NonBlockingAlgorithm, 24>(
            rt.alloc(),
            64,
            MOST_COUNT,
            3,
        )?;
        let results = line::<Done<Result<u64, Third>>, NonBlockingAlgorithm, 24>(
            rt.alloc(),
            8,
            limit,
            3,
        )?;
        match run_fed(&rt, rt.alloc(), row, tasks, results) {
            Ok(mut fed) => {
                let back = fed.left.by_ref().count() as u64;
                let found = (fed.feed.told + back, fed.feed.wrong);
                same(&rt, found, (fed.feed.given, 0), limit);
                let unsent = fed.ends.iter().any(|end| matches!(end, End::Refused(_)));
                same(&rt, unsent && fed.refused.is_none(), false, limit);
            }
            Err(unfed) => {
                let Unfed {
                    feed: _,
                    tasks: _,
                    results: _,
                } = unfed;
                return Err(Fail::from(Refusal::Memory));
            }
        }
    }
    Ok(())
}

// Runs the tasks of a feed.
fn fed<R: Threads + Wait + Sync, T: Task, F: Feed<T>>(
    rt: &R,
    alloc: Global,
    feed: F,
    workers: Option<usize>,
    room: u32,
) -> Result<Fed<F, T>, Fail> {
    match run_feed(rt, alloc, feed, workers, room) {
        Ok(fed) => Ok(fed),
        Err(unstarted) => Err(Fail::from(unstarted.refusal)),
    }
}

/// A node of a tree, so many levels above the lowest ones.
#[derive(Drop)]
struct Node {
    height: u32,
}

/// A node fails that stands three levels above the lowest ones.
#[derive(Clone, Copy, Debug, PartialEq, Eq)]
struct Lost;

impl Task for Node {
    type Output = u32;

    type Error = Lost;

    ghost answers = { λ _ _. Unit {0} };

    fn run(self) -> Result<u32, Lost> {
        if self.height == 3 {
            return Err(Lost);
        }
        Ok(self.height)
    }
}

/// A tree of tasks: a node that was run makes three of the level below it, and one that failed makes none.
#[derive(Drop)]
struct Tree {
    waiting: Vec<u32>,
    given: u64,
    told: u64,
    lost: u64,
    short: bool,
}

impl Feed<Node> for Tree {
    ghost stands = { λ _ _ _. Unit {0} };

    ghost Kept = { Unit {0} };

    ghost kept = { λ _. tt };

    ghost idle = { λ _. Unit {0} };

    fn next(&mut self) -> Option<Node> {
        let height = self.waiting.pop()?;
        self.given += 1;
        Some(Node { height })
    }

    fn tell(&mut self, done: Done<Result<u32, Lost>>) {
        self.told += 1;
        match done.answer {
            Ok(0) => {}
            Ok(height) => {
                for _ in 0..3 {
                    self.short = self.waiting.push(height - 1).is_err() || self.short;
                }
            }
            Err(Lost) => self.lost += 1,
        }
    }
}

// A tree of this height, by so many workers: how many nodes were given, told and lost.
fn grown<R: Threads + Wait + Sync>(
    rt: &R,
    alloc: Global,
    height: u32,
    workers: Option<usize>,
    room: u32,
) -> Result<(u64, u64, u64), Fail> {
    let mut waiting = Vec::new(alloc);
    waiting.push(height)?;
    let tree = Tree {
        waiting,
        given: 0,
        told: 0,
        lost: 0,
        short: false,
    };
    let fed = fed::<R, Node, Tree>(rt, alloc, tree, workers, room)?;
    if fed.feed.short {
        return Err(Fail::from(Refusal::Memory));
    }
    Ok((fed.feed.given, fed.feed.told, fed.feed.lost))
}

/// Tasks that make further tasks, as a tree: each node is told once, and those of a failed one are left out alone.
#[test]
fn trees_of_tasks_are_told_once(rt: HostRuntime) -> Result<(), Fail> {
    for (workers, room) in [(Some(0), 1), (Some(2), 1), (Some(3), 5), (None, 64)] {
        let found = grown(&rt, rt.alloc(), 2, workers, room)?;
        same(&rt, found, (13, 13, 0), (workers, room));
        // Height 8: 3^0 + .. + 3^5 nodes, of which the lowest ones, of height 3, fail.
        let found = grown(&rt, rt.alloc(), 8, workers, room)?;
        same(&rt, found, (364, 364, 243), (workers, room));
    }
    Ok(())
}
