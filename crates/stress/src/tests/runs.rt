//! Four threads on one queue, and what came of them when they have ended.
use super::ends::Ending;
use super::threads::{Done, all_of, in_threads, pops, pushes};
use crate::loads::Load;
use crate::seats::jobs_of;
use crate::tallies::Tally;
use crate::works::Work;
use std::alloc::Global;
use std::sync::Wait;
use std::thread::Threads;

/// The numbers of the pushes that look for room come after those of all rounds.
const LATE: u64 = 549_755_813_888;

/// What is asked of threads.
#[derive(Clone, Copy)]
pub struct Run {
    pub works: &'static [Work; 4],
    /// How many times each thread does its work.
    pub count: u64,
    /// Whether the seats keep their nodes; of a ring it says nothing.
    pub keeps: bool,
    /// Once the threads have ended, one seat takes what is left, and all push until they are refused, so many times at most;
    /// none where all is left as it is.
    pub most: Option<u64>,
}

/// What came of it.
#[derive(Clone, Copy, Debug, PartialEq, Eq)]
pub struct Came {
    /// How many values were pushed.
    pub pushed: u64,
    /// For how many values the last pushes found room.
    pub found: u64,
    /// Whether the values taken and those left are just those pushed, by each thread each sender's in order and as they were
    /// made; whether the queue counted as the threads did, and told that these seats made all calls.
    pub is_right: bool,
}

// Takes what is left by the first of these seats, and has all of them push until they are refused; how many values were pushed.
fn looks<R: Wait, T: Load, Q: Ending<Item = T>>(
    rt: &R,
    alloc: Global,
    queue: &Q,
    done: &mut [Done<Q::Seat>],
    most: u64,
    last: &mut Tally,
) -> u64 {
    if let Some(first) = done.first_mut() {
        for _ in 0..most {
            if pops(rt, queue, &mut first.seat, false, false, last) != Ok(true) {
                break;
            }
        }
    }
    let mut found = 0;
    for it in done {
        for index in 0..most {
            let (number, tally) = (LATE + index, &mut it.tally);
            if pushes(rt, alloc, queue, &mut it.seat, it.from, number, tally).is_err() {
                break;
            }
            found += 1;
        }
    }
    found
}

/// A run over a queue, by the last of these seats, after which the queue is ended; none where memory is refused.
pub fn outcome<R: Threads + Wait + Sync, T: Load, Q: Ending<Item = T> + Sync + Drop>(
    rt: &R,
    alloc: Global,
    queue: Q,
    seats: Vec<Q::Seat>,
    run: Run,
) -> Option<Came> {
    let jobs = jobs_of(alloc, &queue, seats, run.works, run.keeps)?;
    let mut done = in_threads(rt, alloc, &queue, jobs, run.count)?;
    let mut last = Tally::new();
    let found = match run.most {
        Some(most) => looks(rt, alloc, &queue, &mut done, most, &mut last),
        None => 0,
    };
    let (seats, all) = all_of(alloc, done)?;
    let taken = all.with(&last).taken.total();
    let end = queue.end(rt, alloc, seats, &mut last)?;
    let all = all.with(&last);
    let pushed = all.pushed.total();
    let counted = end.taken.is_none() || end.taken == Some(taken);
    Some(Came {
        pushed,
        found,
        is_right: all.is_right(pushed) && counted && end.whole && !end.was_shut,
    })
}
