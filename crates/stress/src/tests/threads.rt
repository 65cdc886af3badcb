//! What threads push and take, and count: by seats of one queue, until so much was done.
use crate::loads::{Load, both_of};
use crate::seats::Job;
use crate::tallies::Tally;
use crate::works::{TURNS, Work, push};
use carriers::{Carrier, ItemOf};
use crossbeam_utils::Backoff;
use history::Refusal;
use std::alloc::Global;
use std::sync::Wait;
use std::thread;
use std::thread::Threads;

/// A seat with its sender, and what a thread pushed and took by it.
#[derive(Drop)]
pub struct Done<S: Drop> {
    pub seat: S,
    pub from: u64,
    pub tally: Tally,
}

/// Counts a value that was taken: it tells its sender, which is the one of the seat that pushed it, where that isn't leased.
pub fn takes<T: Load>(tally: &mut Tally, item: &ItemOf<T>, is_leased: bool) {
    let Some(told) = item.value.told() else {
        return tally.keeps(false);
    };
    let (from, number) = both_of(told);
    tally.keeps(is_leased || u64::from(item.from) == from + 1);
    tally.takes(from, number);
}

/// Pushes the value of this number where there is room, and counts it; whether it was pushed.
pub fn pushes<R: Wait, T: Load, Q: Carrier<Item = T>>(
    rt: &R,
    alloc: Global,
    queue: &Q,
    seat: &mut Q::Seat,
    from: u64,
    number: u64,
    tally: &mut Tally,
) -> Result<(), Refusal> {
    let value = T::made(alloc, from, number).ok_or(Refusal::Memory)?;
    queue.push(rt, seat, value)?;
    tally.pushes(from, number);
    Ok(())
}

/// Pops once, or where it waits until there was a value or the queue is at its end, and counts the value.
pub fn pops<R: Wait, T: Load, Q: Carrier<Item = T>>(
    rt: &R,
    queue: &Q,
    seat: &mut Q::Seat,
    waits: bool,
    is_leased: bool,
    tally: &mut Tally,
) -> Result<bool, Refusal> {
    let backoff = Backoff::new();
    for _ in rt.forever() {
        match queue.try_pop(seat, TURNS) {
            Ok(Some(item)) => {
                takes(tally, &item, is_leased);
                return Ok(true);
            }
            Ok(None) if !waits => return Ok(false),
            Ok(None) | Err(Refusal::Busy) => backoff.snooze(),
            Err(refusal) => return Err(refusal),
        }
    }
    unreachable!()
}

/// One thread's work: pairs go on where a call is refused; who only pushes or pops waits, and is not refused.
pub fn rounds<R: Wait, T: Load, Q: Carrier<Item = T>>(
    rt: &R,
    alloc: Global,
    queue: &Q,
    seat: &mut Q::Seat,
    from: u64,
    work: Work,
    count: u64,
    is_leased: bool,
) -> Tally {
    let mut tally = Tally::new();
    for number in 0..count {
        match work {
            Work::Pushes => {
                let pushed = push(rt, alloc, queue, seat, from, number);
                tally.keeps(pushed);
                if pushed {
                    tally.pushes(from, number);
                }
            }
            Work::Pops => {
                let popped = pops(rt, queue, seat, true, is_leased, &mut tally).is_ok();
                tally.keeps(popped);
            }
            _ => {
                let _ = pushes(rt, alloc, queue, seat, from, number, &mut tally);
                let _ = pops(rt, queue, seat, false, is_leased, &mut tally);
            }
        }
    }
    tally
}

/// All of these as one: the seats, and what the threads pushed and took.
pub fn all_of<S: Drop>(alloc: Global, done: Vec<Done<S>>) -> Option<(Vec<S>, Tally)> {
    let mut seats = Vec::new(alloc);
    let mut all = Tally::new();
    for Done { seat, tally, .. } in done {
        seats.push(seat).ok()?;
        all = all.with(&tally);
    }
    Some((seats, all))
}

/// The work of a thread for each of these jobs, each so many times.
pub fn in_threads<R: Threads + Wait + Sync, T: Load, Q: Carrier<Item = T> + Sync>(
    rt: &R,
    alloc: Global,
    queue: &Q,
    jobs: Vec<Job<Q::Seat>>,
    count: u64,
) -> Option<Vec<Done<Q::Seat>>> {
    let done = thread::map_vec(
        rt,
        jobs,
        &|job: Job<Q::Seat>| {
            let Job {
                mut seat,
                from,
                work,
            } = job;
            let tally = rounds(rt, alloc, queue, &mut seat, from, work, count, false);
            Done { seat, from, tally }
        },
    );
    done.ok()
}
