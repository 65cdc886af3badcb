//! Queues that wear out, each with a larger one behind it: two threads push, two take, and nothing is lost.
#![tactic(auto)]

mod deeds;
mod line;
mod places;
mod queues;
mod threads;

use crate::queues::Renewable;
use crate::threads::{EACH, run};
use history::{Refusal, Taken};
use nonblocking::MsQueue;
use std::io;
use two_lock::TwoLockQueue;

/// How many numbers both givers push.
const ALL: usize = 40_000;

fn main(rt: HostRuntime) -> io::Result<()> {
    tell(&rt, "non-blocking", run::<_, MsQueue>(&rt, rt.alloc()))?;
    tell(&rt, "two-lock", run::<_, TwoLockQueue>(&rt, rt.alloc()))
}

// Prints how many values were taken, and whether they are what was pushed.
fn tell(
    rt: &HostRuntime,
    queue: &str,
    taken: Result<(Vec<Taken>, Vec<Taken>), Refusal>,
) -> io::Result<()> {
    let (one, other) = match taken {
        Ok(taken) => taken,
        Err(refusal) => return println!(rt; "{queue}: {refusal}"),
    };
    let count = one.len().wrapping_add(other.len());
    let once = are_each_once(&one, &other);
    let rise = rises(&one) && rises(&other);
    println!(rt; "{queue}: {count} values, each once: {once}, each giver's in order: {rise}")
}

// Whether the numbers of each giver rise.
fn rises(values: &[Taken]) -> bool {
    let mut last = [0u64; 3];
    for taken in values {
        let (from, number) = (usize::from(taken.from), taken.body.number());
        if from >= 3 || number <= last[from] {
            return false;
        }
        last[from] = number;
    }
    true
}

// Whether both lists together have each number of each giver just once.
fn are_each_once(one: &[Taken], other: &[Taken]) -> bool {
    let mut found = [false; ALL];
    for taken in one.iter().chain(other.iter()) {
        let place = usize::from(taken.from)
            .wrapping_sub(1)
            .wrapping_mul(EACH as usize)
            .wrapping_add(taken.body.number() as usize)
            .wrapping_sub(1);
        if place >= ALL || found[place] {
            return false;
        }
        found[place] = true;
    }
    one.len().wrapping_add(other.len()) == ALL
}
