//! What each thread does.
ghost use Rattle.std.specs.Thread.{IsSync};

use crate::line::Line;
use crate::queues::{FIRST_GIVER, FIRST_TAKER, LAST_GIVER, LAST_TAKER, Renewable, SHUTTER};
use history::{Refusal, Taken};
use std::alloc::Global;
use std::sync::Wait;
use std::thread::{Threads, join};

/// How many numbers each giver pushes, from 1 on.
pub const EACH: u64 = 20_000;

// Pushes 1 and so on. Where a queue refuses, the thread goes on in the one behind it.
fn give_all<R: Wait, Q: Renewable>(rt: &R, line: &Line<Q>, thread: usize) -> Result<(), Refusal> {
    let mut first = 1;
    for number in 0..usize::MAX {
        let Some(mut place) = line.place(rt, number, thread) else {
            return Err(Refusal::Lost);
        };
        match place.give(rt, first, EACH + 1) {
            Ok(()) => return Ok(()),
            Err((at, Refusal::NoNode | Refusal::WornOut(_) | Refusal::Closed)) => first = at,
            Err((_, refusal)) => return Err(refusal),
        }
        // The next queue is there before this one is shut: who finds this one shut finds the next one.
        line.link(rt, number + 1)?;
        place.shut(rt)?;
    }
    Err(Refusal::Lost)
}

// Takes the values of each queue, up to one that is shut and has none behind it.
fn take_all<R: Wait, Q: Renewable>(
    rt: &R,
    alloc: Global,
    line: &Line<Q>,
    thread: usize,
) -> Result<Vec<Taken>, Refusal> {
    let mut values = Vec::new(alloc);
    for number in 0..usize::MAX {
        let Some(mut place) = line.place(rt, number, thread) else {
            return Ok(values);
        };
        place.take(rt, &mut values)?;
    }
    Err(Refusal::Lost)
}

// Shuts each queue that isn't, once nobody pushes any more, so that who takes comes to an end.
fn shut_all<R: Wait, Q: Renewable>(rt: &R, line: &Line<Q>) -> Result<(), Refusal> {
    for number in 0..usize::MAX {
        let Some(mut place) = line.place(rt, number, SHUTTER) else {
            return Ok(());
        };
        place.shut(rt)?;
    }
    Err(Refusal::Lost)
}

// Two threads push, and then the last queue is shut, also where one of them was refused.
fn give_both<R: Threads + Wait + Sync, Q: Renewable + Send + Sync>(
    rt: &R,
    line: &Line<Q>,
) -> Result<(), Refusal> {
    let (one, other) = join(
        rt,
        || give_all(rt, line, FIRST_GIVER),
        || give_all(rt, line, LAST_GIVER),
    );
    shut_all(rt, line)?;
    one?;
    other
}

// Two threads take.
fn take_both<R: Threads + Wait + Sync, Q: Renewable + Send + Sync>(
    rt: &R,
    alloc: Global,
    line: &Line<Q>,
) -> (Result<Vec<Taken>, Refusal>, Result<Vec<Taken>, Refusal>) {
    join(
        rt,
        || take_all(rt, alloc, line, FIRST_TAKER),
        || take_all(rt, alloc, line, LAST_TAKER),
    )
}

/// The values that two threads take while two others push.
///
/// Refusals: `Memory`. Takes memory for the queues and the values, starts threads, and waits.
pub fn run<R: Threads + Wait + Sync, Q: Renewable + Send + Sync>(
    rt: &R,
    alloc: Global,
) -> Result<(Vec<Taken>, Vec<Taken>), Refusal> {
    let line: Line<Q> = Line::new(alloc);
    line.link(rt, 0)?;
    let ((one, other), given) = join(rt, || take_both(rt, alloc, &line), || give_both(rt, &line));
    given?;
    Ok((one?, other?))
}
