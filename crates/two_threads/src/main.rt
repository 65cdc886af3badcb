//! Two threads and one queue: one pushes the numbers from 1 on, the other takes them, in that order.
#![tactic(auto)]

mod meets;
mod new_queues;
mod threads;

use crate::new_queues::{met, on_ms_queue, on_two_lock_queue};
use history::{Refusal, Taken};
use std::io;

/// How many numbers are pushed.
const MOST: u64 = 1000;

fn main(rt: HostRuntime) -> io::Result<()> {
    tell(&rt, "non-blocking", on_ms_queue(&rt, rt.alloc(), MOST))?;
    tell(&rt, "two-lock", on_two_lock_queue(&rt, rt.alloc(), MOST))?;
    tell_met(&rt)
}

// Prints what a pop takes whose seat met the pusher's before.
fn tell_met(rt: &HostRuntime) -> io::Result<()> {
    match met(rt.alloc()) {
        Ok(taken) => println!(rt; "met: {}", number(taken.as_ref())),
        Err(refusal) => println!(rt; "met: {refusal}"),
    }
}

// Prints how many values were taken from a queue, the first and the last; or why they weren't.
fn tell(rt: &HostRuntime, queue: &str, taken: Result<Vec<Taken>, Refusal>) -> io::Result<()> {
    let values = match taken {
        Ok(values) => values,
        Err(refusal) => return println!(rt; "{queue}: {refusal}"),
    };
    let (first, last) = (number(values.first()), number(values.last()));
    println!(rt; "{queue}: {} values, from {first} to {last}", values.len())
}

// The number of a value; 0 where there is none.
fn number(value: Option<&Taken>) -> u64 {
    value.map_or(0, |taken| taken.body.number())
}
