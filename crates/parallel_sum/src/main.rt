//! Adds numbers in a tree of tasks: each level adds them two by two in the threads of a pool, and the next one adds its sums.
#![tactic(auto)]

mod levels;
mod pairs;

use crate::levels::{Failure, total};
use std::io;

/// The numbers are 1 and so on to this one.
const MOST: u64 = 1000;

fn main(rt: HostRuntime) -> io::Result<()> {
    let mut numbers = Vec::new(rt.alloc());
    for number in 0..MOST {
        numbers.push(number + 1)?;
    }
    tell(&rt, total(&rt, rt.alloc(), numbers))?;
    let mut large = Vec::new(rt.alloc());
    for number in [u64::MAX, 1, 2] {
        large.push(number)?;
    }
    tell(&rt, total(&rt, rt.alloc(), large))
}

// Prints a sum, or why there is none.
fn tell(rt: &HostRuntime, total: Result<u64, Failure>) -> io::Result<()> {
    match total {
        Ok(total) => println!(rt; "{total}"),
        Err(Failure::Overflow) => println!(rt; "no room for the sum"),
        Err(Failure::Memory) => println!(rt; "no memory"),
    }
}
