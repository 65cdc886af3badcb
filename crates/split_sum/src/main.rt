//! Adds the squares of many numbers by tasks that make further tasks: a range of numbers is split until it is short.
#![tactic(auto)]

mod ranges;
mod sums;

use crate::ranges::Range;
use crate::sums::{Failure, total};
use std::io;

fn main(rt: HostRuntime) -> io::Result<()> {
    let first = 1;
    for many in [0, 3, 100_000, 10_000_000] {
        match total(&rt, rt.alloc(), Range { first, many }) {
            Ok(total) => println!(rt; "the squares of 1 to {many} are {total} together")?,
            Err(Failure::NoRoom) => println!(rt;
                "the squares of 1 to {many} have no room in 64 bits"
            )?,
            Err(Failure::Memory) => println!(rt; "no memory")?,
        }
    }
    Ok(())
}
