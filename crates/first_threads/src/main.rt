//! Two threads push onto one queue, and a third one pops.
#![tactic(auto)]

mod threads;

use crate::threads::{run, three_of};
use counted_ref::MOST_COUNT;
use node_arena::Role;
use nonblocking::MsQueue;
use std::io;

/// The nodes of the queue: room for all numbers, the dummy, and one node for each seat.
const NODES: u32 = 2004;

fn main(rt: HostRuntime) -> io::Result<()> {
    let roles = [Role::Giver, Role::Giver, Role::Taker];
    let Ok((queue, seats)) = MsQueue::new(rt.alloc(), NODES, MOST_COUNT, &roles) else {
        return println!(rt; "no memory");
    };
    let Some((one, other, taker)) = three_of(&queue, seats) else {
        return println!(rt; "no seats");
    };
    println!(rt; "{}", run(&rt, &queue, one, other, taker))
}
