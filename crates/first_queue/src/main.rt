//! A queue of jobs, one that is pushed, and the same one popped.
#![tactic(auto)]

ghost use Rattle.std.specs.List.{All};

use carriers::{Carrier, ItemOf};
use node_arena::Role;
use picked::ValueQueue;
use std::io;

#[derive(Debug, Drop)]
struct Job {
    id: u32,
    pages: u32,
}

fn main(rt: HostRuntime) -> io::Result<()> {
    match ValueQueue::new(rt.alloc(), 1024, &[Role::Giver, Role::Taker]) {
        Ok((queue, seats)) => println!(rt; "{:?}", pass(&queue, seats)),
        Err(_) => println!(rt; "no memory"),
    }
}

// Pushes by the last seat but one, pops by the last.
fn pass<Q: Carrier<Item = Job>>(queue: &Q, mut seats: Vec<Q::Seat>) -> Option<ItemOf<Job>>
    requires { All (Q.is_seat queue.now) seats.items }
{
    let mut taker = seats.pop()?;
    let mut giver = seats.pop()?;
    if queue.may_push(&giver) && queue.may_pop(&taker) {
        queue.try_push(&mut giver, Job { id: 7, pages: 3 }, 2).ok()?;
        return queue.try_pop(&mut taker, 2).ok()?;
    }
    None
}
