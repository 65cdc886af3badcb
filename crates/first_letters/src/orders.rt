//! Orders that are sent and read.
use history::Refusal;
use picked::ValueQueue;
use post_office::PostOffice;
use shared_queue::{Receiver, Sender};
use std::alloc::Global;
use std::sync::Wait;
use std::thread::{Threads, join};

/// A dish for a table.
#[derive(Debug, Drop)]
pub struct Order {
    pub table: u32,
    pub dish: u32,
}

/// The queue in which orders wait.
pub type Orders = ValueQueue<Order>;

/// Two waiters send a hundred orders each, and a cook reads them, each in a thread of its own; how many orders were read.
pub fn serve<R: Threads + Wait + Sync>(rt: &R, alloc: Global) -> Result<u32, Refusal> {
    let (_office, mut waiters, mut cooks) = PostOffice::open(alloc, 16, 2, 1)?;
    let (Some(one), Some(other), Some(cook)) = (waiters.pop(), waiters.pop(), cooks.pop()) else {
        return Err(Refusal::BadSize);
    };
    let (_, read) = join(
        rt,
        || join(rt, || sends(rt, one, 1), || sends(rt, other, 2)),
        || reads(rt, cook),
    );
    Ok(read)
}

// Sends the orders of a table, and goes.
fn sends<R: Wait>(rt: &R, mut waiter: Sender<Orders>, table: u32) {
    for dish in 0..100 {
        if waiter.send(rt, Order { table, dish }).is_err() {
            return;
        }
    }
}

// Reads orders until the last waiter has gone; how many they were.
fn reads<R: Wait>(rt: &R, mut cook: Receiver<Orders>) -> u32 {
    let mut read = 0u32;
    for _ in rt.forever() {
        let Ok(Some(_)) = cook.recv_or_end(rt) else {
            break;
        };
        read = read.wrapping_add(1);
    }
    read
}
