//! Senders and receivers that sleep, over each queue: who sleeps is woken, all values come, and the queue
//! ends with its last handle of a side.
use super::sides::{AMPLE, SEVEN, numbers, values};
use super::stories::{ends_by_receivers, hands_all_over, wakes_receivers, wakes_senders};
use nonblocking::MsQueue;
use std::alloc::Global;
use std::test::Fail;
use two_lock::TwoLockQueue;
use value_queue::{MsValueQueue, TwoLockValueQueue};

// Tells a story of the senders and receivers of each queue of so many nodes: those of numbers, and those of texts.
macro_rules! over_each {
    ($story:ident, $rt:expr, $nodes:expr) => {{
        let alloc = $rt.alloc();
        $story($rt, alloc, numbers(alloc, TwoLockQueue::new(alloc, $nodes, AMPLE, &SEVEN)?)?)?;
        $story($rt, alloc, numbers(alloc, MsQueue::new(alloc, $nodes, AMPLE, &SEVEN)?)?)?;
        let made = TwoLockValueQueue::<String>::new(alloc, $nodes, AMPLE, &SEVEN)?;
        $story($rt, alloc, values(alloc, made)?)?;
        let made = MsValueQueue::<String>::new(alloc, $nodes, AMPLE, &SEVEN)?;
        $story($rt, alloc, values(alloc, made)?)
    }};
}

#[test]
fn receivers_are_woken(rt: HostRuntime) -> Result<(), Fail> {
    over_each!(wakes_receivers, &rt, 8)
}

#[test]
fn senders_are_woken(rt: HostRuntime) -> Result<(), Fail> {
    over_each!(wakes_senders, &rt, 2)
}

#[test]
fn the_last_receiver_ends_it(rt: HostRuntime) -> Result<(), Fail> {
    over_each!(ends_by_receivers, &rt, 8)
}

/// Numbers, texts and boxes: each comes to one receiver, and to each those of a sender in order, until the
/// last sender goes.
#[test]
fn the_last_sender_ends_it(rt: HostRuntime) -> Result<(), Fail> {
    over_each!(hands_all_over, &rt, 8)?;
    let made = MsValueQueue::<Box<u64, Global>>::new(rt.alloc(), 4, AMPLE, &SEVEN)?;
    hands_all_over(&rt, rt.alloc(), values(rt.alloc(), made)?)
}
