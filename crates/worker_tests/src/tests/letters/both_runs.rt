//! Letters over either queue: runs that both make alike.
use super::letters::{a_loss_is_told_from_then_on, letters_come_in_the_order_sent};
use super::shut_offices::a_shut_ends_an_office;
use super::sleepers::{a_receiver_is_woken, a_sender_is_woken};
use crate::tests::comparisons::same;
use crate::{Load, posted};
use arena_queue::Algorithm;
use history::Refusal;
use mail_engine::mail_queue;
use nonblocking::NonBlockingAlgorithm;
use std::alloc::Global;
use std::process::Abort;
use std::rt::Clock;
use std::sync::Wait;
use std::test::Fail;
use std::thread::Threads;
use two_lock::TwoLockAlgorithm;

/// How many senders there are, how many letters each sends, and how many come of all.
const LOADS: [(u16, usize, usize); 6] = [
    (4, 1000, 4000),
    (1, 1, 1),
    (2, 50, 100),
    (64, 20, 1280),
    (3, 0, 0),
    (0, 0, 0),
];

/// The greatest count of all.
pub const GREATEST_COUNT: u64 = 1_099_511_627_775;

// A run over each queue of seven nodes, with two senders.
macro_rules! over_both {
    ($rt:ident, $run:ident) => {{
        let (queue, seats, receiver) = mail_queue::<TwoLockAlgorithm>($rt.alloc(), 7, 100, 2)?;
        $run(&$rt, $rt.alloc(), queue, seats, receiver)?;
        let (queue, seats, receiver) = mail_queue::<NonBlockingAlgorithm>($rt.alloc(), 7, 100, 2)?;
        $run(&$rt, $rt.alloc(), queue, seats, receiver)?;
        Ok(())
    }};
}

/// Three letters of two senders come in the order in which they were sent; then there is none.
#[test]
fn in_the_order_sent(rt: HostRuntime) -> Result<(), Fail> {
    over_both!(rt, letters_come_in_the_order_sent)
}

/// After a shut nothing is sent; what was sent before is taken, in order, and then each take finds the queue
/// shut.
#[test]
fn what_was_sent_is_taken_after_a_shut(rt: HostRuntime) -> Result<(), Fail> {
    over_both!(rt, a_shut_ends_an_office)
}

/// A body that is no letter's index is lost, and then each take is.
#[test]
fn lost_from_then_on(rt: HostRuntime) -> Result<(), Fail> {
    over_both!(rt, a_loss_is_told_from_then_on)
}

/// Posts the letters of so many senders, on 4,006 nodes: how many came, where each sender's came in order,
/// and whether the queue was then shut.
pub fn came<A: Algorithm<24> + Sync, R: Threads + Wait + Clock + Sync>(
    rt: &R,
    alloc: Global,
    senders: u16,
    load: Load,
) -> Result<(Option<usize>, bool), Refusal> {
    let (queue, seats, receiver) = mail_queue::<A>(alloc, 4006, GREATEST_COUNT, senders)?;
    let came = posted(rt, alloc, queue, seats, receiver, load)?;
    Ok((came.in_order, came.shut))
}

fn come_in_order<A: Algorithm<24> + Sync, R: AllocGlobal + Abort + Threads + Wait + Clock + Sync>(
    rt: &R,
) -> Result<(), Fail> {
    for (senders, count, all) in &LOADS {
        let load = Load {
            first: *count,
            others: *count,
        };
        let found = came::<A, R>(rt, rt.alloc(), *senders, load);
        let tried = format_args!("{senders} senders of {count} letters");
        same(rt, found, Ok((Some(*all), *senders > 0)), tried);
    }
    Ok(())
}

/// All letters come, each sender's in their order, also where there are no letters, or no senders; and the
/// queue is shut afterwards, where there are senders. Mutants, by hand, that fail here: a `post` in which the
/// first sender that ends shuts; one that stops at the first take that finds none.
#[test]
fn each_senders_letters_come_in_order(rt: HostRuntime) -> Result<(), Fail> {
    come_in_order::<TwoLockAlgorithm, _>(&rt)?;
    come_in_order::<NonBlockingAlgorithm, _>(&rt)
}

fn are_woken<A: Algorithm<24> + Sync, R: AllocGlobal + Abort + Threads + Wait + Clock + Sync>(
    rt: &R,
) -> Result<(), Fail> {
    let (queue, seats, receiver) = mail_queue::<A>(rt.alloc(), 4, 100, 1)?;
    a_receiver_is_woken(rt, rt.alloc(), queue, seats, receiver)?;
    let (queue, seats, receiver) = mail_queue::<A>(rt.alloc(), 2, 100, 1)?;
    a_sender_is_woken(rt, rt.alloc(), queue, seats, receiver)?;
    Ok(())
}

/// A receiver is woken by a letter and by a shut, and a sender beside a full queue by a take.
/// Mutants, by hand, with which this doesn't end: a push, a pop or a shut that wakes nobody.
#[test]
fn who_sleeps_is_woken(rt: HostRuntime) -> Result<(), Fail> {
    are_woken::<TwoLockAlgorithm, _>(&rt)?;
    are_woken::<NonBlockingAlgorithm, _>(&rt)
}

fn come_through_a_small_queue<
    A: Algorithm<24> + Sync,
    R: AllocGlobal + Abort + Threads + Wait + Clock + Sync,
>(rt: &R) -> Result<(), Fail> {
    let (queue, seats, receiver) = mail_queue::<A>(rt.alloc(), 2, GREATEST_COUNT, 4)?;
    let load = Load {
        first: 200,
        others: 200,
    };
    let came = posted(rt, rt.alloc(), queue, seats, receiver, load)?;
    same(rt, (came.in_order, came.shut), (Some(800), true), "");
    Ok(())
}

/// All letters come through a queue with room for one.
#[test]
fn letters_come_through_a_small_queue(rt: HostRuntime) -> Result<(), Fail> {
    come_through_a_small_queue::<TwoLockAlgorithm, _>(&rt)?;
    come_through_a_small_queue::<NonBlockingAlgorithm, _>(&rt)
}
