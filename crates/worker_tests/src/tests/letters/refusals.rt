//! Letters that are refused or lost, most of them over the two-lock queue.
use super::both_runs::{GREATEST_COUNT, came};
use super::letters::take_last;
use super::losses::{
    a_letter_of_no_task_is_lost, a_post_in_a_shut_office_is_lost,
    tasks_in_another_order_lose_a_letter,
};
use super::plans::{Late, Trouble, WornHead, WornTail};
use super::shut_offices::a_worn_tail_refuses_the_shut_of_an_office;
use crate::tests::comparisons::same;
use crate::{Came, Load, posted};
use history::{Refusal, WornWord};
use mail_engine::mail_queue;
use mock_queues::{Plan, Planned};
use nonblocking::NonBlockingAlgorithm;
use std::alloc::Global;
use std::rt::Clock;
use std::sync::Wait;
use std::test::Fail;
use std::thread::Threads;
use two_lock::TwoLockAlgorithm;

/// How often sender 1 and sender 2 try to be the first.
const TRIES: u32 = 100;

/// Where one allocation is refused, the answer is the usual one or `Memory`, and the next post gives all
/// letters.
#[test]
fn a_refused_allocation_is_told_once(rt: HostRuntime) -> Result<(), Fail> {
    let load = Load {
        first: 2,
        others: 2,
    };
    let found = match came::<TwoLockAlgorithm, _>(&rt, rt.alloc(), 2, load) {
        Err(Refusal::Memory) => came::<TwoLockAlgorithm, _>(&rt, rt.alloc(), 2, load),
        found => found,
    };
    same(&rt, found, Ok((Some(4), true)), "");
    Ok(())
}

// Posts two letters of sender 1 and one of sender 2 on a queue in trouble, perhaps behind a body that is no
// letter's index.
fn troubled<R: Threads + Wait + Clock + Sync>(
    rt: &R,
    alloc: Global,
    trouble: Trouble,
    stray: bool,
) -> Result<Option<usize>, Refusal> {
    let (queue, mut seats, receiver) = mail_queue::<TwoLockAlgorithm>(
        alloc,
        16,
        GREATEST_COUNT,
        3,
    )?;
    let queue = Planned::new(queue, trouble);
    take_last(&queue, &mut seats, stray)?;
    let load = Load {
        first: 2,
        others: 1,
    };
    Ok(posted(rt, alloc, queue, seats, receiver, load)?.in_order)
}

/// The receiver's refusal is answered, and not a sender's: that of a pop, and that a letter is lost.
#[test]
fn the_receivers_refusal_comes_first(rt: HostRuntime) -> Result<(), Fail> {
    let worn = troubled(&rt, rt.alloc(), Trouble::new(false, true), false);
    let lost = troubled(&rt, rt.alloc(), Trouble::new(false, false), true);
    let head = Refusal::WornOut(WornWord::Head);
    same(&rt, (worn, lost), (Err(head), Err(Refusal::Lost)), "");
    Ok(())
}

// Posts so many letters of each of so many senders over a queue of so many nodes that goes by this plan.
fn planned<R: Threads + Wait + Clock + Sync, P: Plan + Sync + Drop>(
    rt: &R,
    alloc: Global,
    (nodes, senders): (u32, u16),
    plan: P,
    count: usize,
) -> Result<Came, Refusal> {
    let (queue, seats, receiver) = mail_queue::<TwoLockAlgorithm>(
        alloc,
        nodes,
        GREATEST_COUNT,
        senders,
    )?;
    let load = Load {
        first: count,
        others: count,
    };
    posted(rt, alloc, Planned::new(queue, plan), seats, receiver, load)
}

/// A letter that is sent just after a take found none comes: whether its sender had ended is looked at before
/// the take. A mutant, by hand: a `post` that asks only after the take whether all senders had ended fails
/// here.
#[test]
fn a_letter_comes_that_is_sent_after_a_take_found_none(rt: HostRuntime) -> Result<(), Fail> {
    let came = planned(&rt, rt.alloc(), (4, 1), Late::new(), 1)?;
    same(&rt, came.in_order, Some(1), "");
    Ok(())
}

/// Where Tail is worn out behind the first letter, the shut is refused too: the receiver ends by the count of
/// those that ended, and the first sender's refusal is answered. Mutants, by hand, with which this doesn't
/// end: a receiver that ends only where the queue is shut or all letters are there; a last sender that wakes
/// nobody where its shut is refused.
#[test]
fn a_post_ends_where_its_shut_is_refused(rt: HostRuntime) -> Result<(), Fail> {
    let found = planned(&rt, rt.alloc(), (6, 2), WornTail::new(), 2).err();
    same(&rt, found, Some(Refusal::WornOut(WornWord::Tail)), "");
    Ok(())
}

/// Senders that sleep beside a full queue end where their receiver is refused, whose refusal is answered.
/// Mutants, by hand, with which this doesn't end: a receiver that tells nobody that it has ended, or wakes
/// nobody then.
#[test]
fn a_post_ends_where_its_receiver_is_refused(rt: HostRuntime) -> Result<(), Fail> {
    let found = planned(&rt, rt.alloc(), (6, 2), WornHead, 20).err();
    same(&rt, found, Some(Refusal::WornOut(WornWord::Head)), "");
    Ok(())
}

/// A letter that isn't the next one of its sender's is lost, or that is of no task; so are those of an office
/// that was shut before.
#[test]
fn letters_that_are_not_due_are_lost(rt: HostRuntime) -> Result<(), Fail> {
    let (queue, seats, receiver) = mail_queue::<TwoLockAlgorithm>(rt.alloc(), 7, 100, 2)?;
    tasks_in_another_order_lose_a_letter(&rt, rt.alloc(), queue, seats, receiver)?;
    let (queue, seats, receiver) = mail_queue::<TwoLockAlgorithm>(rt.alloc(), 7, 100, 2)?;
    a_letter_of_no_task_is_lost(&rt, rt.alloc(), queue, seats, receiver)?;
    let (queue, seats, receiver) = mail_queue::<TwoLockAlgorithm>(rt.alloc(), 7, 100, 2)?;
    a_post_in_a_shut_office_is_lost(&rt, rt.alloc(), queue, seats, receiver)?;
    Ok(())
}

// Whether `Free` was answered before so many other answers.
fn free_is_answered<R: Threads + Wait + Clock + Sync>(
    rt: &R,
    alloc: Global,
) -> Result<bool, Refusal> {
    for _ in 0..TRIES {
        match troubled(rt, alloc, Trouble::new(true, false), false) {
            Err(Refusal::WornOut(WornWord::Free)) => return Ok(true),
            Err(Refusal::WornOut(WornWord::Tail)) => {}
            Err(refusal) => return Err(refusal),
            Ok(_) => return Ok(false),
        }
    }
    Ok(false)
}

/// Of two senders that are refused, sender 1 is answered, though it was refused after sender 2.
///
/// The first push is sent, and waits for the second, which is another sender's and is refused by `Tail`.
/// Where sender 1 was the first, its second letter is then refused by `Free`. Where it was not, it alone is
/// refused, and they try again.
#[test]
fn the_first_senders_refusal_is_answered(rt: HostRuntime) -> Result<(), Fail> {
    let found = free_is_answered(&rt, rt.alloc());
    same(&rt, found, Ok(true), "");
    Ok(())
}

/// Tail is worn out by the first letter, and lags behind the second one: a shut is refused, by either call.
#[test]
fn a_worn_tail_refuses_a_shut(rt: HostRuntime) -> Result<(), Fail> {
    let (queue, seats, receiver) = mail_queue::<NonBlockingAlgorithm>(rt.alloc(), 4, 1, 1)?;
    a_worn_tail_refuses_the_shut_of_an_office(&rt, rt.alloc(), queue, seats, receiver)?;
    Ok(())
}
