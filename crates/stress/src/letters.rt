//! Letters of a mailbox over each queue.
use history::Refusal;
use line_table::{Kind, QueueKind};
use mail_engine::{mail_queue, mail_ring};
use node_arena::{MOST_COUNT, MOST_NODE};
use nonblocking::NonBlockingAlgorithm;
use std::alloc::Global;
use std::rt::Clock;
use std::sync::Wait;
use std::thread::Threads;
use two_lock::TwoLockAlgorithm;
use worker_tests::{Came, Load, posted};

// A node for each letter and each sender, and two more; the most there may be, where there are more. A ring is full of as many
// values.
fn nodes_for(senders: u16, letters: usize) -> u32 {
    let senders = usize::from(senders);
    letters
        .saturating_mul(senders)
        .saturating_add(letters)
        .saturating_add(senders)
        .saturating_add(2)
        .min(MOST_NODE as usize) as u32
}

/// What came of so many letters of each of so many senders over a new queue.
pub fn came<R: Threads + Wait + Clock + Sync>(
    rt: &R,
    alloc: Global,
    kind: QueueKind,
    senders: u16,
    letters: usize,
) -> Result<Came, Refusal> {
    let nodes = nodes_for(senders, letters);
    let load = Load {
        first: letters,
        others: letters,
    };
    match kind {
        QueueKind::Linked(Kind::TwoLock) => {
            let (queue, seats, receiver) = mail_queue::<TwoLockAlgorithm>(
                alloc, nodes, MOST_COUNT, senders,
            )?;
            posted(rt, alloc, queue, seats, receiver, load)
        }
        QueueKind::Linked(Kind::NonBlocking) => {
            let (queue, seats, receiver) = mail_queue::<NonBlockingAlgorithm>(
                alloc, nodes, MOST_COUNT, senders,
            )?;
            posted(rt, alloc, queue, seats, receiver, load)
        }
        QueueKind::Ring => {
            let (queue, seats, receiver) = mail_ring(alloc, nodes, senders)?;
            posted(rt, alloc, queue, seats, receiver, load)
        }
    }
}
