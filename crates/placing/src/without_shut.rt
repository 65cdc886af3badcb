//! A history in which the queue is shut, as one in which it isn't.
use crate::known::Known;
use crate::operations::{is_told_shut, shows_shut};
use history::{Op, Refusal, Reply, Stamped};
use std::alloc::{AllocError, Global};

// How many numbers each number becomes, so that what is before a shut, the shut, and what is behind it have room at one.
const NUMBERS: u64 = 4;

/// Whether the queue was shut, or a call was told so.
pub(crate) fn is_shut(history: &[Stamped]) -> bool {
    history
        .iter()
        .any(|operation| shows_shut(operation.reply, operation.op))
}

/// The same operations in a queue that isn't shut: pushes and empty replies end before the last number that the shut may
/// have, and what was told that the queue is shut begins behind it. A pop that was told so found the queue empty.
pub(crate) fn unshut(alloc: Global, history: &[Stamped]) -> Result<Vec<Stamped>, AllocError> {
    let known = Known::of(alloc, history)?;
    let time = latest_shut(history).saturating_mul(NUMBERS);
    let shut = effective(history);
    let mut operations = Vec::new(alloc);
    for (index, operation) in history.iter().enumerate() {
        let is_pushed = operation.reply.is_some() || is_taken(&known, operation);
        operations.push(if shut == Some(index) {
            refused(operation, time.saturating_add(2))
        } else {
            unshut_operation(operation, is_pushed, time)
        })?;
    }
    Ok(operations)
}

// The last number at which the queue may have been shut: by the end of the shut, and of each call that was told so.
fn latest_shut(history: &[Stamped]) -> u64 {
    let mut latest = u64::MAX;
    for operation in history {
        if shows_shut(operation.reply, operation.op) {
            latest = latest.min(operation.last.unwrap_or(latest));
        }
    }
    latest
}

// The shut that took effect: the first one that is done, and else the first of the pending ones to begin.
fn effective(history: &[Stamped]) -> Option<usize> {
    let mut best: Option<(bool, u64, usize)> = None;
    for (index, operation) in history.iter().enumerate() {
        if matches!(operation.op, Op::Shut) && !is_told_shut(operation.reply) {
            let this = (operation.reply.is_none(), operation.first, index);
            best = Some(match best {
                Some(best) => best.min(this),
                None => this,
            });
        }
    }
    Some(best?.2)
}

// Whether an operation pushes a value that a pop was told.
fn is_taken(known: &Known, operation: &Stamped) -> bool {
    match operation.op {
        Op::Enq(body) => !known.is_left(&history::Taken {
            from: operation.actor,
            body,
        }),
        Op::Deq | Op::Shut => false,
    }
}

// An operation that does nothing, at a time.
fn refused(operation: &Stamped, first: u64) -> Stamped {
    let busy = Some(Reply::Refused(Refusal::Busy));
    with(operation, first, Some(u64::MAX), busy)
}

fn with(operation: &Stamped, first: u64, last: Option<u64>, reply: Option<Reply>) -> Stamped {
    Stamped {
        actor: operation.actor,
        op: operation.op,
        first,
        last,
        at: None,
        reply,
    }
}

// What becomes of an operation that isn't the shut, which is at this time; a pending push may be said to be done.
fn unshut_operation(operation: &Stamped, is_pushed: bool, time: u64) -> Stamped {
    let first = operation.first.saturating_mul(NUMBERS);
    let last = match operation.last {
        Some(last) => Some(last.saturating_mul(NUMBERS).saturating_add(3)),
        None => None,
    };
    if is_told_shut(operation.reply) {
        let behind = first.max(time.saturating_add(3));
        return match operation.op {
            Op::Deq => with(operation, behind, last, Some(Reply::Empty)),
            Op::Enq(_) | Op::Shut => refused(operation, behind),
        };
    }
    let before = Some(last.unwrap_or(u64::MAX).min(time.saturating_add(1)));
    match (operation.op, operation.reply) {
        (_, Some(Reply::Refused(_))) => refused(operation, first),
        (Op::Enq(_), _) if is_pushed => with(operation, first, before, Some(Reply::Done)),
        (Op::Deq, Some(Reply::Empty)) => with(operation, first, before, Some(Reply::Empty)),
        (Op::Shut, _) => with(operation, first, None, None),
        (Op::Enq(_) | Op::Deq, _) => with(operation, first, last, operation.reply),
    }
}
