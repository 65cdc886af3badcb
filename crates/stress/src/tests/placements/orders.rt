//! Whether a small history has an order, by trying all: written apart from what is tested.
use history::{Op, Refusal, Reply, Stamped, Taken};
use std::alloc::{AllocError, Global};

/// Whether the operations have an order that keeps time, in which a queue gives each reply that was told.
pub fn has_order(alloc: Global, history: &[Stamped]) -> Result<bool, AllocError> {
    let done = vec![in alloc; false; history.len()]?;
    goes_on(alloc, history, &done, &[], history.len())
}

/// Whether the operations at these places, one after another, are such an order.
pub fn is_order(alloc: Global, history: &[Stamped], order: &[usize]) -> Result<bool, AllocError> {
    let mut done = vec![in alloc; false; history.len()]?;
    let mut queue = Vec::new(alloc);
    for index in order {
        let Some(operation) = history.get(*index) else {
            return Ok(false);
        };
        let is_next = !is_done(&done, *index) && may_be_next(history, &done, operation);
        if !is_next || !may_answer(operation, queue.is_empty(), is_shut(history, &done)) {
            return Ok(false);
        }
        match after(alloc, operation, &queue)? {
            Some(values) => queue = values,
            None => return Ok(false),
        }
        done = with(alloc, &done, *index)?;
    }
    Ok(is_complete(history, &done))
}

// Whether those that aren't done have one, from a queue of these values, with so many steps left.
fn goes_on(
    alloc: Global,
    history: &[Stamped],
    done: &[bool],
    queue: &[Taken],
    left: usize,
) -> Result<bool, AllocError> {
    if left == 0 || is_complete(history, done) {
        return Ok(is_complete(history, done));
    }
    for (index, operation) in history.iter().enumerate() {
        if is_done(done, index) || !may_be_next(history, done, operation) {
            continue;
        }
        if !may_answer(operation, queue.is_empty(), is_shut(history, done)) {
            continue;
        }
        if let Some(queue) = after(alloc, operation, queue)? {
            let more = with(alloc, done, index)?;
            if goes_on(alloc, history, &more, &queue, left - 1)? {
                return Ok(true);
            }
        }
    }
    Ok(false)
}

fn is_done(done: &[bool], index: usize) -> bool {
    done.get(index).copied().unwrap_or(true)
}

// Whether a shut is done that wasn't refused.
fn is_shut(history: &[Stamped], done: &[bool]) -> bool {
    for (index, operation) in history.iter().enumerate() {
        let is_refused = matches!(operation.reply, Some(Reply::Refused(_)));
        if matches!(operation.op, Op::Shut) && !is_refused && is_done(done, index) {
            return true;
        }
    }
    false
}

// Whether each operation is done that was told a reply.
fn is_complete(history: &[Stamped], done: &[bool]) -> bool {
    for (index, operation) in history.iter().enumerate() {
        if operation.reply.is_some() && !is_done(done, index) {
            return false;
        }
    }
    true
}

// Whether no operation that isn't done ended before this one began.
fn may_be_next(history: &[Stamped], done: &[bool], operation: &Stamped) -> bool {
    for (index, other) in history.iter().enumerate() {
        if let Some(last) = other.last {
            if last < operation.first && !is_done(done, index) {
                return false;
            }
        }
    }
    true
}

fn with(alloc: Global, done: &[bool], index: usize) -> Result<Vec<bool>, AllocError> {
    let mut more = done.to_vec(alloc)?;
    if let Some(one) = more.get_mut(index) {
        *one = true;
    }
    Ok(more)
}

// Whether a queue, which is shut or isn't, may answer so, its values aside.
fn may_answer(operation: &Stamped, is_empty: bool, is_shut: bool) -> bool {
    let is_refused = matches!(operation.reply, Some(Reply::Refused(_)));
    let told_shut = matches!(operation.reply, Some(Reply::Refused(Refusal::Closed)));
    if is_refused && !told_shut {
        return true;
    }
    let told_empty = matches!(operation.reply, Some(Reply::Empty));
    match operation.op {
        Op::Enq(_) | Op::Shut => told_shut == is_shut,
        Op::Deq if told_shut => is_shut && is_empty,
        Op::Deq => !told_empty || !is_shut,
    }
}

// The queue after an operation; none where it doesn't give the reply that was told.
fn after(
    alloc: Global,
    operation: &Stamped,
    queue: &[Taken],
) -> Result<Option<Vec<Taken>>, AllocError> {
    let mut after = queue.to_vec(alloc)?;
    let gives = match (operation.op, operation.reply) {
        (_, Some(Reply::Refused(_))) => true,
        (Op::Enq(body), _) => {
            let from = operation.actor;
            after.push(Taken { from, body })?;
            true
        }
        (Op::Deq, told) if after.is_empty() => told.is_none() || told == Some(Reply::Empty),
        (Op::Shut, _) => true,
        (Op::Deq, told) => {
            let front = Reply::Value(after.remove(0));
            told.is_none() || told == Some(front)
        }
    };
    if gives { Ok(Some(after)) } else { Ok(None) }
}
