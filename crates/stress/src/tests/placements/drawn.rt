//! Small histories by chance: a run of a queue with times around it, and then perhaps spoiled.
use crate::tests::chance::Chance;
use history::{Body, Op, Refusal, Reply, Stamped, Taken};
use std::alloc::{AllocError, Global};
use std::collections::VecDeque;

/// What histories are made.
#[derive(Clone, Copy, Debug)]
pub struct Kind {
    /// They have fewer operations than this.
    pub most: u64,
    /// How many bodies there are to push. With as many as operations each value is pushed at most once.
    pub bodies: u64,
    pub has_shuts: bool,
}

// A queue, and whether it is shut.
#[derive(Drop)]
struct Queue {
    values: VecDeque<Taken>,
    is_shut: bool,
}

/// A history of this kind.
pub fn by_chance(
    alloc: Global,
    chance: &mut Chance,
    kind: Kind,
) -> Result<Vec<Stamped>, AllocError> {
    let mut operations = Vec::new(alloc);
    run(alloc, chance, kind, &mut operations)?;
    spoil_some(chance, &mut operations);
    if kind.has_shuts && chance.one_in(3) {
        swap_shut(chance, &mut operations);
    }
    Ok(operations)
}

// Puts in a run of a queue.
fn run(
    alloc: Global,
    chance: &mut Chance,
    kind: Kind,
    operations: &mut Vec<Stamped>,
) -> Result<(), AllocError> {
    let mut queue = Queue {
        values: VecDeque::new(alloc),
        is_shut: false,
    };
    let mut time = 1u64;
    for number in 0..chance.below(kind.most) {
        time = time.saturating_add(chance.below(3));
        let number = number.checked_rem(kind.bodies).unwrap_or(0);
        if let Some(body) = Body::new(number) {
            push_operation(chance, &mut queue, kind.has_shuts, time, body, operations)?;
        }
    }
    Ok(())
}

fn spoil_some(chance: &mut Chance, operations: &mut Vec<Stamped>) {
    for _ in 0..chance.below(4) {
        spoil(chance, operations);
    }
}

// Puts in an operation that takes effect at a time, or never did.
fn push_operation(
    chance: &mut Chance,
    queue: &mut Queue,
    has_shuts: bool,
    time: u64,
    body: Body,
    operations: &mut Vec<Stamped>,
) -> Result<(), AllocError> {
    let is_pending = chance.one_in(6);
    let takes_effect = !is_pending || chance.one_in(2);
    let (op, reply) = if has_shuts && chance.one_in(8) {
        (Op::Shut, queue.shut(takes_effect))
    } else if chance.one_in(12) {
        (Op::Deq, Reply::Refused(Refusal::Busy))
    } else if chance.one_in(2) {
        (Op::Enq(body), queue.push(body, takes_effect)?)
    } else {
        (Op::Deq, queue.pop(takes_effect))
    };
    let first = time.saturating_sub(chance.below(4)).max(1);
    let last = time.saturating_add(chance.below(4));
    operations.push(Stamped {
        actor: 1,
        op,
        first,
        last: if is_pending { None } else { Some(last) },
        at: None,
        reply: if is_pending { None } else { Some(reply) },
    })?;
    Ok(())
}

impl Queue {
    fn shut(&mut self, takes_effect: bool) -> Reply {
        if self.is_shut {
            return Reply::Refused(Refusal::Closed);
        }
        self.is_shut = takes_effect;
        Reply::Done
    }

    fn push(&mut self, body: Body, takes_effect: bool) -> Result<Reply, AllocError> {
        if self.is_shut {
            return Ok(Reply::Refused(Refusal::Closed));
        }
        if takes_effect {
            self.values.push_back(Taken { from: 1, body })?;
        }
        Ok(Reply::Done)
    }

    fn pop(&mut self, takes_effect: bool) -> Reply {
        if !takes_effect {
            return Reply::Empty;
        }
        match self.values.pop_front() {
            Some(value) => Reply::Value(value),
            None if self.is_shut => Reply::Refused(Refusal::Closed),
            None => Reply::Empty,
        }
    }
}

// Changes an operation: it finds nothing, or another pop's value, or other times.
fn spoil(chance: &mut Chance, history: &mut Vec<Stamped>) {
    let index = chance.below(history.len() as u64) as usize;
    let other = chance.below(history.len() as u64) as usize;
    let reply = history.get(other).map(|other| (other.op, other.reply));
    let first = chance.below(9).saturating_add(1);
    let kind = chance.below(3);
    let Some(operation) = history.get_mut(index) else {
        return;
    };
    match (kind, operation.op, reply) {
        (0, Op::Deq, _) if operation.reply.is_some() => operation.reply = Some(Reply::Empty),
        (1, Op::Deq, Some((Op::Deq, Some(reply)))) if operation.reply.is_some() => {
            operation.reply = Some(reply);
        }
        _ => {
            operation.first = first;
            if operation.last.is_some() {
                operation.last = Some(first.saturating_add(kind));
            }
        }
    }
}

// Changes what an operation was told: that the queue is shut, or that it isn't.
fn swap_shut(chance: &mut Chance, history: &mut [Stamped]) {
    let index = chance.below(history.len() as u64) as usize;
    let Some(operation) = history.get_mut(index) else {
        return;
    };
    operation.reply = match (operation.op, operation.reply) {
        (Op::Deq, Some(Reply::Refused(Refusal::Closed))) => Some(Reply::Empty),
        (_, Some(Reply::Refused(Refusal::Closed))) => Some(Reply::Done),
        (_, Some(_)) => Some(Reply::Refused(Refusal::Closed)),
        (_, None) => None,
    };
}
