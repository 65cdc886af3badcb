//! Reasons of histories in which the queue is shut, or said to be.
use crate::answers::{Held, Reason};
use crate::counts::pending_by;
use crate::kinds::{ValueCall, place_of};
use crate::known::Known;
use crate::operations::{
    ended_before, is_done_or_empty, is_done_shut, is_told_shut, may_shut, pushed, shows_shut,
};
use crate::times::When;
use history::{Op, Stamped};
use std::alloc::{AllocError, Global};

/// Why a shut can't have been where replies say that it was. The calls are in order.
pub(crate) fn shut_fault(
    alloc: Global,
    history: &[Stamped],
    calls: &[ValueCall],
) -> Result<Option<Reason>, AllocError> {
    if let Some(reason) = twice(history) {
        return Ok(Some(reason));
    }
    if let Some(reason) = unshut(history) {
        return Ok(Some(reason));
    }
    if let Some((time, other)) = first_shown(history) {
        if let Some(reason) = late(history, time, other).or(late_push(calls, time, other)) {
            return Ok(Some(reason));
        }
    }
    undrained(alloc, history, calls)
}

// Of a time with its place and that at which an operation ended, the sooner one.
fn sooner(first: Option<(u64, u64)>, index: usize, operation: &Stamped) -> Option<(u64, u64)> {
    match (first, operation.last) {
        (Some(first), Some(last)) => Some(first.min((last, place_of(index)))),
        (None, Some(last)) => Some((last, place_of(index))),
        (_, None) => first,
    }
}

/// When the first operation ended that shows that the queue is shut, and its place.
pub(crate) fn first_shown(history: &[Stamped]) -> Option<(u64, u64)> {
    let mut first = None;
    for (index, operation) in history.iter().enumerate() {
        if shows_shut(operation.reply, operation.op) {
            first = sooner(first, index, operation);
        }
    }
    first
}

// That a second shut is done.
fn twice(history: &[Stamped]) -> Option<Reason> {
    let mut other = None;
    for (index, operation) in history.iter().enumerate() {
        if is_done_shut(operation.reply, operation.op) {
            let place = place_of(index);
            if let Some(other) = other {
                return Some(Reason::Twice { place, other });
            }
            other = Some(place);
        }
    }
    None
}

// That an operation was told that the queue is shut before any shut began.
fn unshut(history: &[Stamped]) -> Option<Reason> {
    let mut begun = When::Never;
    let mut told = None;
    for (index, operation) in history.iter().enumerate() {
        if may_shut(operation.reply, operation.op) {
            begun = begun.min(When::At(operation.first));
        }
        if is_told_shut(operation.reply) {
            told = sooner(told, index, operation);
        }
    }
    let (ended, place) = told?;
    if When::At(ended) < begun {
        Some(Reason::Unshut { place })
    } else {
        None
    }
}

// That an operation began after this time, and was told what a queue that is shut doesn't tell.
fn late(history: &[Stamped], time: u64, other: u64) -> Option<Reason> {
    for (index, operation) in history.iter().enumerate() {
        if is_done_or_empty(operation.reply) && time < operation.first {
            let place = place_of(index);
            return Some(Reason::Late { place, other });
        }
    }
    None
}

// That a value was taken no push of which began by this time.
fn late_push(calls: &[ValueCall], time: u64, other: u64) -> Option<Reason> {
    let mut pushed: Option<&ValueCall> = None;
    for call in calls {
        let is_pushed = match pushed {
            Some(push) => push.is_of_value_of(call),
            None => false,
        };
        if !call.is_take && call.time <= When::At(time) {
            pushed = Some(call);
        }
        if call.is_take && !is_pushed {
            let place = place_of(call.index);
            return Some(Reason::Late { place, other });
        }
    }
    None
}

// That a pop was told that the queue is shut and empty, while a value is there.
fn undrained(
    alloc: Global,
    history: &[Stamped],
    calls: &[ValueCall],
) -> Result<Option<Reason>, AllocError> {
    let mut told = None;
    for (index, operation) in history.iter().enumerate() {
        if matches!(operation.op, Op::Deq) && is_told_shut(operation.reply) {
            told = sooner(told, index, operation);
        }
    }
    let Some((until, place)) = told else {
        return Ok(None);
    };
    let held = match taken_behind(history, calls, until) {
        Some(held) => Some(held),
        None => left(alloc, history, &Known::of(alloc, history)?, until)?,
    };
    match held {
        Some(held) => Ok(Some(Reason::Undrained { place, held })),
        None => Ok(None),
    }
}

// A value that is pushed, and a take of it that began after a time.
fn taken_behind(history: &[Stamped], calls: &[ValueCall], until: u64) -> Option<Held> {
    let mut push: Option<&ValueCall> = None;
    for call in calls {
        if !call.is_take {
            push = Some(call);
            continue;
        }
        let (Some(push), Some(take)) = (push, history.get(call.index)) else {
            continue;
        };
        if push.is_of_value_of(call) && until < take.first {
            let (push, take) = (place_of(push.index), place_of(call.index));
            return Some(Held::Value { push, take });
        }
    }
    None
}

// One push more of values that no pop was told, all of which ended, than pending pops that began by a time.
fn left(
    alloc: Global,
    history: &[Stamped],
    known: &Known,
    until: u64,
) -> Result<Option<Held>, AllocError> {
    let pops = pending_by(until, history);
    let mut places = Vec::new(alloc);
    for (index, operation) in history.iter().enumerate() {
        let is_left = pushed(operation).is_some_and(|value| known.is_left(&value));
        if is_left && ended_before(u64::MAX, operation.last) && places.len() <= pops {
            places.push(place_of(index))?;
        }
    }
    if pops < places.len() {
        Ok(Some(Held::Left(places)))
    } else {
        Ok(None)
    }
}
