//! What one operation of a recorded history is: at its place, as a push or a take of a value, and by its times.
ghost use Rattle.std.specs.Prelude.{◌≡◌, ◌&&◌, true, false, IfSome, IfNone};
ghost use Rattle.history.specs.History as rule;
ghost use Rattle.history.specs.Tallies as tallies;
ghost use Rattle.placing.specs.Kinds as kinds;
ghost use Rattle.placing.specs.Kinds.{Kind, same_value, pushes_in};
ghost use Rattle.placing.specs.Reasons.{StandsAt, Took};

use history::{Op, Refusal, Reply, Stamped, Taken};

// The operation at a place, counted from 1.
pub(crate) fn at(history: &[Stamped], place: u64) -> Option<&Stamped>
    ensures { IfSome result (λ operation. StandsAt history.now place operation.now) }
{
    let index = place.checked_sub(1)?;
    history.get(index as usize)
}

fn same_value(value: &Taken, other: &Taken) -> bool
    ensures { result ≡ kinds.same_value value.now other.now }
{
    value.from == other.from && value.body.number() == other.body.number()
}

// Whether an operation was told a value.
pub(crate) fn is_told(value: &Taken, told: Option<Reply>) -> bool
    ensures { result ≡ kinds.is_told_in (same_value value.now) told }
{
    match told {
        Some(Reply::Value(other)) => same_value(value, &other),
        Some(Reply::Done | Reply::Empty | Reply::Refused(_)) | None => false,
    }
}

// Whether an operation may have had its effect: it wasn't refused.
pub(crate) fn is_not_refused(told: Option<Reply>) -> bool
    ensures { result ≡ tallies.is_not_refused told }
{
    match told {
        Some(Reply::Refused(_)) => false,
        Some(Reply::Done | Reply::Value(_) | Reply::Empty) | None => true,
    }
}

// Whether a call pushes a value.
fn is_push(value: &Taken, actor: u16, op: Op) -> bool
    ensures { result ≡ kinds.is_push_in (same_value value.now) actor op }
{
    match op {
        Op::Enq(body) => same_value(value, &Taken { from: actor, body }),
        Op::Deq | Op::Shut => false,
    }
}

// Whether an operation pushes a value and wasn't refused.
pub(crate) fn pushes(value: &Taken, operation: &Stamped) -> bool
    ensures { result ≡ kinds.pushes_in (same_value value.now) operation.now }
{
    is_not_refused(operation.reply) && is_push(value, operation.actor, operation.op)
}

// The value that an operation pushes, if it wasn't refused.
pub(crate) fn pushed(operation: &Stamped) -> Option<Taken>
    ensures itself { IfSome result (λ value. pushes_in (same_value value) operation.now ≡ true) }
    ensures value { IfSome result (λ value.
        (kind : Kind) → pushes_in kind operation.now ≡ kind value) }
    ensures none { IfNone result ((kind : Kind) → pushes_in kind operation.now ≡ false) }
{
    match operation.op {
        Op::Enq(body) if is_not_refused(operation.reply) => Some(Taken {
            from: operation.actor,
            body,
        }),
        Op::Enq(_) | Op::Deq | Op::Shut => None,
    }
}

// The value that an operation was told.
pub(crate) fn told(told: Option<Reply>) -> Option<Taken>
    ensures value { IfSome result (λ value.
        (kind : Kind) → kinds.is_told_in kind told ≡ kind value) }
    ensures none { IfNone result ((kind : Kind) → kinds.is_told_in kind told ≡ false) }
{
    match told {
        Some(Reply::Value(value)) => Some(value),
        Some(Reply::Done | Reply::Empty | Reply::Refused(_)) | None => None,
    }
}

// The value that an operation took, and when it ended.
pub(crate) fn took(operation: &Stamped) -> Option<(Taken, u64)>
    ensures { IfSome result (λ taken. Took operation.now taken.0 taken.1) }
{
    match (operation.reply, operation.last) {
        (Some(Reply::Value(value)), Some(last)) => Some((value, last)),
        _ => None,
    }
}

// Whether an operation is a pop that was told nothing.
pub(crate) fn is_pending_pop(op: Op, told: Option<Reply>) -> bool
    ensures { result ≡ kinds.is_pending_pop op told }
{
    match (op, told) {
        (Op::Deq, None) => true,
        (Op::Deq, Some(_)) | (Op::Enq(_) | Op::Shut, _) => false,
    }
}

fn is_shut_call(op: Op) -> bool
    ensures { result ≡ kinds.is_shut_call op }
{
    match op {
        Op::Shut => true,
        Op::Enq(_) | Op::Deq => false,
    }
}

// Whether an operation is a shut that wasn't refused.
pub(crate) fn may_shut(told: Option<Reply>, op: Op) -> bool
    ensures { result ≡ (tallies.is_not_refused told && kinds.is_shut_call op) }
{
    is_not_refused(told) && is_shut_call(op)
}

pub(crate) fn is_closed(refusal: Refusal) -> bool
    ensures { result ≡ rule.is_closed refusal }
{
    match refusal {
        Refusal::Closed => true,
        _ => false,
    }
}

// Whether an operation was told that the queue is shut.
pub(crate) fn is_told_shut(told: Option<Reply>) -> bool
    ensures { result ≡ kinds.is_told_shut told }
{
    match told {
        Some(Reply::Refused(refusal)) => is_closed(refusal),
        Some(Reply::Done | Reply::Value(_) | Reply::Empty) | None => false,
    }
}

// Whether an operation is a shut that is done.
pub(crate) fn is_done_shut(told: Option<Reply>, op: Op) -> bool
    ensures { result ≡ kinds.is_done_shut told op }
{
    match told {
        Some(Reply::Done) => is_shut_call(op),
        Some(Reply::Value(_) | Reply::Empty | Reply::Refused(_)) | None => false,
    }
}

// Whether an operation shut the queue, or was told that it is shut.
pub(crate) fn shows_shut(told: Option<Reply>, op: Op) -> bool
    ensures { result ≡ kinds.shows_shut told op }
{
    match told {
        Some(Reply::Done) => is_shut_call(op),
        Some(Reply::Refused(refusal)) => is_closed(refusal),
        Some(Reply::Value(_) | Reply::Empty) | None => false,
    }
}

// Whether an operation was told what only a queue that isn't shut answers.
pub(crate) fn is_done_or_empty(told: Option<Reply>) -> bool
    ensures { result ≡ kinds.is_done_or_empty told }
{
    match told {
        Some(Reply::Done | Reply::Empty) => true,
        Some(Reply::Value(_) | Reply::Refused(_)) | None => false,
    }
}

pub(crate) fn ended_before(time: u64, last: Option<u64>) -> bool
    ensures { result ≡ kinds.ended_before time last }
{
    match last {
        Some(last) => last < time,
        None => false,
    }
}

pub(crate) fn ended_by(time: u64, last: Option<u64>) -> bool
    ensures { result ≡ kinds.ended_by time last }
{
    match last {
        Some(last) => last <= time,
        None => false,
    }
}
