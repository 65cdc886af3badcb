//! Whether a reason is one why a recorded history isn't one of a queue.
ghost use Rattle.std.specs.Prelude.{◌≡◌, IsTrue, All, Some};
ghost use Rattle.history.specs.declared.operations.Reply.TheVariants.{Empty};
ghost use Rattle.history.specs.History as rule;
ghost use Rattle.placing.specs.Seen.{IsKnown};
ghost use Rattle.placing.specs.Reasons as said;
ghost use Rattle.placing.specs.Reasons.{HasAt, IsMisshapen, EndsTooSoon, IsToldAmiss, IsOfValue, IsSooner, IsOutOfOrder, Cover, IsFull, IsReason};

use crate::answers::{Held, Reason, Span};
use crate::counts::{pushes_begun_before, pushes_begun_by, takes_ended_by};
use crate::held_values::is_held;
use crate::known::Known;
use crate::operations::{at, is_told, pushes, took};
use crate::shut_reasons::{is_late, is_twice, is_undrained, is_unshut, open_until};
use history::{Op, Refusal, Reply, Stamped, Taken};

// Whether a reason says what is so of a history.
pub(crate) fn is_reason(history: &[Stamped], known: &Known, reason: &Reason) -> bool
    requires { IsKnown history.now known.now }
    ensures { IsTrue result → IsReason history.now reason.now }
{
    match reason {
        Reason::Shape { place } => is_misshapen(history, *place),
        Reason::Span { place } => ends_too_soon(history, *place),
        Reason::Reply { place } => is_told_amiss(history, *place),
        Reason::Sooner { place, others } => is_sooner(history, *place, others),
        Reason::Order { place, push, held } => is_out_of_order(history, known, *place, *push, held),
        Reason::Full { place, spans } => is_full(history, known, *place, spans),
        Reason::Late { place, other } => is_late(history, *place, *other),
        Reason::Twice { place, other } => is_twice(history, *place, *other),
        Reason::Unshut { place } => is_unshut(history, *place),
        Reason::Undrained { place, held } => is_undrained(history, known, *place, held),
        // That is known from a search alone.
        Reason::Stuck { .. } => false,
    }
}

// Whether the operation at a place has a last step or a reply, and not both.
fn is_misshapen(history: &[Stamped], place: u64) -> bool
    ensures { IsTrue result → HasAt history.now place IsMisshapen }
{
    match at(history, place) {
        Some(operation) => operation.last.is_some() != operation.reply.is_some(),
        None => false,
    }
}

// Whether the operation at a place ended before it began.
fn ends_too_soon(history: &[Stamped], place: u64) -> bool
    ensures { IsTrue result → HasAt history.now place EndsTooSoon }
{
    let Some(operation) = at(history, place) else {
        return false;
    };
    match operation.last {
        Some(last) => last < operation.first,
        None => false,
    }
}

// Whether the operation at a place was told what such a call is never told.
fn is_told_amiss(history: &[Stamped], place: u64) -> bool
    ensures { IsTrue result → HasAt history.now place IsToldAmiss }
{
    let Some(operation) = at(history, place) else {
        return false;
    };
    match operation.reply {
        Some(reply) => !may_be_told(reply, operation.op),
        None => false,
    }
}

// Whether a reply is one that such a call may be told.
pub(crate) fn may_be_told(reply: Reply, op: Op) -> bool
    ensures { result ≡ said.may_be_told reply op }
{
    match (reply, op) {
        (Reply::Done, Op::Enq(_) | Op::Shut) | (Reply::Value(_) | Reply::Empty, Op::Deq) => true,
        (Reply::Done, Op::Deq) | (Reply::Value(_) | Reply::Empty, Op::Enq(_) | Op::Shut) => false,
        (Reply::Refused(refusal), _) => may_refuse(refusal),
    }
}

// Whether a queue may answer this refusal.
fn may_refuse(refusal: Refusal) -> bool
    ensures { result ≡ rule.may_refuse refusal }
{
    match refusal {
        Refusal::NoNode | Refusal::WornOut(_) | Refusal::Busy | Refusal::Closed => true,
        _ => false,
    }
}

// Whether by the end of the take at a place more takes of its value have ended than pushes of it have begun.
fn is_sooner(history: &[Stamped], place: u64, others: &Vec<u64>) -> bool
    ensures { IsTrue result → IsSooner history.now place others.now.items }
{
    let Some(operation) = at(history, place) else {
        return false;
    };
    let Some((value, time)) = took(operation) else {
        return false;
    };
    all_of_value(history, &value, others)
        && pushes_begun_by(time, &value, history) < takes_ended_by(time, &value, history)
}

fn all_of_value(history: &[Stamped], value: &Taken, places: &[u64]) -> bool
    ensures { IsTrue result → All (IsOfValue history.now value.now) places.now }
{
    places
        .iter()
        .all(|place| is_of_value(history, value, *place))
}

// Whether the operation at a place takes a value or pushes it.
fn is_of_value(history: &[Stamped], value: &Taken, place: u64) -> bool
    ensures { IsTrue result → IsOfValue history.now value.now place }
{
    match at(history, place) {
        Some(operation) => is_told(value, operation.reply) || pushes(value, operation),
        None => false,
    }
}

// Whether the take at a place ended while values were there that were pushed before the first push of its value began.
fn is_out_of_order(history: &[Stamped], known: &Known, place: u64, push: u64, held: &Held) -> bool
    requires { IsKnown history.now known.now }
    ensures { IsTrue result → IsOutOfOrder history.now place push held.now }
{
    let Some(operation) = at(history, place) else {
        return false;
    };
    let Some((value, time)) = took(operation) else {
        return false;
    };
    let Some(pushing) = at(history, push) else {
        return false;
    };
    pushes(&value, pushing)
        && pushes_begun_before(pushing.first, &value, history) == 0
        && is_held(history, known, pushing.first, time, held)
}

// Whether the operation at a place was told that the queue is empty, and values are there at each of its numbers, up to
// when the queue is shown to be shut.
fn is_full(history: &[Stamped], known: &Known, place: u64, spans: &Vec<Span>) -> bool
    requires { IsKnown history.now known.now }
    ensures { IsTrue result → IsFull history.now place spans.now.items }
{
    let Some(operation) = at(history, place) else {
        return false;
    };
    match (operation.reply, operation.last) {
        (Some(Reply::Empty), Some(last)) => {
            let until = open_until(history, last);
            cover(operation.first, until, spans) && all_held(history, known, spans)
        }
        _ => false,
    }
}

// Whether spans, one after another, have each number from one to another.
fn cover(first: u64, last: u64, spans: &[Span]) -> bool
    ensures { IsTrue result → Cover first last spans.now }
{
    let mut next = first;
    for span in spans {
        if next < span.first {
            return false;
        }
        if last <= span.last {
            return true;
        }
        next = span.last + 1;
    }
    last < next
}

fn all_held(history: &[Stamped], known: &Known, spans: &[Span]) -> bool
    requires { IsKnown history.now known.now }
    ensures { IsTrue result
        → All (λ span. said.IsHeld history.now span.first span.last span.held) spans.now }
{
    spans.iter().all(|span| is_held(history, known, span.first, span.last, &span.held))
}
