//! Whether a reason about a shut is one why a recorded history isn't one of a queue.
ghost use Rattle.std.specs.Prelude.{◌≡◌, IsTrue};
ghost use Rattle.placing.specs.Seen.{IsKnown};
ghost use Rattle.placing.specs.Reasons.{IsTooLate, IsLate, IsTwice, IsUnshut, IsOpenUntil, IsTakenBehind, IsThere, IsUndrained};

use crate::answers::Held;
use crate::counts::{pushes_begun_by, shuts_begun_by};
use crate::held_values::are_left;
use crate::known::Known;
use crate::operations::{
    at, is_done_or_empty, is_done_shut, is_told, is_told_shut, pushed, shows_shut,
};
use crate::shut_faults::first_shown;
use history::{Op, Reply, Stamped};

/// When what ended at a number found the queue not shut at the latest: then, or when an operation ended that shows that it
/// is shut.
pub(crate) fn open_until(history: &[Stamped], last: u64) -> u64
    ensures { IsOpenUntil history.now last result }
{
    let Some((time, place)) = first_shown(history) else {
        return last;
    };
    let Some(evidence) = at(history, place) else {
        return last;
    };
    match evidence.last {
        Some(ended) if ended == time && time < last && shows_shut(evidence.reply, evidence.op) => {
            ended
        }
        _ => last,
    }
}

// Whether the operation at a place comes too late, by another one that shows the queue to be shut.
pub(crate) fn is_late(history: &[Stamped], place: u64, other: u64) -> bool
    ensures { IsTrue result → IsLate history.now place other }
{
    let Some(operation) = at(history, place) else {
        return false;
    };
    let Some(evidence) = at(history, other) else {
        return false;
    };
    match evidence.last {
        Some(time) => {
            shows_shut(evidence.reply, evidence.op) && is_too_late(history, time, operation)
        }
        None => false,
    }
}

// Whether an operation began after a time and did what a queue that is shut doesn't, or took what was pushed so late.
fn is_too_late(history: &[Stamped], time: u64, operation: &Stamped) -> bool
    ensures { IsTrue result → IsTooLate history.now time operation.now }
{
    match operation.reply {
        Some(Reply::Value(value)) => pushes_begun_by(time, &value, history) == 0,
        _ => is_done_or_empty(operation.reply) && time < operation.first,
    }
}

// Whether the operations at two places are shuts that are done.
pub(crate) fn is_twice(history: &[Stamped], place: u64, other: u64) -> bool
    ensures { IsTrue result → IsTwice history.now place other }
{
    let Some(operation) = at(history, place) else {
        return false;
    };
    let Some(one) = at(history, other) else {
        return false;
    };
    other < place && is_done_shut(operation.reply, operation.op) && is_done_shut(one.reply, one.op)
}

// Whether the operation at a place was told that the queue is shut, and no shut began by its end.
pub(crate) fn is_unshut(history: &[Stamped], place: u64) -> bool
    ensures { IsTrue result → IsUnshut history.now place }
{
    let Some(operation) = at(history, place) else {
        return false;
    };
    match operation.last {
        Some(time) => is_told_shut(operation.reply) && shuts_begun_by(time, history) == 0,
        None => false,
    }
}

// Whether the pop at a place was told that the queue is shut and empty, and a value is there until it ends.
pub(crate) fn is_undrained(history: &[Stamped], known: &Known, place: u64, held: &Held) -> bool
    requires { IsKnown history.now known.now }
    ensures { IsTrue result → IsUndrained history.now place held.now }
{
    let Some(operation) = at(history, place) else {
        return false;
    };
    match (operation.op, operation.last) {
        (Op::Deq, Some(until)) => {
            is_told_shut(operation.reply) && is_there(history, known, until, held)
        }
        _ => false,
    }
}

// Whether a value is there until a time: it was taken later, or pushed before 2^64 - 1 and not taken.
fn is_there(history: &[Stamped], known: &Known, until: u64, held: &Held) -> bool
    requires { IsKnown history.now known.now }
    ensures { IsTrue result → IsThere history.now 18446744073709551615 until held.now }
{
    match held {
        Held::Value { push, take } => is_taken_behind(history, until, *push, *take),
        Held::Left(places) => are_left(history, known, u64::MAX, until, places),
    }
}

// Whether a push and a take are of one value, and the take began after a time.
fn is_taken_behind(history: &[Stamped], until: u64, push: u64, take: u64) -> bool
    ensures { IsTrue result → IsTakenBehind history.now until push take }
{
    let Some(pushing) = at(history, push) else {
        return false;
    };
    let Some(taking) = at(history, take) else {
        return false;
    };
    match pushed(pushing) {
        Some(value) => is_told(&value, taking.reply) && until < taking.first,
        None => false,
    }
}
