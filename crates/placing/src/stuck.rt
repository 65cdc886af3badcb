//! The operation at which a history turns out to be none of a queue, and the others that it can't be placed beside.
ghost use Rattle.std.specs.Prelude.{◌≡◌, ◌<◌, true, false, All, IfOk, OnOk, IfSome, IsSome, IsSomeAnd, length, slice_get};
ghost use Rattle.waiting_orders.specs.Waiting.{IsOfQueue};
ghost use Rattle.placing.specs.Faults.{IsFaultless};
ghost use Rattle.placing.specs.Parts.{all_of, begun, part_of, AddsOther};
ghost use Rattle.placing.specs.Reasons.{HasAt, IsCutOf, IsEndedOther, IsPlace, IsPushIfEnded, IsToldOther, IsStuck, IsReason};

use crate::answers::Reason;
use crate::kinds::place_of;
use crate::marks::{Marked, all_may_be_out, all_named, inner, marks_of};
use crate::operations::{at, ended_by, pushed};
use crate::parts::{Groups, Part};
use history::Stamped;
use std::alloc::{AllocError, Global};
use waiting_orders::{Found, searched};

// The share of the room that each search of a part may take, of which there are many.
const SHARE: u64 = 64;

// No groups.
const NOTHING: Groups = Groups { first: 0, size: 0 };

/// Why a history isn't one of a queue of which a search has shown that: the first number by which it is none, the last operation to
/// end by then that is no push, and of the others as few as are none with it.
pub(crate) fn stuck(alloc: Global, history: &[Stamped], room: u64) -> Result<Reason, AllocError>
    requires all { All IsFaultless history.now }
    requires none { ¬ IsOfQueue history.now }
    ensures { IfOk result (IsReason history.now) }
{
    let until = first_end(alloc, history, room / SHARE)?;
    let Some(index) = last_other(history, until) else {
        return whole(alloc, history);
    };
    let mut part = Part::begun(alloc, history, until)?;
    part.group(alloc, index)?;
    thin(alloc, &mut part, room / SHARE)?;
    let marks = marks_of(alloc, history, until, &part)?;
    let calls = marks.as_slice();
    let left = inner(alloc, calls)?;
    let part = left.as_slice();
    if is_none(alloc, part, room)? {
        if let Some(reason) = told(alloc, history, until, place_of(index), calls, part)? {
            return Ok(reason);
        }
    }
    whole(alloc, history)
}

// The reason with all operations, where none of fewer was shown.
fn whole(alloc: Global, history: &[Stamped]) -> Result<Reason, AllocError>
    requires all { All IsFaultless history.now }
    requires none { ¬ IsOfQueue history.now }
    ensures { IfOk result (IsReason history.now) }
{
    let at = first_other(history);
    let place = at as u64 + 1;
    let mut others = Vec::new(alloc);
    for index in 0..history.len() {
        put_other(&mut others, index as u64 + 1, place)?;
    }
    Ok(Reason::Stuck { place, others })
}

// Puts in a place, if it isn't the one that is named by itself.
fn put_other(others: &mut Vec<u64>, one: u64, place: u64) -> Result<(), AllocError>
    ensures { OnOk result (AddsOther place one others.old.items others.new.items) }
{
    if one != place {
        others.push(one)?;
    }
    Ok(())
}

// The first operation that ended and is no push which may have had its effect: a history without one is one of a queue.
fn first_other(history: &[Stamped]) -> usize
    requires all { All IsFaultless history.now }
    requires none { ¬ IsOfQueue history.now }
    ensures below { result < length history.now }
    ensures other { IsSomeAnd (slice_get history.now result) IsEndedOther }
{
    for (index, operation) in history.iter().enumerate() {
        if is_ended_other(operation) {
            return index;
        }
    }
    unreachable!()
}

fn is_ended_other(operation: &Stamped) -> bool
    ensures yes { result ≡ true → IsEndedOther operation.now }
    ensures no { result ≡ false → IsPushIfEnded operation.now }
{
    operation.last.is_some() && pushed(operation).is_none()
}

// The reason, where the calls in a part are none of a queue, if the others may be left out of it.
fn told(
    alloc: Global,
    history: &[Stamped],
    until: u64,
    place: u64,
    calls: &[Marked],
    part: &[Stamped],
) -> Result<Option<Reason>, AllocError>
    requires all { all_of calls.now ≡ begun until history.now }
    requires each { All (IsCutOf history.now until) calls.now }
    requires is_part { part.now ≡ part_of calls.now }
    requires none { ¬ IsOfQueue part.now }
    ensures { IfOk result (λ reason. IfSome reason (IsReason history.now)) }
{
    let mut others = Vec::new(alloc);
    for call in calls {
        if call.is_in && call.place != place {
            others.push(call.place)?;
        }
    }
    if is_stuck(history, until, place, &others, calls, part) {
        return Ok(Some(Reason::Stuck { place, others }));
    }
    Ok(None)
}

// Whether the calls in a part, which are none of a queue, are an operation that was told a reply by a number, and others.
fn is_stuck(
    history: &[Stamped],
    until: u64,
    place: u64,
    others: &[u64],
    calls: &[Marked],
    part: &[Stamped],
) -> bool
    requires all { all_of calls.now ≡ begun until history.now }
    requires each { All (IsCutOf history.now until) calls.now }
    requires is_part { part.now ≡ part_of calls.now }
    requires none { ¬ IsOfQueue part.now }
    ensures { result ≡ true → IsStuck history.now place others.now }
{
    is_told_other(history, until, place)
        && all_stand(history, others)
        && all_named(calls, place, others)
        && all_may_be_out(calls, part)
}

// Whether the operation at a place was told a reply by a number, and is no push that may have had its effect.
fn is_told_other(history: &[Stamped], until: u64, place: u64) -> bool
    ensures { result ≡ true → HasAt history.now place (IsToldOther until) }
{
    let Some(operation) = at(history, place) else {
        return false;
    };
    ended_by(until, operation.last) && pushed(operation).is_none()
}

// Whether there is an operation at each of some places.
fn all_stand(history: &[Stamped], places: &[u64]) -> bool
    ensures { result ≡ true → All (IsPlace history.now) places.now }
{
    places.iter().all(|place| stands(history, *place))
}

fn stands(history: &[Stamped], place: u64) -> bool
    ensures { result ≡ true → IsPlace history.now place }
{
    at(history, place).is_some()
}

// Whether a history isn't one of a queue, as far as states that take so much show it.
fn is_none(alloc: Global, history: &[Stamped], room: u64) -> Result<bool, AllocError>
    ensures { IfOk result (λ is_none. is_none ≡ true → ¬ IsOfQueue history.now) }
{
    match searched(alloc, history, room)? {
        Found::Nothing => Ok(true),
        Found::Order(_) | Found::Room => Ok(false),
    }
}

// The first number at which an operation ended and by which the history is none of a queue; the last one where no search shows
// that of an earlier one.
fn first_end(alloc: Global, history: &[Stamped], room: u64) -> Result<u64, AllocError> {
    let mut ends = Vec::new(alloc);
    for operation in history {
        if let Some(last) = operation.last {
            ends.push(last)?;
        }
    }
    ends.sort_unstable();
    let mut low = 0;
    let mut high = ends.len().saturating_sub(1);
    // Each round halves what is left.
    for _ in 0..u64::BITS {
        if high <= low {
            break;
        }
        let middle = low + (high - low) / 2;
        let until = ends.get(middle).copied().unwrap_or(0);
        let part = Part::begun(alloc, history, until)?;
        if is_none(alloc, &part.without(alloc, NOTHING)?, room)? {
            high = middle;
        } else {
            low = middle + 1;
        }
    }
    Ok(ends.get(high).copied().unwrap_or(0))
}

// The operation that was the last one to end by a number, of those that are no push which may have had its effect.
fn last_other(history: &[Stamped], until: u64) -> Option<usize> {
    let mut best: Option<(u64, usize)> = None;
    for (index, operation) in history.iter().enumerate() {
        if let Some(last) = operation.last {
            if last <= until && pushed(operation).is_none() {
                best = best.max(Some((last, index)));
            }
        }
    }
    Some(best?.1)
}

// Leaves out what isn't needed for a part to be none of a queue: first many groups at once, then fewer.
fn thin(alloc: Global, part: &mut Part, room: u64) -> Result<(), AllocError> {
    let count = part.count();
    let mut size = count;
    for _ in 0..u64::BITS {
        if size == 0 {
            break;
        }
        for chunk in 0..=count / size {
            let first = chunk.saturating_mul(size).saturating_add(1);
            let groups = Groups { first, size };
            if part.has_of(groups) && is_none(alloc, &part.without(alloc, groups)?, room)? {
                part.leave_out(groups);
            }
        }
        size /= 2;
    }
    Ok(())
}
