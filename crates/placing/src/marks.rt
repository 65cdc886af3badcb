//! The calls that began by a number, and which of them are none of a queue.
ghost use Rattle.std.specs.Prelude.{◌≡◌, true, All, IfOk, OnOk};
ghost use Rattle.placing.specs.Parts as parts;
ghost use Rattle.placing.specs.Parts.{all_of, begun, part_of, AddsCall, MayBeOut, MayGo, MayGoUnknown};
ghost use Rattle.placing.specs.Reasons.{IsCutOf, IsNamed, IsOneOf};

use crate::counts::{pushes_of, takes_of};
use crate::operations::ended_by;
use crate::parts::Part;
use history::{Op, Reply, Stamped, Taken};
use std::alloc::{AllocError, Global};

/// A call as it was at a number, where it stands in the history, counted from 1, and whether it is in a part.
#[derive(Clone, Copy)]
pub struct Marked {
    pub operation: Stamped,
    pub place: u64,
    pub is_in: bool,
}

/// An operation as it was at a number: told nothing, if it ended later.
pub(crate) fn cut(operation: &Stamped, until: u64) -> Stamped
    ensures { result ≡ parts.cut until operation.now }
{
    let is_told = ended_by(until, operation.last);
    Stamped {
        last: if is_told { operation.last } else { None },
        reply: if is_told { operation.reply } else { None },
        ..*operation
    }
}

/// The calls of a history that began by a number, marked as a part has them.
pub(crate) fn marks_of(
    alloc: Global,
    history: &[Stamped],
    until: u64,
    part: &Part,
) -> Result<Vec<Marked>, AllocError>
    ensures all { IfOk result (λ calls. all_of calls.items ≡ begun until history.now) }
    ensures each { IfOk result (λ calls. All (IsCutOf history.now until) calls.items) }
{
    let mut calls = Vec::new(alloc);
    for (index, operation) in history.iter().enumerate() {
        let is_in = part.has_at(calls.len());
        push_call(&mut calls, operation, index as u64 + 1, is_in, until)?;
    }
    Ok(calls)
}

// Puts in the operation at a place, as it was at a number, if it began by then.
fn push_call(
    calls: &mut Vec<Marked>,
    operation: &Stamped,
    place: u64,
    is_in: bool,
    until: u64,
) -> Result<(), AllocError>
    ensures { OnOk result (AddsCall until place is_in operation.now calls.old.items
        calls.new.items) }
{
    if until < operation.first {
        return Ok(());
    }
    let operation = cut(operation, until);
    calls.push(Marked {
        operation,
        place,
        is_in,
    })?;
    Ok(())
}

/// The operations that are in the part.
pub(crate) fn inner(alloc: Global, calls: &[Marked]) -> Result<Vec<Stamped>, AllocError>
    ensures { IfOk result (λ part. part.items ≡ part_of calls.now) }
{
    let mut part = Vec::new(alloc);
    for call in calls {
        if call.is_in {
            part.push(call.operation)?;
        }
    }
    Ok(part)
}

/// Whether each call that isn't in a part may be left out of it.
pub(crate) fn all_may_be_out(calls: &[Marked], part: &[Stamped]) -> bool
    ensures { result ≡ true → All (MayBeOut part.now) calls.now }
{
    calls.iter().all(|call| may_be_out(call, part))
}

fn may_be_out(call: &Marked, part: &[Stamped]) -> bool
    ensures { result ≡ true → MayBeOut part.now call.now }
{
    call.is_in || may_go(&call.operation, part)
}

fn may_go(operation: &Stamped, part: &[Stamped]) -> bool
    ensures { result ≡ true → MayGo part.now operation.now.actor operation.now.op operation.now.reply }
{
    match operation.reply {
        Some(Reply::Empty | Reply::Refused(_)) => true,
        Some(Reply::Value(value)) => pushes_of(&value, part) == 0,
        Some(Reply::Done) | None => may_go_unknown(operation.actor, operation.op, part),
    }
}

fn may_go_unknown(actor: u16, op: Op, part: &[Stamped]) -> bool
    ensures { result ≡ true → MayGoUnknown part.now actor op }
{
    match op {
        Op::Enq(body) => takes_of(&Taken { from: actor, body }, part) == 0,
        Op::Deq | Op::Shut => false,
    }
}

/// Whether each call in the part is at this place, or at one of the others.
pub(crate) fn all_named(calls: &[Marked], place: u64, others: &[u64]) -> bool
    ensures { result ≡ true → All (IsNamed place others.now) calls.now }
{
    calls.iter().all(|call| is_named(call, place, others))
}

fn is_named(call: &Marked, place: u64, others: &[u64]) -> bool
    ensures { result ≡ true → IsNamed place others.now call.now }
{
    !call.is_in || is_one_of(call.place, place, others)
}

fn is_one_of(at: u64, place: u64, others: &[u64]) -> bool
    ensures { result ≡ true → IsOneOf place others.now at }
{
    at == place || others.contains(&at)
}
