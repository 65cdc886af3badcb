//! Whether a history is one of a first-in-first-out queue.
ghost use Rattle.std.specs.Prelude.{◌≡◌, [], None, IfOk, IfErr};
ghost use Rattle.history.specs.Queue.{empty};
ghost use Rattle.history.specs.History as rule;
ghost use Rattle.history.specs.History.{verdict};
ghost use Rattle.history.specs.Tables.{listed, Judges};

use crate::operations::{Cause, Stamped, Verdict};
use crate::refusals::Refusal;
use crate::replays::{Replayed, agrees_with_queue};
use std::alloc::Global;
use std::collections::{BTreeMap, VecDeque};

/// Judges a history: No by the first operation of the list whose shape, span or place is wrong; else
/// No by the first completed one, by rising place, whose reply a queue doesn't give; else Yes.
///
/// A No tells where the operation stands in the list, from 1. The call takes memory for the
/// operations that have a place, and time `n * log n` for `n` operations; it doesn't wait. It is
/// refused by `Memory` alone.
///
/// ```rust
/// let push = Stamped {
///     actor: 1,
///     op: Op::Enq(body),
///     first: 1,
///     last: Some(10),
///     at: Some(8),
///     reply: Some(Reply::Done),
/// };
/// assert!(check(alloc, &[push])? == Verdict::Yes);
/// // The queue was not empty at 13.
/// let empty = Stamped {
///     actor: 2,
///     op: Op::Deq,
///     first: 11,
///     last: Some(14),
///     at: Some(13),
///     reply: Some(Reply::Empty),
/// };
/// assert!(check(alloc, &[push, empty])? != Verdict::Yes);
/// ```
pub fn check(alloc: Global, history: &[Stamped]) -> Result<Verdict, Refusal>
    //= judge/verdict (ok, only_memory): A verdict is Yes exactly where the history is placed and legal, and else names
    //=   its first fault.
    //= judge/object: A history is judged by the *object* of docs/GLOSSARY.md: `NoNode`, `WornOut` and `Busy` leave it
    //=   as it is; any other reply must be its own (`AgreesWithQueue`).
    ensures ok { IfOk result (λ answer. answer ≡ verdict history.now) }
    ensures only_memory { IfErr result (λ refusal. refusal ≡ Refusal.Memory) }
{
    let mut places = BTreeMap::new(alloc);
    if let Some(fault) = first_fault(&mut places, history)? {
        return Ok(fault);
    }
    match first_wrong(alloc, &places)? {
        None => Ok(Verdict::Yes),
        Some(wrong) => Ok(Verdict::No {
            place: index_by_point(wrong.at, history),
            cause: Cause::Reply,
        }),
    }
}

// The first fault of shape, span or shared place. Where there is none, the map then has the
// operations that have a place.
fn first_fault<'a>(
    places: &mut BTreeMap<u64, &'a Stamped>,
    history: &'a [Stamped],
) -> Result<Option<Verdict>, Refusal>
    requires { places.old.entries ≡ [] }
    ensures fault { IfOk result (λ fault. fault ≡ rule.first_fault 1 [] history.now) }
    ensures places { IfOk result (λ fault.
        fault ≡ None → listed places.new ≡ rule.by_point history.now) }
    ensures only_memory { IfErr result (λ refusal. refusal ≡ Refusal.Memory) }
{
    for (index, operation) in history.iter().enumerate() {
        if let Some(cause) = fault_of(places, operation)? {
            let place = index as u64 + 1;
            return Ok(Some(Verdict::No { place, cause }));
        }
    }
    Ok(None)
}

// The fault of an operation that comes after those in the map. Where it has none, the map then has
// it too, if it has a place.
fn fault_of<'a>(
    places: &mut BTreeMap<u64, &'a Stamped>,
    operation: &'a Stamped,
) -> Result<Option<Cause>, Refusal>
    ensures fault { IfOk result (Judges places.old places.new operation.now) }
    ensures only_memory { IfErr result (λ refusal. refusal ≡ Refusal.Memory) }
{
    if !is_shaped(operation) {
        return Ok(Some(Cause::Shape));
    }
    if !lies_within(operation) {
        return Ok(Some(Cause::Span));
    }
    let Some(at) = operation.at else {
        return Ok(None);
    };
    match places.insert(at, operation) {
        Ok(None) => Ok(None),
        Ok(Some(_)) => Ok(Some(Cause::Shared)),
        Err(_) => Err(Refusal::Memory),
    }
}

// Whether last step, place and reply go together.
fn is_shaped(operation: &Stamped) -> bool
    ensures { result ≡ rule.is_shaped operation.now.last operation.now.at operation.now.reply }
{
    match (operation.last, operation.at, operation.reply) {
        (None, _, None) | (Some(_), Some(_), Some(_)) => true,
        _ => false,
    }
}

// Whether the last step isn't before the first one, and the place lies between them.
fn lies_within(operation: &Stamped) -> bool
    ensures { result ≡ rule.lies_within operation.now.first operation.now.last operation.now.at }
{
    let first = operation.first;
    match (operation.last, operation.at) {
        (None, None) => true,
        (Some(last), None) => first <= last,
        (None, Some(at)) => first <= at,
        (Some(last), Some(at)) => first <= last && first <= at && at <= last,
    }
}

// The first operation, by rising place, whose reply the queue does not give.
fn first_wrong(alloc: Global, places: &BTreeMap<u64, &Stamped>) -> Result<Option<Stamped>, Refusal>
    ensures wrong { IfOk result (λ wrong. wrong ≡ rule.first_wrong empty (listed places.now)) }
    ensures only_memory { IfErr result (λ refusal. refusal ≡ Refusal.Memory) }
{
    let mut queue = Replayed {
        values: VecDeque::new(alloc),
        shut: false,
    };
    for operation in places.values() {
        if !agrees_with_queue(&mut queue, *operation)? {
            return Ok(Some(**operation));
        }
    }
    Ok(None)
}

// Where the first operation of this place stands in the list, from 1.
fn index_by_point(at: Option<u64>, history: &[Stamped]) -> u64
    ensures { result ≡ rule.index_by_point at 1 history.now }
{
    let mut place = 1;
    for operation in history {
        if same_point(at, operation.at) {
            return place;
        }
        place += 1;
    }
    place
}

fn same_point(place: Option<u64>, other: Option<u64>) -> bool
    ensures { result ≡ rule.same_point place other }
{
    match (place, other) {
        (Some(place), Some(other)) => place == other,
        _ => false,
    }
}
