//! The order of the operations, and points for it.
ghost use Rattle.std.specs.Prelude.{◌≡◌, ◌≤◌, max, IfSome, IsSome, IfOk, Some, length, slice_set};
ghost use Rattle.placing.specs.SpreadStamps.{SpreadsAll, HasRoom};
ghost use Rattle.placing.specs.Orders.{NoneEndsTooSoon, ArePoints};

use crate::cuts::Cuts;
use crate::operations::ended_before;
use crate::spread_stamps::Spread;
use crate::times::{Carried, When};
use history::Stamped;
use std::alloc::{AllocError, Global};

/// When an operation takes effect, and what is before what at the same time.
#[derive(Clone, Copy, PartialEq, Eq, PartialOrd, Ord)]
struct Event {
    at: When,
    /// How many cuts are before it.
    segment: usize,
    /// A pop that finds the queue empty, at the cut that ends its segment.
    is_empty: bool,
    /// The value's place in the order.
    rank: usize,
    is_take: bool,
    index: usize,
}

/// Operations, as indices of the list, in the order in which they take effect: values in this order, cut where the
/// queue is empty.
pub(crate) fn lined(
    alloc: Global,
    history: &[Stamped],
    values: &[Carried],
    order: &[usize],
    cuts: &Cuts,
    refused: &[usize],
) -> Result<Vec<usize>, AllocError> {
    let mut events = Vec::new(alloc);
    push_values(alloc, &mut events, values, order, cuts)?;
    for (index, time) in &cuts.pops {
        let at = When::At(*time);
        events.push(Event {
            at,
            segment: cuts.before(at),
            is_empty: true,
            rank: *index,
            is_take: true,
            index: *index,
        })?;
    }
    for index in refused {
        if let Some(operation) = history.get(*index) {
            events.push(Event {
                at: When::At(operation.first),
                segment: 0,
                is_empty: false,
                rank: 0,
                is_take: false,
                index: *index,
            })?;
        }
    }
    events.sort_unstable();
    let mut lined = Vec::new(alloc);
    for event in &events {
        lined.push(event.index)?;
    }
    Ok(lined)
}

// Puts in when each value is pushed and when it is taken, each as soon as may be.
fn push_values(
    alloc: Global,
    events: &mut Vec<Event>,
    values: &[Carried],
    order: &[usize],
    cuts: &Cuts,
) -> Result<(), AllocError> {
    let mut ranked = Vec::new(alloc);
    for (rank, index) in order.iter().enumerate() {
        if let Some(value) = values.get(*index) {
            ranked.push((cuts.before(value.taken.first), rank, *index))?;
        }
    }
    ranked.sort_unstable();
    let mut pushed = When::At(0);
    let mut taken = When::At(0);
    for (rank, (segment, _, index)) in ranked.iter().enumerate() {
        let Some(value) = values.get(*index) else {
            continue;
        };
        let begins = When::At(cuts.begins(*segment));
        pushed = pushed.max(value.pushed.first).max(begins);
        taken = taken.max(value.taken.first).max(begins);
        let push = Event {
            at: pushed,
            segment: *segment,
            is_empty: false,
            rank,
            is_take: false,
            index: value.push,
        };
        events.push(push)?;
        if let (Some(take), When::At(_)) = (value.take, taken) {
            events.push(Event {
                at: taken,
                is_take: true,
                index: take,
                ..push
            })?;
        }
    }
    Ok(())
}

/// A point for each operation of an order: of the numbers that the greatest first step up to it becomes, as many behind the
/// first one as operations come before it. None where the order doesn't keep time.
pub(crate) fn points(
    alloc: Global,
    history: &[Stamped],
    lined: &[usize],
    spread: &Spread,
) -> Result<Option<Vec<Option<u64>>>, AllocError>
    requires { SpreadsAll history.now spread.now.numbers.items spread.now.width }
    ensures long { IfOk result (λ points. IfSome points (λ points.
        length points.items ≡ length history.now)) }
    ensures points { IfOk result (λ points. IfSome points (λ points.
        ArePoints history.now spread.now.numbers.items spread.now.width lined.now points.items)) }
    ensures some { HasRoom spread.now.numbers.items spread.now.width
        → length lined.now ≤ spread.now.width → NoneEndsTooSoon history.now 0 lined.now
        → IfOk result IsSome }
{
    let mut points = vec![in alloc; None; history.len()]?;
    let mut begun = 0;
    for (before, index) in lined.iter().enumerate() {
        let Some(operation) = history.get(*index) else {
            return Ok(None);
        };
        begun = later(operation.first, begun);
        if ended_before(begun, operation.last) {
            return Ok(None);
        }
        let Some(at) = spread.behind_first(begun, before as u64) else {
            return Ok(None);
        };
        put_point(&mut points, *index, at);
    }
    Ok(Some(points))
}

fn later(time: u64, other: u64) -> u64
    ensures { result ≡ max time other }
{
    time.max(other)
}

fn put_point(points: &mut [Option<u64>], index: usize, at: u64)
    ensures { points.new ≡ slice_set points.old index (Some at) }
{
    if index < points.len() {
        points[index] = Some(at);
    }
}
