//! The given operations of a history with points, whose first ones push what the queue holds at the start.
ghost use Rattle.std.specs.Prelude.{◌≡◌, ◌-◌, IfOk, map, option_map};
ghost use Rattle.place_engine.specs.GivenParts as parts;
ghost use Rattle.place_engine.specs.GivenParts.{last_end};

use history::Stamped;
use std::alloc::{AllocError, Global};

/// The operations behind so many, with numbers that are as much less as the last of these ends at.
pub(crate) fn behind(
    alloc: Global,
    count: usize,
    new: &[Stamped],
) -> Result<Vec<Stamped>, AllocError>
    ensures { IfOk result (λ given. given.items ≡ parts.behind count new.now) }
{
    if new.len() < count {
        return Ok(Vec::new(alloc));
    }
    let (pushes, operations) = new.split_at(count);
    all_earlier_by(alloc, end_of(pushes), operations)
}

// Operations with numbers that are so much less.
fn all_earlier_by(
    alloc: Global,
    count: u64,
    operations: &[Stamped],
) -> Result<Vec<Stamped>, AllocError>
    ensures { IfOk result (λ all. all.items ≡ map (parts.earlier_by count) operations.now) }
{
    let mut all = Vec::new(alloc);
    for operation in operations {
        all.push(earlier_by(count, operation))?;
    }
    Ok(all)
}

// The last number of the last one of some operations.
fn end_of(operations: &[Stamped]) -> u64
    ensures { result ≡ last_end operations.now }
{
    match operations.last() {
        Some(operation) => operation.last.unwrap_or(0),
        None => 0,
    }
}

fn earlier_by(count: u64, operation: &Stamped) -> Stamped
    ensures { result ≡ parts.earlier_by count operation.now }
{
    Stamped {
        actor: operation.actor,
        op: operation.op,
        first: operation.first.saturating_sub(count),
        last: earlier(count, operation.last),
        at: earlier(count, operation.at),
        reply: operation.reply,
    }
}

fn earlier(count: u64, number: Option<u64>) -> Option<u64>
    ensures { result ≡ option_map (λ number. number - count) number }
{
    match number {
        Some(number) => Some(number.saturating_sub(count)),
        None => None,
    }
}
