//! Pushes that stay behind a shut: those that began by a number.
ghost use Rattle.std.specs.Prelude.{◌≡◌, IfOk};
ghost use Rattle.std.specs.List.{filter};
ghost use Rattle.waiting_orders.specs.Nodes as next;

use crate::operations::is_open_at;
use history::Stamped;
use std::alloc::{AllocError, Global};

// Whether the push at a place began by a number.
fn began_by(pushes: &[Stamped], limit: Option<u64>, place: usize) -> bool
    ensures { result ≡ next.began_by pushes.now limit place }
{
    match pushes.get(place) {
        Some(push) => is_open_at(push.first, limit),
        None => false,
    }
}

// Whether the push at a place began by a number or never ended.
fn may_go(pushes: &[Stamped], limit: Option<u64>, place: usize) -> bool
    ensures { result ≡ next.may_go pushes.now limit place }
{
    match pushes.get(place) {
        Some(push) => is_open_at(push.first, limit) || push.last.is_none(),
        None => true,
    }
}

/// Whether each of the pushes at some places began by a number or never ended.
pub(crate) fn all_may_go(pushes: &[Stamped], limit: Option<u64>, places: &[usize]) -> bool
    ensures { result ≡ next.each (next.may_go pushes.now limit) places.now }
{
    places.iter().all(|place| may_go(pushes, limit, *place))
}

/// The places of those pushes that began by a number.
pub(crate) fn staying(
    alloc: Global,
    pushes: &[Stamped],
    limit: Option<u64>,
    places: &[usize],
) -> Result<Vec<usize>, AllocError>
    ensures { IfOk result (λ kept.
        kept.items ≡ filter (next.began_by pushes.now limit) places.now) }
{
    let mut kept = Vec::new(alloc);
    for place in places {
        if began_by(pushes, limit, *place) {
            kept.push(*place)?;
        }
    }
    Ok(kept)
}
