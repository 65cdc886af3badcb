//! An office that is closed with an order in it.
ghost use Rattle.std.specs.Prelude.{◌≡◌, Some, IfOk, slice_get};
ghost use Rattle.carriers.specs.Rests.{left_in};
ghost use Rattle.carriers.specs.Deliveries.{values_of};

use crate::orders::{Order, Orders};
use carriers::RestOf;
use history::Refusal;
use post_office::PostOffice;
use std::alloc::Global;

// The first order of this seat among those left.
fn first_of(rest: RestOf<Order>, seat: u16) -> Option<Order>
    ensures { result ≡ slice_get (values_of seat (left_in rest)) 0 }
{
    for item in rest {
        if item.from == seat {
            return Some(item.value);
        }
    }
    None
}

/// Opens an office of one waiter and one cook, sends this order, which nobody reads, and closes the office: what is left of
/// the waiter is this order.
pub fn left_behind(alloc: Global, order: Order) -> Result<Option<Order>, Refusal>
    ensures { IfOk result (λ left. left ≡ Some order) }
{
    let (office, mut waiters, cooks) = PostOffice::<Orders>::open(alloc, 16, 1, 1)?;
    let Some(mut waiter) = waiters.pop() else {
        return Err(Refusal::BadSize);
    };
    waiter.try_send(order)?;
    let Ok(()) = waiters.push(waiter) else {
        return Err(Refusal::Memory);
    };
    match office.close(alloc, waiters, cooks) {
        Ok((rest, _end)) => Ok(first_of(rest, 1)),
        Err(_) => Err(Refusal::Busy),
    }
}
