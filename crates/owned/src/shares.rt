//! A queue becomes its seats, each with a share.
ghost use Rattle.std.specs.Prelude.{◌≡◌, map, IfOk, IfErr};
ghost use Rattle.std.specs.List.{All};
ghost use Rattle.owned.specs.Owned.{queue_of, seat_of};

use crate::seats::OwnedSeat;
use carriers::Carrier;
use history::Refusal;
use std::alloc::Global;
use std::sync::Arc;

/// Each of these seats with a share of this queue, in their order.
///
/// Refused by `Memory` alone; the queue is then given up. Takes memory for the shares and the list, and doesn't wait.
///
/// ```rust
/// let (queue, seats) = ValueQueue::<String>::new(alloc, 1024, &[Role::Giver, Role::Taker])?;
/// let owned = deal(alloc, queue, seats)?;
/// ```
pub fn deal<C: Carrier + Drop>(
    alloc: Global,
    queue: C,
    seats: Vec<C::Seat>,
) -> Result<Vec<OwnedSeat<C>>, Refusal>
    requires { All (C.is_seat queue) seats.items }
    //= library/deal (queue, seats, only_memory): A queue and its seats become seats with shares of it, in their order.
    //=   Or Memory.
    ensures queue { IfOk result (λ owned. All (λ s. queue_of s ≡ queue) owned.items) }
    ensures seats { IfOk result (λ owned. map seat_of owned.items ≡ seats.items) }
    ensures only_memory { IfErr result (λ refusal. refusal ≡ Refusal.Memory) }
{
    let Ok(queue) = Arc::new(alloc, queue) else {
        return Err(Refusal::Memory);
    };
    let mut owned = Vec::new(alloc);
    for seat in seats {
        let Ok(share) = Arc::try_clone(&queue) else {
            return Err(Refusal::Memory);
        };
        let Ok(()) = owned.push(OwnedSeat::new(share, seat)) else {
            return Err(Refusal::Memory);
        };
    }
    Ok(owned)
}
