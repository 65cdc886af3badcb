//! A queue whose calls are stepped becomes shares of it.
ghost use Rattle.std.specs.Prelude.{◌≡◌, map, IfOk, IfErr};
ghost use Rattle.std.specs.List.{All};
ghost use Rattle.shared_queue.specs.Seats.{IsBoth};
ghost use Rattle.shared_queue.specs.Sharing.{stepped_at, share_seat};
ghost use Rattle.shared_queue.specs.Stepped.{stepped_queue};

use crate::share::Share;
use crate::stepped::SteppedQueue;
use carriers::Carrier;
use history::Refusal;
use std::alloc::Global;
use std::sync::Arc;

/// A share of this queue for each of these seats, in their order.
///
/// Refused by `Memory` alone; the queue is then given up. Takes memory for the shares and the list, and doesn't wait.
pub fn deal<C: Carrier + Drop>(
    alloc: Global,
    queue: SteppedQueue<C>,
    seats: Vec<C::Seat>,
) -> Result<Vec<Share<C>>, Refusal>
    requires { All (IsBoth C.is_seat C.permits C.known (stepped_queue queue)) seats.items }
    //= calls/share_deal (queue, seats, only_memory): A queue whose calls are stepped and its seats become shares of it, in
    //=   their order. Or Memory.
    ensures queue { IfOk result (λ shares. All (λ h. stepped_at h ≡ queue) shares.items) }
    ensures seats { IfOk result (λ shares. map share_seat shares.items ≡ seats.items) }
    ensures only_memory { IfErr result (λ refusal. refusal ≡ Refusal.Memory) }
{
    let Ok(queue) = Arc::new(alloc, queue) else {
        return Err(Refusal::Memory);
    };
    let mut shares = Vec::new(alloc);
    for seat in seats {
        let Ok(share) = Arc::try_clone(&queue) else {
            return Err(Refusal::Memory);
        };
        let Ok(()) = shares.push(Share::new(share, seat)) else {
            return Err(Refusal::Memory);
        };
    }
    Ok(shares)
}
