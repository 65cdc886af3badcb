//! Seats become the senders, or the receivers, of a channel.
ghost use Rattle.std.specs.Prelude.{◌≡◌, map, IfOk, IfErr};
ghost use Rattle.std.specs.List.{All};
ghost use Rattle.shared_queue.specs.Queues.{queue_of};
ghost use Rattle.shared_queue.specs.Seats.{IsGiver, IsTaker};
ghost use Rattle.shared_queue.specs.Handles.{sender_queue, sender_side, sender_seat};
ghost use Rattle.shared_queue.specs.Handles.{receiver_queue, receiver_side, receiver_seat, side_seat};

use crate::closers::Closer;
use crate::queue::SharedQueue;
use crate::receiver::Receiver;
use crate::sender::Sender;
use crate::sides::Side;
use carriers::Carrier;
use history::Refusal;
use std::alloc::Global;
use std::sync::Arc;

/// The senders of this queue, one for each of these seats, in their order. The closer is a further seat: it shuts the queue as
/// the last of them is dropped, so at once where there are none.
///
/// Refused by `Memory` alone; the queue is then shut. Takes memory for the shares and the list, and doesn't wait.
///
/// ```rust
/// let queue = Arc::new(alloc, SharedQueue::new(queue))?;
/// let senders = senders(alloc, &queue, one_closer, givers)?;
/// let receivers = receivers(alloc, &queue, other_closer, takers)?;
/// ```
pub fn senders<C: Carrier + Drop>(
    alloc: Global,
    queue: &Arc<SharedQueue<C>, Global>,
    closer: C::Seat,
    seats: Vec<C::Seat>,
) -> Result<Vec<Sender<C>>, Refusal>
    requires closer { IsGiver C.is_seat C.permits C.known (queue_of queue.now.value) closer }
    requires seats { All (IsGiver C.is_seat C.permits C.known (queue_of queue.now.value)) seats.items }
    //= carriers/channels (queue, seats, closer, only_memory): The senders of a queue of values, and its receivers, are a handle
    //=   for each seat, in their order, of that queue. Each seat is as it was given, and so is the one that ends their side:
    //=   nothing is pushed, popped or shut. Or Memory.
    ensures queue { IfOk result
        (λ senders. All (λ h. sender_queue h ≡ queue_of queue.now.value) senders.items) }
    ensures seats { IfOk result (λ senders. map sender_seat senders.items ≡ seats.items) }
    ensures closer { IfOk result
        (λ senders. All (λ h. side_seat (sender_side h) ≡ closer) senders.items) }
    ensures only_memory { IfErr result (λ refusal. refusal ≡ Refusal.Memory) }
{
    let Ok(share) = Arc::try_clone(queue) else {
        return Err(Refusal::Memory);
    };
    let Ok(side) = Arc::new(alloc, Side::new(Closer::new(share, closer))) else {
        return Err(Refusal::Memory);
    };
    let mut senders = Vec::new(alloc);
    for seat in seats {
        let (Ok(share), Ok(part)) = (Arc::try_clone(queue), Arc::try_clone(&side)) else {
            return Err(Refusal::Memory);
        };
        if senders.push(Sender::new(share, part, seat)).is_err() {
            return Err(Refusal::Memory);
        }
    }
    Ok(senders)
}

/// The receivers of this queue, one for each of these seats, in their order. The closer is a further seat, which may push: it
/// shuts the queue as the last of them is dropped, so at once where there are none.
///
/// Refused by `Memory` alone; the queue is then shut. Takes memory for the shares and the list, and doesn't wait.
///
/// ```rust
/// let receivers = receivers(alloc, &queue, other_closer, takers)?;
/// ```
pub fn receivers<C: Carrier + Drop>(
    alloc: Global,
    queue: &Arc<SharedQueue<C>, Global>,
    closer: C::Seat,
    seats: Vec<C::Seat>,
) -> Result<Vec<Receiver<C>>, Refusal>
    requires closer { IsGiver C.is_seat C.permits C.known (queue_of queue.now.value) closer }
    requires seats { All (IsTaker C.is_seat C.permits C.known (queue_of queue.now.value)) seats.items }
    //= carriers/channels (queue, seats, closer, only_memory)
    ensures queue { IfOk result
        (λ receivers. All (λ h. receiver_queue h ≡ queue_of queue.now.value) receivers.items) }
    ensures seats { IfOk result (λ receivers. map receiver_seat receivers.items ≡ seats.items) }
    ensures closer { IfOk result
        (λ receivers. All (λ h. side_seat (receiver_side h) ≡ closer) receivers.items) }
    ensures only_memory { IfErr result (λ refusal. refusal ≡ Refusal.Memory) }
{
    let Ok(share) = Arc::try_clone(queue) else {
        return Err(Refusal::Memory);
    };
    let Ok(side) = Arc::new(alloc, Side::new(Closer::new(share, closer))) else {
        return Err(Refusal::Memory);
    };
    let mut receivers = Vec::new(alloc);
    for seat in seats {
        let (Ok(share), Ok(part)) = (Arc::try_clone(queue), Arc::try_clone(&side)) else {
            return Err(Refusal::Memory);
        };
        if receivers.push(Receiver::new(share, part, seat)).is_err() {
            return Err(Refusal::Memory);
        }
    }
    Ok(receivers)
}
