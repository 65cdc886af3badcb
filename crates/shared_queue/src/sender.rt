//! The side of a channel that sends.
ghost use Rattle.std.specs.Prelude.{◌≡◌, ◌<◌};
ghost use Rattle.carriers.specs.Knowledge.{IsSoundOf};
ghost use Rattle.shared_queue.specs.Queues.{queue_of};
ghost use Rattle.shared_queue.specs.Seats.{IsGiver};

use crate::queue::SharedQueue;
use crate::sides::Side;
use carriers::Carrier;
use std::alloc::Global;
use std::sync::Arc;

/// A seat that pushes, with a share of its queue and of the side of the senders. The last sender that is dropped shuts the
/// queue. Its type says that the seat is one of this queue's, in no call, and that it may push.
#[derive(Drop)]
pub struct Sender<C: Carrier + Drop> {
    pub(crate) queue: Arc<SharedQueue<C>, Global>,
    pub(crate) side: Arc<Side<C>, Global>,
    pub(crate) seat: C::Seat,
    ghost sits: { ∥ IsGiver C.is_seat C.permits C.known (queue_of queue.value) seat ∥₁ },
}

impl<C: Carrier + Drop> Sender<C> {
    ghost use Rattle.shared_queue.specs.Handles.{sender_queue, sender_side, sender_seat};

    pub(crate) fn new(
        queue: Arc<SharedQueue<C>, Global>,
        side: Arc<Side<C>, Global>,
        seat: C::Seat,
    ) -> Sender<C>
        requires { IsGiver C.is_seat C.permits C.known (queue_of queue.value) seat }
        ensures queue { sender_queue result ≡ queue_of queue.value }
        ensures side { sender_side result ≡ side.value }
        ensures seat { sender_seat result ≡ seat }
    {
        Sender { queue, side, seat }
    }

    /// How many senders there are at one moment. Takes no memory and doesn't wait.
    pub fn count(&self) -> usize
        ensures { 0 < result }
    {
        Arc::strong_count(&self.side)
    }

    /// The seat, which is no sender's from now on: where it was the last one's, nobody shuts the queue. Takes no memory and
    /// doesn't wait.
    ///
    /// ```rust
    /// let seat = sender.into_seat();
    /// ```
    pub fn into_seat(self) -> C::Seat
        //= carriers/channel_seats (seat, may)
        ensures seat { result ≡ sender_seat self }
        ensures may { IsGiver C.is_seat C.permits C.known (sender_queue self) result }
    {
        let Sender {
            queue: _,
            side,
            seat,
        } = self;
        if let Some(side) = Arc::into_inner(side) {
            side.leave();
        }
        seat
    }

    /// What its seat knows is sound. Does nothing: it is there for its clause.
    pub fn is_sound(&self)
        //= carriers/channel_sound
        ensures { IsSoundOf (C.permits (sender_queue self.now)) (C.known (sender_seat self.now)) }
    {}
}
