//! The side of a channel that receives.
ghost use Rattle.std.specs.Prelude.{◌≡◌, ◌<◌};
ghost use Rattle.carriers.specs.Knowledge.{IsSoundOf};
ghost use Rattle.shared_queue.specs.Queues.{queue_of};
ghost use Rattle.shared_queue.specs.Seats.{IsTaker};

use crate::queue::SharedQueue;
use crate::sides::Side;
use carriers::Carrier;
use std::alloc::Global;
use std::sync::Arc;

/// A seat that pops, with a share of its queue and of the side of the receivers. The last receiver that is dropped shuts the
/// queue. Its type says that the seat is one of this queue's, in no call, and that it may pop.
#[derive(Drop)]
pub struct Receiver<C: Carrier + Drop> {
    pub(crate) queue: Arc<SharedQueue<C>, Global>,
    pub(crate) side: Arc<Side<C>, Global>,
    pub(crate) seat: C::Seat,
    ghost sits: { ∥ IsTaker C.is_seat C.permits C.known (queue_of queue.value) seat ∥₁ },
}

impl<C: Carrier + Drop> Receiver<C> {
    ghost use Rattle.shared_queue.specs.Handles.{receiver_queue, receiver_side, receiver_seat};

    pub(crate) fn new(
        queue: Arc<SharedQueue<C>, Global>,
        side: Arc<Side<C>, Global>,
        seat: C::Seat,
    ) -> Receiver<C>
        requires { IsTaker C.is_seat C.permits C.known (queue_of queue.value) seat }
        ensures queue { receiver_queue result ≡ queue_of queue.value }
        ensures side { receiver_side result ≡ side.value }
        ensures seat { receiver_seat result ≡ seat }
    {
        Receiver { queue, side, seat }
    }

    /// How many receivers there are at one moment. Takes no memory and doesn't wait.
    pub fn count(&self) -> usize
        ensures { 0 < result }
    {
        Arc::strong_count(&self.side)
    }

    /// The seat, which is no receiver's from now on: where it was the last one's, nobody shuts the queue. Takes no memory and
    /// doesn't wait.
    ///
    /// ```rust
    /// let seat = receiver.into_seat();
    /// ```
    pub fn into_seat(self) -> C::Seat
        //= carriers/channel_seats (seat, may): A sender, or a receiver, gives its seat back, as it is; that is the queue's, and
        //=   may do what it might.
        ensures seat { result ≡ receiver_seat self }
        ensures may { IsTaker C.is_seat C.permits C.known (receiver_queue self) result }
    {
        let Receiver {
            queue: _,
            side,
            seat,
        } = self;
        if let Some(side) = Arc::into_inner(side) {
            side.leave();
        }
        seat
    }

    /// What its seat knows is sound. Does nothing: it is there for its clause.
    pub fn is_sound(&self)
        //= carriers/channel_sound: What the seat of a sender knows is sound, and what that of a receiver knows; so the laws of
        //=   what seats have seen hold of these.
        ensures { IsSoundOf (C.permits (receiver_queue self.now)) (C.known (receiver_seat self.now)) }
    {}
}
