//! Further senders and receivers of a channel whose seats are leased.
ghost use Rattle.std.specs.Prelude.{◌≡◌, IfSome};
ghost use Rattle.seat_pool.specs.Leases.{part_of};

use crate::receiver::Receiver;
use crate::sender::Sender;
use carriers::Carrier;
use seat_pool::SeatPool;
use std::sync::Arc;

impl<C: Carrier + Send + Sync + Drop> Sender<SeatPool<C>> {
    ghost use Rattle.shared_queue.specs.Handles.{sender_queue, sender_side, sender_seat};

    /// One more sender, by a seat that may do the same: it is leased until that sender is dropped. None where each such seat
    /// was found leased.
    ///
    /// Takes no memory and doesn't wait.
    ///
    /// ```rust
    /// let Some(other) = sender.try_clone() else {
    ///     return Err(Refusal::BadSize);
    /// };
    /// // The channel ends once both are dropped.
    /// ```
    pub fn try_clone(&self) -> Option<Sender<SeatPool<C>>>
        //= carriers/cloned (queue, counted, part): A further sender, or receiver, of one whose seat is leased, where it is
        //=   given, is of the same queue and side, and its seat is of the same part.
        ensures queue { IfSome result (λ h. sender_queue h ≡ sender_queue self.now) }
        ensures counted { IfSome result (λ h. sender_side h ≡ sender_side self.now) }
        ensures part { IfSome result
            (λ h. part_of (sender_seat h) ≡ part_of (sender_seat self.now)) }
    {
        let (Ok(queue), Ok(side)) = (Arc::try_clone(&self.queue), Arc::try_clone(&self.side)) else {
            return None;
        };
        let seat = self.seat.try_clone()?;
        Some(Sender { queue, side, seat })
    }
}

impl<C: Carrier + Send + Sync + Drop> Receiver<SeatPool<C>> {
    ghost use Rattle.shared_queue.specs.Handles.{receiver_queue, receiver_side, receiver_seat};

    /// One more receiver, by a seat that may do the same: it is leased until that receiver is dropped. None where each such
    /// seat was found leased.
    ///
    /// Takes no memory and doesn't wait.
    ///
    /// ```rust
    /// let other = receiver.try_clone();
    /// ```
    pub fn try_clone(&self) -> Option<Receiver<SeatPool<C>>>
        //= carriers/cloned (queue, counted, part)
        ensures queue { IfSome result (λ h. receiver_queue h ≡ receiver_queue self.now) }
        ensures counted { IfSome result (λ h. receiver_side h ≡ receiver_side self.now) }
        ensures part { IfSome result
            (λ h. part_of (receiver_seat h) ≡ part_of (receiver_seat self.now)) }
    {
        let (Ok(queue), Ok(side)) = (Arc::try_clone(&self.queue), Arc::try_clone(&self.side)) else {
            return None;
        };
        let seat = self.seat.try_clone()?;
        Some(Receiver { queue, side, seat })
    }
}
