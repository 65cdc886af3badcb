//! The iterators as methods of every queue.
ghost use Rattle.std.specs.Prelude.{◌≡◌, false};

use crate::until_empty::UntilEmpty;
use crate::until_shut::UntilShut;
use history::Fifo;
use std::sync::Wait;

/// Extends [`Fifo`] with iterators.
pub trait FifoExt: Fifo {
    ghost use Rattle.carriers.specs.Empties.{queue_of as queue_until_empty, seat_of as seat_until_empty};
    ghost use Rattle.carriers.specs.Empties.{has_ended as has_found_empty};
    ghost use Rattle.carriers.specs.Shuts.{queue_of as queue_until_shut, seat_of as seat_until_shut};
    ghost use Rattle.carriers.specs.Shuts.{has_ended as has_found_shut};

    /// The values that are in the queue, taken by this seat, which may pop, until it is found empty. Takes no memory and doesn't
    /// wait.
    ///
    /// ```rust
    /// for taken in queue.drain(rt, &mut taker) {
    ///     last = Some(taken?.body);
    /// }
    /// ```
    final fn drain<'a, R: Wait>(
        &'a self,
        rt: &'a R,
        seat: &'a mut Self::Seat,
    ) -> UntilEmpty<'a, Self, R>
    where
        Self: Sized,
        //= queues/drains (queue, same, seat, ended): An iterator over a queue has that queue and a borrow of that
        //=   seat, whose later values are the seat's, and has not ended.
        ensures queue { queue_until_empty result ≡ self.now }
        ensures same { (seat_until_empty result).ghost_name ≡ seat.entry.ghost_name }
        ensures seat { (seat_until_empty result).now ≡ seat.old }
        ensures ended { has_found_empty result ≡ false }
    {
        UntilEmpty::new(self, rt, seat)
    }

    /// The values of the queue, taken by this seat, which may pop, until it is shut and empty. Takes no memory and doesn't wait.
    ///
    /// ```rust
    /// for taken in queue.iter(rt, &mut taker) {
    ///     work_on(taken?.body);
    /// }
    /// ```
    final fn iter<'a, R: Wait>(
        &'a self,
        rt: &'a R,
        seat: &'a mut Self::Seat,
    ) -> UntilShut<'a, Self, R>
    where
        Self: Sized,
        //= queues/drains (queue, same, seat, ended)
        ensures queue { queue_until_shut result ≡ self.now }
        ensures same { (seat_until_shut result).ghost_name ≡ seat.entry.ghost_name }
        ensures seat { (seat_until_shut result).now ≡ seat.old }
        ensures ended { has_found_shut result ≡ false }
    {
        UntilShut::new(self, rt, seat)
    }
}

impl<Q: Fifo> FifoExt for Q {}
