//! What a queue of values tells beyond the calls of `Carrier`, to a seat with its share.
ghost use Rattle.std.specs.Prelude.{◌≡◌};

use crate::seats::OwnedSeat;
use carriers::Carrier;

/// A look of a seat at its queue, beyond the calls of `Carrier`, as at whether it is empty.
pub trait Look<C: Carrier> {
    /// What it tells.
    type Told;

    // What that says of the queue, and of the seat before and after.
    ghost tells: { C → C.Seat → Self.Told → C.Seat → Type 0 };

    /// The look, of a seat in no call, which is then in none either.
    fn look(queue: &C, seat: &mut C::Seat) -> Self::Told
        requires { C.is_seat queue.now seat.old }
        ensures seat { C.is_seat queue.now seat.new }
        ensures number { (C.known seat.new).number ≡ (C.known seat.old).number }
        ensures told { tells queue.now seat.old result seat.new };
}

impl<C: Carrier + Drop> OwnedSeat<C> {
    ghost use Rattle.owned.specs.Owned.{queue_of, seat_of};

    /// Looks at the queue, as `L` does by a seat of it.
    ///
    /// ```rust
    /// if owned.look::<LooksForValues>() == Emptiness::ShutEmpty {
    ///     return;
    /// }
    /// ```
    pub fn look<L: Look<C>>(&mut self) -> L::Told
        //= library/owned_looks (queue, number, told): A look by a seat with its share tells what that look at the queue tells
        //=   the seat itself, and keeps its queue.
        ensures queue { queue_of self.new ≡ queue_of self.old }
        ensures number { (C.known (seat_of self.new)).number ≡ (C.known (seat_of self.old)).number }
        ensures told { L.tells (queue_of self.old) (seat_of self.old) result (seat_of self.new) }
    {
        L::look(&self.queue, &mut self.seat)
    }
}
