//! What a seat with its share does beyond the calls of `Carrier`.
ghost use Rattle.std.specs.Prelude.{◌≡◌};

use crate::seats::OwnedSeat;
use carriers::Carrier;

/// An act of a seat on its queue, beyond the calls of `Carrier`, as a push of many values: a value, which has what it needs. One that
/// has nothing and asks for nothing is a `Look`.
pub trait Act<C: Carrier> {
    /// What it tells.
    type Told;

    // What it asks for, of the queue and of the seat.
    ghost asks: { Self → C → C.Seat → Type 0 };

    // What that says of the queue, and of the seat before and after.
    ghost tells: { Self → C → C.Seat → Self.Told → C.Seat → Type 0 };

    /// The act, of a seat in no call, which is then in none either.
    fn act(self, queue: &C, seat: &mut C::Seat) -> Self::Told
        requires seat { C.is_seat queue.now seat.old }
        requires asked { asks self queue.now seat.old }
        ensures seat { C.is_seat queue.now seat.new }
        ensures number { (C.known seat.new).number ≡ (C.known seat.old).number }
        ensures told { tells self queue.now seat.old result seat.new };
}

impl<C: Carrier + Drop> OwnedSeat<C> {
    ghost use Rattle.owned.specs.Owned.{queue_of, seat_of};

    /// Does this by the seat, which has what it asks for.
    ///
    /// ```rust
    /// let pushed = owned.act(PushesSome { values, turns: 8 })?;
    /// ```
    pub fn act<A: Act<C>>(&mut self, act: A) -> A::Told
        requires { A.asks act (queue_of self.old) (seat_of self.old) }
        //= library/owned_acts (queue, number, told): An act by a seat with its share asks for what that act asks of the queue and
        //=   of the seat itself, tells what it tells of them, and keeps its queue.
        ensures queue { queue_of self.new ≡ queue_of self.old }
        ensures number { (C.known (seat_of self.new)).number ≡ (C.known (seat_of self.old)).number }
        ensures told { A.tells act (queue_of self.old) (seat_of self.old) result (seat_of self.new) }
    {
        act.act(&self.queue, &mut self.seat)
    }
}
