//! What a seat can see of its queue without taking anything.
ghost use Rattle.value_queue.specs.Looks.{FoundSoOf};
ghost use Rattle.ring_values.specs.Looks.{WasSoLongOf, LeavesPushesOf};
ghost use Rattle.ring_values.specs.ValuesSeen.{known_by};

use crate::queue::RingValues;
use node_arena::{Emptiness, Len};
use ring_queue::Seat;

impl<T> RingValues<T> {
    ghost use Rattle.ring_queue.specs.Seats.{KeepsName};
    ghost use Rattle.ring_values.specs.Queues.{plan_of, IsQueueSeat};

    /// Whether the queue is empty, as `emptiness` of a ring of numbers tells, by two or three loads. Takes no memory and doesn't
    /// wait.
    ///
    /// ```rust
    /// match queue.emptiness(&mut seat) {
    ///     Emptiness::Empty | Emptiness::Holds => {}
    ///     // Nothing comes any more.
    ///     Emptiness::ShutEmpty => return,
    ///     // Others are popping: look again.
    ///     Emptiness::Moved => backoff.snooze(),
    /// }
    /// ```
    pub fn emptiness(&self, seat: &mut Seat<T>) -> Emptiness
        requires { IsQueueSeat self.now seat.old }
        ensures seat { IsQueueSeat self.now seat.new }
        ensures name { KeepsName seat.old seat.new }
        //= ring_values/emptiness (seat, name, found): A seat that looks whether its ring of values is empty is told so, shut or
        //=   not, or that it holds a value, as it was after some deeds that begin with those that the seat had seen and that it
        //=   has now seen; or that Head moved, and then it has seen more pops than before. It is in no call, as before, with no
        //=   slot.
        ensures found { FoundSoOf (known_by seat.old) result (known_by seat.new) }
    {
        self.ring.emptiness_in(seat)
    }

    /// How many values the queue holds, as `len` of a ring of numbers tells, by three loads. Takes no memory and doesn't wait.
    ///
    /// ```rust
    /// let len = queue.len(&mut seat);
    /// if len.least > 1000 {
    ///     start_another_worker();
    /// }
    /// ```
    pub fn len(&self, seat: &mut Seat<T>) -> Len
        requires { IsQueueSeat self.now seat.old }
        ensures seat { IsQueueSeat self.now seat.new }
        ensures name { KeepsName seat.old seat.new }
        //= ring_values/len (seat, name, long): A seat that looks how long its ring of values is is told two bounds, between
        //=   which the length was after some deeds that begin with those that the seat had seen and that it has now seen. They
        //=   are at most as far apart as the pops that it has newly seen. It is in no call, as before, with no slot.
        ensures long { WasSoLongOf seat.old seat.new result }
    {
        self.ring.len_in(seat)
    }

    /// How many values may still be pushed before a push is refused `WornOut`, as `left` of a ring of numbers tells, by
    /// one load. Takes no memory and doesn't wait.
    ///
    /// ```rust
    /// if queue.left(&mut seat) < 1_000_000 {
    ///     make_another_queue();
    /// }
    /// ```
    pub fn left(&self, seat: &mut Seat<T>) -> u64
        requires { IsQueueSeat self.now seat.old }
        ensures seat { IsQueueSeat self.now seat.new }
        ensures name { KeepsName seat.old seat.new }
        //= ring_values/left (seat, name, left): A seat that looks how many pushes its ring of values has left is told how
        //=   many places are left up to its limit after some deeds that begin with those that the seat had seen and that it has
        //=   now seen. It is in no call, as before, with no slot.
        ensures left { LeavesPushesOf (plan_of self.now) seat.old seat.new result }
    {
        self.ring.left_in(seat)
    }
}
