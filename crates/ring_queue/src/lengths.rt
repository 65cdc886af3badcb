//! How many values a ring holds, and whether it is empty, without taking anything.
ghost use Rattle.ring_queue.specs.PlacedSeats.{IsWordSeat};
ghost use Rattle.ring_queue.specs.Seats.{IsAtRest, KeepsName, KeepsSlots, known_of};
ghost use Rattle.ring_queue.specs.Queues.{IsNumberSeat, IsRingSeat};
ghost use Rattle.node_arena.specs.Looks.{FoundSo};
ghost use Rattle.ring_queue.specs.Lengths.{WasSoLong, LeavesPushes};

use crate::places::SHUT;
use crate::queue::RingQueue;
use crate::seats::Seat;
use node_arena::{Emptiness, Len};

impl<T> RingQueue<T> {
    /// Whether the ring is empty, as it was at a moment no older than what the seat had seen before; or that pops took effect
    /// while the seat looked. By two loads, of Head and of Tail, and where Tail isn't at Head by one more of Head. Takes no memory
    /// and doesn't wait.
    ///
    /// ```rust
    /// match queue.emptiness(&mut seat) {
    ///     Emptiness::Empty | Emptiness::Holds => {}
    ///     // Nothing comes any more.
    ///     Emptiness::ShutEmpty => return,
    ///     // Others are popping: look again.
    ///     Emptiness::Moved => backoff.snooze(),
    /// }
    /// ```
    pub fn emptiness(&self, seat: &mut Seat<T>) -> Emptiness
        requires { IsNumberSeat self.now seat.old }
        ensures seat { IsNumberSeat self.now seat.new }
        ensures name { KeepsName seat.old seat.new }
        //= ring/emptiness (seat, name, found): A seat that looks whether its ring is empty is told so, shut or not, or that it
        //=   holds a value, as it was after some history that begins with what the seat had seen and that it has now seen; or
        //=   that Head moved, and then it has seen more pops than before. It is in no call, as before.
        ensures found { FoundSo (known_of seat.old) result (known_of seat.new) }
    {
        self.emptiness_in(seat)
    }

    /// How many values the ring holds, as bounds of what it held at a moment no older than what the seat had seen before: one
    /// number where Head didn't move meanwhile. By three loads, of Head, of Tail and of Head again. Takes no memory and doesn't wait.
    ///
    /// ```rust
    /// let len = queue.len(&mut seat);
    /// if len.least > 1000 {
    ///     start_another_worker();
    /// }
    /// ```
    pub fn len(&self, seat: &mut Seat<T>) -> Len
        requires { IsNumberSeat self.now seat.old }
        ensures seat { IsNumberSeat self.now seat.new }
        ensures name { KeepsName seat.old seat.new }
        //= ring/len (seat, name, long): A seat that looks how long its ring is is told two bounds, between which the length was
        //=   after some history that begins with what the seat had seen and that it has now seen. They are at most as far apart
        //=   as the pops that it has newly seen. It is in no call, as before.
        ensures long { WasSoLong (known_of seat.old) result (known_of seat.new) }
    {
        self.len_in(seat)
    }

    /// How many values may still be pushed before a push is refused `WornOut`. By one load, of Tail. Takes no memory and doesn't wait.
    ///
    /// ```rust
    /// if queue.left(&mut seat) < 1_000_000 {
    ///     make_another_queue();
    /// }
    /// ```
    pub fn left(&self, seat: &mut Seat<T>) -> u64
        requires { IsNumberSeat self.now seat.old }
        ensures seat { IsNumberSeat self.now seat.new }
        ensures name { KeepsName seat.old seat.new }
        //= ring/left (seat, name, left): A seat that looks how many pushes its ring has left is told how many places are left
        //=   up to its limit after some history that begins with what the seat had seen and that it has now seen. It is in no
        //=   call, as before.
        ensures left { LeavesPushes self.now.plan (known_of seat.old) result (known_of seat.new) }
    {
        self.left_in(seat)
    }

    /// Whether the ring is empty, as `emptiness` tells, of a ring that carries values too. Takes no memory and doesn't wait.
    pub fn emptiness_in(&self, seat: &mut Seat<T>) -> Emptiness
        requires { IsRingSeat self.now seat.old }
        ensures seat { IsRingSeat self.now seat.new }
        //= ring/look_slots: A look at how many values a ring holds, or how many pushes it has left, moves no slot.
        ensures slots { KeepsSlots seat.old seat.new }
        ensures name { KeepsName seat.old seat.new }
        //= ring/emptiness (seat, name, found)
        ensures found { FoundSo (known_of seat.old) result (known_of seat.new) }
    {
        self.look_at_head(seat);
        let tail = self.see_tail(seat);
        if tail == seat.head {
            return Emptiness::Empty;
        }
        if tail == seat.head + SHUT {
            return Emptiness::ShutEmpty;
        }
        self.look_at_head(seat);
        let places = seat.tail;
        if places <= seat.head {
            return Emptiness::Moved;
        }
        Emptiness::Holds
    }

    /// How many values the ring holds, as `len` tells, of a ring that carries values too. Takes no memory and doesn't wait.
    pub fn len_in(&self, seat: &mut Seat<T>) -> Len
        requires { IsRingSeat self.now seat.old }
        ensures seat { IsRingSeat self.now seat.new }
        //= ring/look_slots
        ensures slots { KeepsSlots seat.old seat.new }
        ensures name { KeepsName seat.old seat.new }
        //= ring/len (seat, name, long)
        ensures long { WasSoLong (known_of seat.old) result (known_of seat.new) }
    {
        self.len_at_rest(seat)
    }

    /// How many values the ring holds, as `len` tells, of a ring whose values lie in their places. Takes no memory and doesn't wait.
    pub fn len_words(&self, seat: &mut Seat<T>) -> Len
        requires { IsWordSeat self.now seat.old }
        ensures seat { IsWordSeat self.now seat.new }
        //= ring/look_slots
        ensures slots { KeepsSlots seat.old seat.new }
        ensures name { KeepsName seat.old seat.new }
        //= ring/len (seat, name, long)
        ensures long { WasSoLong (known_of seat.old) result (known_of seat.new) }
    {
        self.len_at_rest(seat)
    }

    // How many values a ring holds, by a seat in no call.
    fn len_at_rest(&self, seat: &mut Seat<T>) -> Len
        requires { IsAtRest self.now.plan self.now.table.shared.table_id seat.old }
        ensures seat { IsAtRest self.now.plan self.now.table.shared.table_id seat.new }
        ensures slots { KeepsSlots seat.old seat.new }
        ensures name { KeepsName seat.old seat.new }
        ensures long { WasSoLong (known_of seat.old) result (known_of seat.new) }
    {
        self.look_at_head(seat);
        let first = seat.head;
        self.see_tail(seat);
        self.look_at_head(seat);
        Len {
            least: seat.tail.saturating_sub(seat.head),
            most: seat.tail - first,
        }
    }

    /// How many values may still be pushed, as `left` tells, of a ring that carries values too. Takes no memory and doesn't
    /// wait.
    pub fn left_in(&self, seat: &mut Seat<T>) -> u64
        requires { IsRingSeat self.now seat.old }
        ensures seat { IsRingSeat self.now seat.new }
        //= ring/look_slots
        ensures slots { KeepsSlots seat.old seat.new }
        ensures name { KeepsName seat.old seat.new }
        //= ring/left (seat, name, left)
        ensures left { LeavesPushes self.now.plan (known_of seat.old) result (known_of seat.new) }
    {
        let plan = self.sizes();
        self.see_tail(seat);
        plan.limit.saturating_sub(seat.tail)
    }
}
