//! What a seat can see of its queue without taking anything.
ghost use Rattle.std.specs.Prelude.{◌≡◌};
ghost use Rattle.line_table.specs.declared.lines.Kind.TheVariants.{NonBlocking};

use crate::algorithms::Algorithm;
use crate::queue::ArenaQueueOf;
use node_arena::{Emptiness, Len, Seat};

impl<A: Algorithm<B>, const B: u32> ArenaQueueOf<A, B> {
    ghost use Rattle.node_arena.specs.Seats.{KeepsStored, known_of};
    ghost use Rattle.node_arena.specs.Looks.{FoundSo, WasSoLong};
    ghost use Rattle.arena_queue.specs.Queues.{IsQueueSeat};

    /// Whether the queue is empty, as it was at a moment no older than what the seat had seen before; or that pops took
    /// effect while the seat looked. By three loads: of Head, of what follows its node, and of Head again. Takes no memory
    /// and doesn't wait.
    ///
    /// ```rust
    /// match queue.emptiness(&mut seat) {
    ///     Emptiness::Empty | Emptiness::Holds => {}
    ///     // Nothing comes any more.
    ///     Emptiness::ShutEmpty => return,
    ///     // Others are popping: look again.
    ///     Emptiness::Moved => backoff.snooze(),
    /// }
    /// ```
    pub fn emptiness(&self, seat: &mut Seat) -> Emptiness
        requires { IsQueueSeat self.now seat.old }
        ensures seat { IsQueueSeat self.now seat.new }
        ensures stored { KeepsStored seat.old seat.new }
        //= atomics/emptiness (seat, stored, found)
        ensures found { FoundSo (known_of seat.old) result (known_of seat.new) }
    {
        self.arena.emptiness(seat)
    }

    /// How many values the queue holds, as bounds of what it held at a moment no older than what the seat had seen before:
    /// one number where neither Head nor Tail moved meanwhile. Of the non-blocking queue alone, whose Tail counts pushes. By
    /// five loads: of Head, of Tail, of what follows its node, of Tail again, and of Head again. Takes no memory and doesn't
    /// wait.
    ///
    /// ```rust
    /// let len = queue.len(&mut seat);
    /// if len.least > 1000 {
    ///     start_another_worker();
    /// }
    /// ```
    pub fn len(&self, seat: &mut Seat) -> Len
        requires seat { IsQueueSeat self.now seat.old }
        requires counts { A.kind ≡ NonBlocking }
        ensures seat { IsQueueSeat self.now seat.new }
        ensures stored { KeepsStored seat.old seat.new }
        //= atomics/len (seat, stored, long)
        ensures long { WasSoLong (known_of seat.old) result (known_of seat.new) }
    {
        self.arena.len(seat)
    }
}
