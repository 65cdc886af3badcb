//! What a seat can see of its queue without taking anything.
ghost use Rattle.std.specs.Prelude.{◌≡◌};
ghost use Rattle.line_table.specs.declared.lines.Kind.TheVariants.{NonBlocking};
ghost use Rattle.value_queue.specs.ValuesSeen.{known_by};
ghost use Rattle.value_queue.specs.Looks.{FoundSoOf, WasSoLongOf};

use crate::queue::QueueOf;
use arena_queue::Algorithm;
use node_arena::{Emptiness, Len, Seat};

impl<T, A: Algorithm<B>, const B: u32> QueueOf<T, A, B> {
    ghost use Rattle.node_arena.specs.Seats.{KeepsStored};
    ghost use Rattle.value_queue.specs.Queues.{IsQueueSeat};

    /// Whether the queue is empty, as `emptiness` of a queue of numbers tells, by three loads. Takes no memory and doesn't
    /// wait.
    ///
    /// ```rust
    /// match queue.emptiness(&mut seat) {
    ///     Emptiness::Empty | Emptiness::Holds => {}
    ///     // Nothing comes any more.
    ///     Emptiness::ShutEmpty => return,
    ///     // Others are popping: look again.
    ///     Emptiness::Moved => backoff.snooze(),
    /// }
    /// ```
    pub fn emptiness(&self, seat: &mut Seat<T>) -> Emptiness
        requires { IsQueueSeat self.now seat.old }
        ensures seat { IsQueueSeat self.now seat.new }
        ensures stored { KeepsStored seat.old seat.new }
        //= values/emptiness (seat, stored, found): A seat that looks whether its queue of values is empty is told so, shut
        //=   or not, or that it holds a value, as it was after some deeds that begin with those that the seat had seen and
        //=   that it has now seen; or that Head moved, and then it has seen more pops than before. It is in no call, as
        //=   before, and stores the same: its pocket, and whether it keeps its nodes.
        ensures found { FoundSoOf (known_by seat.old) result (known_by seat.new) }
    {
        self.arena.emptiness(seat)
    }

    /// How many values the queue holds, as `len` of a queue of numbers tells, by five loads. Of the non-blocking queue
    /// alone, whose Tail counts pushes. Takes no memory and doesn't wait.
    ///
    /// ```rust
    /// let len = queue.len(&mut seat);
    /// if len.least > 1000 {
    ///     start_another_worker();
    /// }
    /// ```
    pub fn len(&self, seat: &mut Seat<T>) -> Len
        requires seat { IsQueueSeat self.now seat.old }
        requires counts { A.kind ≡ NonBlocking }
        ensures seat { IsQueueSeat self.now seat.new }
        ensures stored { KeepsStored seat.old seat.new }
        //= values/len (seat, stored, long): A seat that looks how long its non-blocking queue of values is is told two
        //=   bounds, between which the length was after some deeds that begin with those that the seat had seen and that it
        //=   has now seen. They are at most as far apart as the pops that it has newly seen, and one. It is in no call, as
        //=   before, and stores the same.
        ensures long { WasSoLongOf (known_by seat.old) result (known_by seat.new) }
    {
        self.arena.len(seat)
    }
}
