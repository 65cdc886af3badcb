//! How many pushes a queue has left until one of its words wears out.
ghost use Rattle.std.specs.Prelude.{◌≡◌};
ghost use Rattle.arena_queue.specs.PushesLeft as lasting;

use crate::algorithms::Algorithm;
use crate::queue::ArenaQueueOf;
use node_arena::Seat;

/// How many pushes a queue has left, and how often the counts of three of its words can still be raised.
#[derive(Clone, Copy, Debug, PartialEq, Eq)]
pub struct Left {
    /// At least so many pushes.
    pub pushes: u64,
    /// Free's: each node that is taken from the free list raises it, and each one that is given back.
    pub free: u64,
    /// Tail's: in the non-blocking queue each push raises it, by its own call or a later one; else nothing does.
    pub tail: u64,
    /// Head's: each value popped raises it.
    pub head: u64,
}

// How many pushes are left of a queue of so many nodes, by what is left of these counts.
fn pushes_left(nodes: u32, free: u64, tail: u64, head: u64) -> u64
    ensures { result ≡ lasting.pushes_left nodes free tail head }
{
    let nodes = u64::from(nodes);
    let by_free = free.saturating_sub(nodes) / 2;
    let by_tail = tail.saturating_sub(1);
    let by_head = head.saturating_sub(nodes);
    by_free.min(by_tail).min(by_head)
}

impl<A: Algorithm<B>, const B: u32> ArenaQueueOf<A, B> {
    ghost use Rattle.node_arena.specs.Seats.{KeepsStored, known_of, plan_of};
    ghost use Rattle.arena_queue.specs.Queues.{arena_of, IsQueueSeat};
    ghost use Rattle.arena_queue.specs.Lefts.{HasLeft};

    /// How many pushes are left at least until a word wears out, by the counts of Free, Tail and Head: while fewer take effect
    /// neither Tail nor Head is worn out, and while fewer take a node from the free list Free isn't. By a load of each. Takes
    /// no memory and doesn't wait.
    ///
    /// ```rust
    /// if queue.left(&mut seat).pushes < 1_000_000 {
    ///     make_another_queue();
    /// }
    /// ```
    pub fn left(&self, seat: &mut Seat) -> Left
        requires { IsQueueSeat self.now seat.old }
        ensures seat { IsQueueSeat self.now seat.new }
        ensures stored { KeepsStored seat.old seat.new }
        //= atomics/left (seat, stored, left): A seat that looks what is left of its queue is told what the counts of Free,
        //=   Tail and Head leave up to the greatest one, each as it was in a traced world whose history begins with what the
        //=   seat had seen, and that it has now seen; and for how many pushes, from that of Free's on, these words last at
        //=   least. It is ready as before, and stores the same.
        ensures left { HasLeft (plan_of (arena_of self.now))
            (known_of seat.old) result (known_of seat.new) }
    {
        let setup = self.arena.setup();
        let free = setup.limit - self.arena.reference(self.arena.look(seat, 1)).count();
        let tail = setup.limit - self.arena.reference(self.arena.look(seat, 3)).count();
        let head = setup.limit - self.arena.reference(self.arena.look(seat, 2)).count();
        Left {
            pushes: pushes_left(setup.size, free, tail, head),
            free,
            tail,
            head,
        }
    }
}
