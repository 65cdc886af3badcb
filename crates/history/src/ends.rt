//! The end of a queue.
ghost use Rattle.std.specs.Prelude.{◌≡◌, List, map, IfErr, IfOk};
ghost use Rattle.std.specs.List.{All};
ghost use Rattle.history.specs.Ends.{Closes};

use crate::operations::Taken;
use crate::queues::Fifo;
use crate::refusals::Refusal;
use crate::rests::Rest;
use std::alloc::Global;

/// A queue that wasn't closed, for want of memory, and the seats that were handed in: all as they were.
#[derive(Drop)]
pub struct Unclosed<Q, S> {
    pub queue: Q,
    pub seats: Vec<S>,
}

/// `Memory`; the queue and the seats are dropped. Takes no memory.
impl<Q: Drop, S: Drop> From<Unclosed<Q, S>> for Refusal {
    ghost use Rattle.std.specs.Prelude.{◌≡◌};
    ghost use Rattle.history.specs.declared.refusals.Refusal.TheVariants.{Memory};

    ghost from_gives = { λ _ refusal. refusal ≡ Memory };

    fn from(_unclosed: Unclosed<Q, S>) -> Refusal {
        Refusal::Memory
    }
}

/// A queue that can be ended, which gives what is left of it.
pub trait Close: Fifo + Sized {
    ghost use Rattle.std.specs.Global.{Vec};
    ghost use Rattle.history.specs.declared.operations.Taken.{Taken};
    ghost use Rattle.history.specs.declared.rests.Rest.{Rest};
    ghost use Rattle.history.specs.Seats.{Known};

    /// What the end of a queue gives beside the rest, and nothing else does: it shows that the rest is the queue's own.
    type End: Drop;

    // This is the end of this queue, and it leaves this rest.
    ghost ends: { Self → Self.End → Rest → Type 0 };

    // The seats that are handed in are enough for an end of this queue: any, or all.
    ghost asks: { Self → List Known → Type 0 };

    // There is room for all that this queue may hold.
    ghost has_room: { Self → Vec Taken → Type 0 };

    /// Memory for what is left of the queue, with which `close_with` ends it.
    ///
    /// Refused by `Memory` alone. Takes memory for the values left, and doesn't wait.
    fn room(&self, alloc: Global) -> Result<Vec<Taken>, Refusal>
        //= queues/room (room, only_memory): Room for what is left of a queue is what it names as room for its end;
        //=   `ArenaQueue` and `AnyQueue` name what an arena does. Or Memory.
        ensures room { IfOk result (has_room self.now) }
        ensures only_memory { IfErr result (λ refusal. refusal ≡ Refusal.Memory) };

    /// Ends the queue and the seats handed in: what is left, how many values were taken, whether these seats made all
    /// pushes and pops and, where the queue was shut, the shut, and whether it was; with it comes the queue's end. What shuts
    /// a queue and leaves it there is `try_shut`.
    ///
    /// Takes no memory and doesn't wait.
    ///
    /// ```rust
    /// let room = queue.room(alloc)?;
    /// let (mut rest, _) = queue.close_with(room, seats);
    /// let front = rest.next();
    /// ```
    fn close_with(self, room: Vec<Taken>, seats: Vec<Self::Seat>) -> (Rest, Self::End)
        requires room { has_room self room }
        requires seats { All (Self.is_seat self) seats.items }
        requires asked { asks self (map Self.known seats.items) }
        //= queues/rest: What is left of a closed queue is what a legal history of permitted entries leaves, which begins with
        //=   what each seat handed in had seen and has just their own entries as theirs; its pops are counted, and whether it
        //=   has a shut is told. The rest is whole exactly where these seats made as many pops and pushes as that history has,
        //=   and a shut if it has one; each entry is then theirs. With every seat it is whole. Which seats an end asks for the
        //=   queue names: `ArenaQueue` and `AnyQueue` any, `RingQueue` as many as it has.
        ensures rest { Closes (Self.permits self) (map Self.known seats.items) result.0 }
        //= queues/ends: With the rest comes an end, of which the queue's `ends` holds. What that says the queue names:
        //=   `ArenaQueue` and `AnyQueue` say what a closed arena does.
        ensures ends { ends self result.1 result.0 };

    /// Ends the queue and the seats handed in, as `close_with` does, with room that it takes first.
    ///
    /// Refused for want of memory alone; then the queue and the seats come back, as they were. Takes memory for the values
    /// left, and doesn't wait.
    ///
    /// ```rust
    /// let (mut rest, _) = queue.close(alloc, seats)?;
    /// let front = rest.next();
    /// ```
    final fn close(
        self,
        alloc: Global,
        seats: Vec<Self::Seat>,
    ) -> Result<(Rest, Self::End), Unclosed<Self, Self::Seat>>
        requires seats { All (Self.is_seat self) seats.items }
        requires asked { asks self (map Self.known seats.items) }
        //= queues/rest
        ensures rest { IfOk result
            (λ r. Closes (Self.permits self) (map Self.known seats.items) r.0) }
        //= queues/ends
        ensures ends { IfOk result (λ r. ends self r.1 r.0) }
        //= queues/unclosed (queue, same): A queue that `close` doesn't close comes back as it was, with the seats
        //=   handed in.
        ensures queue { IfErr result (λ unclosed. unclosed.queue ≡ self) }
        ensures same { IfErr result (λ unclosed. unclosed.seats.items ≡ seats.items) }
    {
        match self.room(alloc) {
            Ok(room) => Ok(self.close_with(room, seats)),
            Err(_) => Err(Unclosed { queue: self, seats }),
        }
    }
}
