//! The end of a queue of values.
ghost use Rattle.std.specs.Prelude.{◌≡◌, List, map, IfErr, IfOk};
ghost use Rattle.std.specs.List.{All};
ghost use Rattle.carriers.specs.Ends.{ClosesOf};

use crate::queues::Carrier;
use crate::rests::RestOf;
use history::{Refusal, Unclosed};
use std::alloc::Global;

/// A queue of values that can be ended, which gives what is left of it.
pub trait CloseCarrier: Carrier + Sized {
    ghost use Rattle.std.specs.Global.{Vec};
    ghost use Rattle.carriers.specs.declared.rests.RestOf.{RestOf};
    ghost use Rattle.carriers.specs.Knowledge.{KnownOf};

    /// Memory for what may be left of the queue.
    type Room: Drop;

    /// What the end of a queue gives beside the rest, and nothing else does: it shows that the rest is the queue's own.
    type End: Drop;

    // This is the end of this queue, and it leaves this rest.
    ghost ends: { Self → Self.End → RestOf Self.Item → Type 0 };

    // The seats that are handed in are enough for an end of this queue: any, or all.
    ghost asks: { Self → List (KnownOf Self.Item) → Type 0 };

    // There is room for all that this queue may hold.
    ghost has_room: { Self → Self.Room → Type 0 };

    /// Memory for what is left of the queue, with which `close_with` ends it.
    ///
    /// Refused by `Memory` alone. Takes memory for the values left, and doesn't wait.
    fn room(&self, alloc: Global) -> Result<Self::Room, Refusal>
        //= carriers/room (room, only_memory): Room for an end of a queue is room by the queue's `has_room`. Or
        //=   Memory.
        ensures room { IfOk result (has_room self.now) }
        ensures only_memory { IfErr result (λ refusal. refusal ≡ Refusal.Memory) };

    /// Ends the queue and the seats handed in: the values left, how many were taken, whether these seats made all pushes
    /// and pops and, where the queue was shut, the shut, and whether it was; with it comes the queue's end. What shuts a
    /// queue and leaves it there is `try_shut`.
    ///
    /// Takes no memory and doesn't wait.
    ///
    /// ```rust
    /// let room = queue.room(alloc)?;
    /// let (mut rest, _) = queue.close_with(room, seats);
    /// let front = rest.next();
    /// ```
    fn close_with(self, room: Self::Room, seats: Vec<Self::Seat>) -> (RestOf<Self::Item>, Self::End)
        requires room { has_room self room }
        requires seats { All (Self.is_seat self) seats.items }
        requires asked { asks self (map Self.known seats.items) }
        //= carriers/rest: The values left of a closed queue are what a run of permitted deeds leaves, which begins with
        //=   what each seat handed in had seen and has just their own deeds as theirs; its pops are counted, and whether it
        //=   has a shut is told. The rest is whole exactly where these seats made as many pops as were counted, as many
        //=   pushes as these and the values left, and a shut where the queue was shut; each deed is then theirs. With every
        //=   seat it is whole. The queue names which seats an end asks for.
        ensures rest { ClosesOf (Self.permits self) (map Self.known seats.items) result.0 }
        //= carriers/ends: With the rest comes an end, of which the queue's `ends` holds; that says nothing of the
        //=   seats handed in.
        ensures ends { ends self result.1 result.0 };

    /// Ends the queue and the seats handed in, as `close_with` does, with room that it takes first.
    ///
    /// Refused for want of memory alone; then the queue and the seats come back, as they were. Takes memory for the values
    /// left, and doesn't wait.
    ///
    /// ```rust
    /// let (mut rest, _) = queue.close(alloc, seats)?;
    /// let front = rest.next();
    /// ```
    final fn close(
        self,
        alloc: Global,
        seats: Vec<Self::Seat>,
    ) -> Result<(RestOf<Self::Item>, Self::End), Unclosed<Self, Self::Seat>>
        requires seats { All (Self.is_seat self) seats.items }
        requires asked { asks self (map Self.known seats.items) }
        //= carriers/rest
        ensures rest { IfOk result
            (λ r. ClosesOf (Self.permits self) (map Self.known seats.items) r.0) }
        //= carriers/ends
        ensures ends { IfOk result (λ r. ends self r.1 r.0) }
        //= carriers/unclosed (queue, same): A queue that `close` doesn't close comes back as it was, with the seats
        //=   handed in. Why it doesn't, no clause says.
        ensures queue { IfErr result (λ unclosed. unclosed.queue ≡ self) }
        ensures same { IfErr result (λ unclosed. unclosed.seats.items ≡ seats.items) }
    {
        match self.room(alloc) {
            Ok(room) => Ok(self.close_with(room, seats)),
            Err(_) => Err(Unclosed { queue: self, seats }),
        }
    }
}
