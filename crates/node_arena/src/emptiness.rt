//! Whether a queue is empty, by three looks.
use crate::arena::ArenaOf;
use crate::seats::Seat;

/// What a seat found that looked whether its queue is empty, of a moment no older than what it had seen before.
#[derive(Clone, Copy, Debug, PartialEq, Eq)]
pub enum Emptiness {
    /// At that moment it held no value, and wasn't shut.
    Empty,
    /// At that moment it held no value, and was shut: nothing comes any more.
    ShutEmpty,
    /// At that moment it held a value at least.
    Holds,
    /// Pops took effect while the seat looked, so it saw no such moment.
    Moved,
}

impl<const B: u32, T> ArenaOf<B, T> {
    ghost use Rattle.std.specs.Prelude.{◌≡◌, true};
    ghost use Rattle.node_arena.specs.Seats.{IsReady, KeepsStored, KeepsSlots, known_of, carries_of};
    ghost use Rattle.node_arena.specs.Seats.{SeesMoreDeeds};
    ghost use Rattle.node_arena.specs.Looks.{FoundSo};

    /// Whether the queue is empty, by three looks of a seat in no call: at Head, at what follows its node, and at Head
    /// again. Takes no memory and doesn't wait.
    pub fn emptiness(&self, seat: &mut Seat<T>) -> Emptiness
        requires { IsReady self.now seat.old }
        ensures ready { IsReady self.now seat.new }
        ensures stored { KeepsStored seat.old seat.new }
        //= atomics/looks_on (slots, values): A seat that looks whether its queue is empty, or how long it is, keeps its
        //=   slot, and what it has seen of values goes on from what it had seen.
        ensures slots { KeepsSlots seat.old seat.new }
        ensures values { carries_of self.now ≡ true → SeesMoreDeeds seat.old seat.new }
        //= atomics/emptiness (ready, stored, found): A seat that looks whether its queue is empty is told so, shut or
        //=   not, or that it holds a value, as it was after some history that begins with what the seat had seen and
        //=   that it has now seen; or that Head moved, and then it has seen more pops than before. It is ready as
        //=   before, and stores the same: its pocket, and whether it keeps its nodes.
        ensures found { FoundSo (known_of seat.old) result (known_of seat.new) }
    {
        let _ = self.setup();
        let head = self.look(seat, 2);
        let front = self.reference(head).node() as usize;
        let next = self.reference(self.look(seat, 4 + 2 * front));
        if self.look(seat, 2) != head {
            Emptiness::Moved
        } else if next.is_null() {
            Emptiness::Empty
        } else if next.is_shut() {
            Emptiness::ShutEmpty
        } else {
            Emptiness::Holds
        }
    }
}
