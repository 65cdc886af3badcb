//! How many values a queue holds whose Tail counts, by five looks.
ghost use Rattle.std.specs.Prelude.{◌≡◌, ◌≤◌, true};
ghost use Rattle.line_table.specs.declared.lines.Kind.TheVariants.{NonBlocking};
ghost use Rattle.node_arena.specs.Looks as looks;

use crate::arena::ArenaOf;
use crate::seats::Seat;

/// How many values a queue held at one moment: at least and at most so many.
#[derive(Clone, Copy, Debug, PartialEq, Eq)]
pub struct Len {
    pub least: u64,
    pub most: u64,
}

// How many nodes stand behind Tail's, at least and at most: where Tail stayed meanwhile, what was read there tells.
fn behind_tail(stays: bool, none: bool, shut: bool) -> (u64, u64)
    ensures exact { result ≡ looks.behind_tail stays none shut }
    ensures few { (result.0 ≤ 1) × (result.1 ≤ 1) }
{
    if !stays {
        (0, 1)
    } else if none || shut {
        (0, 0)
    } else {
        (1, 1)
    }
}

impl<const B: u32, T> ArenaOf<B, T> {
    ghost use Rattle.node_arena.specs.Seats.{IsReady, KeepsStored, KeepsSlots, known_of, setup_of};
    ghost use Rattle.node_arena.specs.Seats.{SeesMoreDeeds, carries_of};
    ghost use Rattle.node_arena.specs.Looks.{WasSoLong};

    /// How many values the queue holds, by five looks of a seat in no call: at Head, at Tail, at what follows its node, at
    /// Tail again, and at Head again. Both bounds are one number where neither moved meanwhile. Takes no memory and doesn't
    /// wait.
    pub fn len(&self, seat: &mut Seat<T>) -> Len
        requires ready { IsReady self.now seat.old }
        requires kind { (setup_of self.now).kind ≡ NonBlocking }
        ensures ready { IsReady self.now seat.new }
        ensures stored { KeepsStored seat.old seat.new }
        //= atomics/looks_on (slots, values)
        ensures slots { KeepsSlots seat.old seat.new }
        ensures values { carries_of self.now ≡ true → SeesMoreDeeds seat.old seat.new }
        //= atomics/len (ready, stored, long): A seat that looks how long its non-blocking queue is is told two bounds,
        //=   between which the length was after some history that begins with what the seat had seen and that it has
        //=   now seen. They are at most as far apart as the pops that it has newly seen, and one. It is ready as
        //=   before, and stores the same.
        ensures long { WasSoLong (known_of seat.old) result (known_of seat.new) }
    {
        let _ = self.setup();
        let first = self.reference(self.look(seat, 2)).count();
        let tail = self.look(seat, 3);
        let end = self.reference(tail);
        let next = self.reference(self.look(seat, 4 + 2 * end.node() as usize));
        let stays = self.look(seat, 3) == tail;
        let last = self.reference(self.look(seat, 2)).count();
        let (few, many) = behind_tail(stays, next.is_null(), next.is_shut());
        Len {
            least: (end.count() + few).saturating_sub(last),
            most: end.count() + many - first,
        }
    }
}
