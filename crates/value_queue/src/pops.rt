//! The parts of a pop: the pop of a slot's number, and the value out of that slot.
ghost use Rattle.std.specs.Prelude.{◌≡◌, ◌≤◌, IsTrue};
ghost use Rattle.node_arena.specs.Plans.{may_pop};
ghost use Rattle.node_arena.specs.Seats.{IsReady, HasNoSlot, role_of};
ghost use Rattle.node_arena.specs.Hands.{HasValue};
ghost use Rattle.arena_queue.specs.Answers.{PopsWithoutNode};
ghost use Rattle.value_queue.specs.Queues.{arena_of};
ghost use Rattle.value_queue.specs.Pops.{TakesOut};

use crate::queue::QueueOf;
use arena_queue::Algorithm;
use carriers::ItemOf;
use free_list::give_back;
use history::{Refusal, Taken};
use node_arena::Seat;

impl<T, A: Algorithm<B>, const B: u32> QueueOf<T, A, B> {
    // Pops the number of a slot, which is then out with the seat. A node in the pocket is given back first.
    pub(crate) fn pop_slot(&self, seat: &mut Seat<T>, turns: u32) -> Result<Option<Taken>, Refusal>
        requires ready { IsReady (arena_of self.now) seat.old }
        requires none { HasNoSlot seat.old }
        requires role { IsTrue (may_pop (role_of seat.old)) }
        requires turns { 1 ≤ turns }
        ensures { PopsWithoutNode A.pop_worn (arena_of self.now) seat.old seat.new 0 turns result }
    {
        let spent = match seat.pocket() {
            None => 0,
            Some(_) => {
                give_back(&self.arena, seat, turns)?;
                seat.failed()
            }
        };
        A::pop_without_node(&self.arena, seat, spent, turns)
    }

    // Takes the value out of the slot of what was popped, and gives the slot back.
    pub(crate) fn take_out(&self, seat: &mut Seat<T>, taken: Taken) -> ItemOf<T>
        requires ready { IsReady (arena_of self.now) seat.old }
        requires has { HasValue (arena_of self.now) seat.old taken.body }
        ensures { TakesOut (arena_of self.now) seat.old seat.new taken result }
    {
        let slot = taken.body.number() as usize;
        let value = self.arena.take_value(seat, slot);
        self.arena.free_slot(seat, slot);
        ItemOf {
            from: taken.from,
            value,
        }
    }
}
