//! The value out of the slot of what was popped.
ghost use Rattle.std.specs.Prelude.{◌≡◌};
ghost use Rattle.ring_queue.specs.Queues.{IsRingSeat};
ghost use Rattle.ring_queue.specs.Hands.{HasValue};
ghost use Rattle.ring_values.specs.Pops.{TakesOut};
ghost use Rattle.ring_values.specs.Queues.{plan_of, ring_of};

use crate::queue::RingValues;
use carriers::ItemOf;
use history::Taken;
use ring_queue::Seat;

impl<T> RingValues<T> {
    // Takes the value out of the slot of what was popped, and gives the slot back.
    pub(crate) fn take_out(&self, seat: &mut Seat<T>, taken: Taken) -> ItemOf<T>
        requires seat { IsRingSeat (ring_of self.now) seat.old }
        requires has { HasValue (plan_of self.now) seat.old taken.body }
        ensures { TakesOut (ring_of self.now) seat.old seat.new taken result }
    {
        let slot = taken.body.number() as usize;
        let value = self.ring.take_value(seat, slot);
        self.ring.free_slot(seat, slot);
        ItemOf {
            from: taken.from,
            value,
        }
    }
}
