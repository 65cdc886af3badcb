//! The parts of a push: its slot with the value, and the push of that slot's number.
ghost use Rattle.std.specs.Prelude.{◌≡◌, ◌≤◌, ◌<◌, ◌^◌, IfOk, IfErr, OnOk};
ghost use Rattle.history.specs.Seats.{MayPush};
ghost use Rattle.ring_queue.specs.Queues.{IsRingSeat, permits_in};
ghost use Rattle.ring_queue.specs.Seats.{HasNoSlot, known_of};
ghost use Rattle.ring_queue.specs.Hands.{HasValue};
ghost use Rattle.ring_values.specs.Pushes.{HasLoad, PutsSlot};
ghost use Rattle.ring_values.specs.Queues.{plan_of, ring_of};

use crate::queue::RingValues;
use carriers::Unpushed;
use history::Body;
use ring_queue::{Got, Seat};

// The number of a slot, as what is pushed.
fn body_of(slot: usize) -> Body
    requires { slot < 2 ^ 48 }
    ensures { result ≡ slot }
{
    match Body::new(slot as u64) {
        Some(body) => body,
        None => unreachable!(),
    }
}

impl<T> RingValues<T> {
    // Puts the value into a slot.
    pub(crate) fn load(&self, seat: &mut Seat<T>, value: T, turns: u32) -> Result<Got, Unpushed<T>>
        requires seat { IsRingSeat (ring_of self.now) seat.old }
        requires none { HasNoSlot seat.old }
        ensures { HasLoad (ring_of self.now) seat.old seat.new value turns result }
    {
        match self.ring.get_slot(seat, turns) {
            Ok(got) => {
                self.ring.put_value(seat, got.slot, value);
                Ok(got)
            }
            Err(refusal) => Err(Unpushed { refusal, value }),
        }
    }

    // Pushes the number of the seat's slot; where that is refused, the value comes back, and the slot is given back.
    pub(crate) fn push_slot(
        &self,
        seat: &mut Seat<T>,
        slot: usize,
        turns: u32,
    ) -> Result<(), Unpushed<T>>
        requires seat { IsRingSeat (ring_of self.now) seat.old }
        requires role { MayPush (permits_in (ring_of self.now)) (known_of seat.old).number }
        requires has { HasValue (plan_of self.now) seat.old slot }
        ensures { PutsSlot (ring_of self.now) seat.old seat.new slot turns result }
    {
        match self.ring.push_in(seat, body_of(slot), turns) {
            Ok(()) => Ok(()),
            Err(refusal) => {
                let value = self.ring.take_value(seat, slot);
                self.ring.free_slot(seat, slot);
                Err(Unpushed { refusal, value })
            }
        }
    }
}
