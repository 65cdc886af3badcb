//! Seats that meet.
ghost use Rattle.std.specs.Prelude.{◌≡◌, true};
ghost use Rattle.history.specs.Answers.{Meets};
ghost use Rattle.ring_queue.specs.Hands.{MeetsValues};
ghost use Rattle.ring_queue.specs.PlacedSeats.{MeetsSaid};
ghost use Rattle.ring_queue.specs.Queues.{IsRingSeat};
ghost use Rattle.ring_queue.specs.Seats.{IsAtRest, KeepsName, HasNoSlot, known_of};

use crate::queue::RingQueue;
use crate::seats::Seat;
use crate::views::{Gather, Part, Spare};
use std::marker::Brand;
use std::mem;

impl<T> RingQueue<T> {
    /// Afterwards both seats have seen one history, which begins with what each had seen; of values too, where the ring carries them.
    /// No slot is out with them. Takes no memory and doesn't wait.
    pub fn meet_seats(&self, one: &mut Seat<T>, other: &mut Seat<T>)
        requires one { IsRingSeat self.now one.old }
        requires other { IsRingSeat self.now other.old }
        requires apart { HasNoSlot one.old × HasNoSlot other.old }
        ensures one { IsRingSeat self.now one.new }
        ensures other { IsRingSeat self.now other.new }
        ensures names { KeepsName one.old one.new × KeepsName other.old other.new }
        ensures meets { Meets (known_of one.old) (known_of other.old)
            (known_of one.new) (known_of other.new) }
        //= ring/meets (apart, values): Two seats of a ring that carries values, which have no slot, have none after they met, and have
        //=   seen one history of values, which begins with what each had seen.
        ensures apart { HasNoSlot one.new × HasNoSlot other.new }
        ensures values { self.now.plan.carries ≡ true →
            MeetsValues one.old other.old one.new other.new }
    {
        self.meet_at_rest(one, other);
    }

    /// Two seats of any ring, without a slot, become one, which learns all that there was, and part again.
    pub(crate) fn meet_at_rest(&self, one: &mut Seat<T>, other: &mut Seat<T>)
        requires one { IsAtRest self.now.plan self.now.table.shared.table_id one.old }
        requires other { IsAtRest self.now.plan self.now.table.shared.table_id other.old }
        requires apart { HasNoSlot one.old × HasNoSlot other.old }
        ensures one { IsAtRest self.now.plan self.now.table.shared.table_id one.new }
        ensures other { IsAtRest self.now.plan self.now.table.shared.table_id other.new }
        ensures names { KeepsName one.old one.new × KeepsName other.old other.new }
        ensures meets { Meets (known_of one.old) (known_of other.old)
            (known_of one.new) (known_of other.new) }
        ensures apart { HasNoSlot one.new × HasNoSlot other.new }
        ensures values { self.now.plan.carries ≡ true →
            MeetsValues one.old other.old one.new other.new }
        ensures said { self.now.plan.placed ≡ true →
            MeetsSaid one.old other.old one.new other.new }
    {
        let shared = &self.table.shared;
        let spare = shared.split_seat::<Spare>(&mut other.token);
        let token = mem::replace(&mut other.token, spare);
        shared.join_seat::<Gather>(&mut one.token, token);
        shared.load::<Brand>(&mut one.token, 0);
        other.token = shared.split_seat::<Part>(&mut one.token);
    }
}
