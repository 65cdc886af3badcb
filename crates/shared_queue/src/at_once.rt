//! Calls that never wait, each in one piece: no call is kept where it tells at once, or has one to wake.
ghost use Rattle.std.specs.Prelude.{◌≡◌};
ghost use Rattle.calls.specs.declared.calls.Task.TheVariants.{Push, Pop};
ghost use Rattle.shared_queue.specs.Seats.{IsBoth};
ghost use Rattle.shared_queue.specs.Stepped.{stepped_queue};
ghost use Rattle.shared_queue.specs.TriedCalls.{call_after, IsDone, told_in_vain, ComesTo};

use crate::bells::Bells;
use crate::stepped::SteppedQueue;
use calls::{Access, Bell, Call, Code, Phase, Seen, Task, advance, start};
use carriers::Carrier;

/// What a call comes to that never waits. Its value lies where it was given.
#[derive(Clone, Copy)]
pub enum Tried {
    /// It has this answer, and there is nobody to wake.
    Told(Code),
    /// It is done, and is to wake one that sleeps for this bell, which it has rung. Its next step tells.
    Wakes(Bell),
    /// It saw this at its first look, and has all to tell of a word that is worn out. The rest of it is stepped, its time past.
    Rest(Seen),
    /// It took a place, saw this as it pushed, and has the place to give back. The rest of it is stepped, its time past.
    AtPlace(Seen),
}

impl Tried {
    /// The call of this task that came to this, to be stepped on.
    pub fn call(self, task: Task) -> Call
        //= calls/share_call: The call that a try came to stands where the machine puts it after what it saw; that of a try
        //=   which is done, or told, has its answer.
        ensures { result ≡ call_after task self }
    {
        let mut call = start(task, true);
        match self {
            Tried::Told(code) => {
                call.phase = Phase::Finished;
                call.code = code;
            }
            Tried::Wakes(_) => call.phase = Phase::Finished,
            Tried::Rest(seen) => {
                advance(&mut call, seen, true);
            }
            Tried::AtPlace(seen) => {
                advance(&mut call, Seen::Took, true);
                advance(&mut call, seen, true);
            }
        }
        call
    }
}

impl Bells {
    // A call is done, and rings this bell for one that listens.
    fn ring_for(&self, bell: Bell) -> Tried
        ensures { IsDone bell result }
    {
        if self.touch(Access::Listeners(bell)) == Seen::Nothing {
            return Tried::Told(Code::Done);
        }
        self.touch(Access::Ring(bell));
        Tried::Wakes(bell)
    }
}

// What a call comes to that saw this at its first look, and neither did what it wants nor took a place.
fn told_at(seen: Seen) -> Tried
    ensures { result ≡ told_in_vain seen }
{
    match seen {
        Seen::Nothing => Tried::Told(Code::Nothing),
        Seen::Busy => Tried::Told(Code::Busy),
        Seen::Ended(Code::Worn) => Tried::Rest(seen),
        Seen::Ended(code) => Tried::Told(code),
        seen => Tried::Rest(seen),
    }
}

impl<T: Drop, C: Carrier<Item = T>> SteppedQueue<C> {
    // Pushes the value of a call that never waits and took a place.
    fn push_at_place(&self, seat: &mut C::Seat, value: &mut Option<T>) -> Tried
        requires { IsBoth C.is_seat C.permits C.known (stepped_queue self.now) seat.old }
        ensures seat { C.is_seat (stepped_queue self.now) seat.new }
        ensures number { (C.known seat.new).number ≡ (C.known seat.old).number }
        ensures comes { ComesTo Push value.old (C.known seat.old) result value.new
            (C.known seat.new) }
    {
        match self.give_value(seat, value) {
            Seen::Got => self.bells.ring_for(Bell::Values),
            seen => Tried::AtPlace(seen),
        }
    }

    /// Pushes the value that is given, by a call that never waits.
    pub(crate) fn try_push(&self, seat: &mut C::Seat, value: &mut Option<T>) -> Tried
        requires { IsBoth C.is_seat C.permits C.known (stepped_queue self.now) seat.old }
        ensures seat { C.is_seat (stepped_queue self.now) seat.new }
        ensures number { (C.known seat.new).number ≡ (C.known seat.old).number }
        ensures comes { ComesTo Push value.old (C.known seat.old) result value.new
            (C.known seat.new) }
    {
        match self.look_for_room(seat, value) {
            Seen::Got => self.bells.ring_for(Bell::Values),
            Seen::Took => self.push_at_place(seat, value),
            seen => told_at(seen),
        }
    }

    /// Pops a value to where one is given room, by a call that never waits.
    pub(crate) fn try_pop(&self, seat: &mut C::Seat, value: &mut Option<T>) -> Tried
        requires { IsBoth C.is_seat C.permits C.known (stepped_queue self.now) seat.old }
        ensures seat { C.is_seat (stepped_queue self.now) seat.new }
        ensures number { (C.known seat.new).number ≡ (C.known seat.old).number }
        ensures comes { ComesTo Pop value.old (C.known seat.old) result value.new
            (C.known seat.new) }
    {
        match self.look_for_value(seat, value) {
            Seen::Got => self.bells.ring_for(Bell::Room),
            Seen::Took => {
                self.give_place();
                self.bells.ring_for(Bell::Room)
            }
            seen => told_at(seen),
        }
    }
}
