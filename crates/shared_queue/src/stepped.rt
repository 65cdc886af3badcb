//! A queue of values whose calls are stepped by who makes them, and the words that these calls touch.
ghost use Rattle.std.specs.Prelude.{◌≡◌, ◌≤◌, IfSome};
ghost use Rattle.shared_queue.specs.Seats.{IsBoth};
ghost use Rattle.shared_queue.specs.Stepped.{stepped_queue, capacity_of};
ghost use Rattle.shared_queue.specs.Steps.{seen_of, IsEnd, TakesPlace, LooksForValue, LooksForRoom};
ghost use Rattle.shared_queue.specs.Steps.{TriesToPush, GivesValue, TriesToShut, Makes};

use crate::TURNS;
use crate::bells::Bells;
use crate::steps::refused;
use calls::{Access, Bell, Call, Code, Seen, Task};
use carriers::Carrier;
use crossbeam_utils::CachePadded;
use history::Refusal;
use std::sync::atomic::AtomicU64;
use std::sync::atomic::Ordering::SeqCst;

/// How often a push tries to take a place, where others take one at the same time.
const TAKES: u32 = 64;

/// What the word says that tells why nothing comes any more: the queue was shut, or a word of it is worn out. At first it is 0.
const SHUT: u64 = 1;

const WORN: u64 = 2;

/// A queue of values with room for so many, whose calls may wait and are stepped by who makes them. A side of it has ended once it
/// has no end left; there is one of each.
///
/// The places lie apart from the other words, which nobody writes where no call sleeps.
#[derive(Drop)]
pub struct SteppedQueue<C> {
    queue: C,
    capacity: u64,
    places: Option<CachePadded<AtomicU64>>,
    over: AtomicU64,
    senders: AtomicU64,
    receivers: AtomicU64,
    pub(crate) bells: Bells,
}

/// A call, with the value that it pushes or has popped, and how often the bell of what it waits for had rung as it heard it.
#[derive(Drop)]
pub struct Asked<T> {
    /// The call.
    pub call: Call,
    /// Its value.
    pub value: Option<T>,
    /// How often the bell had rung.
    pub heard: u64,
}

// Why nothing comes any more of a side without ends, or of a queue that is over.
fn cause_of(over: u64) -> Code
    ensures { IsEnd result }
{
    if over == WORN {
        Code::Worn
    } else {
        Code::Closed
    }
}

// Whether this was the last end of its side.
fn ended(ends: &AtomicU64) -> Seen {
    if ends.fetch_sub(1, SeqCst) == 1 {
        Seen::Got
    } else {
        Seen::Nothing
    }
}

impl<C> SteppedQueue<C> {
    /// This queue, with room for so many values. Where `counts` it might hold more, and its calls count the places that are free;
    /// else it refuses a push just where it holds so many.
    pub fn new(queue: C, capacity: u64, counts: bool) -> SteppedQueue<C>
        //= calls/stepped (queue, capacity): A queue whose calls are stepped is made of a queue and gives it back, and tells the
        //=   room that it was made with. No more places are taken than that.
        ensures queue { stepped_queue result ≡ queue }
        ensures capacity { capacity_of result ≡ capacity }
    {
        SteppedQueue {
            queue,
            capacity,
            places: if counts {
                Some(CachePadded::new(AtomicU64::new(capacity)))
            } else {
                None
            },
            over: AtomicU64::new(0),
            senders: AtomicU64::new(1),
            receivers: AtomicU64::new(1),
            bells: Bells::new(),
        }
    }

    /// The queue within.
    pub fn queue(&self) -> &C
        ensures { result.now ≡ stepped_queue self.now }
    {
        &self.queue
    }

    /// The queue within, to be closed by its seats.
    pub fn into_inner(self) -> C
        //= calls/stepped
        ensures { result ≡ stepped_queue self }
    {
        let SteppedQueue {
            queue,
            capacity: _,
            places: _,
            over: _,
            senders: _,
            receivers: _,
            bells: _,
        } = self;
        queue
    }

    /// Room for how many values there is.
    pub fn capacity(&self) -> u64
        //= calls/stepped
        ensures { result ≡ capacity_of self.now }
    {
        self.capacity
    }

    /// How many places values have, or calls; none where the queue itself tells.
    pub fn taken(&self) -> Option<u64>
        //= calls/stepped
        ensures { IfSome result (λ count. count ≤ capacity_of self.now) }
    {
        let places = self.places.as_ref()?;
        Some(self.capacity.saturating_sub(places.load(SeqCst)))
    }

    /// The word that is compared as a call sleeps for this bell, of which the system compares the low half.
    pub fn rings(&self, bell: Bell) -> *mut u64 {
        self.bells.of(bell).rings.as_ptr()
    }

    /// One more listens to this bell, for good, that never sleeps: who rings it has somebody to wake from now on.
    pub fn listen(&self, bell: Bell) {
        self.bells.of(bell).listeners.fetch_add(1, SeqCst);
    }

    // Nothing comes any more, for this cause if there is none yet.
    fn end_for(&self, cause: u64) {
        let _ = self.over.compare_exchange(0, cause, SeqCst, SeqCst);
    }

    // What a try sees that is refused so; all are told of a word that is worn out.
    fn seen_at(&self, refusal: &Refusal) -> Seen
        ensures { result ≡ seen_of refusal.now }
    {
        let seen = refused(refusal);
        if seen == Seen::Ended(Code::Worn) {
            self.end_for(WORN);
        }
        seen
    }

    // Takes a place, where they are counted.
    fn take_place(&self, places: &AtomicU64) -> Seen
        ensures { TakesPlace result }
    {
        for _ in 0..TAKES {
            let free = places.load(SeqCst);
            if free == 0 {
                return Seen::Nothing;
            }
            if places
                .compare_exchange(free, free - 1, SeqCst, SeqCst)
                .is_ok()
            {
                return Seen::Took;
            }
        }
        Seen::Busy
    }

    // Gives a place back, where they are counted.
    pub(crate) fn give_place(&self) -> Seen {
        if let Some(places) = &self.places {
            places.fetch_add(1, SeqCst);
        }
        Seen::Got
    }
}

impl<T: Drop, C: Carrier<Item = T>> SteppedQueue<C> {
    // Looks for a value. The ends come first: a queue that is found empty after that stays empty.
    pub(crate) fn look_for_value(&self, seat: &mut C::Seat, value: &mut Option<T>) -> Seen
        requires { IsBoth C.is_seat C.permits C.known (stepped_queue self.now) seat.old }
        ensures seat { C.is_seat (stepped_queue self.now) seat.new }
        ensures number { (C.known seat.new).number ≡ (C.known seat.old).number }
        ensures looks { LooksForValue (C.known seat.old) value.old result
            (C.known seat.new) value.new }
    {
        let over = self.over.load(SeqCst);
        let ends = over != 0 || self.senders.load(SeqCst) == 0;
        match self.queue.try_pop(seat, TURNS) {
            Ok(Some(front)) => {
                *value = Some(front.value);
                if self.places.is_some() {
                    Seen::Took
                } else {
                    Seen::Got
                }
            }
            Ok(None) if ends => Seen::Ended(cause_of(over)),
            Ok(None) => Seen::Nothing,
            Err(refusal) => self.seen_at(&refusal),
        }
    }

    // Pushes the value of a call, which keeps it where that is refused.
    fn push(&self, seat: &mut C::Seat, value: &mut Option<T>) -> Seen
        requires { IsBoth C.is_seat C.permits C.known (stepped_queue self.now) seat.old }
        ensures seat { C.is_seat (stepped_queue self.now) seat.new }
        ensures number { (C.known seat.new).number ≡ (C.known seat.old).number }
        ensures tries { TriesToPush (C.known seat.old) value.old result
            (C.known seat.new) value.new }
    {
        let Some(pushed) = value.take() else {
            return Seen::Busy;
        };
        match self.queue.try_push(seat, pushed, TURNS) {
            Ok(()) => Seen::Got,
            Err(unpushed) => {
                *value = Some(unpushed.value);
                self.seen_at(&unpushed.refusal)
            }
        }
    }

    // Looks for room, and pushes where the queue itself tells whether there is some.
    pub(crate) fn look_for_room(&self, seat: &mut C::Seat, value: &mut Option<T>) -> Seen
        requires { IsBoth C.is_seat C.permits C.known (stepped_queue self.now) seat.old }
        ensures seat { C.is_seat (stepped_queue self.now) seat.new }
        ensures number { (C.known seat.new).number ≡ (C.known seat.old).number }
        ensures looks { LooksForRoom (C.known seat.old) value.old result
            (C.known seat.new) value.new }
    {
        let over = self.over.load(SeqCst);
        if over != 0 || self.receivers.load(SeqCst) == 0 {
            return Seen::Ended(cause_of(over));
        }
        match &self.places {
            Some(places) => self.take_place(places),
            None => self.push(seat, value),
        }
    }

    // Pushes the value of a call that has a place. A node for it may be on its way back.
    pub(crate) fn give_value(&self, seat: &mut C::Seat, value: &mut Option<T>) -> Seen
        requires { IsBoth C.is_seat C.permits C.known (stepped_queue self.now) seat.old }
        ensures seat { C.is_seat (stepped_queue self.now) seat.new }
        ensures number { (C.known seat.new).number ≡ (C.known seat.old).number }
        ensures gives { GivesValue (C.known seat.old) value.old result
            (C.known seat.new) value.new }
    {
        match self.push(seat, value) {
            Seen::Nothing => Seen::Busy,
            seen => seen,
        }
    }

    // Shuts the queue.
    fn shut(&self, seat: &mut C::Seat) -> Seen
        requires { IsBoth C.is_seat C.permits C.known (stepped_queue self.now) seat.old }
        ensures seat { C.is_seat (stepped_queue self.now) seat.new }
        ensures number { (C.known seat.new).number ≡ (C.known seat.old).number }
        ensures tries { TriesToShut (C.known seat.old) result (C.known seat.new) }
    {
        match self.queue.try_shut(seat, TURNS) {
            Ok(()) | Err(Refusal::Closed) => self.end_for(SHUT),
            Err(Refusal::WornOut(_)) => self.end_for(WORN),
            Err(_) => return Seen::Busy,
        }
        Seen::Got
    }

    /// Makes an access of a call, by this seat.
    pub(crate) fn make(&self, seat: &mut C::Seat, asked: &mut Asked<T>, access: Access) -> Seen
        requires { IsBoth C.is_seat C.permits C.known (stepped_queue self.now) seat.old }
        ensures seat { C.is_seat (stepped_queue self.now) seat.new }
        ensures number { (C.known seat.new).number ≡ (C.known seat.old).number }
        ensures call { asked.new.call ≡ asked.old.call }
        ensures makes { Makes access (C.known seat.old) asked.old.value result
            (C.known seat.new) asked.new.value }
    {
        match access {
            Access::Look(Bell::Values) => self.look_for_value(seat, &mut asked.value),
            Access::Look(Bell::Room) => self.look_for_room(seat, &mut asked.value),
            Access::Give(Bell::Values) => self.give_value(seat, &mut asked.value),
            Access::Give(Bell::Room) => self.give_place(),
            Access::Hear(bell) => {
                asked.heard = self.bells.of(bell).rings.load(SeqCst);
                Seen::Got
            }
            Access::End(Task::DropSender) => ended(&self.senders),
            Access::End(Task::DropReceiver) => ended(&self.receivers),
            Access::End(Task::Shut) => self.shut(seat),
            access => self.bells.touch(access),
        }
    }
}
