//! The lines that write.
ghost use Rattle.std.specs.Prelude.{◌≡◌, ℕ, ◌^◌, ◌<◌, ◌≤◌, List, [], ◌∷◌, length, Option, Some, OnOk, IfErr, IsNone, MatchOption, true};
ghost use Rattle.history.specs.declared.operations.Taken.{Taken as TheTaken};
ghost use Rattle.history.specs.Seats.{MayPush, MayPop};
ghost use Rattle.history.specs.Answers.{Popped, DidShut, FoundShut, SeesMore};
ghost use Rattle.ring_queue.specs.Words as words;
ghost use Rattle.ring_queue.specs.Plans.{permits_of};
ghost use Rattle.ring_queue.specs.Queues.{IsRingSeat, permits_in};
ghost use Rattle.ring_queue.specs.Knowledge.{claimed, found};
ghost use Rattle.ring_queue.specs.Beside.{IsReadyBy, Moves};
ghost use Rattle.ring_queue.specs.Hands.{PopMoves};
ghost use Rattle.ring_queue.specs.Turns.{Tried};
ghost use Rattle.ring_queue.specs.Steps.{pops, pushes, taken_in, next_stage, HasRoom, AreSmall, PlacesClaimed, FrontsTaken};
ghost use Rattle.ring_queue.specs.PlacedSeats.{HasStored};
ghost use Rattle.ring_queue.specs.Seats.{Sits, IsReady, HasNoSlot, KeepsName, KeepsSlots, known_of, view};

use crate::places::{HEAD, SHUT, SLOTS, TAIL};
use crate::queue::RingQueue;
use crate::seats::Seat;
use history::{Body, Refusal, Taken};
use std::marker::Brand;

// How many numbers a body may be.
const BODY_SPAN: u64 = 1 << 48;

// The bit of a slot's word that is the parity of its lap.
pub(crate) const PARITY: u64 = 1 << 63;

/// The value that a word says.
pub(crate) fn taken_of(word: u64) -> Taken
    ensures { result ≡ taken_in word }
{
    let payload = word % PARITY;
    Taken {
        from: (payload / BODY_SPAN) as u16,
        body: Body::new(payload % BODY_SPAN).unwrap(),
    }
}

// What a place is filled with, as a number: the value of a body.
pub(crate) fn payload_of(number: u16, body: Body) -> u64
    requires { number < 2 ^ 15 }
    ensures value { result ≡ words.payload (Some (record { from = number; body = body })) }
    ensures small { result < 2 ^ 63 }
{
    u64::from(number) * BODY_SPAN + body.number()
}

// What a place is filled with beside whose word its value lies: the number 0.
pub(crate) fn payload_beside(number: u16) -> u64
    requires { number < 2 ^ 15 }
    ensures value { result ≡ words.payload (Some (record { from = number; body = 0 })) }
    ensures small { result < 2 ^ 63 }
{
    u64::from(number) * BODY_SPAN
}

impl<T> RingQueue<T> {
    /// A push fills the first of the places that it claimed.
    pub(crate) fn fill(&self, seat: &mut Seat<T>, place: u64, payload: u64)
        requires sits { Sits self.now.plan self.now.table.shared.table_id seat.old }
        requires claimed { (x : Option TheTaken) × (xs : List (Option TheTaken))
            × ((view seat.old).stage ≡ claimed place (x ∷ xs)) × (payload ≡ words.payload x) }
        requires small { payload < 2 ^ 63 }
        requires stored { self.now.plan.placed ≡ true → HasStored self.now.plan.width seat.old }
        ensures seat { Sits self.now.plan self.now.table.shared.table_id seat.new }
        ensures slots { KeepsSlots seat.old seat.new }
        ensures name { KeepsName seat.old seat.new }
        ensures places { (seat.new.head ≡ seat.old.head) × (seat.new.tail ≡ seat.old.tail) }
        ensures stage { (view seat.new).stage ≡ next_stage (view seat.old).stage }
        ensures known { known_of seat.new ≡ known_of seat.old }
    {
        let slot = self.slot_of(place);
        let word = self.parity_of(place) * PARITY + payload;
        self.table
            .shared
            .store::<Brand>(&mut seat.token, SLOTS + 2 * slot, word);
    }

    /// A push with room by its seat's head and tail claims the next places, one for each of these bodies, which are so many, if Tail
    /// is at its seat's tail: the word of Tail as it was. What it will push is for the caller's pick alone.
    pub(crate) fn claim(&self, seat: &mut Seat<T>, bodies: &[Body], count: u64) -> u64
        ghost pushed: { List ℕ }
        requires ready { IsReady self.now.plan self.now.table.shared.table_id seat.old }
        requires role { MayPush (permits_of self.now.plan) (known_of seat.old).number }
        requires room { HasRoom self.now.plan seat.old.head seat.old.tail count }
        requires count { count ≡ length bodies.now }
        requires bodies { (pushed ≡ bodies.now) × AreSmall pushed }
        requires loaded { IsReadyBy self.now.plan.carries self.now.plan.slots
            (view seat.old).number (pushes (view seat.old).number pushed) seat.old.token.me }
        ensures seat { Sits self.now.plan self.now.table.shared.table_id seat.new }
        ensures name { KeepsName seat.old seat.new }
        ensures told { PlacesClaimed self.now.plan pushed (view seat.old) result (view seat.new) }
        ensures moves { Moves self.now.plan.carries (pushes (view seat.old).number pushed)
            seat.old.token.me seat.new.token.me }
    {
        let _ = bodies;
        let tail = seat.tail;
        let was = self
            .table
            .shared
            .compare_exchange::<Brand>(&mut seat.token, TAIL, tail, tail + count);
        seat.tail = if was == tail {
            tail + count
        } else {
            was % SHUT
        };
        was
    }

    /// A pop that found these words, so many, at its places raises Head: the word of Head as it was. What it found is for the
    /// caller's pick alone.
    pub(crate) fn raise_head(&self, seat: &mut Seat<T>, words: &[u64], count: u64) -> u64
        ghost taken: { List ℕ }
        requires ready { IsReady self.now.plan self.now.table.shared.table_id seat.old }
        requires role { MayPop (permits_of self.now.plan) (known_of seat.old).number }
        requires found { (view seat.old).stage ≡ found taken }
        requires words { (taken ≡ words.now) × (1 ≤ length taken) }
        requires count { (count ≡ length words.now) × (count ≤ 2 ^ 32) }
        requires one { self.now.plan.carries ≡ true → length taken ≡ 1 }
        requires none { self.now.plan.carries ≡ true → HasNoSlot seat.old }
        ensures seat { IsReady self.now.plan self.now.table.shared.table_id seat.new }
        ensures name { KeepsName seat.old seat.new }
        ensures told { FrontsTaken self.now.plan taken (view seat.old) result (view seat.new) }
        ensures moves { Moves self.now.plan.carries (pops (view seat.old).number taken)
            seat.old.token.me seat.new.token.me }
    {
        let _ = words;
        let head = seat.head;
        let was = self
            .table
            .shared
            .compare_exchange::<Brand>(&mut seat.token, HEAD, head, head + count);
        seat.head = if was == head { head + count } else { was };
        was
    }

    /// A pop that found this word at its place takes its value; none where another took it.
    pub(crate) fn take_front(&self, seat: &mut Seat<T>, word: u64) -> Option<Taken>
        requires ready { IsReady self.now.plan self.now.table.shared.table_id seat.old }
        requires role { MayPop (permits_of self.now.plan) (known_of seat.old).number }
        requires found { (view seat.old).stage ≡ found (word ∷ []) }
        requires none { self.now.plan.carries ≡ true → HasNoSlot seat.old }
        ensures seat { IsReady self.now.plan self.now.table.shared.table_id seat.new }
        ensures name { KeepsName seat.old seat.new }
        ensures taken { MatchOption result
            (SeesMore (known_of seat.old) (known_of seat.new) × (seat.old.head < seat.new.head))
            (λ value. Popped (known_of seat.old) value (known_of seat.new)) }
        ensures moves { PopMoves self.now.plan seat.old seat.new result }
        ensures tried { IsNone result → Tried seat.old seat.new 1 }
    {
        let head = seat.head;
        if self.raise_head(seat, &[word], 1) == head {
            Some(taken_of(word))
        } else {
            None
        }
    }

    /// Sets the bit of the shut: whether it wasn't set. It moves no slot.
    ///
    /// Refusals: those of `try_shut`. Takes no memory and doesn't wait.
    pub fn set_shut(&self, seat: &mut Seat<T>) -> Result<(), Refusal>
        requires ready { IsRingSeat self.now seat.old }
        requires role { MayPush (permits_in self.now) (known_of seat.old).number }
        ensures seat { IsRingSeat self.now seat.new }
        //= ring/shut_slots: A shut moves no slot.
        ensures slots { KeepsSlots seat.old seat.new }
        ensures name { KeepsName seat.old seat.new }
        ensures shut { OnOk result (DidShut (known_of seat.old) (known_of seat.new)) }
        ensures was { IfErr result
            (λ refusal. (refusal ≡ Refusal.Closed) × FoundShut (known_of seat.old) (known_of seat.new)) }
    {
        let tail = self
            .table
            .shared
            .fetch_or::<Brand>(&mut seat.token, TAIL, SHUT);
        if tail < SHUT {
            Ok(())
        } else {
            Err(Refusal::Closed)
        }
    }
}
