//! Values whose words lie in their places: the lines that a push and a pop of one have beside those of numbers, and these calls.
ghost use Rattle.std.specs.Prelude.{◌≡◌, ℕ, ◌+◌, ◌%◌, ◌<◌, true, List, [], ◌∷◌, length, take, Option, OnOk, IfOk, IfErr, IsNone, MatchOption};
ghost use Rattle.history.specs.declared.operations.Taken.{Taken as TheTaken};
ghost use Rattle.history.specs.Seats.{MayPush, MayPop};
ghost use Rattle.history.specs.Answers.{Pushed, PushRefused, StopsPush, Popped, PopAnswers, PopRefused, StopsPop, DidShut, FoundShut, Meets, SeesMore};
ghost use Rattle.node_arena.specs.Deeds.{pushed, closed};
ghost use Rattle.ring_queue.specs.Plans.{permits_of, words_of, further_of};
ghost use Rattle.ring_queue.specs.Knowledge.{claimed, found};
ghost use Rattle.ring_queue.specs.Steps.{PlacesClaimed, FrontsTaken};
ghost use Rattle.ring_queue.specs.Looks.{SeesRoom};
ghost use Rattle.ring_queue.specs.Placed.{HasRead, storing, loading, value_word};
ghost use Rattle.ring_queue.specs.PlacedSeats.{IsWordSeat, AddsSaid, MeetsSaid, ClaimedFor, TookWord, SaysTurn, TookFront, TookTurn, hand_of, said_by};
ghost use Rattle.ring_queue.specs.Pushes.{PushSays};
ghost use Rattle.ring_queue.specs.Causes.{PushCaused, PopCaused};
ghost use Rattle.ring_queue.specs.Turns.{TurnSays, Tried, TurnTried};
ghost use Rattle.ring_queue.specs.Queues.{permits_in};
ghost use Rattle.ring_queue.specs.Seats.{Sits, IsAtRest, KeepsName, KeepsSlots, known_of, view};

use crate::acts::{payload_beside, taken_of};
use crate::places::{HEAD, SHUT, TAIL, part_word};
use crate::pops::Turn;
use crate::pushes::PushTurn;
use crate::queue::RingQueue;
use crate::seats::Seat;
use history::{Refusal, Taken};
use std::marker::Brand;

impl<T> RingQueue<T> {
    // Where a word of the value of a place lies.
    fn word_of(&self, place: u64, part: usize) -> usize
        requires part { part < self.now.plan.width }
        ensures value { result ≡ value_word self.now.plan.slots (place % self.now.plan.slots) part }
        ensures within { result < words_of self.now.plan + further_of self.now.plan }
    {
        part_word(self.plan.slots, self.slot_of(place), part)
    }

    // A push with room by its seat's head and tail claims the next place for this value, if Tail is at its seat's tail: the word of
    // Tail as it was. The value is for the caller's pick alone.
    fn claim_for(&self, seat: &mut Seat<T>, value: &[u64]) -> u64
        ghost pushing: { List ℕ }
        requires value { pushing ≡ value.now }
        requires ready { IsAtRest self.now.plan self.now.table.shared.table_id seat.old }
        requires placed { self.now.plan.placed ≡ true }
        requires role { MayPush (permits_of self.now.plan) (known_of seat.old).number }
        requires room { SeesRoom self.now.plan seat.old }
        requires wide { length pushing ≡ self.now.plan.width }
        ensures seat { Sits self.now.plan self.now.table.shared.table_id seat.new }
        ensures slots { KeepsSlots seat.old seat.new }
        ensures name { KeepsName seat.old seat.new }
        ensures told { PlacesClaimed self.now.plan (0 ∷ []) (view seat.old) result (view seat.new) }
        ensures due { ClaimedFor pushing seat.old result seat.new }
    {
        let _ = value;
        let tail = seat.tail;
        let was = self
            .table
            .shared
            .compare_exchange::<Brand>(&mut seat.token, TAIL, tail, tail + 1);
        seat.tail = if was == tail { tail + 1 } else { was % SHUT };
        was
    }

    // A push stores the next word of its value in the place that it claimed. Which it is is for the caller's pick alone.
    fn store_part(&self, seat: &mut Seat<T>, place: u64, value: &[u64], part: usize)
        ghost due: { List ℕ × ℕ }
        requires value { due ≡ (value.now, part) }
        requires sits { Sits self.now.plan self.now.table.shared.table_id seat.old }
        requires placed { self.now.plan.placed ≡ true }
        requires claimed { (x : Option TheTaken) × ((view seat.old).stage ≡ claimed place (x ∷ [])) }
        requires due { hand_of seat.old ≡ storing due.0 due.1 }
        requires wide { length value.now ≡ self.now.plan.width }
        requires part { part < self.now.plan.width }
        ensures seat { Sits self.now.plan self.now.table.shared.table_id seat.new }
        ensures slots { KeepsSlots seat.old seat.new }
        ensures name { KeepsName seat.old seat.new }
        ensures places { (seat.new.head ≡ seat.old.head) × (seat.new.tail ≡ seat.old.tail) }
        ensures known { view seat.new ≡ view seat.old }
        ensures said { said_by seat.new ≡ said_by seat.old }
        ensures stored { hand_of seat.new ≡ storing value.now (part + 1) }
    {
        let word = self.word_of(place, part);
        self.table
            .shared
            .store::<Brand>(&mut seat.token, word, value[part]);
    }

    // A push stores the words of its value in the place that it claimed.
    fn store_value(&self, seat: &mut Seat<T>, place: u64, value: &[u64])
        requires sits { Sits self.now.plan self.now.table.shared.table_id seat.old }
        requires placed { self.now.plan.placed ≡ true }
        requires claimed { (x : Option TheTaken) × ((view seat.old).stage ≡ claimed place (x ∷ [])) }
        requires due { hand_of seat.old ≡ storing value.now 0 }
        requires wide { length value.now ≡ self.now.plan.width }
        ensures seat { Sits self.now.plan self.now.table.shared.table_id seat.new }
        ensures slots { KeepsSlots seat.old seat.new }
        ensures name { KeepsName seat.old seat.new }
        ensures places { (seat.new.head ≡ seat.old.head) × (seat.new.tail ≡ seat.old.tail) }
        ensures known { view seat.new ≡ view seat.old }
        ensures said { said_by seat.new ≡ said_by seat.old }
        ensures stored { hand_of seat.new ≡ storing value.now self.now.plan.width }
    {
        for part in 0..value.len() {
            self.store_part(seat, place, value, part);
        }
    }

    // A pop that found the word of its place loads the next word of the value there. Those before are for the caller's pick alone.
    fn load_part(&self, seat: &mut Seat<T>, value: &mut [u64], part: usize)
        ghost read: { List ℕ }
        requires value { read ≡ take part value.old }
        requires ready { IsAtRest self.now.plan self.now.table.shared.table_id seat.old }
        requires placed { self.now.plan.placed ≡ true }
        requires found { (word : ℕ) × ((view seat.old).stage ≡ found (word ∷ [])) }
        requires loaded { HasRead (hand_of seat.old) read }
        requires wide { length value.old ≡ self.now.plan.width }
        requires part { part < self.now.plan.width }
        ensures seat { IsAtRest self.now.plan self.now.table.shared.table_id seat.new }
        ensures slots { KeepsSlots seat.old seat.new }
        ensures name { KeepsName seat.old seat.new }
        ensures head { seat.new.head ≡ seat.old.head }
        ensures known { view seat.new ≡ view seat.old }
        ensures said { said_by seat.new ≡ said_by seat.old }
        ensures wide { length value.new ≡ length value.old }
        ensures loaded { hand_of seat.new ≡ loading (take (part + 1) value.new) }
    {
        let word = self.word_of(seat.head, part);
        value[part] = self.table.shared.load::<Brand>(&mut seat.token, word);
    }

    // A pop that found the word of its place loads the words of the value there.
    fn load_value(&self, seat: &mut Seat<T>, value: &mut [u64])
        requires ready { IsAtRest self.now.plan self.now.table.shared.table_id seat.old }
        requires placed { self.now.plan.placed ≡ true }
        requires found { (word : ℕ) × ((view seat.old).stage ≡ found (word ∷ [])) }
        requires wide { length value.old ≡ self.now.plan.width }
        ensures seat { IsAtRest self.now.plan self.now.table.shared.table_id seat.new }
        ensures slots { KeepsSlots seat.old seat.new }
        ensures name { KeepsName seat.old seat.new }
        ensures head { seat.new.head ≡ seat.old.head }
        ensures known { view seat.new ≡ view seat.old }
        ensures said { said_by seat.new ≡ said_by seat.old }
        ensures wide { length value.new ≡ length value.old }
        ensures loaded { hand_of seat.new ≡ loading value.new }
    {
        for part in 0..value.len() {
            self.load_part(seat, value, part);
        }
    }

    // A pop that found this word at its place, and loaded this value beside it, raises Head: the word of Head as it was. What it
    // found and loaded is for the caller's pick alone.
    fn raise_for(&self, seat: &mut Seat<T>, word: u64, value: &[u64]) -> u64
        ghost read: { ℕ × List ℕ }
        requires read { read ≡ (word, value.now) }
        requires ready { IsAtRest self.now.plan self.now.table.shared.table_id seat.old }
        requires placed { self.now.plan.placed ≡ true }
        requires role { MayPop (permits_of self.now.plan) (known_of seat.old).number }
        requires found { (view seat.old).stage ≡ found (read.0 ∷ []) }
        requires loaded { hand_of seat.old ≡ loading read.1 }
        requires wide { length read.1 ≡ self.now.plan.width }
        ensures seat { IsAtRest self.now.plan self.now.table.shared.table_id seat.new }
        ensures slots { KeepsSlots seat.old seat.new }
        ensures name { KeepsName seat.old seat.new }
        ensures told { FrontsTaken self.now.plan (read.0 ∷ []) (view seat.old) result (view seat.new) }
        ensures took { TookWord read.0 read.1 seat.old result seat.new }
    {
        let _ = word;
        let _ = value;
        let head = seat.head;
        let was = self
            .table
            .shared
            .compare_exchange::<Brand>(&mut seat.token, HEAD, head, head + 1);
        seat.head = if was == head { head + 1 } else { was };
        was
    }

    // A push whose seat sees room claims the next place, stores its value there, and fills it.
    fn push_value_there(&self, seat: &mut Seat<T>, value: &[u64]) -> PushTurn
        requires ready { IsAtRest self.now.plan self.now.table.shared.table_id seat.old }
        requires placed { self.now.plan.placed ≡ true }
        requires role { MayPush (permits_of self.now.plan) (known_of seat.old).number }
        requires room { SeesRoom self.now.plan seat.old }
        requires wide { length value.now ≡ self.now.plan.width }
        ensures seat { IsAtRest self.now.plan self.now.table.shared.table_id seat.new }
        ensures name { KeepsName seat.old seat.new }
        ensures says { PushSays self.now.plan seat.old seat.new 0 result }
        ensures said { SaysTurn seat.old seat.new value.now result }
    {
        let payload = payload_beside(seat.number);
        let tail = seat.tail;
        let was = self.claim_for(seat, value);
        if was == tail {
            self.store_value(seat, tail, value);
            self.fill(seat, tail, payload);
            PushTurn::Done
        } else if was >= SHUT {
            PushTurn::Stopped(Refusal::Closed)
        } else {
            PushTurn::Failed
        }
    }

    // One turn of a push.
    fn push_value_turn(&self, seat: &mut Seat<T>, value: &[u64]) -> PushTurn
        requires ready { IsAtRest self.now.plan self.now.table.shared.table_id seat.old }
        requires placed { self.now.plan.placed ≡ true }
        requires role { MayPush (permits_of self.now.plan) (known_of seat.old).number }
        requires wide { length value.now ≡ self.now.plan.width }
        ensures seat { IsAtRest self.now.plan self.now.table.shared.table_id seat.new }
        ensures name { KeepsName seat.old seat.new }
        ensures says { PushSays self.now.plan seat.old seat.new 0 result }
        ensures said { SaysTurn seat.old seat.new value.now result }
    {
        match self.find_room(seat) {
            Ok(()) => self.push_value_there(seat, value),
            Err(refusal) => PushTurn::Stopped(refusal),
        }
    }

    /// Pushes a value at the back, of as many words as the ring was made for, in so many turns at most, which are counted from where
    /// the seat has seen Tail in this call.
    ///
    /// Refusals: those of `try_push`. Takes no memory and doesn't wait.
    pub fn push_words(&self, seat: &mut Seat<T>, value: &[u64], turns: u32) -> Result<(), Refusal>
        requires seat { IsWordSeat self.now seat.old }
        requires role { MayPush (permits_in self.now) (known_of seat.old).number }
        requires wide { length value.now ≡ self.now.plan.width }
        ensures seat { IsWordSeat self.now seat.new }
        ensures name { KeepsName seat.old seat.new }
        //= ring/push_words (pushed, said, refused, refusal, caused, kept): A push of a value whose words lie in its place takes effect at
        //=   one step of the call, as that of the number 0: it is the last deed that its seat has seen. Or it is refused, for what
        //=   was so at its last step, or in each of its turns, and adds no deed.
        ensures pushed { OnOk result (Pushed (known_of seat.old) 0 (known_of seat.new)) }
        ensures said { OnOk result (AddsSaid seat.old seat.new (pushed (view seat.old).number value.now)) }
        ensures refused { IfErr result
            (λ refusal. PushRefused (known_of seat.old) refusal (known_of seat.new)) }
        ensures refusal { IfErr result StopsPush }
        ensures caused { IfErr result (PushCaused self.now.plan seat.old seat.new turns) }
        ensures kept { IfErr result (λ _. KeepsSlots seat.old seat.new) }
    {
        for _ in 0..u64::from(turns) + 1 {
            match self.push_value_turn(seat, value) {
                PushTurn::Done => return Ok(()),
                PushTurn::Stopped(refusal) => return Err(refusal),
                PushTurn::Failed => {}
            }
        }
        Err(Refusal::Busy)
    }

    // A pop that found this word at its place loads the value there, and takes both; none where another took them.
    fn take_value_there(&self, seat: &mut Seat<T>, word: u64, value: &mut [u64]) -> Option<Taken>
        requires ready { IsAtRest self.now.plan self.now.table.shared.table_id seat.old }
        requires placed { self.now.plan.placed ≡ true }
        requires role { MayPop (permits_of self.now.plan) (known_of seat.old).number }
        requires found { (view seat.old).stage ≡ found (word ∷ []) }
        requires wide { length value.old ≡ self.now.plan.width }
        ensures seat { IsAtRest self.now.plan self.now.table.shared.table_id seat.new }
        ensures name { KeepsName seat.old seat.new }
        ensures taken { MatchOption result
            (SeesMore (known_of seat.old) (known_of seat.new) × (seat.old.head < seat.new.head))
            (λ v. Popped (known_of seat.old) v (known_of seat.new)) }
        ensures took { TookFront seat.old seat.new value.new result }
        ensures tried { IsNone result → Tried seat.old seat.new 1 }
        ensures wide { length value.new ≡ length value.old }
    {
        self.load_value(seat, value);
        let head = seat.head;
        if self.raise_for(seat, word, value) == head {
            Some(taken_of(word))
        } else {
            None
        }
    }

    // One turn of a pop; the value that it took is put here.
    fn pop_value_turn(&self, seat: &mut Seat<T>, value: &mut [u64]) -> Turn
        requires ready { IsAtRest self.now.plan self.now.table.shared.table_id seat.old }
        requires placed { self.now.plan.placed ≡ true }
        requires role { MayPop (permits_of self.now.plan) (known_of seat.old).number }
        requires wide { length value.old ≡ self.now.plan.width }
        ensures seat { IsAtRest self.now.plan self.now.table.shared.table_id seat.new }
        ensures name { KeepsName seat.old seat.new }
        ensures says { TurnSays self.now.plan seat.old seat.new result }
        ensures took { TookTurn seat.old seat.new value.new result }
        ensures tried { TurnTried seat.old seat.new result }
        ensures wide { length value.new ≡ length value.old }
    {
        let Some(word) = self.look_twice_at_front(seat) else {
            return self.turn_at_end(seat);
        };
        match self.take_value_there(seat, word, value) {
            Some(taken) => Turn::Took(taken),
            None => Turn::Failed,
        }
    }

    /// Takes the value at the front, in so many turns at most: the number of the seat that pushed it, with the number 0. The words of
    /// the value are put into `value`, which has as many as the ring was made for; where none is taken, what is there means nothing.
    ///
    /// Refusals: those of `try_pop`. Takes no memory and doesn't wait.
    pub fn pop_words(
        &self,
        seat: &mut Seat<T>,
        value: &mut [u64],
        turns: u32,
    ) -> Result<Option<Taken>, Refusal>
        requires seat { IsWordSeat self.now seat.old }
        requires role { MayPop (permits_in self.now) (known_of seat.old).number }
        requires wide { length value.old ≡ self.now.plan.width }
        ensures seat { IsWordSeat self.now seat.new }
        ensures name { KeepsName seat.old seat.new }
        ensures wide { length value.new ≡ length value.old }
        //= ring/pop_words (answer, took, refused, refusal, caused, kept): A pop of a value whose words lie in its place takes effect
        //=   at one step of the call: it is the last deed that its seat has seen, and what this had then seen leads to a queue with
        //=   that value in front. Or it found none, or is refused, and adds no deed.
        ensures answer { IfOk result (λ r. PopAnswers (known_of seat.old) r (known_of seat.new)) }
        ensures took { IfOk result (TookFront seat.old seat.new value.new) }
        ensures refused { IfErr result
            (λ refusal. PopRefused (known_of seat.old) refusal (known_of seat.new)) }
        ensures refusal { IfErr result StopsPop }
        ensures caused { IfErr result (PopCaused self.now.plan seat.old seat.new turns) }
        ensures kept { IfErr result (λ _. KeepsSlots seat.old seat.new) }
    {
        for _ in 0..turns {
            match self.pop_value_turn(seat, value) {
                Turn::Took(taken) => return Ok(Some(taken)),
                Turn::Empty => return Ok(None),
                Turn::Closed => return Err(Refusal::Closed),
                Turn::Failed => {}
            }
        }
        Err(Refusal::Busy)
    }

    /// Sets the bit of the shut: whether it wasn't set.
    ///
    /// Refusals: those of `try_shut`. Takes no memory and doesn't wait.
    pub fn shut_words(&self, seat: &mut Seat<T>) -> Result<(), Refusal>
        requires seat { IsWordSeat self.now seat.old }
        requires role { MayPush (permits_in self.now) (known_of seat.old).number }
        ensures seat { IsWordSeat self.now seat.new }
        ensures name { KeepsName seat.old seat.new }
        //= ring/shut_words (shut, said, was, kept): A shut of a ring whose values lie in their places is the last deed that
        //=   its seat has seen. Or the ring was shut before, and it adds no deed.
        ensures shut { OnOk result (DidShut (known_of seat.old) (known_of seat.new)) }
        ensures said { OnOk result (AddsSaid seat.old seat.new (closed (view seat.old).number)) }
        ensures was { IfErr result
            (λ refusal. (refusal ≡ Refusal.Closed) × FoundShut (known_of seat.old) (known_of seat.new)) }
        ensures kept { IfErr result (λ _. KeepsSlots seat.old seat.new) }
    {
        let tail = self
            .table
            .shared
            .fetch_or::<Brand>(&mut seat.token, TAIL, SHUT);
        if tail < SHUT {
            Ok(())
        } else {
            Err(Refusal::Closed)
        }
    }

    /// Afterwards both seats have seen one history, which begins with what each had seen, of values too. Takes no memory and doesn't
    /// wait.
    pub fn meet_words(&self, one: &mut Seat<T>, other: &mut Seat<T>)
        requires one { IsWordSeat self.now one.old }
        requires other { IsWordSeat self.now other.old }
        ensures one { IsWordSeat self.now one.new }
        ensures other { IsWordSeat self.now other.new }
        ensures names { KeepsName one.old one.new × KeepsName other.old other.new }
        //= ring/meet_words (meets, said): Two seats of a ring whose values lie in their places have seen one history of values
        //=   after they met, which begins with what each had seen.
        ensures meets { Meets (known_of one.old) (known_of other.old)
            (known_of one.new) (known_of other.new) }
        ensures said { MeetsSaid one.old other.old one.new other.new }
    {
        self.meet_at_rest(one, other);
    }
}
