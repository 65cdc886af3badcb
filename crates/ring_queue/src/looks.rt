//! The lines that read.
ghost use Rattle.std.specs.Prelude.{◌≡◌, ℕ, ◌<◌, List, [], ◌∷◌, length, ◌%◌, ◌^◌, ◌≤◌, IfSome, IsNone};
ghost use Rattle.history.specs.Answers.{SeesMore};
ghost use Rattle.ring_queue.specs.Knowledge.{rests, found, unfilled, head_due};
ghost use Rattle.node_arena.specs.Looks.{LeadsToSome};
ghost use Rattle.ring_queue.specs.Steps.{HoldsSoMany, WasLate};
ghost use Rattle.ring_queue.specs.Lengths.{HeadCounts};
ghost use Rattle.ring_queue.specs.Seats.{IsAtRest, IsReady, KeepsName, KeepsSlots, known_of, view};
ghost use Rattle.ring_queue.specs.Turns.{Tried};
ghost use Rattle.ring_queue.specs.Looks.{NextSays, TailSays, HeadSays, EndSays};

use crate::places::{HEAD, SHUT, SLOTS, TAIL};
use crate::queue::RingQueue;
use crate::seats::Seat;
use std::marker::Brand;

/// What a push finds in Tail.
pub(crate) enum TailLook {
    /// The queue is shut.
    Shut,
    /// No place up to the limit is left.
    Worn,
    /// A place is left.
    Open,
}

/// What a pop that found its place not filled finds in Tail.
pub(crate) enum EndLook {
    /// The queue is empty.
    Empty,
    /// It is shut and empty.
    Closed,
    /// A place was claimed.
    Ahead,
}

impl<T> RingQueue<T> {
    /// A push reads Tail.
    pub(crate) fn look_at_tail(&self, seat: &mut Seat<T>) -> TailLook
        requires { IsAtRest self.now.plan self.now.table.shared.table_id seat.old }
        ensures seat { IsAtRest self.now.plan self.now.table.shared.table_id seat.new }
        ensures slots { KeepsSlots seat.old seat.new }
        ensures name { KeepsName seat.old seat.new }
        ensures says { TailSays self.now.plan seat.old seat.new result }
        ensures more { seat.old.tail ≤ seat.new.tail }
        ensures tried { Tried seat.old seat.new 0 }
    {
        let limit = self.sizes().limit;
        let tail = self.table.shared.load::<Brand>(&mut seat.token, TAIL);
        seat.tail = tail % SHUT;
        if tail >= SHUT {
            TailLook::Shut
        } else if tail >= limit {
            TailLook::Worn
        } else {
            TailLook::Open
        }
    }

    /// A push reads Head: whether by its seat's tail the queue is full.
    pub(crate) fn finds_full(&self, seat: &mut Seat<T>) -> bool
        requires ready { IsAtRest self.now.plan self.now.table.shared.table_id seat.old }
        requires stage { (view seat.old).stage ≡ rests }
        ensures seat { IsAtRest self.now.plan self.now.table.shared.table_id seat.new }
        ensures slots { KeepsSlots seat.old seat.new }
        ensures name { KeepsName seat.old seat.new }
        ensures says { HeadSays self.now.plan seat.old seat.new result }
        ensures tail { seat.new.tail ≡ seat.old.tail }
        ensures tried { Tried seat.old seat.new 0 }
    {
        let most = self.sizes().most;
        let head = self.table.shared.load::<Brand>(&mut seat.token, HEAD);
        seat.head = head;
        most <= seat.tail.saturating_sub(head)
    }

    /// A seat that looks how many values there are reads Tail.
    pub(crate) fn see_tail(&self, seat: &mut Seat<T>) -> u64
        requires { IsAtRest self.now.plan self.now.table.shared.table_id seat.old }
        ensures seat { IsAtRest self.now.plan self.now.table.shared.table_id seat.new }
        ensures slots { KeepsSlots seat.old seat.new }
        ensures name { KeepsName seat.old seat.new }
        ensures sees { SeesMore (known_of seat.old) (known_of seat.new) }
        ensures head { seat.new.head ≡ seat.old.head }
        ensures tail { seat.new.tail ≡ result % 2 ^ 62 }
        ensures holds { HoldsSoMany self.now.plan result (view seat.new).seen }
    {
        let tail = self.table.shared.load::<Brand>(&mut seat.token, TAIL);
        seat.tail = tail % SHUT;
        tail
    }

    /// A seat reads Head.
    pub(crate) fn look_at_head(&self, seat: &mut Seat<T>)
        requires { IsAtRest self.now.plan self.now.table.shared.table_id seat.old }
        ensures seat { IsAtRest self.now.plan self.now.table.shared.table_id seat.new }
        ensures slots { KeepsSlots seat.old seat.new }
        ensures name { KeepsName seat.old seat.new }
        ensures sees { SeesMore (known_of seat.old) (known_of seat.new) }
        ensures more { seat.old.head ≤ seat.new.head }
        ensures counts { HeadCounts self.now.plan seat.new }
        ensures tail { seat.new.tail ≡ seat.old.tail }
        ensures some { seat.new.head < seat.new.tail → LeadsToSome (view seat.new).seen }
        ensures tried { (view seat.old).stage ≡ head_due → Tried seat.old seat.new 1 }
    {
        seat.head = self.table.shared.load::<Brand>(&mut seat.token, HEAD);
    }

    /// A pop reads the word at its place, if this is filled.
    pub(crate) fn look_at_front(&self, seat: &mut Seat<T>) -> Option<u64>
        requires { IsAtRest self.now.plan self.now.table.shared.table_id seat.old }
        ensures seat { IsAtRest self.now.plan self.now.table.shared.table_id seat.new }
        ensures slots { KeepsSlots seat.old seat.new }
        ensures name { KeepsName seat.old seat.new }
        ensures sees { SeesMore (known_of seat.old) (known_of seat.new) }
        ensures head { seat.new.head ≡ seat.old.head }
        ensures tried { Tried seat.old seat.new 0 }
        ensures filled { IfSome result (λ word. (view seat.new).stage ≡ found (word ∷ [])) }
        ensures late { IsNone result → WasLate self.now.plan (view seat.new).seen seat.new.head }
        ensures goes_on { IsNone result → (view seat.new).stage ≡ unfilled }
    {
        let slot = self.slot_of(seat.head);
        let word = self
            .table
            .shared
            .load::<Brand>(&mut seat.token, SLOTS + 2 * slot);
        if word >> 63 == self.parity_of(seat.head) {
            Some(word)
        } else {
            None
        }
    }

    /// A pop that found these words, so many, at its places reads the next one, if this place is filled.
    pub(crate) fn look_next(&self, seat: &mut Seat<T>, words: &[u64], count: u64) -> Option<u64>
        ghost before: { List ℕ }
        requires ready { IsReady self.now.plan self.now.table.shared.table_id seat.old }
        requires found { (view seat.old).stage ≡ found before }
        requires words { before ≡ words.now }
        requires count { count ≡ length words.now }
        requires few { count < self.now.plan.slots }
        ensures seat { IsReady self.now.plan self.now.table.shared.table_id seat.new }
        ensures name { KeepsName seat.old seat.new }
        ensures sees { SeesMore (known_of seat.old) (known_of seat.new) }
        ensures head { seat.new.head ≡ seat.old.head }
        ensures found { NextSays words.now (view seat.new).stage result }
        ensures tried { Tried seat.old seat.new 0 }
    {
        let _ = words;
        let place = seat.head + count;
        let slot = self.slot_of(place);
        let word = self
            .table
            .shared
            .load::<Brand>(&mut seat.token, SLOTS + 2 * slot);
        if word >> 63 == self.parity_of(place) {
            Some(word)
        } else {
            None
        }
    }

    /// A pop that found its place not filled reads Tail.
    pub(crate) fn look_at_end(&self, seat: &mut Seat<T>) -> EndLook
        requires ready { IsAtRest self.now.plan self.now.table.shared.table_id seat.old }
        requires due { (view seat.old).stage ≡ unfilled }
        ensures seat { IsAtRest self.now.plan self.now.table.shared.table_id seat.new }
        ensures slots { KeepsSlots seat.old seat.new }
        ensures name { KeepsName seat.old seat.new }
        ensures says { EndSays self.now.plan seat.old seat.new result }
        ensures tried { Tried seat.old seat.new 0 }
    {
        let tail = self.table.shared.load::<Brand>(&mut seat.token, TAIL);
        if tail == seat.head {
            EndLook::Empty
        } else if tail >= SHUT && tail - SHUT == seat.head {
            EndLook::Closed
        } else {
            EndLook::Ahead
        }
    }
}
