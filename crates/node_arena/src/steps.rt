//! The atomic steps of a seat, one call for each form.
ghost use Rattle.std.specs.Prelude.{◌≡◌, ◌≢◌, MatchResult};
ghost use Rattle.step_machine.specs.Tables.{load_at, store_at, and_at, exchange_at};
ghost use Rattle.node_arena.specs.Places as places;
ghost use Rattle.node_arena.specs.Prologues.{Prologue};
ghost use Rattle.node_arena.specs.Seats.{MayStep, DidStep, DidSome};

use crate::arena::ArenaOf;
use crate::seats::Seat;
use line_table::Line;
use std::marker::Brand;

impl<const B: u32, T> ArenaOf<B, T> {
    /// One load of a word: the seat's next move, at this line. Answers what was found.
    ///
    /// That the step is the seat's next move by the rule, on the word of this index, which lies at this place of the table,
    /// is the caller's condition. Takes no memory and doesn't wait.
    pub fn load(&self, seat: &mut Seat<T>, line: Line, word: usize, place: usize) -> u64
        ghost prologue: { Prologue }
        requires may { MayStep self.now seat.old prologue line (load_at word) }
        requires lies { place ≡ places.place word }
        //= atomics/rule
        //= atomics/step: A seat's atomic step is the machine's step of its actor at that line, after the begin that the
        //=   caller names and the give or rest before this. It answers the number found; an exchange is won exactly
        //=   where that is the old one. A seat counts its own pushes and pops, and keeps whether it shut. Where values
        //=   are carried, a push gives the seat's slot, a pop takes that of the front, and else no slot moves (`Moves`).
        //= atomics/seen: A seat has seen the whole history after E7, E9, A5, D13, B5, D4, B3, S3, S4 and S8, and sees
        //=   no more at other lines. An answer that the queue is empty, or shut, is noted with the number of entries
        //=   seen, which leave it empty and not shut; or shut, and at a pop empty too (`Steps`).
        ensures { DidStep self.now seat.old seat.new prologue line result }
    {
        let _ = (line, word);
        self.table.shared.load::<Brand>(&mut seat.token, place)
    }

    /// One store into a word: the seat's next move, at this line. The seat counts a push, a pop or a shut that it makes.
    ///
    /// That the step is the seat's next move by the rule, on the word of this index, which lies at this place of the table,
    /// is the caller's condition. Takes no memory and doesn't wait.
    pub fn store(&self, seat: &mut Seat<T>, line: Line, word: usize, place: usize, value: u64)
        ghost prologue: { Prologue }
        requires may { MayStep self.now seat.old prologue line (store_at word value) }
        requires lies { place ≡ places.place word }
        //= atomics/rule
        //= atomics/step
        //= atomics/seen
        ensures { DidSome self.now seat.old seat.new prologue line }
    {
        let _ = word;
        self.table
            .shared
            .store::<Brand>(&mut seat.token, place, value);
        seat.count(line);
    }

    /// One fetch_and of a word with a mask: the seat's next move, at this line. Answers what was found.
    ///
    /// That the step is the seat's next move by the rule, on the word of this index, which lies at this place of the table,
    /// is the caller's condition. Takes no memory and doesn't wait.
    pub fn fetch_and(
        &self,
        seat: &mut Seat<T>,
        line: Line,
        word: usize,
        place: usize,
        mask: u64,
    ) -> u64
        ghost prologue: { Prologue }
        requires may { MayStep self.now seat.old prologue line (and_at word mask) }
        requires lies { place ≡ places.place word }
        //= atomics/rule
        //= atomics/step
        //= atomics/seen
        ensures { DidStep self.now seat.old seat.new prologue line result }
    {
        let _ = (line, word);
        self.table
            .shared
            .fetch_and::<Brand>(&mut seat.token, place, mask)
    }

    /// One compare-exchange of a word: the seat's next move, at this line. It writes `new` where the word is `old`;
    /// else the answer is an `Err` with the word found. The seat counts a push, a pop or a shut that it makes.
    ///
    /// That the step is the seat's next move by the rule, on the word of this index, which lies at this place of the table,
    /// is the caller's condition. Takes no memory and doesn't wait.
    pub fn exchange(
        &self,
        seat: &mut Seat<T>,
        line: Line,
        word: usize,
        place: usize,
        old: u64,
        new: u64,
    ) -> Result<u64, u64>
        ghost prologue: { Prologue }
        requires may { MayStep self.now seat.old prologue line (exchange_at word old new) }
        requires lies { place ≡ places.place word }
        //= atomics/rule
        //= atomics/step
        //= atomics/seen
        ensures { MatchResult result
            (λ n. (n ≡ old) × DidStep self.now seat.old seat.new prologue line n)
            (λ n. (n ≢ old) × DidStep self.now seat.old seat.new prologue line n) }
    {
        let _ = word;
        let found = self
            .table
            .shared
            .compare_exchange::<Brand>(&mut seat.token, place, old, new);
        if found == old {
            seat.count(line);
            Ok(found)
        } else {
            Err(found)
        }
    }
}
