//! One atomic step of a call on a word with a name: at the line where the call sets out, or under way.
ghost use Rattle.counted_ref.specs.Ref.{count_mask};
ghost use Rattle.node_arena.specs.Machine.{load_at, store_at, and_at, exchange_at};
ghost use Rattle.node_arena.specs.Prologues.{Prologue, continues};
ghost use Rattle.node_arena.specs.Seats.{MayStep, DidStep, DidSome, setup_of};
ghost use Rattle.free_list.specs.Words.{index_of, Accesses};

use crate::words::Word;
use line_table::Line;
use node_arena::{ArenaOf, Seat};

/// One load of a word. `failed` turns of the call failed before: a caller picks the prologue by it. Takes no memory and
/// doesn't wait.
#[inline(always)]
pub fn load<const B: u32, T>(
    arena: &ArenaOf<B, T>,
    seat: &mut Seat<T>,
    line: Line,
    word: Word,
    failed: u32,
) -> u64
    ghost prologue: { Prologue }
    requires may { MayStep arena.now seat.old prologue line (load_at (index_of word)) }
    requires names { Accesses arena.now seat.old prologue line word }
    ensures { DidStep arena.now seat.old seat.new prologue line result }
{
    let _ = failed;
    arena.load(seat, line, word.index(), word.place())
}

/// One load of a word by a call that is under way. Takes no memory and doesn't wait.
#[inline(always)]
pub fn loaded<const B: u32, T>(
    arena: &ArenaOf<B, T>,
    seat: &mut Seat<T>,
    line: Line,
    word: Word,
) -> u64
    requires may { MayStep arena.now seat.old continues line (load_at (index_of word)) }
    requires names { Accesses arena.now seat.old continues line word }
    ensures { DidStep arena.now seat.old seat.new continues line result }
{
    load(arena, seat, line, word, 0)
}

/// One store into a word: a caller picks the prologue by the value. Takes no memory and doesn't wait.
#[inline(always)]
pub fn store<const B: u32, T>(
    arena: &ArenaOf<B, T>,
    seat: &mut Seat<T>,
    line: Line,
    word: Word,
    value: u64,
)
    ghost prologue: { Prologue }
    requires may { MayStep arena.now seat.old prologue line (store_at (index_of word) value) }
    requires names { Accesses arena.now seat.old prologue line word }
    ensures { DidSome arena.now seat.old seat.new prologue line }
{
    arena.store(seat, line, word.index(), word.place(), value);
}

/// One store into a word by a call that is under way. Takes no memory and doesn't wait.
#[inline(always)]
pub fn stored<const B: u32, T>(
    arena: &ArenaOf<B, T>,
    seat: &mut Seat<T>,
    line: Line,
    word: Word,
    value: u64,
)
    requires may { MayStep arena.now seat.old continues line (store_at (index_of word) value) }
    requires names { Accesses arena.now seat.old continues line word }
    ensures { DidSome arena.now seat.old seat.new continues line }
{
    store(arena, seat, line, word, value);
}

/// One fetch_and, by a call that is under way, that leaves the count of the reference in a word; the word found is the
/// answer. Takes no memory and doesn't wait.
#[inline(always)]
pub fn cleared<const B: u32, T>(
    arena: &ArenaOf<B, T>,
    seat: &mut Seat<T>,
    line: Line,
    word: Word,
) -> u64
    requires may { MayStep arena.now seat.old continues line
        (and_at (index_of word) (count_mask (setup_of arena.now).bits)) }
    requires names { Accesses arena.now seat.old continues line word }
    ensures { DidStep arena.now seat.old seat.new continues line result }
{
    arena.fetch_and(seat, line, word.index(), word.place(), arena.count_mask())
}

/// One compare-exchange of a word; the word found is the answer, won or lost. `failed` turns of the call failed before: a
/// caller picks the prologue by it. Takes no memory and doesn't wait.
#[inline(always)]
pub fn exchange<const B: u32, T>(
    arena: &ArenaOf<B, T>,
    seat: &mut Seat<T>,
    line: Line,
    word: Word,
    old: u64,
    new: u64,
    failed: u32,
) -> u64
    ghost prologue: { Prologue }
    requires may { MayStep arena.now seat.old prologue line (exchange_at (index_of word) old new) }
    requires names { Accesses arena.now seat.old prologue line word }
    ensures { DidStep arena.now seat.old seat.new prologue line result }
{
    let _ = failed;
    match arena.exchange(seat, line, word.index(), word.place(), old, new) {
        Ok(found) => found,
        Err(found) => found,
    }
}

/// One compare-exchange of a word by a call that is under way; the word found is the answer, won or lost. Takes no memory
/// and doesn't wait.
#[inline(always)]
pub fn exchanged<const B: u32, T>(
    arena: &ArenaOf<B, T>,
    seat: &mut Seat<T>,
    line: Line,
    word: Word,
    old: u64,
    new: u64,
) -> u64
    requires may { MayStep arena.now seat.old continues line (exchange_at (index_of word) old new) }
    requires names { Accesses arena.now seat.old continues line word }
    ensures { DidStep arena.now seat.old seat.new continues line result }
{
    exchange(arena, seat, line, word, old, new, 0)
}
