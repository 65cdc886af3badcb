//! Threads of a recording whose operations overlap.
ghost use Rattle.std.specs.Prelude.{◌≡◌, All, Contains, IfOk, IfSome, MatchBool, MatchOption, length, map, max, min};
ghost use Rattle.recording_text.specs.RecordingReading.{bytes_of};
ghost use Rattle.place_engine.specs.Overlaps.{BeganBefore, Clash, HasSpells, IsSpellIn, NoNeighboursClash, SaysNone, SaysSpell, TellsOverlap, end_of};

use crate::why::lines_of;
use recording_text::operation_of;
use std::alloc::{AllocError, Global};

/// An operation of a thread, and the number of the line that says it. By thread, beginning and end it is sorted.
#[derive(Clone, Copy, PartialEq, Eq, PartialOrd, Ord)]
pub(crate) struct Spell<'a> {
    name: &'a [u8],
    first: u64,
    is_pending: bool,
    /// The last number; 0 where it is pending.
    last: u64,
    line: u64,
}

/// The numbers of two lines of a text, the first before the second, that say operations of one thread which overlap; none where
/// there are none.
pub(crate) fn overlap_in(alloc: Global, text: &[u8]) -> Result<Option<(u64, u64)>, AllocError>
    ensures { IfOk result (TellsOverlap text.now) }
{
    let lines = lines_of(alloc, text)?;
    let mut spells = spells_in(alloc, &lines)?;
    spells.sort_unstable();
    match clashing(&spells) {
        Some(pair) => Ok(Some(in_order(pair.0.line, pair.1.line))),
        None => Ok(None),
    }
}

// The operations that lines say, with the lines' numbers from 1.
fn spells_in<'a>(alloc: Global, lines: &[&'a [u8]]) -> Result<Vec<Spell<'a>>, AllocError>
    ensures each { IfOk result (λ spells. All (IsSpellIn (map bytes_of lines.now)) spells.items) }
    ensures all { IfOk result
        (λ spells. HasSpells (map bytes_of lines.now) (length lines.now) spells.items) }
{
    let mut spells = Vec::new(alloc);
    for (index, line) in lines.iter().enumerate() {
        if let Some(spell) = spell_of(line, index as u64 + 1) {
            spells.push(spell)?;
        }
    }
    Ok(spells)
}

// The operation that the line of this number says; none where it says none.
fn spell_of(line: &[u8], number: u64) -> Option<Spell<'_>>
    ensures { MatchOption result (SaysNone line.now) (SaysSpell line.now number) }
{
    match operation_of(line) {
        Ok(read) => Some(Spell {
            name: read.name,
            first: read.first,
            is_pending: read.last.is_none(),
            last: read.last.unwrap_or(0),
            line: number,
        }),
        Err(_) => None,
    }
}

// Two operations of one thread, one behind the other in a list, that overlap.
fn clashing<'a>(spells: &[Spell<'a>]) -> Option<(Spell<'a>, Spell<'a>)>
    ensures found { IfSome result (λ pair. Contains spells.now pair.0 × Contains spells.now pair.1
        × Clash pair.0 pair.1) }
    ensures none { result ≡ None → NoNeighboursClash spells.now }
{
    for index in 1..spells.len() {
        let (one, other) = (&spells[index - 1], &spells[index]);
        if clash(one, other) {
            return Some((*one, *other));
        }
    }
    None
}

// Whether two operations are of one thread, in two lines, and overlap.
fn clash(one: &Spell<'_>, other: &Spell<'_>) -> bool
    ensures { MatchBool result (Clash one.now other.now) (¬ Clash one.now other.now) }
{
    one.line != other.line
        && one.name == other.name
        && began_before(one, other)
        && began_before(other, one)
}

// Whether one operation began before another one ended.
fn began_before(one: &Spell<'_>, other: &Spell<'_>) -> bool
    ensures { MatchBool result (BeganBefore one.now.first (end_of other.now))
        (¬ BeganBefore one.now.first (end_of other.now)) }
{
    other.is_pending || one.first < other.last
}

fn in_order(one: u64, other: u64) -> (u64, u64)
    ensures least { result.0 ≡ min one other }
    ensures most { result.1 ≡ max one other }
{
    (one.min(other), one.max(other))
}
