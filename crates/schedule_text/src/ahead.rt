//! A source's bytes, one by one and line by line.
ghost use Rattle.std.specs.Prelude.{◌≡◌, ◌+◌, ◌≤◌, ◌<◌, ◌++◌, ◌∷◌, [], length, IfOk, IfSome, MatchOption, OnOk, drop, take};
ghost use Rattle.std.specs.Io.KnownBytes.{Consumes};
ghost use Rattle.text_io.specs.Readings.{HasEnded, ReachesEnd};
ghost use Rattle.text_io.specs.Lines.{HasNo, line};
ghost use Rattle.schedule_text.specs.Streams.{stream, GaveByte, GaveLine, EndedInLine, IsOver, HasFailed, WasRead};

use crate::held::HeldLine;
use history::Refusal;
use std::marker::Model;
use text_io::{Source, line_at};

/// How many bytes are read ahead at most.
const AHEAD: usize = 4096;

const LINE_FEED: u8 = 10;

/// At most 4,096 bytes of a source that were read ahead, in an array.
///
/// Each call is handed the same source.
#[derive(Drop)]
pub struct Ahead {
    bytes: [u8; AHEAD],
    start: usize,
    end: usize,
}

impl Model for Ahead {
    ghost use Rattle.std.specs.Prelude.{ℕ, List, ◌≤◌, slice_range};

    ghost Value = { List ℕ };

    ghost view = { λ a. slice_range a.bytes a.start a.end };

    ghost invariant = { λ a. (a.start ≤ a.end) × (a.end ≤ 4096) };
}

/// Bytes of a source in the front of an array, and how many they are.
fn read_into<R: Source>(reader: &mut R, bytes: &mut [u8; AHEAD]) -> Result<usize, Refusal>
    ensures bound { IfOk result (λ count. count ≤ 4096) }
    ensures given { IfOk result (λ count.
        Consumes (R.state reader.old).left (R.state reader.new).left (take count bytes.new)) }
    ensures end { IfOk result (λ count. count ≡ 0 → HasEnded (R.state reader.new)) }
    ensures budget { IfOk result (λ count.
        (R.state reader.new).budget + count ≡ (R.state reader.old).budget) }
    ensures quiet { OnOk result ((R.state reader.new).failures ≡ (R.state reader.old).failures) }
    ensures err { HasFailed result (R.state reader.old) (R.state reader.new) }
{
    match reader.read(bytes) {
        Ok(count) => Ok(count),
        Err(_) => Err(Refusal::Read),
    }
}

impl Ahead {
    /// Nothing read ahead.
    pub fn new() -> Ahead
        ensures { result ≡ [] }
    {
        Ahead {
            bytes: [0; AHEAD],
            start: 0,
            end: 0,
        }
    }

    /// The next byte; none at the end.
    fn next_byte<R: Source>(&mut self, reader: &mut R) -> Result<Option<u8>, Refusal>
        ensures next { IfOk result (λ next. MatchOption next
            (IsOver (stream self.old (R.state reader.old))
            (stream self.new (R.state reader.new)))
            (λ byte. GaveByte byte (stream self.old (R.state reader.old))
            (stream self.new (R.state reader.new)))) }
        ensures err { HasFailed result (R.state reader.old) (R.state reader.new) }
    {
        if let Some(byte) = self.pop() {
            return Ok(Some(byte));
        }
        self.read_more(reader)?;
        let next = self.pop();
        Ok(next)
    }

    // The first of the bytes read ahead; none where there is none.
    fn pop(&mut self) -> Option<u8>
        ensures { MatchOption result ((self.old ≡ []) × (self.new ≡ []))
            (λ byte. self.old ≡ byte ∷ self.new) }
    {
        if self.start == self.end {
            return None;
        }
        let byte = self.bytes[self.start];
        self.start += 1;
        Some(byte)
    }

    // Reads ahead once, in place of what was read ahead before.
    fn read_more<R: Source>(&mut self, reader: &mut R) -> Result<(), Refusal>
        ensures given { OnOk result
            (Consumes (R.state reader.old).left (R.state reader.new).left self.new) }
        ensures end { OnOk result (self.new ≡ [] → HasEnded (R.state reader.new)) }
        ensures budget { OnOk result
            ((R.state reader.new).budget + length self.new ≡ (R.state reader.old).budget) }
        ensures quiet { OnOk result
            ((R.state reader.new).failures ≡ (R.state reader.old).failures) }
        ensures err { HasFailed result (R.state reader.old) (R.state reader.new) }
    {
        self.start = 0;
        self.end = 0;
        self.end = read_into(reader, &mut self.bytes)?;
        Ok(())
    }

    /// The next line and what was read ahead behind it; none where not all of the line was read ahead.
    pub fn whole_line(&self) -> Option<(&[u8], &[u8])>
        ensures line { MatchOption result (HasNo 10 self.now) (λ found. HasNo 10 found.0.now
            × (self.now ≡ line found.0.now ++ found.1.now)) }
        ensures bound { IfSome result (λ found. length found.0.now < 4096) }
    {
        line_at(&self.bytes[self.start..self.end])
    }

    /// Goes over so many of the bytes read ahead.
    pub fn skip(&mut self, count: usize)
        requires { count ≤ length self.old }
        ensures { self.new ≡ drop count self.old }
    {
        self.start += count;
    }

    /// What is held of the next line; none where the bytes end before its line feed.
    pub fn next_line<R: Source>(&mut self, reader: &mut R) -> Result<Option<HeldLine>, Refusal>
        ensures next { IfOk result (λ next. MatchOption next
            (EndedInLine (stream self.old (R.state reader.old))
            (stream self.new (R.state reader.new)))
            (λ held. GaveLine held (stream self.old (R.state reader.old))
            (stream self.new (R.state reader.new)))) }
        ensures err { HasFailed result (R.state reader.old) (R.state reader.new) }
    {
        let mut held = HeldLine::new();
        while let Some(byte) = self.next_byte(reader)? {
            if byte == LINE_FEED {
                return Ok(Some(held));
            }
            held.push(byte);
        }
        Ok(None)
    }

    /// Whether a byte follows, which is then gone over.
    pub fn has_more<R: Source>(&mut self, reader: &mut R) -> Result<bool, Refusal>
        ensures next { IfOk result (WasRead (stream self.old (R.state reader.old))
            (stream self.new (R.state reader.new))) }
        ensures err { HasFailed result (R.state reader.old) (R.state reader.new) }
    {
        Ok(self.next_byte(reader)?.is_some())
    }

    /// Goes over all that is left.
    pub fn drain<R: Source>(&mut self, reader: &mut R) -> Result<(), Refusal>
        ensures ok { OnOk result (ReachesEnd (R.state reader.old) (R.state reader.new)) }
        ensures err { HasFailed result (R.state reader.old) (R.state reader.new) }
    {
        while self.next_byte(reader)?.is_some() {}
        Ok(())
    }
}
