//! A sink that colours what it hands on to another one.
ghost use Rattle.std.specs.Prelude.{◌≡◌, ◌≢◌, ◌+◌, ◌≤◌, [], true, IfErr, IfOk, MatchResult, OnErr, OnOk, length, option_map, take};
ghost use Rattle.std.specs.Io.KnownBytes.{Keeps, WriteAppends};
ghost use Rattle.text_io.specs.Devices.{failures_after};
ghost use Rattle.show_engine.specs.Plain.{Colours, plain};

use crate::styles::{Drawing, Shown, code_of};
use history::Refusal;
use std::io;
use text_io::{LINE_ROOM, LineBuffer, Sink};

/// How many bytes a byte takes at most, with the code before it.
const ROOM_OF_ONE: usize = 10;

/// The byte that begins a colour.
const ESCAPE: u8 = 27;

/// A sink that hands on what it is given with colours between the bytes. Its last bytes are handed on as it is finished. It takes no
/// memory, and waits where the other one does.
///
/// It takes no escape, by which a colour begins.
#[derive(Drop)]
pub struct Coloured<W> {
    inner: W,
    drawing: Drawing,
    /// The bytes to be handed on next, with their colours.
    held: LineBuffer,
    /// How many of these were handed on.
    from: usize,
    last: Shown,
    is_full: bool,
}

impl<W> Coloured<W> {
    ghost use Rattle.show_engine.specs.Colouring.{IsUnused};

    /// A sink that colours such a drawing for this one. It takes no memory.
    pub fn new(inner: W, drawing: Drawing) -> Coloured<W>
        ensures { IsUnused result inner }
    {
        Coloured {
            inner,
            drawing,
            held: LineBuffer::new(),
            from: 0,
            last: Shown::before(),
            is_full: false,
        }
    }

    /// The sink without its colours. Bytes that are held back are lost, so `finish` comes before.
    pub fn into_inner(self) -> W
        ensures { result ≡ self.inner }
    {
        self.inner
    }
}

impl<W: Sink> Coloured<W> {
    ghost use Rattle.show_engine.specs.Colouring.{held_by, state_of};

    /// Hands on all that is held back, and answers whether all of it was taken.
    fn hand_on(&mut self) -> io::Result<bool>
        ensures keeps { Keeps (state_of W.state self.old).contents (state_of W.state self.new).contents }
        ensures failures { MatchResult result
            (λ _. (W.state self.new.inner).failures ≡ (W.state self.old.inner).failures)
            (λ _. (W.state self.new.inner).failures ≡ (W.state self.old.inner).failures + 1) }
        ensures empty { IfOk result (λ done. done ≡ true → held_by self.new ≡ []) }
        ensures full { self.new.is_full ≡ self.old.is_full }
    {
        while self.from < self.held.as_slice().len() {
            let count = self.inner.write(&self.held.as_slice()[self.from..])?;
            if count == 0 {
                return Ok(false);
            }
            self.from += count;
        }
        Ok(true)
    }

    /// Holds back bytes from the front of these, with their colours, and answers how many.
    fn hold(&mut self, bytes: &[u8]) -> usize
        requires { held_by self.old ≡ [] }
        ensures inner { self.new.inner ≡ self.old.inner }
        ensures bound { result ≤ length bytes.now }
        ensures held { Colours (held_by self.new) (take result bytes.now) }
        ensures full { self.new.is_full ≡ self.old.is_full }
    {
        let (held, last, count) = with_colours(self.drawing, self.last, bytes);
        self.held = held;
        self.from = 0;
        self.last = last;
        count
    }

    /// Hands on all that is held back, and holds back bytes from the front of these. It answers how many.
    fn exchange(&mut self, bytes: &[u8]) -> io::Result<usize>
        ensures bound { IfOk result (λ count. count ≤ length bytes.now) }
        ensures bytes { WriteAppends (state_of W.state self.old).contents
            (state_of W.state self.new).contents result bytes.now }
        ensures failures { (W.state self.new.inner).failures
            ≡ failures_after (W.state self.old.inner).failures result }
        ensures full { self.new.is_full ≡ self.old.is_full }
    {
        if self.hand_on()? {
            return Ok(self.hold(bytes));
        }
        Ok(0)
    }

    /// Hands on all that is held back. It takes no memory, and waits where the other sink does.
    ///
    /// It is refused by `Write` where a call of the sink fails or takes nothing.
    pub fn finish(&mut self) -> Result<(), Refusal>
        ensures ok { OnOk result (Keeps (state_of W.state self.old).contents
            (option_map plain (W.state self.new.inner).contents)) }
        ensures keeps { OnErr result (Keeps (state_of W.state self.old).contents
            (state_of W.state self.new).contents) }
        ensures write { IfErr result (λ refusal. refusal ≡ Refusal.Write) }
    {
        match self.hand_on() {
            Ok(true) => Ok(()),
            _ => Err(Refusal::Write),
        }
    }
}

/// Bytes from the front of these with their colours, behind one that looks so; the last one of them, and how many they are.
fn with_colours(drawing: Drawing, before: Shown, bytes: &[u8]) -> (LineBuffer, Shown, usize)
    ensures bound { result.2 ≤ length bytes.now }
    ensures coloured { Colours result.0 (take result.2 bytes.now) }
{
    let mut line = LineBuffer::new();
    line.push(code_of(before.look));
    let mut last = before;
    let mut count = 0;
    while count < bytes.len()
        && bytes[count] != ESCAPE
        && line.as_slice().len() + ROOM_OF_ONE <= LINE_ROOM
    {
        let next = last.then(drawing, bytes[count]);
        if next.look != last.look {
            line.push(code_of(next.look));
        }
        line.push(&[bytes[count]]);
        last = next;
        count += 1;
    }
    (line, last, count)
}

impl<W: Sink> Sink for Coloured<W> {
    ghost use Rattle.show_engine.specs.Colouring.{state_of};

    //= texts/devices
    ghost state = { λ s. state_of W.state s };

    fn write(&mut self, bytes: &[u8]) -> io::Result<usize> {
        let count = self.exchange(bytes)?;
        if !bytes.is_empty() {
            self.is_full = count == 0;
        }
        Ok(count)
    }
}
