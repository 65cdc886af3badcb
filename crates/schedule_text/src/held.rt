//! What is held of a line that comes byte by byte.
ghost use Rattle.std.specs.Prelude.{◌≡◌, ◌++◌, ◌∷◌, [], ℕ, List, MatchOption, true, false};
ghost use Rattle.schedule_text.specs.ShortLines.{IsHeld, IsKept};

use std::marker::Model;

/// How many bytes of a line are held.
const LINE_ROOM: usize = 64;

/// How many bytes of a word are held whatever they are: one more than a number of 64 bits has digits.
const WORD_ROOM: u8 = 21;

const SPACE: u8 = 32;

/// At most 64 bytes of a line, in an array: all but the digits behind the 21st byte of a word.
///
/// No line of a schedule has more of them, and a number of 21 digits is out of every range.
#[derive(Drop)]
pub struct HeldLine {
    bytes: [u8; LINE_ROOM],
    len: usize,
    /// How many bytes of the word at hand are held whatever they are.
    room: u8,
    /// Whether a byte came for which there was no room.
    is_over: bool,
}

impl Model for HeldLine {
    ghost use Rattle.std.specs.Prelude.{take, ◌≤◌};
    ghost use Rattle.schedule_text.specs.ShortLines.{Held};

    ghost Value = { Held };

    ghost view = { λ h. record { bytes = take h.len h.bytes; room = h.room; is_over = h.is_over } };

    ghost invariant = { λ h. h.len ≤ 64 };
}

impl HeldLine {
    /// Nothing of a line.
    pub fn new() -> HeldLine
        ensures { IsHeld [] result }
    {
        HeldLine {
            bytes: [0; LINE_ROOM],
            len: 0,
            room: WORD_ROOM,
            is_over: false,
        }
    }

    /// Takes the line's next byte.
    pub fn push(&mut self, byte: u8)
        ensures { (says : List ℕ) → IsHeld says self.old → IsHeld (says ++ byte ∷ []) self.new }
    {
        if byte == SPACE {
            self.keep(byte);
            self.room = WORD_ROOM;
        } else if self.room > 0 {
            self.keep(byte);
            self.room -= 1;
        } else if !byte.is_ascii_digit() {
            self.keep(byte);
        }
    }

    // Holds a byte, where there is room.
    fn keep(&mut self, byte: u8)
        ensures room { self.new.room ≡ self.old.room }
        ensures kept { IsKept byte self.old self.new }
    {
        if self.len < LINE_ROOM {
            self.bytes[self.len] = byte;
            self.len += 1;
        } else {
            self.is_over = true;
        }
    }

    /// The bytes that are held; none where the line has more.
    pub fn line(&self) -> Option<&[u8]>
        ensures { MatchOption result (self.now.is_over ≡ true)
            (λ line. (self.now.is_over ≡ false) × (line.now ≡ self.now.bytes)) }
    {
        if self.is_over {
            None
        } else {
            Some(&self.bytes[..self.len])
        }
    }
}
