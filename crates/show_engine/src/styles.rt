//! How the bytes of a drawing look: green and bright where an operation takes effect or is of a reason, dim beside the actors.
ghost use Rattle.std.specs.Prelude.{◌≡◌, ◌≤◌, length};
ghost use Rattle.show_engine.specs.Plain.{IsColour};

/// What is drawn.
#[derive(Clone, Copy, Debug, PartialEq, Eq)]
pub enum Drawing {
    /// The picture of a run: a row with a star is bright up to the bar beside the actors, and each row is dim from there on.
    Picture,
    /// The timeline of a history: its stars are bright.
    Timeline,
    /// The picture of a reason: a row that begins with ! is bright.
    Reason,
}

/// How a byte looks.
#[derive(Clone, Copy, Debug, PartialEq)]
pub(crate) enum Look {
    /// As the terminal has it.
    Usual,
    /// Green and bright.
    Bright,
    /// Dim.
    Dim,
}

/// A byte, and how it looks.
#[derive(Clone, Copy, Debug)]
pub(crate) struct Shown {
    byte: u8,
    pub(crate) look: Look,
}

impl Shown {
    /// What stands before a text.
    pub(crate) fn before() -> Shown {
        Shown {
            byte: b'\n',
            look: Look::Usual,
        }
    }

    /// A byte behind this one, in a drawing.
    pub(crate) fn then(self, drawing: Drawing, byte: u8) -> Shown {
        let look = match (drawing, self.byte, byte) {
            (_, _, b'\n') => Look::Usual,
            (Drawing::Reason, b'\n', b'!') => Look::Bright,
            (Drawing::Reason, _, _) => self.look,
            (_, _, b'*') => Look::Bright,
            (Drawing::Timeline, _, _) => Look::Usual,
            (Drawing::Picture, b' ', b'|') => Look::Dim,
            (Drawing::Picture, _, _) => self.look,
        };
        Shown { byte, look }
    }
}

/// What tells a terminal how the bytes behind it look.
pub(crate) fn code_of(look: Look) -> &'static [u8]
    ensures colour { IsColour result.now }
    ensures short { length result.now ≤ 9 }
{
    match look {
        Look::Usual => b"\x1b[0m",
        Look::Bright => b"\x1b[0;1;32m",
        Look::Dim => b"\x1b[0;2m",
    }
}
