//! What a value prints, in an array.
ghost use Rattle.std.specs.Prelude.{◌≡◌, ◌<◌, ℕ, List, length};
ghost use Rattle.text_io.specs.Lines.{HasNo, line as line_saying};

use std::fmt;
use std::fmt::Write;
use text_io::{LINE_ROOM, LineBuffer};

/// How many bytes of a text are kept, so that a line feed has room behind them.
const MOST: usize = LINE_ROOM - 1;

/// A line that text is written to. It takes no memory, and refuses what it has no room for, and a line feed.
struct Spelled {
    line: LineBuffer,
    ghost room: { length line < 192 },
    ghost whole: { HasNo 10 line },
}

impl fmt::Write for Spelled {
    fn write_str(&mut self, text: &str) -> fmt::Result {
        let bytes = text.as_bytes();
        if bytes.contains(&b'\n') || bytes.len() > MOST - self.line.as_slice().len() {
            return Err(fmt::Error);
        }
        self.line.push(bytes);
        Ok(())
    }
}

/// The line that a value prints, with its line feed, the only one. It takes no memory. The texts of faults are
/// far shorter than the line has room for, and have no line feed; where there is one, or no room, the rest is left out.
pub(crate) fn line_of<T: fmt::Display>(value: &T) -> LineBuffer
    ensures { (text : List ℕ) × HasNo 10 text × (result ≡ line_saying text) }
{
    let mut spelled = Spelled {
        line: LineBuffer::new(),
    };
    let _ = write!(spelled, "{value}");
    let Spelled { mut line } = spelled;
    line.push(b"\n");
    line
}
