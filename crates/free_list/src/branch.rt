//! For a line after which a call goes on, at one line or another: that line, and the registers.
ghost use Rattle.std.specs.Prelude.{◌≡◌};

use line_table::Line;

#[inline(always)]
pub fn goes<A: Copy>(line: Line, a: A) -> (Line, A)
    ensures { result ≡ (line, a) }
{
    (line, a)
}
