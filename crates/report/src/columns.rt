//! Numbers and names at the left or right end of so many places of a line.
ghost use Rattle.std.specs.Prelude.{◌≡◌, ◌+◌, ◌≤◌, ◌++◌, length, decimal, replicate};
ghost use Rattle.report.specs.Columns.{right_in, left_in};

use text_io::{LINE_ROOM, LineBuffer};

/// How many places a column has at most; a number of 64 bits has no more digits.
const WIDEST: usize = 20;

// Puts a number at the right end of so many places. A wider one takes the places that it needs.
pub(crate) fn push_right(line: &mut LineBuffer, width: usize, number: u64)
    requires room { length line.old + WIDEST ≤ LINE_ROOM }
    requires narrow { width ≤ WIDEST }
    ensures text { line.new ≡ line.old ++ right_in width (decimal number) }
    ensures short { length line.new ≤ length line.old + WIDEST }
{
    let mut digits = LineBuffer::new();
    digits.push_number(number);
    let digits = digits.as_slice();
    push_spaces(line, width.saturating_sub(digits.len()));
    line.push(digits);
}

// Puts a text at the left end of so many places. A wider one takes the places that it needs.
pub(crate) fn push_left(line: &mut LineBuffer, width: usize, text: &[u8])
    requires room { length line.old + WIDEST ≤ LINE_ROOM }
    requires narrow { width ≤ WIDEST }
    requires fits { length text.now ≤ WIDEST }
    ensures text { line.new ≡ line.old ++ left_in width text.now }
    ensures short { length line.new ≤ length line.old + WIDEST }
{
    line.push(text);
    push_spaces(line, width.saturating_sub(text.len()));
}

fn push_spaces(line: &mut LineBuffer, count: usize)
    requires room { length line.old + count ≤ LINE_ROOM }
    requires few { count ≤ WIDEST }
    ensures text { line.new ≡ line.old ++ replicate count 32 }
    ensures len { length line.new ≡ length line.old + count }
{
    line.push(&[b' '; WIDEST][..count]);
}
