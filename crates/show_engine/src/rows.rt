//! The rows of a picture.
ghost use Rattle.std.specs.Prelude.{◌≡◌, ◌+◌, ◌-◌, ◌≤◌, ◌<◌, ◌++◌, List, ℕ, codes, length, decimal, replicate, take};
ghost use Rattle.schedule_text.specs.Texts.{IsInRange};
ghost use Rattle.show_engine.specs.Frames.{IsFitting};
ghost use Rattle.show_engine.specs.Rows.{truncated_to, names_row, number_text, padded, pair_row, queue_text, row_text, shown_text};

use crate::frames::Frame;
use schedule_text::{Schedule, name_of_kind};
use text_io::{LINE_ROOM, LineBuffer};

/// Goes on with a text at a column, as far as there is room.
fn put_at(line: &mut LineBuffer, room: usize, column: usize, text: &[u8])
    requires room { room ≤ LINE_ROOM }
    requires column { column ≤ room }
    requires fits { length line.old ≤ room }
    ensures text { (whole : List ℕ) → line.old ≡ take room whole
        → line.new ≡ take room (padded column whole ++ text.now) }
    ensures fits { length line.new ≤ room }
{
    push_spaces(line, column.saturating_sub(line.as_slice().len()));
    let left = room - line.as_slice().len();
    line.push(&text[..left.min(text.len())]);
}

/// Puts so many spaces at the end of a line.
fn push_spaces(line: &mut LineBuffer, count: usize)
    requires { length line.old + count ≤ LINE_ROOM }
    ensures text { line.new ≡ line.old ++ replicate count 32 }
    ensures len { length line.new ≡ length line.old + count }
{
    line.push(&[b' '; LINE_ROOM][..count]);
}

/// Ends a row, of which a line has the whole, or as many columns as are shown and one more.
pub(crate) fn truncate(line: LineBuffer, width: usize) -> LineBuffer
    requires some { 1 ≤ width }
    requires room { width + 2 ≤ LINE_ROOM }
    ensures line { result ≡ truncated_to width line ++ codes "\n" }
    ensures front { (whole : List ℕ) → line ≡ take (width + 1) whole
        → result ≡ truncated_to width whole ++ codes "\n" }
{
    let mut row = LineBuffer::new();
    if line.as_slice().len() <= width {
        row.push(line.as_slice());
    } else {
        row.push(&line.as_slice()[..width - 1]);
        row.push(b"~");
    }
    row.push(b"\n");
    row
}

/// The number at the left of a row.
pub(crate) fn number_start(number: u64) -> LineBuffer
    ensures text { result ≡ number_text number }
    ensures short { length result ≤ 27 }
    ensures few { number < 1000000 → length result ≤ 7 }
{
    let mut digits = LineBuffer::new();
    digits.push_number(number);
    let digits = digits.as_slice();
    let mut line = LineBuffer::new();
    push_spaces(&mut line, 6usize.saturating_sub(digits.len()));
    line.push(digits);
    line.push(b" ");
    line
}

/// A row: what it begins with, the text of an actor at the actor's column, and what stands beside it.
#[tactic(auto, unfolding(crate::specs::Rows::row_text))]
pub(crate) fn row(frame: Frame, actor: u16, start: &[u8], cell: &[u8], side: &[u8]) -> LineBuffer
    requires { IsFitting frame }
    ensures { result ≡ row_text frame actor start.now cell.now side.now }
{
    let room = frame.width + 1;
    let mut line = LineBuffer::new();
    put_at(&mut line, room, 0, start);
    put_at(&mut line, room, frame.column_of(u64::from(actor)), cell);
    if side.is_empty() {
        return truncate(line, frame.width);
    }
    put_at(&mut line, room, frame.side, side);
    truncate(line, frame.width)
}

/// A row of two texts, the second one at a column.
pub(crate) fn pair_line(frame: Frame, column: usize, first: &[u8], second: &[u8]) -> LineBuffer
    requires fits { IsFitting frame }
    requires column { column ≤ frame.width }
    ensures { result ≡ pair_row frame column first.now second.now }
{
    let room = frame.width + 1;
    let mut line = LineBuffer::new();
    put_at(&mut line, room, 0, first);
    put_at(&mut line, room, column, second);
    truncate(line, frame.width)
}

/// The row above the others.
#[tactic(auto, unfolding(crate::specs::Rows::names_row))]
pub(crate) fn names_line(frame: Frame) -> LineBuffer
    requires { IsFitting frame }
    ensures { result ≡ names_row frame }
{
    let room = frame.width + 1;
    let mut line = LineBuffer::new();
    put_at(&mut line, room, 0, b" actor");
    for offset in 0..frame.count {
        let actor = frame.first + offset;
        let mut digits = LineBuffer::new();
        digits.push_number(actor);
        let column = frame.column_of(actor) + 1;
        put_at(&mut line, room, column, digits.as_slice());
    }
    truncate(line, frame.width)
}

/// The first line of a picture.
#[tactic(auto, unfolding(crate::specs::Rows::queue_text))]
pub(crate) fn queue_line(schedule: &Schedule) -> LineBuffer
    ensures { result ≡ queue_text schedule.now }
{
    let mut line = LineBuffer::new();
    line.push(b"queue ");
    line.push(name_of_kind(schedule.kind));
    push_number(&mut line, b", bits ", u64::from(schedule.bits));
    push_number(&mut line, b", nodes ", u64::from(schedule.nodes));
    push_number(&mut line, b", limit ", schedule.limit);
    push_number(&mut line, b", actors ", u64::from(schedule.actors));
    line.push(b"\n");
    line
}

/// The last line of a picture.
#[tactic(auto, unfolding(crate::specs::Rows::shown_text))]
pub(crate) fn shown_line(frame: Frame, actors: u16, steps: u64) -> LineBuffer
    requires { IsFitting frame }
    ensures { result ≡ shown_text frame actors steps }
{
    let mut line = LineBuffer::new();
    push_number(&mut line, b"steps ", frame.from);
    push_number(&mut line, b" to ", frame.to.min(steps));
    push_number(&mut line, b" of ", steps);
    push_number(&mut line, b", actors ", frame.first);
    push_number(&mut line, b" to ", frame.first + frame.count - 1);
    push_number(&mut line, b" of ", u64::from(actors));
    line.push(b"\n");
    line
}

/// Puts the name of a number and the number at the end of a line.
pub(crate) fn push_number(line: &mut LineBuffer, name: &[u8], number: u64)
    requires { length line.old + length name.now + 20 ≤ LINE_ROOM }
    ensures text { line.new ≡ line.old ++ name.now ++ decimal number }
    ensures short { length line.new ≤ length line.old + length name.now + 20 }
{
    line.push(name);
    line.push_number(number);
}
