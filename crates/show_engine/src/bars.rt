//! The rows of a timeline.
ghost use Rattle.std.specs.Prelude.{◌≡◌, ◌+◌, ◌≤◌, ◌<◌, ◌++◌, codes, count_by, length};
ghost use Rattle.show_engine.specs.Rows.{truncated_to, number_text};
ghost use Rattle.show_engine.specs.Scales.{IsFitting, is_shown};
ghost use Rattle.show_engine.specs.Timelines.{bar_text, end_column, end_mark, is_point, mark_in, row_text, shown_row, span_text};

use crate::cells::push_named;
use crate::rows::{number_start, push_number, truncate};
use crate::scales::Scale;
use history::Stamped;
use history_text::push_call;
use text_io::{LINE_ROOM, LineBuffer};

/// Whether an operation takes effect at a number that is shown in a column.
fn is_point(scale: Scale, at: Option<u64>, column: u64) -> bool
    requires { IsFitting scale }
    ensures { result ≡ is_point scale at column }
{
    match at {
        None => false,
        Some(at) => scale.from <= at && at <= scale.to && scale.column_of(at) == column,
    }
}

/// The column in which a bar ends, and the mark of its end.
fn end_of(scale: Scale, last: Option<u64>) -> (u64, u8)
    requires { IsFitting scale }
    ensures column { result.0 ≡ end_column scale last }
    ensures mark { result.1 ≡ end_mark scale last }
{
    match last {
        Some(last) if last <= scale.to => (scale.column_of(last), b'|'),
        _ => (scale.columns - 1, b'>'),
    }
}

/// What stands in a column of an operation's row.
fn mark_in(scale: Scale, operation: &Stamped, column: u64) -> u8
    requires fits { IsFitting scale }
    requires shown { operation.now.first ≤ scale.to }
    ensures { result ≡ mark_in scale operation.now column }
{
    let first = scale.column_of(operation.first);
    let (end, end_mark) = end_of(scale, operation.last);
    if is_point(scale, operation.at, column) {
        b'*'
    } else if column < first || end < column {
        b' '
    } else if column == end {
        end_mark
    } else if column == first {
        if operation.first < scale.from {
            b'<'
        } else {
            b'|'
        }
    } else {
        b'='
    }
}

/// Puts an operation's bar at the end of a line.
pub(crate) fn push_bar(line: &mut LineBuffer, scale: Scale, operation: &Stamped)
    requires fits { IsFitting scale }
    requires shown { operation.now.first ≤ scale.to }
    requires room { length line.old + scale.columns ≤ LINE_ROOM }
    ensures text { line.new ≡ line.old ++ bar_text scale operation.now scale.columns }
    ensures len { length line.new ≡ length line.old + scale.columns }
{
    for column in 0..scale.columns {
        line.push(&[mark_in(scale, operation, column)]);
    }
}

/// The row of an operation.
#[tactic(auto, unfolding(crate::specs::Timelines::row_text))]
fn row_line(scale: Scale, operation: &Stamped) -> LineBuffer
    requires fits { IsFitting scale }
    requires shown { operation.now.first ≤ scale.to }
    ensures { result ≡ row_text scale operation.now }
{
    let mut line = number_start(u64::from(operation.actor));
    push_bar(&mut line, scale, operation);
    line.push(b" ");
    push_call(&mut line, operation.op);
    line.push(b" -> ");
    push_named(&mut line, &operation.reply);
    truncate(line, scale.width)
}

/// The row of an operation, where it is shown, and else nothing.
pub(crate) fn shown_row(scale: Scale, operation: &Stamped) -> LineBuffer
    requires { IsFitting scale }
    ensures { result ≡ shown_row scale operation.now }
{
    if scale.shows(operation) {
        row_line(scale, operation)
    } else {
        LineBuffer::new()
    }
}

/// How many operations are shown.
pub(crate) fn count_shown(scale: Scale, history: &[Stamped]) -> u64
    ensures { result ≡ count_by (is_shown scale) history.now }
{
    let mut count = 0u64;
    for operation in history {
        if scale.shows(operation) {
            count += 1;
        }
    }
    count
}

/// The last line of a timeline.
#[tactic(auto, unfolding(crate::specs::Timelines::span_text))]
pub(crate) fn span_line(scale: Scale, last: u64, shown: u64, all: u64) -> LineBuffer
    ensures { result ≡ span_text scale last shown all }
{
    let mut line = LineBuffer::new();
    push_number(&mut line, b"steps ", scale.from);
    push_number(&mut line, b" to ", scale.to);
    push_number(&mut line, b" of ", last);
    push_number(&mut line, b", operations ", shown);
    push_number(&mut line, b" of ", all);
    line.push(b"\n");
    line
}
