//! The lines of a results table.
ghost use Rattle.std.specs.Prelude.{◌≡◌, ◌+◌, ◌≤◌, ◌++◌, length, decimal};
ghost use Rattle.job_results.specs.Results.{row_of};
ghost use Rattle.report.specs.ResultsTable.{value_text, results_header_text, result_text};

use crate::columns::push_right;
use crate::count_rows::Named;
use itoa::Buffer;
use job_results::{JobResult, Value};
use text_io::{LINE_ROOM, LineBuffer};

// How many digits a number of 128 bits has at most.
const MOST_DIGITS: usize = 39;

// The first line.
#[tactic(auto, unfolding(crate::specs::ResultsTable::results_header_text))]
pub(crate) fn results_header_line(count: u64) -> LineBuffer
    ensures { result ≡ results_header_text count }
{
    let mut line = LineBuffer::new();
    line.push(b"results ");
    line.push_number(count);
    line.push(b"\n");
    line
}

// The line of a result.
#[tactic(auto, unfolding(crate::specs::ResultsTable::result_text))]
pub(crate) fn result_line(told: &JobResult) -> LineBuffer
    ensures { result ≡ result_text (row_of told.now) }
{
    let mut line = LineBuffer::new();
    push_right(&mut line, 8, told.number());
    line.push(b" ");
    line.push(told.job().kind().name());
    line.push(b" ");
    push_value(&mut line, told.value());
    line.push(b"\n");
    line
}

// Puts a value at the end of a line: a number in decimal, or `by-zero`.
fn push_value(line: &mut LineBuffer, value: Value)
    requires { length line.old + MOST_DIGITS ≤ LINE_ROOM }
    ensures text { line.new ≡ line.old ++ value_text value }
    ensures short { length line.new ≤ length line.old + MOST_DIGITS }
{
    match value {
        Value::Number(number) => push_wide_number(line, number),
        Value::ByZero => line.push(b"by-zero"),
    }
}

// Puts a number of 128 bits in decimal at the end of a line.
fn push_wide_number(line: &mut LineBuffer, number: u128)
    requires { length line.old + MOST_DIGITS ≤ LINE_ROOM }
    ensures digits { line.new ≡ line.old ++ decimal number }
    ensures short { length line.new ≤ length line.old + MOST_DIGITS }
{
    line.push(Buffer::new().format(number).as_bytes());
}
