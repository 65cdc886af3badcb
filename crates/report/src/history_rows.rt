//! The lines of a history table.
ghost use Rattle.std.specs.Prelude.{◌≡◌};
ghost use Rattle.report.specs.HistoryTable.{row_text};

use crate::columns::push_right;
use history::Stamped;
use history_text::{push_call, push_reply};
use text_io::LineBuffer;

// The line of an operation with this place.
#[tactic(auto, unfolding(crate::specs::HistoryTable::row_text))]
pub(crate) fn row_line(at: u64, operation: &Stamped) -> LineBuffer
    ensures { result ≡ row_text at operation.now }
{
    let mut line = LineBuffer::new();
    push_right(&mut line, 10, at);
    push_right(&mut line, 7, u64::from(operation.actor));
    line.push(b" ");
    push_call(&mut line, operation.op);
    line.push(b" -> ");
    push_reply(&mut line, operation.reply);
    line.push(b"\n");
    line
}
