//! A history back from its text.
ghost use Rattle.std.specs.Prelude.{◌≡◌, IfOk, IfErr};
ghost use Rattle.history_text.specs.HistoryText.{history_text};
ghost use Rattle.history_text.specs.HistoryLines.{IsHistoryInRange, IsFirstFaultOfHistory};

use crate::lines::{count_of, operation_of};
use history::{Refusal, Stamped};
use std::alloc::Global;
use text_io::{ItemError, ListingFormat, TextCause, parse_listing};

/// The format of histories.
struct HistoryFormat;

impl ListingFormat for HistoryFormat {
    ghost use Rattle.std.specs.Prelude.{ℕ};
    ghost use Rattle.history.specs.declared.operations.Stamped as declared;
    ghost use Rattle.history_text.specs.HistoryLines.{history_listing};

    type Header = u64;

    type Item = Stamped;

    ghost HeaderSaid = { ℕ };

    ghost ItemSaid = { declared.Stamped };

    ghost listing = { history_listing };

    ghost header_said = { λ count. count };

    ghost item_said = { λ operation. operation };

    fn parse_header(line: &[u8]) -> Result<u64, TextCause> {
        count_of(line)
    }

    fn count(header: &u64) -> u64 {
        *header
    }

    fn parse_item(_: Global, _: &u64, line: &[u8]) -> Result<Stamped, ItemError> {
        match operation_of(line) {
            Ok(operation) => Ok(operation),
            Err(cause) => Err(ItemError::Wrong(cause)),
        }
    }
}

/// The history that a text is, in the order of its lines.
///
/// It is refused with `Memory` where room for an operation is refused, and with `Text` exactly where
/// the text is no history's: with the number of its first faulty line, from 1, and what is wrong
/// with it. It takes memory for the operations read so far, and doesn't wait.
pub fn parse_history(alloc: Global, text: &[u8]) -> Result<Vec<Stamped>, Refusal>
    //= texts/parse (text, range, err): A history, jobs and mail are parsed exactly.
    ensures text { IfOk result (λ ops. text.now ≡ history_text ops.items) }
    ensures range { IfOk result (λ ops. IsHistoryInRange ops.items) }
    ensures err { IfErr result (IsFirstFaultOfHistory text.now) }
{
    let (_, operations) = parse_listing::<HistoryFormat>(alloc, text)?;
    Ok(operations)
}
