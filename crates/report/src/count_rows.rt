//! The rows of a table that tell how many there are of each kind.
ghost use Rattle.std.specs.Prelude.{◌≡◌, ◌≤◌, ◌++◌, length};
ghost use Rattle.std.specs.List.{flat_map};
ghost use Rattle.text_io.specs.Blocks.{Puts};
ghost use Rattle.report.specs.CountRows.{counted_text};

use crate::columns::{push_left, push_right};
use history::Refusal;
use indexmap::IndexMap;
use std::hash::Hash;
use text_io::{Block, LineBuffer, Sink};

/// A kind that a table counts.
pub(crate) trait Named: Copy {
    ghost use Rattle.std.specs.Prelude.{ℕ, List};

    // Its name.
    ghost name_text: { Self → List ℕ };

    /// Its name.
    fn name(self) -> &'static [u8]
        ensures text { result.now ≡ name_text self }
        ensures short { length result.now ≤ 10 };
}

// The line of a kind with its number.
#[tactic(auto, unfolding(crate::specs::CountRows::counted_text))]
fn count_line<K: Named>(kind: K, number: u64) -> LineBuffer
    ensures { result ≡ counted_text K.name_text kind number }
{
    let mut line = LineBuffer::new();
    push_left(&mut line, 10, kind.name());
    push_right(&mut line, 8, number);
    line.push(b"\n");
    line
}

// Puts the lines of the counts.
pub(crate) fn put_counts<W: Sink, K: Named + Eq + Hash>(
    block: &mut Block,
    writer: &mut W,
    counts: &IndexMap<K, u64>,
) -> Result<(), Refusal>
    ensures { Puts (W.state writer.old) (W.state writer.new)
        (block.old ++ flat_map (λ e. counted_text K.name_text e.0 e.1) counts.now.entries)
        block.new result }
{
    for (kind, number) in counts {
        block.put(writer, count_line(*kind, *number).as_slice())?;
    }
    Ok(())
}
