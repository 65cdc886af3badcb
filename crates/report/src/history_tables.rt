//! The table of a history.
ghost use Rattle.std.specs.Prelude.{◌≡◌, ◌++◌, ◌⊎◌, OnOk, IfErr, map};
ghost use Rattle.std.specs.Io.KnownBytes.{Appends};
ghost use Rattle.std.specs.List.{flat_map};
ghost use Rattle.text_io.specs.Blocks.{TakesPrefix, GivesUp, Puts, Writes};
ghost use Rattle.history.specs.Tables.{shown};
ghost use Rattle.report.specs.HistoryTable.{row_text, table_text, history_table_text};

use crate::count_rows::put_counts;
use crate::counts::counts_of;
use crate::history_rows::row_line;
use crate::kinds::Kind;
use crate::place_order::by_place;
use history::{Refusal, Stamped};
use indexmap::IndexMap;
use std::alloc::Global;
use text_io::{Block, Sink};

/// Writes the table of a history: `yes`, a line for each operation that has a place, by rising place,
/// and a line for each kind of operation with how many there are of it.
///
/// Operations at one place come in the order of the list, kinds in the order in which each first
/// occurs there; operations without a place count too. It takes memory for the operations that have a
/// place, and time `n * log n` for `n` operations; whether it waits is up to the writer. It is refused
/// by `Memory` before the first byte is written, and else by `Write` where a call of the writer fails
/// or takes nothing; a prefix of the table is written then.
pub fn history_table<W: Sink>(
    alloc: Global,
    history: &[Stamped],
    writer: &mut W,
) -> Result<(), Refusal>
    //= texts/tables (ok, quiet, only, unwritten, prefix, cause): The tables of a history and of results are printed
    //=   exactly; where memory is refused nothing is.
    ensures ok { OnOk result (Appends (W.state writer.old).contents (W.state writer.new).contents
        (history_table_text history.now)) }
    ensures quiet { OnOk result ((W.state writer.new).failures ≡ (W.state writer.old).failures) }
    ensures only { IfErr result
        (λ refusal. (refusal ≡ Refusal.Memory) ⊎ (refusal ≡ Refusal.Write)) }
    ensures unwritten { IfErr result
        (λ refusal. refusal ≡ Refusal.Memory → writer.new ≡ writer.old) }
    ensures prefix { IfErr result (λ refusal. refusal ≡ Refusal.Write
        → TakesPrefix (W.state writer.old).contents (W.state writer.new).contents
        (history_table_text history.now)) }
    ensures cause { IfErr result (λ refusal. refusal ≡ Refusal.Write
        → GivesUp (W.state writer.old) (W.state writer.new)) }
{
    let placed = by_place(alloc, history)?;
    let counts = counts_of(alloc, history)?;
    write_table(&placed, &counts, writer)
}

// Writes `yes`, the lines of the operations, and those of the counts.
fn write_table<W: Sink>(
    placed: &[(u64, &Stamped)],
    counts: &IndexMap<Kind, u64>,
    writer: &mut W,
) -> Result<(), Refusal>
    ensures { Writes (W.state writer.old) (W.state writer.new)
        (table_text (map shown placed.now) counts.now.entries) result }
{
    let mut block = Block::new();
    block.put(writer, b"yes\n")?;
    put_rows(&mut block, writer, placed)?;
    put_counts(&mut block, writer, counts)?;
    block.finish(writer)
}

// Puts the lines of operations.
fn put_rows<W: Sink>(
    block: &mut Block,
    writer: &mut W,
    placed: &[(u64, &Stamped)],
) -> Result<(), Refusal>
    ensures { Puts (W.state writer.old) (W.state writer.new)
        (block.old ++ flat_map (λ e. row_text e.0 e.1) (map shown placed.now)) block.new result }
{
    for (at, operation) in placed {
        block.put(writer, row_line(*at, *operation).as_slice())?;
    }
    Ok(())
}
