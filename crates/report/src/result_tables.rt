//! The table of the results of jobs.
ghost use Rattle.std.specs.Prelude.{◌≡◌, ◌++◌, ◌⊎◌, OnOk, IfErr, length, map};
ghost use Rattle.std.specs.Io.KnownBytes.{Appends};
ghost use Rattle.std.specs.List.{flat_map};
ghost use Rattle.text_io.specs.Blocks.{TakesPrefix, GivesUp, Puts, Writes};
ghost use Rattle.job_results.specs.Results.{row_of};
ghost use Rattle.report.specs.ResultsTable.{result_text, results_parts_text, results_text};

use crate::count_rows::put_counts;
use crate::job_kinds::job_counts_of;
use crate::result_rows::{result_line, results_header_line};
use history::Refusal;
use indexmap::IndexMap;
use job_results::{JobKind, JobResult};
use std::alloc::Global;
use text_io::{Block, Sink};

/// Writes the table of results: `results` and their number, a line for each result in the order of the
/// list, and a line for each kind of job with how many there are of it.
///
/// A result's line has its job's number, the job's kind, and the value in decimal or `by-zero`. Kinds
/// come in the order in which each first occurs in the list. It takes memory for the counts alone, of
/// four kinds at most, and time in proportion to the list; whether it waits is up to the writer. It is
/// refused by `Memory` before the first byte is written, and else by `Write` where a call of the writer
/// fails or takes nothing; a prefix of the table is written then.
pub fn results_table<W: Sink>(
    alloc: Global,
    results: &[JobResult],
    writer: &mut W,
) -> Result<(), Refusal>
    //= texts/tables (ok, quiet, only, unwritten, prefix, cause)
    ensures ok { OnOk result (Appends (W.state writer.old).contents (W.state writer.new).contents
        (results_text (map row_of results.now))) }
    ensures quiet { OnOk result ((W.state writer.new).failures ≡ (W.state writer.old).failures) }
    ensures only { IfErr result
        (λ refusal. (refusal ≡ Refusal.Memory) ⊎ (refusal ≡ Refusal.Write)) }
    ensures unwritten { IfErr result
        (λ refusal. refusal ≡ Refusal.Memory → writer.new ≡ writer.old) }
    ensures prefix { IfErr result (λ refusal. refusal ≡ Refusal.Write
        → TakesPrefix (W.state writer.old).contents (W.state writer.new).contents
        (results_text (map row_of results.now))) }
    ensures cause { IfErr result (λ refusal. refusal ≡ Refusal.Write
        → GivesUp (W.state writer.old) (W.state writer.new)) }
{
    let counts = job_counts_of(alloc, results)?;
    write_results(results, &counts, writer)
}

// Writes the first line, the lines of the results, and those of the counts.
fn write_results<W: Sink>(
    results: &[JobResult],
    counts: &IndexMap<JobKind, u64>,
    writer: &mut W,
) -> Result<(), Refusal>
    ensures { Writes (W.state writer.old) (W.state writer.new)
        (results_parts_text (length results.now) (map row_of results.now) counts.now.entries) result }
{
    let mut block = Block::new();
    block.put(writer, results_header_line(results.len() as u64).as_slice())?;
    put_results(&mut block, writer, results)?;
    put_counts(&mut block, writer, counts)?;
    block.finish(writer)
}

// Puts the lines of results.
fn put_results<W: Sink>(
    block: &mut Block,
    writer: &mut W,
    results: &[JobResult],
) -> Result<(), Refusal>
    ensures { Puts (W.state writer.old) (W.state writer.new)
        (block.old ++ flat_map result_text (map row_of results.now)) block.new result }
{
    for told in results {
        block.put(writer, result_line(told).as_slice())?;
    }
    Ok(())
}
