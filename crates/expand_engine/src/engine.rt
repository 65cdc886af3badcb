//! From a reader's bytes of a recipe to a writer's of a schedule.
ghost use Rattle.std.specs.Prelude.{◌≡◌, ◌≢◌, IfErr, IfOk, IfSome, OnOk};
ghost use Rattle.run_engine.specs.Runs.{EndsReading};
ghost use Rattle.text_io.specs.Blocks.{GivesUp};
ghost use Rattle.text_io.specs.Readings.{EndsReadingFor, ReachesEnd};
ghost use Rattle.expand_engine.specs.Expansions.{BeginsExpansion, ExpansionRefused, IsExpansionOf, IsReadAs, IsReadingRefusal, IsRecipeFault, StopsExpansion, TellsFaultyLine, WritesExpansion};

use crate::expansions::{Expansion, expansion_of};
use crate::readers::Recipes;
use engine_faults::Fault;
use history::Refusal;
use schedule_text::{Schedule, print};
use std::alloc::Global;
use text_io::{Sink, Source, parse_source};

/// What the recipe stands for whose text a source gives.
///
/// It is refused with `Memory`, as soon as a growth is refused; `Read`, where a call of the source fails; `Text`, where the
/// bytes are no recipe. That an act is refused is no refusal of this. It takes memory; whether it waits is up to the source.
pub fn read_recipe<R: Source>(alloc: Global, reader: &mut R) -> Result<Expansion, Refusal>
    //= recipes/read (ok, text, kind, reader): A recipe that is read stands for the events of its acts in turn from the opening
    //=   world, those of a repeat as often as it says, up to the first act that is refused; in place of that stands an
    //=   event that is refused there for the same cause. A text that is no recipe is refused with its first faulty line
    //=   and what is wrong with it, unless memory or reading is refused.
    ensures ok { IfOk result (IsReadAs (R.state reader.old).left) }
    ensures text { IfErr result (TellsFaultyLine (R.state reader.old).left) }
    ensures kind { IfErr result IsReadingRefusal }
    ensures reader { EndsReadingFor result (R.state reader.old) (R.state reader.new) }
{
    let recipe = parse_source::<Recipes, R>(alloc, reader)?;
    expansion_of(alloc, &recipe)
}

// The schedule that the recipe stands for whose text a source gives.
fn schedule_of_text<R: Source>(alloc: Global, reader: &mut R) -> Result<Schedule, Fault>
    ensures ok { IfOk result (IsExpansionOf (R.state reader.old).left) }
    ensures end { OnOk result (ReachesEnd (R.state reader.old) (R.state reader.new)) }
    ensures err { IfErr result (λ fault. StopsExpansion (R.state reader.old) (R.state reader.new)
        fault.refusal fault.line) }
{
    let expansion = read_recipe(alloc, reader)?;
    match expansion.refuse() {
        Ok(()) => {
            let Expansion {
                schedule,
                extent: _,
                stop: _,
            } = expansion;
            Ok(schedule)
        }
        Err(fault) => Err(fault),
    }
}

// The same, by what is told of it.
fn schedule_of<R: Source>(alloc: Global, reader: &mut R) -> Result<Schedule, Fault>
    ensures ok { IfOk result (IsExpansionOf (R.state reader.old).left) }
    ensures text { IfErr result (λ fault. TellsFaultyLine (R.state reader.old).left fault.refusal) }
    ensures fault { IfErr result (λ fault. IsRecipeFault fault.refusal fault.line) }
    ensures refused { IfErr result (λ fault. IfSome fault.line (λ line.
        ExpansionRefused (R.state reader.old).left line fault.refusal)) }
    ensures unwritten { IfErr result (λ fault. fault.refusal ≢ Refusal.Write) }
    ensures reader { EndsReading result (R.state reader.old) (R.state reader.new) }
{
    let schedule = schedule_of_text(alloc, reader)?;
    Ok(schedule)
}

/// Writes the text of the schedule that the recipe stands for whose text the reader gives: of version 1 where it has one,
/// and else of version 2.
///
/// A fault is, in this order: `Memory`, as soon as a growth is refused; `Read`, where a call of the reader fails; `Text`,
/// where the bytes are no recipe; the refusal of the first act that is refused, with its line; `Write`, where a call of
/// the writer fails or takes nothing. It takes memory; whether it waits is up to the reader and the writer.
pub fn expand_text<R: Source, W: Sink>(
    alloc: Global,
    reader: &mut R,
    writer: &mut W,
) -> Result<(), Fault>
    //= program/expand (ok, quiet): At Ok `expand_text` has written the text of the schedule that the recipe read stands for,
    //=   in range, of version 1 where that suffices: its sizes, and the events of its acts in turn from the opening
    //=   world, those of a repeat as often as it says. An event stands for itself, `until` and `finish` for the least
    //=   number of steps after which the actor stands before the line, or has no call, at most 64.
    //= program/expand_refusals (ok, prefix, write, unwritten, fault, text, refused, reader): If `expand_text` is
    //=   refused `Write`, a prefix of that text was written, and a write failed or took nothing; at any other refusal
    //=   nothing was. A text that is no recipe is refused with its first faulty line and what is wrong with it,
    //=   unless memory or reading is refused. A refusal with a line is that of the first act that is refused, which
    //=   stands there. The reader's end is as of `run_text`.
    ensures ok { OnOk result (WritesExpansion (R.state reader.old).left (W.state writer.old)
        (W.state writer.new)) }
    ensures quiet { OnOk result ((W.state writer.new).failures ≡ (W.state writer.old).failures) }
    ensures prefix { IfErr result (λ fault. fault.refusal ≡ Refusal.Write
        → BeginsExpansion (R.state reader.old).left (W.state writer.old) (W.state writer.new)) }
    ensures write { IfErr result (λ fault. fault.refusal ≡ Refusal.Write
        → GivesUp (W.state writer.old) (W.state writer.new)) }
    ensures unwritten { IfErr result (λ fault. fault.refusal ≢ Refusal.Write → writer.new ≡ writer.old) }
    ensures fault { IfErr result (λ fault. IsRecipeFault fault.refusal fault.line) }
    ensures text { IfErr result (λ fault. TellsFaultyLine (R.state reader.old).left fault.refusal) }
    ensures refused { IfErr result (λ fault. IfSome fault.line (λ line.
        ExpansionRefused (R.state reader.old).left line fault.refusal)) }
    ensures reader { EndsReading result (R.state reader.old) (R.state reader.new) }
{
    let schedule = schedule_of(alloc, reader)?;
    print(&schedule, writer)?;
    Ok(())
}
