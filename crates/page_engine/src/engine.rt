//! The engine of `show --html`: from a reader's bytes to a writer's.
ghost use Rattle.std.specs.Prelude.{◌≡◌, ◌≢◌, None, IfErr, OnOk, IfSome};
ghost use Rattle.expand_engine.specs.Expansions.{ExpansionRefused, IsRecipeFault};
ghost use Rattle.expand_engine.specs.Expansions as recipes;
ghost use Rattle.page_engine.specs.Given.{CanBeMade};
ghost use Rattle.page_engine.specs.Pages.{BeginsPage, IsStoppedTold, IsWholeTold, Pages, WritesPage, WritesStoppedPage, page_around};
ghost use Rattle.page_engine.specs.Recipes.{BeginsRecipePage, WritesRecipePage, WritesStoppedRecipePage};
ghost use Rattle.run_engine.specs.Runs.{EndsReading, IsRunFault, RunRefused, TellsFaultyLine};
ghost use Rattle.text_io.specs.Blocks.{GivesUp, Writes};

use crate::contents::content_of;
use crate::given::{Given, ended, given_in};
use crate::recipes::recipe_in;
use engine_faults::Fault;
use history::Refusal;
use std::alloc::Global;
use text_io::{Sink, Source, send};

/// What a page has around the texts that it shows.
#[derive(Clone, Copy)]
pub struct Frame<'a> {
    /// Before the text that was given.
    pub before: &'a str,
    /// Between that text and what is told of its run. A page of a history has none.
    pub between: &'a str,
    /// Behind all that is told.
    pub after: &'a str,
}

/// Writes a page: its frame around a content.
pub(crate) fn write_page<W: Sink>(
    frame: &Frame<'_>,
    content: &[u8],
    writer: &mut W,
) -> Result<(), Refusal>
    ensures { Writes (W.state writer.old) (W.state writer.new) (page_around frame.now content.now)
        result }
{
    send(frame.before.as_bytes(), writer)?;
    send(content, writer)?;
    send(frame.after.as_bytes(), writer)
}

/// Writes the page of what was given.
fn write_given<W: Sink>(
    alloc: Global,
    frame: &Frame<'_>,
    given: &Given,
    writer: &mut W,
) -> Result<(), Fault>
    requires { CanBeMade given.now }
    ensures { Pages frame.now given.now.text.items (IsWholeTold given.now) (IsStoppedTold given.now)
        (W.state writer.old) (W.state writer.new) (writer.new ≡ writer.old) result }
{
    let content = content_of(alloc, frame, given)?;
    write_page(frame, content.as_slice(), writer)?;
    ended(given.stop)
}

/// Writes the page of the schedule whose text the reader gives: within its frame that text, byte by byte as `shown` has it, and then its
/// trace and where each actor stands that has a call. Where an event is refused, the page goes up to that, and ends with the fault's
/// line.
///
/// Text and trace are kept in memory, about 40 bytes a step, until the page is written. A fault is, in this order: `Memory`, as soon as
/// a growth is refused; `Read`, where a call of the reader fails; `Text`, where the bytes are no schedule; `Write`, where a call of the
/// writer fails or takes nothing; the refusal of the first event that is refused, with its line. It takes memory; whether it waits is up
/// to the reader and the writer.
pub fn page_text<R: Source, W: Sink>(
    alloc: Global,
    reader: &mut R,
    writer: &mut W,
    frame: &Frame<'_>,
) -> Result<(), Fault>
    //= program/page (ok, quiet): The page that is written of a schedule read is its frame's first part, the text that was given, each
    //=   byte as a page has it, the frame's second part, the exact trace, where each actor then stands that has a call, and the
    //=   frame's third part.
    //= program/other_faults (ok, prefix, fault, text, refused, reader)
    ensures ok { OnOk result (WritesPage frame.now (R.state reader.old).left (W.state writer.old)
        (W.state writer.new)) }
    ensures quiet { OnOk result ((W.state writer.new).failures ≡ (W.state writer.old).failures) }
    //= program/page_prefix (prefix, write, unwritten): If a page is refused `Write`, a prefix of it was written, and a write
    //=   failed or took nothing. At any other refusal without a line nothing was written.
    ensures prefix { IfErr result (λ fault. fault.refusal ≡ Refusal.Write
        → BeginsPage frame.now (R.state reader.old).left (W.state writer.old) (W.state writer.new)) }
    ensures write { IfErr result (λ fault. fault.refusal ≡ Refusal.Write
        → GivesUp (W.state writer.old) (W.state writer.new)) }
    ensures unwritten { IfErr result (λ fault. fault.line ≡ None → fault.refusal ≢ Refusal.Write
        → writer.new ≡ writer.old) }
    //= program/stopped_page (stopped, none_failed_there): Where an event is refused, the page of the events before it is
    //=   written, with where each actor stands that has a call, and the fault's line as the last one that it shows.
    ensures stopped { IfErr result (λ fault. IfSome fault.line (λ line. WritesStoppedPage frame.now
        (R.state reader.old).left line fault.refusal (W.state writer.old) (W.state writer.new))) }
    ensures none_failed_there { IfErr result (λ fault. IfSome fault.line (λ line.
        (W.state writer.new).failures ≡ (W.state writer.old).failures)) }
    ensures fault { IfErr result (λ fault. IsRunFault fault.refusal fault.line) }
    ensures text { IfErr result (λ fault. TellsFaultyLine (R.state reader.old).left fault.refusal) }
    ensures refused { IfErr result (λ fault. IfSome fault.line (λ line.
        RunRefused (R.state reader.old).left line fault.refusal)) }
    ensures reader { EndsReading result (R.state reader.old) (R.state reader.new) }
{
    let given = given_in(alloc, reader)?;
    write_given(alloc, frame, &given, writer)?;
    Ok(())
}

/// Writes the page of the recipe whose text the reader gives, as `page_text` does that of a schedule: its own text, and what is told of
/// the run of the schedule that it stands for. Where an act is refused, the fault's line is that of the act.
///
/// Faults and memory are as of `page_text`, but that a text is refused which is no recipe. It takes memory; whether it waits is up to
/// the reader and the writer.
pub fn page_recipe<R: Source, W: Sink>(
    alloc: Global,
    reader: &mut R,
    writer: &mut W,
    frame: &Frame<'_>,
) -> Result<(), Fault>
    //= program/page_recipe (ok, quiet): Of a recipe the page has the recipe's text, and the trace of the schedule that it stands
    //=   for, with where each actor then stands that has a call.
    //= program/other_faults (ok, prefix, fault, text, refused, reader)
    ensures ok { OnOk result (WritesRecipePage frame.now (R.state reader.old).left
        (W.state writer.old) (W.state writer.new)) }
    ensures quiet { OnOk result ((W.state writer.new).failures ≡ (W.state writer.old).failures) }
    //= program/page_prefix (prefix, write, unwritten)
    ensures prefix { IfErr result (λ fault. fault.refusal ≡ Refusal.Write
        → BeginsRecipePage frame.now (R.state reader.old).left (W.state writer.old)
        (W.state writer.new)) }
    ensures write { IfErr result (λ fault. fault.refusal ≡ Refusal.Write
        → GivesUp (W.state writer.old) (W.state writer.new)) }
    ensures unwritten { IfErr result (λ fault. fault.line ≡ None → fault.refusal ≢ Refusal.Write
        → writer.new ≡ writer.old) }
    //= program/stopped_page (stopped, none_failed_there)
    ensures stopped { IfErr result (λ fault. IfSome fault.line (λ line. WritesStoppedRecipePage frame.now
        (R.state reader.old).left line fault.refusal (W.state writer.old) (W.state writer.new))) }
    ensures none_failed_there { IfErr result (λ fault. IfSome fault.line (λ line.
        (W.state writer.new).failures ≡ (W.state writer.old).failures)) }
    ensures fault { IfErr result (λ fault. IsRecipeFault fault.refusal fault.line) }
    ensures text { IfErr result
        (λ fault. recipes.TellsFaultyLine (R.state reader.old).left fault.refusal) }
    ensures refused { IfErr result (λ fault. IfSome fault.line (λ line.
        ExpansionRefused (R.state reader.old).left line fault.refusal)) }
    ensures reader { EndsReading result (R.state reader.old) (R.state reader.new) }
{
    let given = recipe_in(alloc, reader)?;
    write_given(alloc, frame, &given, writer)?;
    Ok(())
}
