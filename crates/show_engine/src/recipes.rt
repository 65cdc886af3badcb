//! From a reader's bytes of a recipe to a writer's of a picture.
ghost use Rattle.std.specs.Prelude.{◌≡◌, ◌≢◌, ◌⊎◌, None, IfErr, OnOk, IfSome};
ghost use Rattle.expand_engine.specs.Expansions.{CanBeMade, ExpansionRefused, IsRecipeFault, TellsFaultyLine};
ghost use Rattle.expand_engine.specs.RecipesRun.{AnswersOf, BeginsOf, StopsOf, WritesOf};
ghost use Rattle.run_engine.specs.Runs.{EndsReading};
ghost use Rattle.show_engine.specs.PicturesWritten.{the_picture};
ghost use Rattle.text_io.specs.Blocks.{GivesUp};

use crate::counts::count_again;
use crate::frames::{Frame, View};
use crate::pictures::draw;
use engine_faults::Fault;
use expand_engine::{Expansion, read_recipe};
use history::Refusal;
use run_engine::by_bits;
use std::alloc::Global;
use text_io::{Sink, Source};

// Writes the picture of what a recipe stands for, on worlds of `B` bits.
fn show_with_bits<const B: u32, W: Sink>(
    alloc: Global,
    expansion: &Expansion,
    view: View<'_>,
    writer: &mut W,
) -> Result<(), Fault>
    requires made { CanBeMade expansion.now }
    requires bits { expansion.now.schedule.bits ≡ B }
    ensures { AnswersOf (the_picture view.entry) expansion.now (W.state writer.old)
        (W.state writer.new) (writer.new ≡ writer.old) result }
{
    let schedule = &expansion.schedule;
    let counted = count_again::<B>(alloc, schedule, expansion.extent)?;
    let frame = Frame::of(view, schedule.actors);
    draw::<B, W>(alloc, schedule, frame, &counted, view.legend, writer)?;
    expansion.refuse()
}

// The same with as many bits as the recipe says.
fn show_expansion<W: Sink>(
    alloc: Global,
    expansion: &Expansion,
    view: View<'_>,
    writer: &mut W,
) -> Result<(), Fault>
    requires { CanBeMade expansion.now }
    ensures { AnswersOf (the_picture view.entry) expansion.now (W.state writer.old)
        (W.state writer.new) (writer.new ≡ writer.old) result }
{
    let bits = expansion.schedule.bits;
    by_bits!(bits, show_with_bits<W>(alloc, expansion, view, writer))
}

/// Writes the picture of the schedule that the recipe stands for whose text the reader gives, as `show_text` does of that. Where an
/// act is refused, this is the picture of the events before it, with where the actors stand.
///
/// The recipe's text is held, its events, and where its operations take effect; none of its steps is. A fault is, in this order:
/// `Memory`, as soon as a growth is refused; `Read`, where a call of the reader fails; `Text`, where the bytes are no recipe;
/// `Write`, where a call of the writer fails or takes nothing; the refusal of the first act that is refused, with its line. Memory
/// may be refused too while the rows are written. It takes memory; whether it waits is up to the reader and the writer.
pub fn show_recipe<R: Source, W: Sink>(
    alloc: Global,
    reader: &mut R,
    writer: &mut W,
    view: View<'_>,
) -> Result<(), Fault>
    //= program/show_recipe (ok, quiet, text, refused): Of a recipe `show_recipe` writes, and is refused, what `show_text`
    //=   does of the schedule that it stands for; but a text that is no recipe is refused as `expand_text` refuses it, and
    //=   an act with its line in the recipe.
    //= program/other_faults (ok, prefix, fault, text, refused, reader)
    ensures ok { OnOk result (WritesOf (the_picture view.entry) (R.state reader.old).left
        (W.state writer.old) (W.state writer.new)) }
    ensures quiet { OnOk result ((W.state writer.new).failures ≡ (W.state writer.old).failures) }
    //= program/prefix (prefix, write, memory, none_failed, unwritten)
    ensures prefix { IfErr result (λ fault. fault.refusal ≡ Refusal.Write
        → BeginsOf (the_picture view.entry) (R.state reader.old).left (W.state writer.old)
        (W.state writer.new)) }
    ensures write { IfErr result (λ fault. fault.refusal ≡ Refusal.Write
        → GivesUp (W.state writer.old) (W.state writer.new)) }
    ensures memory { IfErr result (λ fault. fault.refusal ≡ Refusal.Memory → (writer.new ≡ writer.old)
        ⊎ BeginsOf (the_picture view.entry) (R.state reader.old).left (W.state writer.old)
        (W.state writer.new)) }
    ensures none_failed { IfErr result (λ fault. fault.refusal ≡ Refusal.Memory
        → (W.state writer.new).failures ≡ (W.state writer.old).failures) }
    ensures unwritten { IfErr result (λ fault. fault.line ≡ None → fault.refusal ≢ Refusal.Write
        → fault.refusal ≢ Refusal.Memory → writer.new ≡ writer.old) }
    //= program/stopped (stopped, none_failed_there)
    ensures stopped { IfErr result (λ fault. IfSome fault.line (λ line. StopsOf (the_picture view.entry)
        (R.state reader.old).left line fault.refusal (W.state writer.old) (W.state writer.new))) }
    ensures none_failed_there { IfErr result (λ fault. IfSome fault.line (λ line.
        (W.state writer.new).failures ≡ (W.state writer.old).failures)) }
    ensures fault { IfErr result (λ fault. IsRecipeFault fault.refusal fault.line) }
    ensures text { IfErr result (λ fault. TellsFaultyLine (R.state reader.old).left fault.refusal) }
    ensures refused { IfErr result (λ fault. IfSome fault.line (λ line.
        ExpansionRefused (R.state reader.old).left line fault.refusal)) }
    ensures reader { EndsReading result (R.state reader.old) (R.state reader.new) }
{
    let expansion = read_recipe(alloc, reader)?;
    show_expansion(alloc, &expansion, view, writer)?;
    Ok(())
}
