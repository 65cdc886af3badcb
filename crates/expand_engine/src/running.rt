//! From a reader's bytes of a recipe to a writer's of a history.
ghost use Rattle.std.specs.Prelude.{◌≡◌, ◌≢◌, ◌≤◌, All, IfErr, IfOk, IfSome, OnOk, length};
ghost use Rattle.run_engine.specs.Runs.{EndsReading};
ghost use Rattle.text_io.specs.Blocks.{GivesUp};
ghost use Rattle.text_io.specs.Readings.{ReachesEnd};
ghost use Rattle.expand_engine.specs.Expansions.{AreSizesInRange, ExpansionRefused, IsActOf, IsDoingFault, IsRecipeFault, RefusesAt, StopsExpansion, TellsFaultyLine};
ghost use Rattle.expand_engine.specs.Recipes.{IsRecipe};
ghost use Rattle.expand_engine.specs.RecipesRun.{BeginsHistory, IsRunOfActs, IsRunOfLines, IsRunOfRecipe, RefusesLinesAt, WritesHistory};

use crate::acts::act_all;
use crate::expansions::opening_world;
use crate::readers::Recipes;
use crate::recipes::{Act, Recipe, Sizes};
use crate::unrolled_acts::acts_of;
use engine_faults::Fault;
use history::{Refusal, Stamped};
use history_text::print_history;
use run_engine::by_bits;
use std::alloc::Global;
use text_io::{Sink, Source, parse_source};

// The history of acts, done on a world of `B` bits.
fn history_with_bits<const B: u32>(
    alloc: Global,
    sizes: &Sizes,
    acts: &[Act],
) -> Result<Vec<Stamped>, Fault>
    requires range { AreSizesInRange sizes.now }
    requires bits { sizes.now.bits ≡ B }
    requires acts { All IsActOf acts.now }
    requires few { length acts.now ≤ 1000000 }
    ensures ok { IfOk result (λ history. IsRunOfActs sizes.now acts.now history.items) }
    ensures fault { IfErr result (λ fault. IsDoingFault fault.refusal fault.line) }
    ensures refused { IfErr result (λ fault. RefusesAt sizes.now acts.now fault.line fault.refusal) }
{
    let mut world = opening_world::<B>(alloc, sizes)?;
    let done = act_all(alloc, &mut world, acts)?;
    let stop = done.stop;
    if let Some(stop) = stop {
        return Err(Fault {
            refusal: stop.refusal,
            line: Some(stop.act.line),
        });
    }
    let history = world.history(alloc)?;
    Ok(history)
}

// The same on a world of as many bits as the sizes say.
fn history_of_acts(alloc: Global, sizes: &Sizes, acts: &[Act]) -> Result<Vec<Stamped>, Fault>
    requires range { AreSizesInRange sizes.now }
    requires acts { All IsActOf acts.now }
    requires few { length acts.now ≤ 1000000 }
    ensures ok { IfOk result (λ history. IsRunOfActs sizes.now acts.now history.items) }
    ensures fault { IfErr result (λ fault. IsDoingFault fault.refusal fault.line) }
    ensures refused { IfErr result (λ fault. RefusesAt sizes.now acts.now fault.line fault.refusal) }
{
    let bits = sizes.bits;
    by_bits!(bits, history_with_bits(alloc, sizes, acts))
}

// The history of the acts of a recipe.
fn history_of(alloc: Global, recipe: &Recipe) -> Result<Vec<Stamped>, Fault>
    requires { IsRecipe recipe.now.text.items recipe.now.sizes recipe.now.lines.items }
    ensures ok { IfOk result (λ history.
        IsRunOfLines recipe.now.sizes recipe.now.lines.items history.items) }
    ensures fault { IfErr result (λ fault. IsDoingFault fault.refusal fault.line) }
    ensures refused { IfErr result (λ fault. RefusesLinesAt recipe.now.sizes recipe.now.lines.items
        fault.line fault.refusal) }
{
    let sizes = recipe.sizes;
    let acts = acts_of(alloc, &recipe.lines)?;
    history_of_acts(alloc, &sizes, &acts)
}

// The history of the recipe whose text a source gives.
fn history_of_text<R: Source>(alloc: Global, reader: &mut R) -> Result<Vec<Stamped>, Fault>
    ensures ok { IfOk result (λ history.
        IsRunOfRecipe (R.state reader.old).left history.items) }
    ensures end { OnOk result (ReachesEnd (R.state reader.old) (R.state reader.new)) }
    ensures err { IfErr result (λ fault. StopsExpansion (R.state reader.old) (R.state reader.new)
        fault.refusal fault.line) }
{
    let recipe = parse_source::<Recipes, R>(alloc, reader)?;
    history_of(alloc, &recipe)
}

// The same, by what is told of it.
fn history_from<R: Source>(alloc: Global, reader: &mut R) -> Result<Vec<Stamped>, Fault>
    ensures ok { IfOk result (λ history.
        IsRunOfRecipe (R.state reader.old).left history.items) }
    ensures text { IfErr result (λ fault. TellsFaultyLine (R.state reader.old).left fault.refusal) }
    ensures fault { IfErr result (λ fault. IsRecipeFault fault.refusal fault.line) }
    ensures refused { IfErr result (λ fault. IfSome fault.line (λ line.
        ExpansionRefused (R.state reader.old).left line fault.refusal)) }
    ensures unwritten { IfErr result (λ fault. fault.refusal ≢ Refusal.Write) }
    ensures reader { EndsReading result (R.state reader.old) (R.state reader.new) }
{
    let history = history_of_text(alloc, reader)?;
    Ok(history)
}

/// Does the acts of the recipe whose text the reader gives, and writes the text of their history.
///
/// A fault is, in this order: `Memory`, as soon as a growth is refused; `Read`, where a call of the reader fails; `Text`,
/// where the bytes are no recipe; the refusal of the first act that is refused, with its line; `Write`, where a call of
/// the writer fails or takes nothing. It takes memory; whether it waits is up to the reader and the writer.
pub fn run_recipe<R: Source, W: Sink>(
    alloc: Global,
    reader: &mut R,
    writer: &mut W,
) -> Result<(), Fault>
    //= program/run_recipe (ok, quiet, prefix, write, unwritten, fault, text, refused, reader): At Ok `run_recipe` has written
    //=   the history of the world to which the acts of the recipe read lead from its opening world, those of a repeat done
    //=   as often as it says, which is that of the schedule for which it stands. It is refused as `expand_text` is.
    ensures ok { OnOk result (WritesHistory (R.state reader.old).left (W.state writer.old)
        (W.state writer.new)) }
    ensures quiet { OnOk result ((W.state writer.new).failures ≡ (W.state writer.old).failures) }
    ensures prefix { IfErr result (λ fault. fault.refusal ≡ Refusal.Write
        → BeginsHistory (R.state reader.old).left (W.state writer.old) (W.state writer.new)) }
    ensures write { IfErr result (λ fault. fault.refusal ≡ Refusal.Write
        → GivesUp (W.state writer.old) (W.state writer.new)) }
    ensures unwritten { IfErr result (λ fault. fault.refusal ≢ Refusal.Write → writer.new ≡ writer.old) }
    ensures fault { IfErr result (λ fault. IsRecipeFault fault.refusal fault.line) }
    ensures text { IfErr result (λ fault. TellsFaultyLine (R.state reader.old).left fault.refusal) }
    ensures refused { IfErr result (λ fault. IfSome fault.line (λ line.
        ExpansionRefused (R.state reader.old).left line fault.refusal)) }
    ensures reader { EndsReading result (R.state reader.old) (R.state reader.new) }
{
    let history = history_from(alloc, reader)?;
    print_history(&history, writer)?;
    Ok(())
}
