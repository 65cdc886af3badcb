//! What a page is written of where the text is a recipe.
ghost use Rattle.std.specs.Prelude.{◌≡◌, ◌≢◌, IfErr, IfOk};
ghost use Rattle.engine_faults.specs.Faults.{IsRunRefusal};
ghost use Rattle.expand_engine.specs.Expansions.{TellsFaultyLine};
ghost use Rattle.expand_engine.specs.Recipes.{recipe_lines};
ghost use Rattle.expand_engine.specs.declared.recipes.Due.TheVariants.{Version};
ghost use Rattle.text_io.specs.Prefixes.{IsRefusedBy};
ghost use Rattle.text_io.specs.Readings.{EndsReadingFor, WereAll};
ghost use Rattle.page_engine.specs.Recipes.{IsOneRecipe};

use crate::given::{Given, stop_in};
use expand_engine::{Expansion, Recipe, Recipes, expansion_of};
use history::Refusal;
use std::alloc::Global;
use text_io::{Parser, Source, parse_source};

/// What is given by the text of a recipe.
fn recipe_given(alloc: Global, text: &[u8]) -> Result<Given, Refusal>
    ensures text { IfOk result (λ given. text.now ≡ given.text.items) }
    ensures one { IfOk result IsOneRecipe }
    ensures err { IfErr result (IsRefusedBy recipe_lines Version text.now) }
{
    let recipe = Recipes::parse(alloc, text)?;
    let expansion = expansion_of(alloc, &recipe)?;
    let stop = stop_in(expansion.refuse())?;
    let Recipe {
        text,
        sizes: _,
        lines: _,
    } = recipe;
    let Expansion {
        schedule,
        extent,
        stop: _,
    } = expansion;
    Ok(Given {
        text,
        schedule,
        extent,
        stop,
    })
}

/// Texts of recipes, with what they stand for.
struct GivenRecipes;

impl Parser for GivenRecipes {
    ghost use Rattle.expand_engine.specs.Recipes.{RecipeLine, recipe_lines};
    ghost use Rattle.expand_engine.specs.declared.recipes.Due.{Due};
    ghost use Rattle.expand_engine.specs.declared.recipes.Due.TheVariants.{Version};
    ghost use Rattle.page_engine.specs.Recipes.{IsOneRecipe};

    type Parsed = Given;

    ghost State = { Due };

    ghost Said = { RecipeLine };

    ghost grammar = { recipe_lines };

    ghost first = { Version };

    ghost text_of = { λ given. given.text.items };

    ghost in_range = { IsOneRecipe };

    fn parse(alloc: Global, text: &[u8]) -> Result<Given, Refusal> {
        recipe_given(alloc, text)
    }
}

/// The text that a source gives, and the schedule that it stands for as a recipe. It is refused as that of a schedule is.
pub(crate) fn recipe_in<R: Source>(alloc: Global, reader: &mut R) -> Result<Given, Refusal>
    ensures read { IfOk result (λ given. WereAll (R.state reader.old).left given.text.items) }
    ensures one { IfOk result IsOneRecipe }
    ensures text { IfErr result (TellsFaultyLine (R.state reader.old).left) }
    ensures unwritten { IfErr result (λ refusal. refusal ≢ Refusal.Write) }
    ensures refusal { IfErr result IsRunRefusal }
    ensures reader { EndsReadingFor result (R.state reader.old) (R.state reader.new) }
{
    Ok(parse_source::<GivenRecipes, R>(alloc, reader)?)
}
