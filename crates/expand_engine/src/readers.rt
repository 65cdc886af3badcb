//! The recipe that a text is.
ghost use Rattle.std.specs.Prelude.{◌≡◌, ◌++◌, ◌∷◌, [], true, IfOk, IfErr, OnOk};
ghost use Rattle.text_io.specs.Prefixes.{IsRefusedBy};
ghost use Rattle.expand_engine.specs.Recipes.{HasWords, IsDueInRange, IsRecipe, IsRefusedLine, IsSaidInRange, MaySay, ReadsOn, is_due, recipe_lines};

use crate::comments::speak;
use crate::dues::{due_after, sizes_after};
use crate::lines::said_in;
use crate::recipes::{Due, Recipe, Said, Sizes};
use history::{Op, Refusal};
use line_table::Kind;
use schedule_text::Event;
use std::alloc::Global;
use std::marker::Model;
use text_io::{Parser, TextCause, line_at};

/// What is read of a text so far.
#[derive(Drop)]
struct Reading {
    due: Due,
    sizes: Sizes,
    lines: Vec<Said>,
}

impl Model for Reading {
    ghost use Rattle.expand_engine.specs.Recipes.{SoFar};

    ghost Value = { SoFar };

    ghost view = { λ r. record { due = r.due; sizes = r.sizes; saids = r.lines.items } };
}

impl Reading {
    ghost use Rattle.std.specs.Prelude.{◌+◌, length};
    ghost use Rattle.expand_engine.specs.Recipes.{due_after, no_sizes, sizes_after};

    // Nothing.
    fn new(alloc: Global) -> Reading
        ensures { result ≡ record { due = Due.Version; sizes = no_sizes; saids = [] } }
    {
        Reading {
            due: Due::Version,
            sizes: Sizes {
                kind: Kind::TwoLock,
                bits: 24,
                nodes: 2,
                limit: 1,
                actors: 1,
            },
            lines: Vec::new(alloc),
        }
    }

    // Whether a further line is due.
    fn is_due(&self) -> bool
        ensures { result ≡ is_due self.now.due }
    {
        match self.due {
            Due::Nothing => false,
            _ => true,
        }
    }

    // The number of the next line.
    fn next_number(&self) -> u64
        ensures { result ≡ length self.now.saids + 1 }
    {
        self.lines.len() as u64 + 1
    }

    // Reads the line at the front of a text, which is due, and answers what follows it. What was heard before goes.
    fn read_line<'a>(&mut self, text: &'a [u8], heard: &mut Vec<u8>) -> Result<&'a [u8], Refusal>
        requires range { IsDueInRange self.old.due }
        requires due { is_due self.old.due ≡ true }
        ensures ok { IfOk result (λ rest. ReadsOn self.old text.now self.new rest.now) }
        ensures range { OnOk result (IsDueInRange self.new.due) }
        ensures err { IfErr result (IsRefusedLine self.old text.now) }
    {
        let number = self.next_number();
        let Some((line, rest)) = line_at(text) else {
            return Err(Refusal::Text(number, TextCause::End));
        };
        speak(line, heard)?;
        match said_in(self.due, heard) {
            Ok(said) => {
                self.keep(said)?;
                Ok(rest)
            }
            Err(cause) => Err(Refusal::Text(number, cause)),
        }
    }

    // Adds what a line says.
    fn keep(&mut self, said: Said) -> Result<(), Refusal>
        requires range { IsDueInRange self.old.due }
        requires may { MaySay self.old.due said }
        requires said { IsSaidInRange self.old.due said }
        ensures due { OnOk result (self.new.due ≡ due_after self.old.due said) }
        ensures sized { OnOk result (self.new.sizes ≡ sizes_after self.old.sizes said) }
        ensures added { OnOk result (self.new.saids ≡ self.old.saids ++ said ∷ []) }
        ensures err { IfErr result (λ refusal. refusal ≡ Refusal.Memory) }
    {
        // The check of the push stops unless the types of its parts are named here.
        let _: Option<Op> = None;
        let _: Option<Event> = None;
        let due = due_after(self.due, &said);
        let sizes = sizes_after(self.sizes, &said);
        match self.lines.push(said) {
            Ok(()) => {
                self.due = due;
                self.sizes = sizes;
                Ok(())
            }
            Err(_) => Err(Refusal::Memory),
        }
    }
}

// The recipe of this text, whole.
fn recipe_of(alloc: Global, text: &[u8]) -> Result<Recipe, Refusal>
    ensures text { IfOk result (λ recipe. text.now ≡ recipe.text.items) }
    ensures range { IfOk result (λ recipe.
        IsRecipe recipe.text.items recipe.sizes recipe.lines.items) }
    ensures err { IfErr result (IsRefusedBy recipe_lines Due.Version text.now) }
{
    let mut read = Reading::new(alloc);
    let mut heard = Vec::new(alloc);
    let mut rest = text;
    while read.is_due() {
        rest = read.read_line(rest, &mut heard)?;
    }
    if !rest.is_empty() {
        return Err(Refusal::Text(read.next_number(), TextCause::Extra));
    }
    let Ok(text) = Vec::from_slice(alloc, text) else {
        return Err(Refusal::Memory);
    };
    let Reading {
        due: _,
        sizes,
        lines,
    } = read;
    Ok(Recipe { text, sizes, lines })
}

/// Texts of recipes.
pub struct Recipes;

impl Parser for Recipes {
    ghost use Rattle.expand_engine.specs.Recipes.{RecipeLine};
    ghost use Rattle.expand_engine.specs.declared.recipes.Due.{Due};
    ghost use Rattle.expand_engine.specs.declared.recipes.Due.TheVariants.{Version};

    type Parsed = Recipe;

    ghost State = { Due };

    ghost Said = { RecipeLine };

    ghost grammar = { recipe_lines };

    ghost first = { Version };

    ghost text_of = { λ recipe. recipe.text.items };

    ghost in_range = { λ recipe. IsRecipe recipe.text.items recipe.sizes recipe.lines.items };

    fn parse(alloc: Global, text: &[u8]) -> Result<Recipe, Refusal> {
        recipe_of(alloc, text)
    }
}
