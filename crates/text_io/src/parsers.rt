//! What a kind of text is parsed to, by its grammar.
ghost use Rattle.std.specs.Prelude.{◌≡◌, List, ℕ, IfOk, IfErr};
ghost use Rattle.text_io.specs.Grammars.{Grammar};
ghost use Rattle.text_io.specs.Prefixes.{IsRefusedBy};

use history::Refusal;
use std::alloc::Global;

/// A kind of text, of lines that are due by a grammar, with the values whose texts they are.
pub trait Parser {
    /// What a text is parsed to.
    type Parsed: Drop;

    // The states between lines.
    ghost State: { Type 0 };

    // What the lines say.
    ghost Said: { Type 0 };

    // The grammar of the lines.
    ghost grammar: { Grammar State Said };

    // The state before the first line.
    ghost first: { State };

    // The text of a value.
    ghost text_of: { Self.Parsed → List ℕ };

    // The values that a text can hold.
    ghost in_range: { Self.Parsed → Type 0 };

    /// The value whose text this is.
    ///
    /// It is refused with `Memory`, and with `Text`: the number of the first faulty line, from 1, and what is wrong with it.
    /// Takes memory, and doesn't wait.
    fn parse(alloc: Global, text: &[u8]) -> Result<Self::Parsed, Refusal>
        ensures text { IfOk result (λ parsed. text.now ≡ text_of parsed) }
        ensures range { IfOk result in_range }
        ensures err { IfErr result (IsRefusedBy grammar first text.now) };
}
