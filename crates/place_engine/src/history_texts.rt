//! Texts of histories, as they are parsed.
use history::{Refusal, Stamped};
use history_text::parse_history;
use std::alloc::Global;
use text_io::Parser;

/// Texts of histories.
pub struct HistoryTexts;

impl Parser for HistoryTexts {
    ghost use Rattle.text_io.specs.Listings.{First};
    ghost use Rattle.history_text.specs.HistoryLines.{HistoryDue, HistoryLine, IsHistoryInRange, history_grammar};
    ghost use Rattle.history_text.specs.HistoryText.{history_text};

    type Parsed = Vec<Stamped>;

    ghost State = { HistoryDue };

    ghost Said = { HistoryLine };

    ghost grammar = { history_grammar };

    ghost first = { First };

    ghost text_of = { λ history. history_text history.items };

    ghost in_range = { λ history. IsHistoryInRange history.items };

    fn parse(alloc: Global, text: &[u8]) -> Result<Vec<Stamped>, Refusal> {
        parse_history(alloc, text)
    }
}
