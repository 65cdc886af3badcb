//! The words of a line, one after another.
ghost use Rattle.std.specs.Prelude.{◌≡◌, ◌≢◌, ℕ, List, [], ◌∷◌, MatchOption, OnOk, IfErr};
ghost use Rattle.text_io.specs.Lines.{words_of};
ghost use Rattle.text_io.specs.Numerals.{IsWithin};
ghost use Rattle.text_io.specs.LineReadings.{ReadsWords};
ghost use Rattle.text_io.specs.WordsLeft.{number_words};

use crate::line_splits::split_once;
use crate::numbers::number_in;
use history::TextCause;
use std::marker::Model;

const SPACE: u8 = 32;

/// The words of a line that are not read yet.
#[derive(Drop)]
pub struct Words<'a> {
    /// The rest of the line from the next word on; none where no word is left.
    rest: Option<&'a [u8]>,
}

impl<'a> Model for Words<'a> {
    ghost use Rattle.std.specs.Prelude.{ℕ, List, option_map};
    ghost use Rattle.text_io.specs.WordsLeft.{words_left};

    ghost Value = { List (List ℕ) };

    ghost view = { λ w. words_left (option_map (λ rest. rest.now) w.rest) };
}

impl<'a> Words<'a> {
    /// The words of this line, each parted from the next by one space; an empty line has one empty word.
    pub fn of(line: &'a [u8]) -> Words<'a>
        //= texts/numbers
        ensures { result ≡ words_of line.now }
    {
        Words { rest: Some(line) }
    }

    /// The next word; none where no word is left.
    pub fn next_word(&mut self) -> Option<&'a [u8]>
        //= texts/numbers
        ensures { MatchOption result ((self.old ≡ []) × (self.new ≡ []))
            (λ word. self.old ≡ word.now ∷ self.new) }
    {
        let rest = self.rest?;
        match split_once(rest, SPACE) {
            Some((word, rest)) => {
                self.rest = Some(rest);
                Some(word)
            }
            None => {
                self.rest = None;
                Some(rest)
            }
        }
    }

    /// Goes over the next word, which has to be this one; else refused with `Form`.
    pub fn expect_word(&mut self, word: &[u8]) -> Result<(), TextCause>
        ensures ok { OnOk result (self.old ≡ word.now ∷ self.new) }
        ensures err { IfErr result (λ cause. (cause ≡ TextCause.Form)
            × ((rest : List (List ℕ)) → self.old ≢ word.now ∷ rest)) }
    {
        match self.next_word() {
            Some(next) if next == word => Ok(()),
            _ => Err(TextCause::Form),
        }
    }

    /// The next word as a number: none where it doesn't lie from `low` to `high`. Refused with `Form`
    /// where no word is left, or it is no number.
    pub fn number(&mut self, low: u64, high: u64) -> Result<Option<u64>, TextCause>
        ensures { ReadsWords number_words (IsWithin low high) self.old self.new result }
    {
        let Some(word) = self.next_word() else {
            return Err(TextCause::Form);
        };
        number_in(word, low, high)
    }

    /// Refused with `Form` where a word is left.
    pub fn expect_end(self) -> Result<(), TextCause>
        ensures ok { OnOk result (self.entry ≡ []) }
        ensures err { IfErr result (λ cause. (cause ≡ TextCause.Form) × (self.entry ≢ [])) }
    {
        match self.rest {
            Some(_) => Err(TextCause::Form),
            None => Ok(()),
        }
    }

    /// The rest of the line from the next word on, spaces and all; none where no word is left.
    pub fn remaining(self) -> Option<&'a [u8]>
        ensures { MatchOption result (self.entry ≡ []) (λ text. self.entry ≡ words_of text.now) }
    {
        self.rest
    }
}
