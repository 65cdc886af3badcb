//! The lines of a schedule's header.
ghost use Rattle.std.specs.Prelude.{◌≡◌, ◌≢◌, ◌≤◌, MatchOption, length};
ghost use Rattle.line_table.specs.declared.lines.Kind.{Kind};
ghost use Rattle.text_io.specs.Lines.{words_of};
ghost use Rattle.text_io.specs.LineReadings.{ReadsLine};
ghost use Rattle.counted_ref.specs.Ref.{IsSplit};
ghost use Rattle.schedule_text.specs.Texts.{queue, number, kind_name, said_words, field_name, least, greatest, IsSaidInRange};

use counted_ref::{most_count, most_node};
use history::MOST_ACTOR;
use line_table::Kind;
use text_io::{TextCause, Words};

/// A number of the header.
#[derive(Clone, Copy)]
pub enum Field {
    /// How many bits hold a node.
    Bits,
    Nodes,
    Limit,
    Actors,
    Events,
}

impl Field {
    pub fn name(self) -> &'static [u8]
        ensures text { result.now ≡ field_name self }
        ensures short { length result.now ≤ 6 }
    {
        match self {
            Field::Bits => b"bits",
            Field::Nodes => b"nodes",
            Field::Limit => b"limit",
            Field::Actors => b"actors",
            Field::Events => b"events",
        }
    }

    fn least(self) -> u64
        ensures { result ≡ least self }
    {
        match self {
            Field::Bits => 16,
            Field::Nodes => 2,
            Field::Limit | Field::Actors => 1,
            Field::Events => 0,
        }
    }

    fn greatest(self, bits: u32) -> u64
        requires { IsSplit bits }
        ensures { result ≡ greatest bits self }
    {
        match self {
            Field::Bits => 32,
            Field::Nodes => u64::from(most_node(bits)),
            Field::Limit => most_count(bits),
            Field::Actors => MOST_ACTOR,
            Field::Events => 1_000_000,
        }
    }
}

/// The queue that a line names. Takes no memory and doesn't wait.
pub fn kind_in(line: &[u8]) -> Result<Kind, TextCause>
    ensures { ReadsLine (λ kind. words_of line.now ≡ said_words (queue kind))
        (λ kind. IsSaidInRange 24 (queue kind)) result }
{
    let mut words = Words::of(line);
    words.expect_word(b"queue")?;
    let name = words.next_word().ok_or(TextCause::Form)?;
    let kind = kind_of(name).ok_or(TextCause::Form)?;
    words.expect_end()?;
    Ok(kind)
}

fn kind_of(name: &[u8]) -> Option<Kind>
    ensures { MatchOption result ((kind : Kind) → name.now ≢ kind_name kind)
        (λ kind. name.now ≡ kind_name kind) }
{
    if name == b"two-lock".as_slice() {
        Some(Kind::TwoLock)
    } else if name == b"nonblocking".as_slice() {
        Some(Kind::NonBlocking)
    } else {
        None
    }
}

/// The number that a line says, where so many bits hold a node. Takes no memory and doesn't wait.
pub fn number_of(field: Field, bits: u32, line: &[u8]) -> Result<u64, TextCause>
    requires { IsSplit bits }
    ensures { ReadsLine (λ value. words_of line.now ≡ said_words (number field value))
        (λ value. IsSaidInRange bits (number field value)) result }
{
    let mut words = Words::of(line);
    words.expect_word(field.name())?;
    let value = words.number(field.least(), field.greatest(bits))?;
    words.expect_end()?;
    value.ok_or(TextCause::Range)
}
