//! Finds what is told of a refusal, and writes it.
ghost use Rattle.std.specs.Prelude.{◌≡◌, ◌++◌, All, IfNone, IfSome};
ghost use Rattle.std.specs.List.{flat_map};
ghost use Rattle.text_io.specs.Blocks.{Puts, Writes};
ghost use Rattle.engine_faults.specs.Entries.{Explains, IsCalled, IsEntryOf, title};

use history::Refusal;
use text_io::{Block, Sink, send};

/// What is told of a refusal.
#[derive(Clone, Copy, Debug)]
pub struct Entry {
    /// Its number, in decimal.
    pub number: &'static str,
    /// Its name.
    pub name: &'static str,
    /// Three lines: number and name, the cause, what to do.
    pub text: &'static str,
}

/// The first entry that has this number or this name. Takes no memory, and doesn't wait.
pub fn entry_named<'a>(entries: &'a [Entry], word: &str) -> Option<&'a Entry>
    //= program/entry (some, none): `entry_named` answers an entry of a table that has the word as its number or its name,
    //=   and none exactly where no entry has it.
    ensures some { IfSome result (λ entry. IsEntryOf entries.now word.now entry.now) }
    ensures none { IfNone result (All (λ entry. ¬ IsCalled word.now entry) entries.now) }
{
    for entry in entries {
        if entry.number == word || entry.name == word {
            return Some(entry);
        }
    }
    None
}

/// Writes what is told of the refusal that a word names, and answers whether it names one; else it writes nothing.
///
/// It is refused by `Write` where a call of the writer fails or takes nothing. It takes no memory; whether it waits is up to the
/// writer.
pub fn explain<W: Sink>(entries: &[Entry], word: &str, writer: &mut W) -> Result<bool, Refusal>
    //= program/explain: `explain`, which `msq explain` calls, writes the text of such an entry exactly, or a prefix of it at
    //=   `Write`, which is then its one refusal; at Ok it writes nothing where no entry has the word, which its answer
    //=   tells.
    ensures { Explains entries.now word.now (W.state writer.old) (W.state writer.new) result }
{
    let Some(entry) = entry_named(entries, word) else {
        return Ok(false);
    };
    send(entry.text.as_bytes(), writer)?;
    Ok(true)
}

/// Writes a line for each entry, with its number and its name, in the order of the table.
///
/// It is refused by `Write` where a call of the writer fails or takes nothing. It takes no memory; whether it waits is up to the
/// writer.
pub fn list<W: Sink>(entries: &[Entry], writer: &mut W) -> Result<(), Refusal>
    //= program/list: `list`, which `msq explain` without a refusal calls, writes a line for each entry of a table, in its order,
    //=   with its number, a space and its name, exactly, or a prefix of these lines at `Write`, which is then its one
    //=   refusal.
    ensures { Writes (W.state writer.old) (W.state writer.new) (flat_map title entries.now) result }
{
    let mut block = Block::new();
    for entry in entries {
        put_title(&mut block, writer, entry)?;
    }
    block.finish(writer)
}

// Puts the line of an entry. It may be longer than a `LineBuffer`, so it goes in parts.
fn put_title<W: Sink>(block: &mut Block, writer: &mut W, entry: &Entry) -> Result<(), Refusal>
    ensures { Puts (W.state writer.old) (W.state writer.new) (block.old ++ title entry.now) block.new result }
{
    block.put(writer, entry.number.as_bytes())?;
    block.put(writer, b" ")?;
    block.put(writer, entry.name.as_bytes())?;
    block.put(writer, b"\n")
}
