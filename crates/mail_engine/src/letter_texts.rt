//! The text of letters taken, by rising sender.
ghost use Rattle.std.specs.Prelude.{◌≡◌, ◌++◌, ◌⊎◌, OnOk, IfOk, IfErr};
ghost use Rattle.std.specs.List.{flat_map};
ghost use Rattle.text_io.specs.Blocks.{GivesUp, Puts, Writes};
ghost use Rattle.mail_engine.specs.Posts.{count_text, sender_text, letter_text, letters_text, AreBySender, WritesLetters, BeginsLetters};

use history::Refusal;
use mailbox::Letter;
use text_io::{Block, LineBuffer, Sink};

/// Writes how many letters there are, and a line for each: by rising sender, those of one sender in their order.
///
/// Refused by `Memory` before the first byte is written, and else by `Write` where a call of the writer fails or takes
/// nothing. Takes memory for the sort, and time `n * log n` for `n` letters; whether it waits is up to the writer.
pub(crate) fn tell<W: Sink>(letters: Vec<Letter>, writer: &mut W) -> Result<(), Refusal>
    ensures ok { OnOk result (WritesLetters (AreBySender letters.entry.items)
        (W.state writer.old) (W.state writer.new)) }
    ensures quiet { OnOk result ((W.state writer.new).failures ≡ (W.state writer.old).failures) }
    ensures only { IfErr result
        (λ refusal. (refusal ≡ Refusal.Memory) ⊎ (refusal ≡ Refusal.Write)) }
    ensures unwritten { IfErr result
        (λ refusal. refusal ≡ Refusal.Memory → writer.new ≡ writer.old) }
    ensures prefix { IfErr result (λ refusal. refusal ≡ Refusal.Write
        → BeginsLetters (AreBySender letters.entry.items) (W.state writer.old) (W.state writer.new)) }
    ensures cause { IfErr result (λ refusal. refusal ≡ Refusal.Write
        → GivesUp (W.state writer.old) (W.state writer.new)) }
{
    let sorted = by_sender(letters)?;
    write_letters(&sorted, writer)
}

// The letters by rising sender, those of one sender in their order.
fn by_sender<'a>(mut letters: Vec<Letter<'a>>) -> Result<Vec<Letter<'a>>, Refusal>
    ensures ok { IfOk result (λ told. AreBySender letters.entry.items told.items) }
    ensures only_memory { IfErr result (λ refusal. refusal ≡ Refusal.Memory) }
{
    match letters.sort_by_key(|letter| letter.from) {
        Ok(()) => Ok(letters),
        Err(_) => Err(Refusal::Memory),
    }
}

// Writes the text of letters, in their order.
fn write_letters<W: Sink>(letters: &[Letter], writer: &mut W) -> Result<(), Refusal>
    ensures { Writes (W.state writer.old) (W.state writer.new) (letters_text letters.now) result }
{
    let mut block = Block::new();
    block.put(writer, count_line(letters.len()).as_slice())?;
    put_letters(&mut block, writer, letters)?;
    block.finish(writer)
}

// Puts the lines of letters.
fn put_letters<W: Sink>(
    block: &mut Block,
    writer: &mut W,
    letters: &[Letter],
) -> Result<(), Refusal>
    ensures { Puts (W.state writer.old) (W.state writer.new)
        (block.old ++ flat_map letter_text letters.now) block.new result }
{
    for letter in letters {
        put_letter(block, writer, *letter)?;
    }
    Ok(())
}

// Puts the line of a letter. It is longer than a `LineBuffer` may be, so it goes in three parts.
fn put_letter<W: Sink>(block: &mut Block, writer: &mut W, letter: Letter) -> Result<(), Refusal>
    ensures { Puts (W.state writer.old) (W.state writer.new)
        (block.old ++ letter_text letter.entry) block.new result }
{
    block.put(writer, sender_part(letter.from).as_slice())?;
    block.put(writer, letter.text.as_bytes())?;
    block.put(writer, b"\n")
}

#[tactic(auto, unfolding(crate::specs::Posts::count_text))]
fn count_line(count: usize) -> LineBuffer
    ensures { result ≡ count_text count }
{
    let mut line = LineBuffer::new();
    line.push(b"letters ");
    line.push_number(count as u64);
    line.push(b"\n");
    line
}

#[tactic(auto, unfolding(crate::specs::Posts::sender_text))]
fn sender_part(from: u16) -> LineBuffer
    ensures { result ≡ sender_text from }
{
    let mut line = LineBuffer::new();
    line.push_number(u64::from(from));
    line.push(b" ");
    line
}
