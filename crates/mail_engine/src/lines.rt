//! Reading the lines of mail.
ghost use Rattle.std.specs.Prelude.{◌≡◌, ◌≤◌, ℕ, IfOk, IfErr};
ghost use Rattle.text_io.specs.Numerals.{IsWithin};
ghost use Rattle.text_io.specs.LineReadings.{ReadsBack};
ghost use Rattle.mail_engine.specs.MailTexts.{MailHeader, SaidLetter, said_letter};
ghost use Rattle.mail_engine.specs.MailReading.{said_of, KeepsText, KeepsHeader, KeepsLetter};
ghost use Rattle.mail_engine.specs.MailReading.{ReadsWordsOfHeader, ReadsHeader, ReadsWordsOfLetter, ReadsLetter};

use crate::letters::Outgoing;
use std::alloc::Global;
use text_io::{ItemError, TextCause, Words, printable_in};

const MOST_SENDERS: u64 = 64;

const MOST_LETTERS: u64 = 100_000;

const LONGEST_TEXT: usize = 200;

/// What the first line says.
#[derive(Clone, Copy)]
pub struct Counts {
    /// How many senders there are.
    pub senders: u16,
    /// How many letters follow.
    pub letters: u64,
}

/// A letter as its line says it: the text still lies in the line.
#[derive(Clone, Copy)]
pub struct ReadLetter<'a> {
    pub from: u16,
    pub text: &'a str,
}

/// What the first line says.
pub fn counts_of(line: &[u8]) -> Result<Counts, TextCause>
    ensures { ReadsHeader line.now result }
{
    counts_in(Words::of(line))?.ok_or(TextCause::Range)
}

fn counts_in(mut words: Words) -> Result<Option<Counts>, TextCause>
    ensures { ReadsWordsOfHeader words.entry result }
{
    words.expect_word(b"mail")?;
    let senders = words.number(1, MOST_SENDERS)?;
    let letters = words.number(0, MOST_LETTERS)?;
    words.expect_end()?;
    Ok(counted(senders, letters))
}

/// These counts; none where one of them is out of range.
fn counted(senders: Option<u64>, letters: Option<u64>) -> Option<Counts>
    ensures { (h : MailHeader) → ReadsBack (IsWithin 1 64) h.senders senders
        → ReadsBack (IsWithin 0 100000) h.letters letters → KeepsHeader h result }
{
    Some(Counts {
        senders: u16::try_from(senders?).ok()?,
        letters: letters?,
    })
}

/// The letter that a line says, of one of so many senders.
pub fn letter_of(line: &[u8], senders: u16) -> Result<ReadLetter<'_>, TextCause>
    ensures { ReadsLetter senders line.now result }
{
    parts_of(Words::of(line), senders)?.ok_or(TextCause::Range)
}

fn parts_of(mut words: Words, senders: u16) -> Result<Option<ReadLetter>, TextCause>
    ensures { ReadsWordsOfLetter senders words.entry result }
{
    let from = words.number(1, u64::from(senders))?;
    let Some(text) = words.remaining() else {
        return Err(TextCause::Form);
    };
    Ok(letter(from, printable_in(text, LONGEST_TEXT)?))
}

/// The letter of these parts; none where one of them is out of range.
fn letter(from: Option<u64>, text: Option<&str>) -> Option<ReadLetter>
    ensures { (senders : ℕ) (given : SaidLetter) → senders ≤ 65535
        → ReadsBack (IsWithin 1 senders) given.from from
        → KeepsText given.text text.entry → KeepsLetter senders given result }
{
    Some(ReadLetter {
        from: u16::try_from(from?).ok()?,
        text: text?,
    })
}

/// The letter with a text of its own.
pub fn owned(alloc: Global, read: ReadLetter) -> Result<Outgoing, ItemError>
    ensures ok { IfOk result (λ letter. said_letter letter ≡ said_of read.entry) }
    ensures err { IfErr result (λ error. error ≡ ItemError.Memory) }
{
    match String::from_str(alloc, read.text) {
        Ok(text) => Ok(Outgoing {
            from: read.from,
            text,
        }),
        Err(_) => Err(ItemError::Memory),
    }
}
