//! Texts of histories and of recordings, as they are parsed.
ghost use Rattle.std.specs.Prelude.{◌≡◌, IfErr, IfOk, false, true};
ghost use Rattle.text_io.specs.Prefixes.{IsRefusedBy};
ghost use Rattle.place_engine.specs.EitherGrammars.{Start};
ghost use Rattle.place_engine.specs.Given as texts;
ghost use Rattle.place_engine.specs.Given.{begins_as_recording, recorded_grammar, given_text, IsGivenInRange};

use history::{Refusal, Stamped};
use history_text::parse_history;
use recording_text::parse_recording;
use std::alloc::Global;
use text_io::Parser;

/// What a text gives.
#[derive(Drop)]
pub struct Given {
    /// The text itself: many recordings stand for one history.
    pub text: Vec<u8>,
    /// The history whose text it is, or for which the recording stands.
    pub history: Vec<Stamped>,
}

/// Texts of histories and of recordings.
pub struct RecordedTexts;

impl Parser for RecordedTexts {
    ghost use Rattle.history_text.specs.HistoryLines.{HistoryDue, HistoryLine};
    ghost use Rattle.recording_text.specs.RecordingLines.{RecordingDue, RecordingLine};
    ghost use Rattle.place_engine.specs.EitherGrammars.{EitherDue, EitherLine, Start};
    ghost use Rattle.place_engine.specs.Given.{recorded_grammar, given_text, IsGivenInRange};

    type Parsed = Given;

    ghost State = { EitherDue HistoryDue RecordingDue };

    ghost Said = { EitherLine HistoryLine RecordingLine };

    ghost grammar = { recorded_grammar };

    ghost first = { Start };

    ghost text_of = { given_text };

    ghost in_range = { IsGivenInRange };

    fn parse(alloc: Global, text: &[u8]) -> Result<Given, Refusal> {
        if may_be_recording(text) {
            recording_of(alloc, text)
        } else {
            history_of(alloc, text)
        }
    }
}

/// How many lines of a text come before those of its operations: two of a recording, one of a history.
pub fn header_of(text: &[u8]) -> u64
    ensures { result ≡ texts.header_of text.now }
{
    if may_be_recording(text) { 2 } else { 1 }
}

fn may_be_recording(text: &[u8]) -> bool
    ensures { result ≡ begins_as_recording text.now }
{
    match text.first() {
        Some(byte) => *byte == b'm',
        None => false,
    }
}

/// A history by its text.
fn history_of(alloc: Global, text: &[u8]) -> Result<Given, Refusal>
    requires { begins_as_recording text.now ≡ false }
    ensures text { IfOk result (λ given. text.now ≡ given_text given) }
    ensures range { IfOk result IsGivenInRange }
    ensures err { IfErr result (IsRefusedBy recorded_grammar Start text.now) }
{
    let history = parse_history(alloc, text)?;
    let text = copy_of(alloc, text)?;
    Ok(Given { text, history })
}

/// The history that a recording stands for.
fn recording_of(alloc: Global, text: &[u8]) -> Result<Given, Refusal>
    requires { begins_as_recording text.now ≡ true }
    ensures text { IfOk result (λ given. text.now ≡ given_text given) }
    ensures range { IfOk result IsGivenInRange }
    ensures err { IfErr result (IsRefusedBy recorded_grammar Start text.now) }
{
    let history = parse_recording(alloc, text)?;
    let text = copy_of(alloc, text)?;
    Ok(Given { text, history })
}

pub(crate) fn copy_of(alloc: Global, text: &[u8]) -> Result<Vec<u8>, Refusal>
    ensures ok { IfOk result (λ copy. copy.items ≡ text.now) }
    ensures err { IfErr result (λ refusal. refusal ≡ Refusal.Memory) }
{
    let mut copy = Vec::new(alloc);
    match copy.extend_from_slice(text) {
        Ok(()) => Ok(copy),
        Err(_) => Err(Refusal::Memory),
    }
}
