//! The text of a recording from a source.
ghost use Rattle.std.specs.Prelude.{◌≢◌, IfErr, IfOk};
ghost use Rattle.text_io.specs.Readings.{EndsReadingFor, WereAll};
ghost use Rattle.engine_faults.specs.Faults.{IsRunRefusal};
ghost use Rattle.place_engine.specs.Given.{TellsFaultOfRecording};

use crate::recorded_texts::copy_of;
use history::Refusal;
use recording_text::parse_recording;
use std::alloc::Global;
use text_io::{Parser, Source, parse_source};

/// Texts of recordings.
struct RecordingTexts;

impl Parser for RecordingTexts {
    ghost use Rattle.recording_text.specs.RecordingLines.{RecordingDue, RecordingLine, VersionDue, recording_grammar};
    ghost use Rattle.place_engine.specs.Given.{IsTextOfRecording};

    type Parsed = Vec<u8>;

    ghost State = { RecordingDue };

    ghost Said = { RecordingLine };

    ghost grammar = { recording_grammar };

    ghost first = { VersionDue };

    ghost text_of = { λ text. text.items };

    ghost in_range = { λ text. IsTextOfRecording text.items };

    fn parse(alloc: Global, text: &[u8]) -> Result<Vec<u8>, Refusal> {
        let _ = parse_recording(alloc, text)?;
        copy_of(alloc, text)
    }
}

/// The text that a source gives, which is that of a recording.
///
/// It is refused, in this order, by `Memory`, as soon as a growth is refused; `Read`, where a call of the reader fails;
/// `Text`, where the bytes are no recording. It takes memory; whether it waits is up to the reader.
pub fn recording_in<R: Source>(alloc: Global, reader: &mut R) -> Result<Vec<u8>, Refusal>
    //= program/readings (*)
    ensures ok { IfOk result (λ text. WereAll (R.state reader.old).left text.items) }
    ensures text { IfErr result (TellsFaultOfRecording (R.state reader.old).left) }
    ensures unwritten { IfErr result (λ refusal. refusal ≢ Refusal.Write) }
    ensures refusal { IfErr result IsRunRefusal }
    ensures reader { EndsReadingFor result (R.state reader.old) (R.state reader.new) }
{
    Ok(parse_source::<RecordingTexts, R>(alloc, reader)?)
}
