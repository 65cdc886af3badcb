//! A recorded history from a source.
ghost use Rattle.std.specs.Prelude.{◌≢◌, IfErr, IfOk};
ghost use Rattle.text_io.specs.Readings.{EndsReadingFor};
ghost use Rattle.engine_faults.specs.Faults.{IsRunRefusal};
ghost use Rattle.place_engine.specs.Given.{IsRecordOf, TellsFaultOfRecord};

use crate::recorded_texts::{Given, RecordedTexts};
use history::Refusal;
use std::alloc::Global;
use text_io::{Source, parse_source};

/// The text that a source gives, and the history whose text it is, or which the recording stands for whose text it is.
///
/// It is refused, in this order, by `Memory`, as soon as a growth is refused; `Read`, where a call of the reader fails;
/// `Text`, where the bytes are neither a history nor a recording. It takes memory; whether it waits is up to the reader.
pub fn record_in<R: Source>(alloc: Global, reader: &mut R) -> Result<Given, Refusal>
    //= program/readings (*)
    ensures ok { IfOk result
        (λ given. IsRecordOf (R.state reader.old).left given.text.items given.history.items) }
    ensures text { IfErr result (TellsFaultOfRecord (R.state reader.old).left) }
    ensures unwritten { IfErr result (λ refusal. refusal ≢ Refusal.Write) }
    ensures refusal { IfErr result IsRunRefusal }
    ensures reader { EndsReadingFor result (R.state reader.old) (R.state reader.new) }
{
    Ok(parse_source::<RecordedTexts, R>(alloc, reader)?)
}
