//! Reading what a call was told from the last words of a line.
ghost use Rattle.recording_text.specs.RecordingReading.{ReadsTold, ReadsPlainTold, KeepsValue};

use crate::lines::text_of;
use text_io::{TextCause, Words};

/// What a call was told, as its line says it: a text still lies in the line.
#[derive(Clone, Copy)]
pub enum ReadReply<'a> {
    Done,
    Value(&'a [u8]),
    Empty,
    Refused,
    Closed,
}

/// The reply that these words are, or none for a dash; it is left out where its text is too long.
pub fn reply_of(mut words: Words) -> Result<Option<Option<ReadReply>>, TextCause>
    ensures { ReadsTold words.entry result }
{
    let Some(word) = words.next_word() else {
        return Err(TextCause::Form);
    };
    if word == b"value".as_slice() {
        let text = text_of(&mut words)?;
        words.expect_end()?;
        return Ok(value_of(text));
    }
    words.expect_end()?;
    plain_reply(word)
}

fn value_of(text: Option<&[u8]>) -> Option<Option<ReadReply>>
    ensures { KeepsValue text.entry result }
{
    Some(Some(ReadReply::Value(text?)))
}

fn plain_reply(word: &[u8]) -> Result<Option<Option<ReadReply>>, TextCause>
    ensures { ReadsPlainTold word.now result }
{
    if word == b"-".as_slice() {
        Ok(Some(None))
    } else if word == b"done".as_slice() {
        Ok(Some(Some(ReadReply::Done)))
    } else if word == b"empty".as_slice() {
        Ok(Some(Some(ReadReply::Empty)))
    } else if word == b"refused".as_slice() {
        Ok(Some(Some(ReadReply::Refused)))
    } else if word == b"closed".as_slice() {
        Ok(Some(Some(ReadReply::Closed)))
    } else {
        Err(TextCause::Form)
    }
}
