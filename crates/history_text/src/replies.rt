//! Reading a reply from the last words of a line.
ghost use Rattle.std.specs.Prelude.{◌≡◌, MatchResult, Some};
ghost use Rattle.text_io.specs.LineReadings.{ReadsBack, Reads};
ghost use Rattle.history_text.specs.HistoryLines.{IsActor, IsBody, IsValueInRange, IsReplyInRange};
ghost use Rattle.history_text.specs.HistoryReading.{AreOfReply, AreOfRefusal, AreOfValue, AreOfWord, IsPlainReply};

use history::{Body, MOST_ACTOR, MOST_BODY, Refusal, Reply, Taken, WornWord};
use text_io::{TextCause, Words};

/// The reply that these words are, or none for a dash; it is left out where a number in it is out of
/// range.
pub fn reply_of(mut words: Words) -> Result<Option<Option<Reply>>, TextCause>
    ensures { Reads (AreOfReply words.entry) IsReplyInRange result }
{
    let Some(word) = words.next_word() else {
        return Err(TextCause::Form);
    };
    if word == b"value".as_slice() {
        return Ok(value_reply(value_of(words)?));
    }
    if word == b"refused".as_slice() {
        return Ok(Some(Some(Reply::Refused(refusal_of(words)?))));
    }
    words.expect_end()?;
    plain_reply(word)
}

fn plain_reply(word: &[u8]) -> Result<Option<Option<Reply>>, TextCause>
    ensures { Reads (IsPlainReply word.now) IsReplyInRange result }
{
    if word == b"-".as_slice() {
        Ok(Some(None))
    } else if word == b"done".as_slice() {
        Ok(Some(Some(Reply::Done)))
    } else if word == b"empty".as_slice() {
        Ok(Some(Some(Reply::Empty)))
    } else {
        Err(TextCause::Form)
    }
}

fn value_reply(value: Option<Taken>) -> Option<Option<Reply>>
    ensures { (v : Taken) → ReadsBack IsValueInRange v value
        → ReadsBack IsReplyInRange (Some (Reply.Value v)) result }
{
    Some(Some(Reply::Value(value?)))
}

fn value_of(mut words: Words) -> Result<Option<Taken>, TextCause>
    ensures { Reads (AreOfValue words.entry) IsValueInRange result }
{
    let from = words.number(1, MOST_ACTOR)?;
    let body = words.number(0, MOST_BODY)?;
    words.expect_end()?;
    Ok(taken(from, body))
}

fn taken(from: Option<u64>, body: Option<u64>) -> Option<Taken>
    ensures { (value : Taken) → ReadsBack IsActor value.from from → ReadsBack IsBody value.body body
        → ReadsBack IsValueInRange value result }
{
    Some(Taken {
        from: u16::try_from(from?).ok()?,
        body: Body::new(body?)?,
    })
}

/// The refusal that these words are.
fn refusal_of(mut words: Words) -> Result<Refusal, TextCause>
    ensures { MatchResult result (AreOfRefusal words.entry)
        (λ cause. (cause ≡ TextCause.Form) × ((told : Refusal) → ¬ AreOfRefusal words.entry told)) }
{
    let Some(word) = words.next_word() else {
        return Err(TextCause::Form);
    };
    if word == b"2".as_slice() {
        return Ok(Refusal::WornOut(worn_word_of(words)?));
    }
    words.expect_end()?;
    if word == b"1".as_slice() {
        Ok(Refusal::NoNode)
    } else if word == b"3".as_slice() {
        Ok(Refusal::Busy)
    } else if word == b"16".as_slice() {
        Ok(Refusal::Closed)
    } else {
        Err(TextCause::Form)
    }
}

/// The counted word that is named.
fn worn_word_of(mut words: Words) -> Result<WornWord, TextCause>
    ensures { MatchResult result (AreOfWord words.entry)
        (λ cause. (cause ≡ TextCause.Form) × ((word : WornWord) → ¬ AreOfWord words.entry word)) }
{
    let Some(word) = words.next_word() else {
        return Err(TextCause::Form);
    };
    words.expect_end()?;
    if word == b"Free".as_slice() {
        Ok(WornWord::Free)
    } else if word == b"Next".as_slice() {
        Ok(WornWord::Next)
    } else if word == b"Tail".as_slice() {
        Ok(WornWord::Tail)
    } else if word == b"Head".as_slice() {
        Ok(WornWord::Head)
    } else {
        Err(TextCause::Form)
    }
}
