//! Printable texts at the end of a line.
ghost use Rattle.std.specs.Prelude.{◌≡◌, MatchBool, MatchOption, MatchResult};
ghost use Rattle.text_io.specs.Printable.{IsPrintable, IsShort};

use history::TextCause;
use std::str;

/// Whether each byte is printable.
fn are_printable(bytes: &[u8]) -> bool
    ensures { MatchBool result (IsPrintable bytes.now) (¬ IsPrintable bytes.now) }
{
    bytes.iter().all(|byte| 32 <= *byte && *byte <= 126)
}

/// The text that these bytes are: printable ones of ASCII, from 32 to 126; none where it has more than
/// `most` bytes.
///
/// It is refused with `Form` where a byte isn't printable. It goes over the bytes once, takes no
/// memory, and doesn't wait.
pub fn printable_in(bytes: &[u8], most: usize) -> Result<Option<&str>, TextCause>
    ensures { MatchResult result
        (λ kept. IsPrintable bytes.now × MatchOption kept (¬ IsShort most bytes.now)
        (λ text. (text.now ≡ bytes.now) × IsShort most bytes.now))
        (λ cause. (cause ≡ TextCause.Form) × ¬ IsPrintable bytes.now) }
{
    if !are_printable(bytes) {
        return Err(TextCause::Form);
    }
    if bytes.len() > most {
        return Ok(None);
    }
    let Ok(text) = str::from_utf8(bytes) else {
        unreachable!()
    };
    Ok(Some(text))
}
