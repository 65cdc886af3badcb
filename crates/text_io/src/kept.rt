//! What is kept of a line.
ghost use Rattle.std.specs.Prelude.{◌≡◌, ℕ, [], ◌∷◌, ◌≤◌};
ghost use Rattle.text_io.specs.Lines.{HasNo, spaced};
ghost use Rattle.text_io.specs.Numerals.{numeral};
ghost use Rattle.text_io.specs.LineReadings.{Reads, ReadsLine, kept_or_range as what_is_kept};

use crate::words::Words;
use history::TextCause;

/// What was read of a line where it is kept, since it is in range, and else `Range`. Takes no memory and doesn't wait.
pub fn kept_or_range<T>(read: Result<Option<T>, TextCause>) -> Result<T, TextCause>
    ensures { result ≡ what_is_kept read }
{
    match read {
        Ok(Some(kept)) => Ok(kept),
        Ok(None) => Err(TextCause::Range),
        Err(cause) => Err(cause),
    }
}

/// The number, up to `most`, that a line says behind this word, and nothing else. Refused with `Form` where it says none, and
/// with `Range` where it is greater. Takes no memory and doesn't wait.
pub fn counted(line: &[u8], label: &[u8], most: u64) -> Result<u64, TextCause>
    requires { HasNo 32 label.now }
    ensures { ReadsLine (λ n. line.now ≡ spaced (label.now ∷ numeral n ∷ []))
        (λ n. n ≤ most) result }
{
    kept_or_range(counted_in(Words::of(line), label, most))
}

fn counted_in(mut words: Words, label: &[u8], most: u64) -> Result<Option<u64>, TextCause>
    ensures { Reads (λ n. words.entry ≡ label.now ∷ numeral n ∷ []) (λ n. n ≤ most) result }
{
    words.expect_word(label)?;
    let number = words.number(0, most)?;
    words.expect_end()?;
    Ok(number)
}
