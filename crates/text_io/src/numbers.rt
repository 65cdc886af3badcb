//! Decimal numbers of any length.
ghost use Rattle.std.specs.Prelude.{◌≡◌, ◌≢◌, ℕ, ◌+◌, ◌*◌, ◌≤◌, ◌<◌, MatchResult};
ghost use Rattle.text_io.specs.Numerals.{numeral, Shows, IsWithin};
ghost use Rattle.text_io.specs.LineReadings.{ReadsBack, IsSpelled, Reads};

use history::TextCause;

/// A number with one more digit; none where it is too large for 64 bits.
fn grown(number: Option<u64>, digit: u8) -> Option<u64>
    requires { digit < 10 }
    ensures { (n : ℕ) → Shows n number → Shows (n * 10 + digit) result }
{
    number?.checked_mul(10)?.checked_add(u64::from(digit))
}

/// The number that a word is; none inside where it is too large for 64 bits.
fn number_of(word: &[u8]) -> Result<Option<u64>, TextCause>
    ensures { MatchResult result
        (λ number. (n : ℕ) × (word.now ≡ numeral n) × Shows n number)
        (λ cause. (cause ≡ TextCause.Form) × ((n : ℕ) → word.now ≢ numeral n)) }
{
    let mut number = Some(0);
    for byte in word {
        if !byte.is_ascii_digit() {
            return Err(TextCause::Form);
        }
        number = grown(number, *byte - b'0');
    }
    if word.is_empty() {
        return Err(TextCause::Form);
    }
    if word.len() > 1 && word[0] == b'0' {
        return Err(TextCause::Form);
    }
    Ok(number)
}

/// The number, where it lies from `low` to `high`.
fn ranged(number: Option<u64>, low: u64, high: u64) -> Option<u64>
    ensures { (n : ℕ) → Shows n number → ReadsBack (IsWithin low high) n result }
{
    match number {
        Some(number) if low <= number && number <= high => Some(number),
        _ => None,
    }
}

/// The number that a word is: `0`, or decimal digits that don't begin with 0, however many.
///
/// It is none where it doesn't lie from `low` to `high`. A word that is no number is refused with
/// `Form`. It goes over the word once, takes no memory, and doesn't wait.
pub fn number_in(word: &[u8], low: u64, high: u64) -> Result<Option<u64>, TextCause>
    //= texts/numbers
    ensures { Reads (IsSpelled numeral word.now) (IsWithin low high) result }
{
    let number = number_of(word)?;
    Ok(ranged(number, low, high))
}
