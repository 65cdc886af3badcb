//! Lists of texts, with commas between them.
ghost use Rattle.std.specs.Prelude.{◌≡◌, All, IfOk, MatchBool, MatchOption, map};
ghost use Rattle.recording_text.specs.RecordingReading.{bytes_of};
ghost use Rattle.recording_text.specs.HeldTexts.{AreHeld, IsHeldText, listed};

use crate::lines::{LONGEST_TEXT, are_text_bytes};
use std::alloc::{AllocError, Global};

/// How many texts a list has at most.
const MOST_TEXTS: usize = 1_000_000;

/// The texts of a list, which stand between its commas; none where one of them has not 1 to 64 letters, digits, dashes, points and
/// underscores, or where they are more than 1,000,000. Takes memory, and doesn't wait.
pub fn texts_in<'a>(alloc: Global, list: &'a [u8]) -> Result<Option<Vec<&'a [u8]>>, AllocError>
    //= texts/held_list: A list gives its texts exactly where they are at most 1,000,000 and each can be held at the start.
    ensures { IfOk result (λ found. MatchOption found (¬ AreHeld (listed list.now))
        (λ texts. (map bytes_of texts.items ≡ listed list.now) × AreHeld (listed list.now))) }
{
    let texts = parts_of(alloc, list)?;
    if are_held(&texts) {
        Ok(Some(texts))
    } else {
        Ok(None)
    }
}

/// What stands between the commas of a list.
fn parts_of<'a>(alloc: Global, list: &'a [u8]) -> Result<Vec<&'a [u8]>, AllocError>
    ensures { IfOk result (λ parts. map bytes_of parts.items ≡ listed list.now) }
{
    list.split(|byte| *byte == b',').collect(alloc)
}

fn are_held(texts: &[&[u8]]) -> bool
    ensures { MatchBool result (AreHeld (map bytes_of texts.now))
        (¬ AreHeld (map bytes_of texts.now)) }
{
    if texts.is_empty() || texts.len() > MOST_TEXTS {
        return false;
    }
    all_are_held(texts)
}

fn all_are_held(texts: &[&[u8]]) -> bool
    ensures { MatchBool result (All (λ text. IsHeldText text.now) texts.now)
        (¬ All (λ text. IsHeldText text.now) texts.now) }
{
    texts.iter().all(|text| is_held(text))
}

fn is_held(text: &[u8]) -> bool
    ensures { MatchBool result (IsHeldText text.now) (¬ IsHeldText text.now) }
{
    !text.is_empty() && are_text_bytes(text) && text.len() <= LONGEST_TEXT
}
