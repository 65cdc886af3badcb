//! Splitting a text at a byte.
ghost use Rattle.std.specs.Prelude.{◌≡◌, ◌++◌, ◌∷◌, MatchOption};
ghost use Rattle.text_io.specs.Lines.{HasNo, line};

const LINE_FEED: u8 = 10;

/// What stands before the first such byte, and what follows it; none where the text has no such byte.
pub fn split_once(text: &[u8], byte: u8) -> Option<(&[u8], &[u8])>
    ensures { MatchOption result (HasNo byte text.now)
        (λ parts. HasNo byte parts.0.now × (text.now ≡ parts.0.now ++ byte ∷ parts.1.now)) }
{
    for (at, here) in text.iter().enumerate() {
        if *here == byte {
            return Some((&text[..at], &text[at + 1..]));
        }
    }
    None
}

/// The line at the front of a text, and what follows its line feed; none where the text has no line
/// feed.
///
/// It goes over the bytes of that line alone. It takes no memory, and doesn't wait.
pub fn line_at(text: &[u8]) -> Option<(&[u8], &[u8])>
    //= texts/numbers
    ensures { MatchOption result (HasNo 10 text.now)
        (λ found. HasNo 10 found.0.now × (text.now ≡ line found.0.now ++ found.1.now)) }
{
    split_once(text, LINE_FEED)
}
