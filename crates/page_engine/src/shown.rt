//! The bytes of a text as they are written within a page.
ghost use Rattle.std.specs.Prelude.{◌≡◌, ◌<◌, ◌++◌, IfErr, OnOk};
ghost use Rattle.page_engine.specs.Shown as shown;

use crate::kept::KeptText;
use history::Refusal;

// Whether a byte stands for itself.
fn is_plain(byte: u8) -> bool
    ensures { result ≡ shown.is_plain byte }
{
    byte == 10 || (32 <= byte && byte <= 126 && byte != 37 && byte != 38 && byte != 60)
}

// The hexadecimal digit of a number below 16.
fn hex_digit(number: u8) -> u8
    requires { number < 16 }
    ensures { result ≡ shown.hex_digit number }
{
    if number < 10 {
        48 + number
    } else {
        55 + number
    }
}

// Keeps a byte as it is written within a page.
fn keep_byte(byte: u8, kept: &mut KeptText) -> Result<(), Refusal>
    ensures kept { OnOk result (kept.new.bytes.items ≡ kept.old.bytes.items ++ shown.shown byte) }
    ensures only_memory { IfErr result (λ refusal. refusal ≡ Refusal.Memory) }
{
    if is_plain(byte) {
        return kept.put(&[byte]);
    }
    kept.put(&[b'%', hex_digit(byte / 16), hex_digit(byte % 16)])
}

/// Keeps a text as it is written within a page.
pub(crate) fn keep_shown(text: &[u8], kept: &mut KeptText) -> Result<(), Refusal>
    ensures kept { OnOk result (kept.new.bytes.items ≡ kept.old.bytes.items ++ shown.shown_text text.now) }
    ensures only_memory { IfErr result (λ refusal. refusal ≡ Refusal.Memory) }
{
    for byte in text {
        keep_byte(*byte, kept)?;
    }
    Ok(())
}
