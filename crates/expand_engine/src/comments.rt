//! What a line says before its comment.
ghost use Rattle.std.specs.Prelude.{◌≡◌, ◌==◌, ◌++◌, ◌∷◌, [], false, IfErr, OnOk};
ghost use Rattle.history.specs.declared.refusals.Refusal.TheVariants.{Memory};
ghost use Rattle.expand_engine.specs.Recipes.{is_blank, said_from, spoken, without_return, word_byte};

use history::Refusal;

/// Puts what a line says in place of a text: its words before its first `#`, one space between two. Spaces and tabs separate
/// words, and a carriage return at the line's end says nothing.
pub fn speak(line: &[u8], said: &mut Vec<u8>) -> Result<(), Refusal>
    ensures ok { OnOk result (said.new.items ≡ spoken line.now) }
    ensures err { IfErr result (λ refusal. refusal ≡ Memory) }
{
    said.clear();
    speak_words(less_return(line), said)
}

// Adds what bytes say.
fn speak_words(bytes: &[u8], said: &mut Vec<u8>) -> Result<(), Refusal>
    requires { said.old.items ≡ [] }
    ensures ok { OnOk result (said.new.items ≡ said_from false false bytes.now) }
    ensures err { IfErr result (λ refusal. refusal ≡ Memory) }
{
    let mut is_begun = false;
    let mut is_apart = false;
    for byte in bytes {
        if is_mark(*byte) {
            return Ok(());
        }
        if is_blank(*byte) {
            is_apart = is_begun;
        } else {
            push_byte(said, is_apart, *byte)?;
            is_begun = true;
            is_apart = false;
        }
    }
    Ok(())
}

// Whether a comment begins with this byte.
fn is_mark(byte: u8) -> bool
    ensures { result ≡ (byte == 35) }
{
    byte == b'#'
}

// Whether a byte is a space or a tab.
fn is_blank(byte: u8) -> bool
    ensures { result ≡ is_blank byte }
{
    byte == b' ' || byte == b'\t'
}

// Adds a byte of a word, behind a space where the word stands apart.
fn push_byte(said: &mut Vec<u8>, is_apart: bool, byte: u8) -> Result<(), Refusal>
    ensures ok { OnOk result (said.new.items ≡ said.old.items ++ word_byte is_apart byte) }
    ensures err { IfErr result (λ refusal. refusal ≡ Memory) }
{
    let added = if is_apart {
        said.extend_from_slice(&[b' ', byte])
    } else {
        said.extend_from_slice(&[byte])
    };
    match added {
        Ok(()) => Ok(()),
        Err(_) => Err(Refusal::Memory),
    }
}

// The same bytes, less a carriage return at their end.
fn less_return(bytes: &[u8]) -> &[u8]
    ensures { result.now ≡ without_return bytes.now }
{
    if let Some(last) = bytes.last()
        && *last == b'\r'
    {
        return &bytes[..bytes.len() - 1];
    }
    bytes
}
