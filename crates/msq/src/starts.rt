//! What a text begins with, by which a recipe is known, and the words of its lines.
use command_line::{Command, Task};
use std::io;
use std::io::Read;
use text_io::{MOST_BYTES, line_at, split_once};

/// What the text of a recipe begins with.
const RECIPE_START: &[u8; 14] = b"msq schedule 3";

/// How many bytes that is without its spaces.
const START_BYTES: usize = 12;

/// Reads a text up to as many of its first bytes as the words of a recipe's first line have, but for the spaces and tabs around
/// them; whether there is memory for them.
pub(crate) fn read_start<F: Read>(reader: &mut F, start: &mut Vec<u8>) -> io::Result<bool> {
    let mut byte = [0_u8; 1];
    let mut count = 0_usize;
    for _ in 0..MOST_BYTES {
        if count == START_BYTES || reader.read(&mut byte)? == 0 {
            break;
        }
        if start.push(byte[0]).is_err() {
            return Ok(false);
        }
        match byte[0] {
            b' ' | b'\t' => {}
            b'\n' => break,
            _ => count = count.saturating_add(1),
        }
    }
    Ok(true)
}

/// Whether a text is taken for a recipe: its first words are those of one.
pub(crate) fn is_recipe(text: &[u8]) -> bool {
    let first = match line_at(text) {
        Some((line, _)) => line,
        None => text,
    };
    let mut words = RECIPE_START.as_slice();
    let mut rest = spoken(first);
    for _ in 0..RECIPE_START.len() {
        if words.is_empty() {
            break;
        }
        let (due, later) = first_word(words);
        let (word, behind) = first_word(rest);
        if word != due {
            return false;
        }
        words = later;
        rest = behind;
    }
    true
}

/// Whether a command takes a recipe as the schedule that it stands for.
pub(crate) fn takes_recipes(command: &Command) -> bool {
    match command.task {
        Task::Run | Task::Trace => true,
        Task::Show(options) => !options.is_history && (options.is_page || !options.draws_reason),
        _ => false,
    }
}

/// What a line of a recipe says before its comment, less the spaces behind it.
pub(crate) fn spoken(line: &[u8]) -> &[u8] {
    let said = match split_once(line, b'#') {
        Some((said, _)) => said,
        None => line,
    };
    said.trim_ascii_end()
}

/// The first word, and what follows it; spaces and tabs around words say nothing.
pub(crate) fn first_word(words: &[u8]) -> (&[u8], &[u8]) {
    let words = words.trim_ascii_start();
    for (at, byte) in words.iter().enumerate() {
        if *byte == b' ' || *byte == b'\t' {
            return (&words[..at], words[at..].trim_ascii_start());
        }
    }
    (words, b"")
}
