//! What a line of a schedule or a recipe has that isn't due: the word at which it leaves the form that it follows furthest, or the
//! number that is out of its range.
use crate::starts::{first_word, is_recipe};
use line_table::Line;
use std::io;
use std::rt::Runtime;

/// The forms of events in version 1, then that of version 2, and then those that a recipe has besides. A stands for an actor's number,
/// B, K and N for numbers, L for a line.
const FORMS: [&str; 10] = [
    "begin A enq B",
    "begin A deq",
    "steps A K",
    "step A L",
    "give A",
    "begin A shut",
    "until A L",
    "finish A",
    "repeat N",
    "end",
];

/// How far a line goes along a form.
#[derive(Clone, Copy)]
struct Along<'a> {
    /// How many of its words are as the form has them.
    words: usize,
    /// What the line has behind these.
    rest: &'a [u8],
    /// What the form has behind them.
    due: &'static [u8],
}

/// Whether a word is decimal digits.
fn is_number(word: &[u8]) -> bool {
    for byte in word {
        if !byte.is_ascii_digit() {
            return false;
        }
    }
    !word.is_empty() && (word.len() == 1 || word[0] != b'0')
}

/// Whether a word may stand where a form has this one.
fn fits(form: &[u8], word: &[u8]) -> bool {
    match form {
        b"L" => Line::of_name(word).is_some(),
        b"A" | b"B" | b"K" | b"N" => is_number(word),
        _ => form == word,
    }
}

/// How far a line goes along a form.
fn compared<'a>(form: &'static str, said: &'a [u8]) -> Along<'a> {
    let mut due = form.as_bytes();
    let mut rest = said.trim_ascii_start();
    let mut words = 0_usize;
    for _ in 0..said.len() {
        let (wanted, later) = first_word(due);
        let (word, behind) = first_word(rest);
        if due.is_empty() || rest.is_empty() || !fits(wanted, word) {
            break;
        }
        words = words.saturating_add(1);
        due = later;
        rest = behind;
    }
    Along { words, rest, due }
}

/// How many of the forms a text has.
fn forms_of(text: &[u8]) -> usize {
    if is_recipe(text) {
        10
    } else if text.starts_with(b"msq schedule 2\n") {
        6
    } else {
        5
    }
}

/// The column of what is left of a line.
fn column_of(said: &[u8], rest: &[u8]) -> usize {
    said.len().saturating_sub(rest.len()).saturating_add(1)
}

/// The column of the first space, tab or carriage return of a line that isn't one space between two words.
fn stray_space(line: &[u8]) -> Option<usize> {
    let mut is_apart = true;
    for (at, byte) in line.iter().enumerate() {
        let is_last = at.saturating_add(1) == line.len();
        match byte {
            b'\t' | b'\r' => return Some(at.saturating_add(1)),
            b' ' if is_apart || is_last => return Some(at.saturating_add(1)),
            b' ' => is_apart = true,
            _ => is_apart = false,
        }
    }
    None
}

/// Tells the word at which a line of events leaves the form that it follows furthest, and what is due there; whether it was told.
pub(crate) fn tell_word<R: Runtime>(rt: &R, text: &[u8], said: &[u8]) -> io::Result<bool> {
    if !is_recipe(text)
        && let Some(column) = stray_space(said)
    {
        eprint!(rt; "  found: a space too many, or a tab or a carriage return, column {column}\n")?;
        eprint!(rt; "  due: one space between two words, and no other\n")?;
        return Ok(true);
    }
    let count = forms_of(text);
    let mut best = compared("end", b"");
    for (index, form) in FORMS.iter().enumerate() {
        let one = compared(*form, said);
        if index < count && one.words > best.words {
            best = one;
        }
    }
    if best.words == 0 {
        return Ok(false);
    }
    let column = column_of(said, best.rest);
    if best.rest.is_empty() {
        eprint!(rt; "  found: the line ends in column {column}\n")?;
    } else {
        let (next, _) = first_word(best.rest);
        eprint!(rt; "  found: '{}', column {column}\n", next.escape_ascii())?;
    }
    tell_due(rt, said, count, best.words)?;
    Ok(true)
}

/// Tells what is due behind so many words of a line, by the first so many forms.
fn tell_due<R: Runtime>(rt: &R, said: &[u8], count: usize, words: usize) -> io::Result<()> {
    let mut left = 0_usize;
    for (index, form) in FORMS.iter().enumerate() {
        if index < count && compared(*form, said).words == words {
            left = left.saturating_add(1);
        }
    }
    let most = left;
    for (index, form) in FORMS.iter().enumerate() {
        let one = compared(*form, said);
        if index < count && one.words == words {
            tell_between(rt, left, most)?;
            tell_rest(rt, one.due)?;
            left = left.saturating_sub(1);
        }
    }
    eprint!(rt; "\n")
}

/// Tells what stands before what is due by a form, where so many forms are left of these.
fn tell_between<R: Runtime>(rt: &R, left: usize, most: usize) -> io::Result<()> {
    if left == most {
        eprint!(rt; "  due: ")
    } else if left > 1 {
        eprint!(rt; ", ")
    } else {
        eprint!(rt; " or ")
    }
}

/// Tells what is due of a form.
fn tell_rest<R: Runtime>(rt: &R, due: &[u8]) -> io::Result<()> {
    if due.is_empty() {
        return eprint!(rt; "'the end of the line'");
    }
    eprint!(rt; "'{}'", due.escape_ascii())
}

/// Tells the kind of queue that a line may mean, where it says another word for it; whether it was told.
pub(crate) fn tell_queue<R: Runtime>(rt: &R, said: &[u8]) -> io::Result<bool> {
    let (first, rest) = first_word(said);
    if first != b"queue".as_slice() {
        return Ok(false);
    }
    let (kind, _) = first_word(rest);
    let meant = match kind {
        b"non-blocking" | b"non_blocking" | b"lock-free" | b"lockfree" => "nonblocking",
        b"twolock" | b"two_lock" | b"two-locks" | b"locked" => "two-lock",
        _ => return Ok(false),
    };
    let column = column_of(said, rest);
    eprint!(rt; "  found: '{}', column {column}\n", kind.escape_ascii())?;
    eprint!(rt; "  due: 'two-lock' or 'nonblocking'; did you mean '{meant}'?\n")?;
    Ok(true)
}

/// The least and the greatest number that may stand in a line of this first word behind so many words.
fn range_of(first: &[u8], words: usize) -> Option<(&'static str, &'static str)> {
    match (first, words) {
        (b"steps", 2) | (b"repeat", 1) => Some(("1", "1000000")),
        (b"begin", 3) => Some(("0", "281474976710655")),
        (b"bits", 1) => Some(("16", "32")),
        (b"events", 1) => Some(("0", "1000000")),
        (b"begin" | b"step" | b"steps" | b"give" | b"until" | b"finish" | b"actors", 1) => {
            Some(("1", "65535"))
        }
        _ => None,
    }
}

/// Whether a number is less than another, both in decimal digits.
fn is_less(one: &[u8], other: &[u8]) -> bool {
    if one.len() != other.len() {
        return one.len() < other.len();
    }
    for (at, byte) in one.iter().enumerate() {
        if let Some(against) = other.get(at)
            && byte != against
        {
            return byte < against;
        }
    }
    false
}

/// Tells the number of a line that is out of its range; whether it was told.
pub(crate) fn tell_number<R: Runtime>(rt: &R, said: &[u8]) -> io::Result<bool> {
    let (first, mut rest) = first_word(said);
    let mut words = 1_usize;
    for _ in 0..said.len() {
        if rest.is_empty() {
            break;
        }
        let (word, later) = first_word(rest);
        if let Some((least, most)) = range_of(first, words)
            && is_number(word)
        {
            let column = column_of(said, rest);
            let number = word.escape_ascii();
            if is_less(word, least.as_bytes()) {
                eprint!(rt; "  found: {number}, column {column}, is below {least}\n")?;
                return Ok(true);
            }
            if is_less(most.as_bytes(), word) {
                eprint!(rt; "  found: {number}, column {column}, is above {most}\n")?;
                return Ok(true);
            }
        }
        words = words.saturating_add(1);
        rest = later;
    }
    Ok(false)
}

/// Tells that a call ends sooner than it begins, or that one of its numbers is below 1, where a line says that; whether it was told.
pub(crate) fn tell_span<R: Runtime>(rt: &R, said: &[u8]) -> io::Result<bool> {
    let mut rest = said;
    let mut begun: &[u8] = b"";
    for _ in 0..said.len() {
        if rest.is_empty() {
            break;
        }
        let (word, later) = first_word(rest);
        let (number, _) = first_word(later);
        let is_span = word == b"from".as_slice() || word == b"to".as_slice();
        if is_span && number == b"0".as_slice() {
            let column = column_of(said, later);
            eprint!(rt; "  found: 0, column {column}, is below 1\n")?;
            return Ok(true);
        }
        if word == b"to".as_slice() && is_number(number) && is_less(number, begun) {
            let (from, to) = (begun.escape_ascii(), number.escape_ascii());
            eprint!(rt;
                "  found: 'to {to}' is below 'from {from}': a call ends no sooner than it begins\n"
            )?;
            return Ok(true);
        }
        if word == b"from".as_slice() {
            begun = number;
        }
        rest = later;
    }
    Ok(false)
}

/// Tells how many events there are where that isn't what the header says; whether it was told.
pub(crate) fn tell_count<R: Runtime>(
    rt: &R,
    header: Option<(u64, &[u8])>,
    line: u64,
    are_more: bool,
) -> io::Result<bool> {
    let Some((number, count)) = header else {
        return Ok(false);
    };
    let count = count.escape_ascii();
    let events = line.saturating_sub(number);
    if are_more {
        eprint!(rt;
            "  found: line {number} says 'events {count}', and these are {events} or more\n"
        )?;
    } else {
        let events = events.saturating_sub(1);
        eprint!(rt; "  found: line {number} says 'events {count}', and these are {events}\n")?;
    }
    Ok(true)
}
