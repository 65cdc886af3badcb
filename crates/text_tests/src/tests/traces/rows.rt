//! A reader of traces, for tests alone.
use std::alloc::Global;
use std::test::Fail;
use step_machine::WordName;

/// What a word is told to hold.
#[derive(Clone, Copy, Debug, PartialEq, Eq)]
pub enum Told {
    Number(u64),
    Pair(u64, u64),
    Closed(u64),
}

/// What a step is told to have touched: the word, what was found, and what is there now.
#[derive(Clone, Copy, Debug, PartialEq, Eq)]
pub struct Access {
    pub word: WordName,
    pub found: Told,
    pub now: Told,
}

/// A line of a trace.
#[derive(Clone, Copy, Debug, PartialEq, Eq)]
pub struct Row<'a> {
    pub number: u64,
    pub actor: u16,
    pub line: &'a str,
    /// None where a call was given up.
    pub access: Option<Access>,
    pub reply: Option<&'a str>,
}

/// A trace: the lines of its header but for the last one, and its rows, as many as that one says.
#[derive(Debug, Drop)]
pub struct Trace<'a> {
    pub head: Vec<&'a str>,
    pub rows: Vec<Row<'a>>,
}

/// The trace of a text.
pub fn parse_trace<'a>(alloc: Global, text: &'a str) -> Result<Trace<'a>, Fail> {
    let body = text.strip_suffix('\n').ok_or("no last line feed")?;
    let mut lines = body.split('\n');
    let mut head = Vec::new(alloc);
    for _ in 0..6 {
        head.push(lines.next().ok_or("a header")?)?;
    }
    let steps = lines
        .next()
        .and_then(|line| line.strip_prefix("steps "))
        .ok_or("no steps")?;
    let steps = number(steps).ok_or("no number of steps")?;
    let mut rows = Vec::new(alloc);
    for line in lines {
        rows.push(row_of(line).ok_or("a row")?)?;
    }
    if rows.len() as u64 != steps {
        return Err(Fail::from("another number of rows"));
    }
    Ok(Trace { head, rows })
}

// The row of a line.
fn row_of<'a>(line: &'a str) -> Option<Row<'a>> {
    let (done, reply) = match line.split_once(" reply ") {
        Some((done, reply)) => (done, Some(reply)),
        None => (line, None),
    };
    let (at, rest) = done.split_once(' ')?;
    let (actor, rest) = rest.split_once(' ')?;
    let (line, rest) = rest.split_once(' ')?;
    Some(Row {
        number: number(at)?,
        actor: actor.parse::<u16>().ok()?,
        line,
        access: if rest == "gives" {
            None
        } else {
            Some(access_of(rest)?)
        },
        reply,
    })
}

// The access of a row.
fn access_of(text: &str) -> Option<Access> {
    let (word, contents) = text.split_once(" found ")?;
    let (found, now) = contents.split_once(" now ")?;
    Some(Access {
        word: word_of(word)?,
        found: told_of(found)?,
        now: told_of(now)?,
    })
}

// The word of a name.
fn word_of(name: &str) -> Option<WordName> {
    match name.split_once(' ') {
        Some(("next", node)) => Some(WordName::Next(node.parse::<u32>().ok()?)),
        Some(("value", node)) => Some(WordName::Value(node.parse::<u32>().ok()?)),
        Some(_) => None,
        None => plain_word(name),
    }
}

fn plain_word(name: &str) -> Option<WordName> {
    match name {
        "Fresh" => Some(WordName::Fresh),
        "Free" => Some(WordName::Free),
        "Head" => Some(WordName::Head),
        "Tail" => Some(WordName::Tail),
        "T_lock" => Some(WordName::TailLock),
        "H_lock" => Some(WordName::HeadLock),
        _ => None,
    }
}

// What a word is told to hold.
fn told_of(text: &str) -> Option<Told> {
    match text.split_once(' ') {
        Some(("closed", count)) => Some(Told::Closed(number(count)?)),
        Some((first, second)) => Some(Told::Pair(number(first)?, number(second)?)),
        None => Some(Told::Number(number(text)?)),
    }
}

fn number(text: &str) -> Option<u64> {
    text.parse::<u64>().ok()
}
