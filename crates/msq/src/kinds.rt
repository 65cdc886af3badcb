//! Which text a file has, by its first line, and which commands read such a text; whether a history has points.
use crate::stands::header_line;
use crate::starts::{first_word, is_recipe, takes_recipes};
use command_line::{Command, Task};
use std::io;
use std::rt::Runtime;
use text_io::{LineBuffer, line_at};

/// A text that commands read.
#[derive(Clone, Copy, PartialEq, Eq)]
enum TextKind {
    Schedule,
    Recipe,
    History,
    Recording,
    Jobs,
    Mail,
}

impl TextKind {
    /// The kind of a text, where its first line begins as that of one.
    fn of(text: &[u8]) -> Option<TextKind> {
        if is_recipe(text) {
            Some(TextKind::Recipe)
        } else if text.starts_with(b"msq schedule 1\n") || text.starts_with(b"msq schedule 2\n") {
            Some(TextKind::Schedule)
        } else if text.starts_with(b"history ") {
            Some(TextKind::History)
        } else if text.starts_with(b"msq record 1\n") {
            Some(TextKind::Recording)
        } else if text.starts_with(b"jobs ") {
            Some(TextKind::Jobs)
        } else if text.starts_with(b"mail ") {
            Some(TextKind::Mail)
        } else {
            None
        }
    }

    /// What it is called.
    fn name(self) -> &'static str {
        match self {
            TextKind::Schedule => "a schedule",
            TextKind::Recipe => "a recipe",
            TextKind::History => "a history",
            TextKind::Recording => "a recording",
            TextKind::Jobs => "a list of jobs",
            TextKind::Mail => "mail",
        }
    }

    /// The commands that read it.
    fn readers(self) -> &'static str {
        match self {
            TextKind::Schedule => "msq run, msq trace, msq show, msq show --html",
            TextKind::Recipe => "msq run, msq run --expand, msq trace, msq show, msq show --html",
            TextKind::History => {
                "msq check, msq place, msq show --history, msq show --why, msq show --html --history"
            }
            TextKind::Recording => "msq place, msq show --why, msq show --html --history",
            TextKind::Jobs => "msq work",
            TextKind::Mail => "msq post",
        }
    }

    /// Whether a command reads it.
    fn is_read_by(self, command: &Command) -> bool {
        let is_recorded = self == TextKind::History || self == TextKind::Recording;
        match command.task {
            Task::Expand => self == TextKind::Recipe,
            Task::Check => self == TextKind::History,
            Task::Place(_) if command.held.is_some() => self == TextKind::Recording,
            Task::Place(_) => is_recorded,
            Task::Work(_) => self == TextKind::Jobs,
            Task::Post(_) => self == TextKind::Mail,
            Task::Show(view) if !takes_recipes(command) => {
                is_recorded && (view.is_page || view.draws_reason || self == TextKind::History)
            }
            _ => self == TextKind::Schedule || self == TextKind::Recipe,
        }
    }
}

/// A command with the options that say which text it reads.
fn spelled(command: &Command) -> &'static str {
    match command.task {
        Task::Run => "msq run",
        Task::Expand => "msq run --expand",
        Task::Trace => "msq trace",
        Task::Show(view) if view.is_page && view.is_history => "msq show --html --history",
        Task::Show(view) if view.is_page => "msq show --html",
        Task::Show(view) if view.draws_reason => "msq show --why",
        Task::Show(view) if view.is_history => "msq show --history",
        Task::Show(_) => "msq show",
        Task::Check => "msq check",
        Task::Place(_) if command.held.is_some() => "msq place --holds",
        Task::Place(_) => "msq place",
        Task::Work(_) => "msq work",
        Task::Post(_) => "msq post",
        Task::Explain => "msq explain",
    }
}

/// What a text is called that a command writes and none reads, by its beginning.
fn written(text: &[u8]) -> Option<&'static str> {
    if text.starts_with(b"msq trace 1\n") {
        Some("a trace")
    } else if text.starts_with(b"yes\n") || text.starts_with(b"no ") {
        Some("a verdict")
    } else if text.starts_with(b"results ") {
        Some("a list of results")
    } else if text.starts_with(b"letters ") {
        Some("a list of letters")
    } else {
        None
    }
}

/// Tells that a text is one of another kind than a command reads; whether it was told.
pub(crate) fn tell_kind<R: Runtime>(rt: &R, command: &Command, text: &[u8]) -> io::Result<bool> {
    if let Some(name) = written(text) {
        eprint!(rt; "  found: this is {name}, which msq writes and no command reads\n")?;
        return Ok(true);
    }
    let Some(kind) = TextKind::of(text) else {
        return Ok(false);
    };
    if kind.is_read_by(command) {
        return Ok(false);
    }
    let (name, words, readers) = (kind.name(), spelled(command), kind.readers());
    eprint!(rt; "  found: this is {name}, which {words} doesn't read; these do: {readers}\n")?;
    Ok(true)
}

/// Whether the line of an operation says that it has no point.
fn is_unplaced(line: &[u8]) -> bool {
    let mut rest = line;
    for _ in 0..line.len() {
        let (word, behind) = first_word(rest);
        if word == b"at".as_slice() {
            let (point, _) = first_word(behind);
            return point == b"-".as_slice();
        }
        rest = behind;
    }
    false
}

/// Whether a text is that of a history with operations, none of which has a point, as recorders write it.
pub(crate) fn has_no_points(text: &[u8]) -> bool {
    let Some((_, mut rest)) = line_at(text) else {
        return false;
    };
    let mut count = 0_u64;
    for _ in 0..text.len() {
        let Some((line, later)) = line_at(rest) else {
            break;
        };
        if !is_unplaced(line) {
            return false;
        }
        count = count.saturating_add(1);
        rest = later;
    }
    let mut digits = LineBuffer::new();
    digits.push_number(count);
    match header_line(text, b"history") {
        Some((_, said)) => count > 0 && said == digits.as_slice(),
        None => false,
    }
}
