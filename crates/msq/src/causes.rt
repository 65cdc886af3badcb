//! What is told behind the line of a fault: where it is, what is there, what is due, and what to do.
ghost use Rattle.msq.specs.Causes.{IsNumberOf};

use crate::finds::{tell_count, tell_number, tell_queue, tell_span, tell_word};
use crate::forms::due_at;
use crate::kinds::{has_no_points, tell_kind};
use crate::notes::Notes;
use crate::stands::{header_line, tell_stand};
use crate::starts::{is_recipe, spoken};
use command_line::{Command, Task};
use engine_faults::{ENTRIES, Ending, Fault, entry_named};
use history::{Refusal, TextCause};
use std::io;
use std::rt::Runtime;

/// How many bytes of a line are shown.
const SHOWN: usize = 100;

/// What is found where a text has no byte.
const EMPTY: &str = "the text is empty; msq --help tells which command reads which text";

/// What is found where a line ends as other systems end theirs.
const CARRIED: &str = "a carriage return ends the line; a line feed alone is due there";

/// Tells on standard error what a fault is about, a line each.
pub(crate) fn tell_cause<R: Runtime + AllocGlobal>(
    rt: &R,
    command: &Command,
    fault: &Fault,
    notes: &Notes,
) -> io::Result<()> {
    match fault.refusal {
        Refusal::Text(line, cause) => {
            tell_line(rt, command, notes, line)?;
            tell_text(rt, command, notes, line, cause)?;
        }
        Refusal::Read => tell_reason(rt, name_of(command), &notes.unread)?,
        Refusal::Write => tell_reason(rt, "standard output", &notes.unwritten)?,
        Refusal::BadSize => tell_sizes(rt, command)?,
        _ => {
            if let Some(line) = fault.line {
                tell_line(rt, command, notes, line)?;
                tell_stand(rt, fault.refusal, notes, line)?;
            }
        }
    }
    let Some(entry) = entry_named(&ENTRIES, number_of(fault.refusal)) else {
        return Ok(());
    };
    for line in entry.text.lines().skip(1) {
        eprint!(rt; "  {line}\n")?;
    }
    Ok(())
}

/// Tells what a line of a text has that isn't due, and what is due there.
fn tell_text<R: Runtime>(
    rt: &R,
    command: &Command,
    notes: &Notes,
    line: u64,
    cause: TextCause,
) -> io::Result<()> {
    let text = notes.text.as_slice();
    let is_other = line == 1 && cause == TextCause::Form && tell_kind(rt, command, text)?;
    let told = is_other || tell_found(rt, command, notes, line, cause)?;
    if !told {
        let is_empty = line == 1 && cause == TextCause::End && text.is_empty();
        let found = match notes.text.line(line) {
            _ if is_empty => EMPTY,
            Some(said) if cause == TextCause::Form && said.ends_with(b"\r") => CARRIED,
            _ => found(cause),
        };
        eprint!(rt; "  found: {found}\n")?;
    }
    if is_other || cause != TextCause::Extra && !(told && cause == TextCause::Form) {
        eprint!(rt; "  due: {}\n", due_at(command, text, line))?;
    }
    Ok(())
}

/// Tells which sizes of `work` are out of their range.
fn tell_sizes<R: Runtime>(rt: &R, command: &Command) -> io::Result<()> {
    let Task::Work(crew) = command.task else {
        return Ok(());
    };
    let (nodes, workers) = (crew.nodes, crew.workers);
    eprint!(rt; "  found: --nodes {nodes} with --workers {workers}\n")?;
    eprint!(rt;
        "  due: --nodes from {} to 16777214\n",
        workers.saturating_add(3)
    )
}

/// Tells on standard error of a no that `check` said of a history none of whose operations has a point.
pub(crate) fn tell_no<R: Runtime>(
    rt: &R,
    command: &Command,
    ending: Ending,
    notes: &Notes,
) -> io::Result<()> {
    match command.task {
        Task::Check if ending == Ending::No && has_no_points(notes.text.as_slice()) => {
            eprint!(rt; "  found: no operation of this history has a point\n")?;
            eprint!(rt; "  due: points; msq place finds them, or a reason why there are none\n")
        }
        _ => Ok(()),
    }
}

/// Tells what a line of a schedule, a recipe or a recording has that isn't due; whether it was told.
fn tell_found<R: Runtime>(
    rt: &R,
    command: &Command,
    notes: &Notes,
    number: u64,
    cause: TextCause,
) -> io::Result<bool> {
    let text = notes.text.as_slice();
    let Some(line) = notes.text.line(number) else {
        return Ok(false);
    };
    match command.task {
        Task::Place(_) if cause == TextCause::Range => tell_span(rt, line),
        Task::Run | Task::Trace | Task::Expand => tell_in_schedule(rt, text, line, number, cause),
        Task::Show(view) if !view.is_history && !view.draws_reason => {
            tell_in_schedule(rt, text, line, number, cause)
        }
        _ => Ok(false),
    }
}

/// The same of a schedule or a recipe.
fn tell_in_schedule<R: Runtime>(
    rt: &R,
    text: &[u8],
    line: &[u8],
    number: u64,
    cause: TextCause,
) -> io::Result<bool> {
    let events = header_line(text, b"events");
    let (said, last) = if is_recipe(text) {
        (spoken(line), header_line(text, b"actors"))
    } else {
        (line, events)
    };
    match cause {
        TextCause::Form => match last {
            Some((header, _)) if header < number => tell_word(rt, text, said),
            _ => tell_queue(rt, said),
        },
        TextCause::Range => tell_number(rt, said),
        TextCause::Extra => tell_count(rt, events, number, true),
        TextCause::End if line.is_empty() => tell_count(rt, events, number, false),
        TextCause::End => Ok(false),
    }
}

/// The name of the file of a command.
fn name_of(command: &Command) -> &str {
    match command.file.as_str() {
        "-" => "standard input",
        name => name,
    }
}

/// Tells a line of the file, as it stands there where it is kept.
fn tell_line<R: Runtime>(rt: &R, command: &Command, notes: &Notes, number: u64) -> io::Result<()> {
    let name = name_of(command).escape_debug();
    let Some(line) = notes.text.line(number) else {
        return eprint!(rt; "  line {number} of {name}\n");
    };
    if line.is_empty() {
        return eprint!(rt; "  line {number} of {name} is empty\n");
    }
    let shown = line[..line.len().min(SHOWN)].escape_ascii();
    let rest = if line.len() > SHOWN { ".." } else { "" };
    eprint!(rt; "  line {number} of {name}: {shown}{rest}\n")
}

/// Tells why a file can't be read or written, in the system's words.
fn tell_reason<R: Runtime>(rt: &R, name: &str, reason: &Option<String>) -> io::Result<()> {
    match reason {
        Some(reason) => eprint!(rt; "  {}: {reason}\n", name.escape_debug()),
        None => Ok(()),
    }
}

/// What a line of a text has that is refused.
fn found(cause: TextCause) -> &'static str {
    match cause {
        TextCause::End => "the text ends before a line feed ends this line",
        TextCause::Form => "the line isn't in the form that is due",
        TextCause::Range => "a number, or the length of a text, is out of its range",
        TextCause::Extra => "bytes follow all the lines that are due",
    }
}

/// The number of a refusal.
fn number_of(refusal: Refusal) -> &'static str
    //= program/told_number: `number_of`, by which `msq` looks up what it tells behind the line of a fault, answers the number
    //=   that histories have for the refusal.
    ensures { IsNumberOf refusal result.now }
{
    match refusal {
        Refusal::NoNode => "1",
        Refusal::WornOut(_) => "2",
        Refusal::Busy => "3",
        Refusal::Memory => "4",
        Refusal::BadSize => "5",
        Refusal::IdleActor => "6",
        Refusal::ActorBusy => "7",
        Refusal::NotHere => "8",
        Refusal::NoSuchActor => "9",
        Refusal::Text(_, _) => "10",
        Refusal::Read => "11",
        Refusal::Write => "12",
        Refusal::Stranger => "13",
        Refusal::Double => "14",
        Refusal::Lost => "15",
        Refusal::Closed => "16",
    }
}
