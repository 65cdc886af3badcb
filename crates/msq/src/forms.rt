//! What a text has at a line by its grammar, in words.
use crate::starts::{first_word, is_recipe, spoken};
use command_line::{Command, Task};

/// The lines that a schedule of version 1 begins with.
const FIRST: [&str; 6] = [
    "'msq schedule 1', 'msq schedule 2' or 'msq schedule 3'",
    "'queue two-lock' or 'queue nonblocking'",
    "'nodes N', N from 2 to 16777214",
    "'limit C', C from 1 to 1099511627775",
    "'actors K', K from 1 to 65535",
    "'events M', M from 0 to 1000000",
];

/// The lines that a schedule of version 2 begins with.
const SECOND: [&str; 7] = [
    "'msq schedule 1', 'msq schedule 2' or 'msq schedule 3'",
    "'queue two-lock' or 'queue nonblocking'",
    "'bits D', D from 16 to 32",
    "'nodes N', N from 2 to 2^D - 2",
    "'limit C', C from 1 to 2^(64 - D) - 1",
    "'actors K', K from 1 to 65535",
    "'events M', M from 0 to 1000000",
];

/// What a schedule of version 1 has behind these.
const FIRST_EVENT: &str =
    "an event: 'begin A enq B', 'begin A deq', 'steps A K', 'step A L' or 'give A', A from 1 to 65535, \
    B from 0 to 281474976710655, K from 1 to 1000000, L a line of docs/LINES.md that has no S";

/// What a schedule of version 2 has behind these.
const SECOND_EVENT: &str =
    "an event: 'begin A enq B', 'begin A deq', 'begin A shut', 'steps A K', 'step A L' or 'give A', \
    A from 1 to 65535, B from 0 to 281474976710655, K from 1 to 1000000, L a line of docs/LINES.md";

/// The lines that a recipe begins with, but for those that say nothing.
const RECIPE: [&str; 6] = [
    "'msq schedule 3'",
    "'queue two-lock' or 'queue nonblocking'",
    "'bits D', D from 16 to 32; or without it 'nodes N', N from 2 to 16777214",
    "'nodes N', N from 2 to 2^D - 2",
    "'limit C', C from 1 to 2^(64 - D) - 1",
    "'actors K', K from 1 to 65535",
];

/// What a recipe has behind these.
const ACT: &str =
    "an event of a schedule of version 2, 'until A L', 'finish A', 'repeat N', N from 1 to 1000000, or 'end', A from 1 to \
    65535, L a line of docs/LINES.md; no repeat in a repeat, and at most 100000000 steps of all acts";

/// What is due at a line, counted from 1, of the text that a command reads. The version of a schedule, and whether a text is a
/// recording, is that of the text's first line.
pub(crate) fn due_at(command: &Command, text: &[u8], line: u64) -> &'static str {
    match command.task {
        Task::Show(view) if view.is_history && view.is_page => recorded(text, line),
        Task::Show(view) if view.draws_reason && !view.is_page => recorded(text, line),
        Task::Show(view) if view.is_history => history(line),
        Task::Check => history(line),
        Task::Place(_) if command.held.is_some() => recording(line),
        Task::Place(_) => recorded(text, line),
        Task::Work(_) => jobs(line),
        Task::Post(_) => mail(line),
        Task::Expand => recipe(text, line),
        _ if is_recipe(text) => recipe(text, line),
        _ if text.starts_with(b"msq schedule 2\n") => schedule(&SECOND, SECOND_EVENT, line),
        _ => schedule(&FIRST, FIRST_EVENT, line),
    }
}

/// That of a schedule, which begins with these lines, and has these events.
fn schedule(header: &[&'static str], event: &'static str, line: u64) -> &'static str {
    match header.get(line.saturating_sub(1) as usize) {
        Some(form) => form,
        None => event,
    }
}

/// That of a recipe, by how many lines before this one say something; where none says the bits, the nodes are in their place.
fn recipe(text: &[u8], line: u64) -> &'static str {
    let mut said = 0_u64;
    let mut number = 1_u64;
    for one in text.split(|byte| *byte == b'\n') {
        if number == line {
            break;
        }
        number = number.saturating_add(1);
        let (first, _) = first_word(spoken(one));
        if said == 2 && first == b"nodes".as_slice() {
            said = 3;
        }
        if !first.is_empty() {
            said = said.saturating_add(1);
        }
    }
    schedule(&RECIPE, ACT, said.saturating_add(1))
}

/// That of a history.
fn history(line: u64) -> &'static str {
    match line {
        1 => "'history K', K from 0 to 1000000",
        _ => {
            "an operation: 'A CALL first F last L at W reply R', A from 1 to 65535, CALL 'enq B', 'deq' or 'shut', F, L and W \
            numbers from 1, L and W also '-', R 'done', 'value S B', 'empty', 'refused N' or '-'"
        }
    }
}

/// That of a history or a recording.
fn recorded(text: &[u8], line: u64) -> &'static str {
    if text.starts_with(b"history ") {
        return history(line);
    }
    match line {
        1 => "'msq record 1', or 'history K', K from 0 to 1000000",
        _ => recording(line),
    }
}

/// That of a recording.
fn recording(line: u64) -> &'static str {
    match line {
        1 => "'msq record 1'",
        2 => "'operations K', K from 0 to 1000000",
        _ => {
            "an operation: 'NAME CALL from F to L reply R', CALL 'enq TEXT', 'deq' or 'shut', F a number from 1, L one from F, or \
            '-', R 'done', 'value TEXT', 'empty', 'refused', 'closed' or '-', NAME and TEXT 1 to 64 letters, digits, '_', '-', '.'"
        }
    }
}

/// That of jobs.
fn jobs(line: u64) -> &'static str {
    match line {
        1 => "'jobs K', K from 0 to 1000000",
        _ => {
            "a job: 'add A B', 'mul A B' or 'div A B', A and B from 0 to 18446744073709551615, or 'len TEXT', at most 200 bytes \
            from 32 to 126"
        }
    }
}

/// That of mail.
fn mail(line: u64) -> &'static str {
    match line {
        1 => "'mail S K', S from 1 to 64, K from 0 to 100000",
        _ =>
            "a letter: 'A TEXT', A from 1 to S of the first line, TEXT at most 200 bytes from 32 to 126",
    }
}
