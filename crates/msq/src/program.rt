//! The program: its words, its files and its exit status.
use crate::causes::{tell_cause, tell_no};
use crate::held::{Done, faulty_list, placed, warn};
use crate::notes::{Kept, NotedSink, NotedSource, Notes};
use crate::options::{Frames, show_by, show_coloured, wants_colours, work_by};
use crate::progress::Progress;
use crate::starts::{is_recipe, read_start, takes_recipes};
use crate::tips::tell_takers;
use command_line::{Command, Task, read_words};
use engine_faults::{ENTRIES, Ending, Fault, end_of, explain, list};
use expand_engine::{expand_text, run_recipe, trace_recipe};
use history::Refusal;
use mail_engine::post_text;
use page_engine::{HISTORY_FRAME, RUN_FRAME};
use place_engine::check_text;
use run_engine::{run_text, trace_text};
use show_engine::ACCESSES;
use std::fs::File;
use std::io::Read;
use std::rt::Runtime;
use std::sync::Wait;
use std::thread::Threads;
use std::{env, io};
use text_io::{ReaderSource, Sink, Source, WriterSink};

/// Which of the standard streams are terminals.
#[derive(Clone, Copy)]
pub struct Terminals {
    pub input: bool,
    pub output: bool,
    pub error: bool,
}

/// Does what the program's words ask for, and answers the exit status: 0 where it is done or help
/// was asked for, 1 where it was refused, 2 where the words were, 3 where a history isn't one of a queue, 4 where
/// that is open.
///
/// A refusal is one line on standard error. Where that is a terminal, or the words ask for it, further lines explain it.
pub fn run_program<R: Runtime + AllocGlobal + Threads + Wait + Sync>(
    rt: &R,
    terminals: Terminals,
) -> u8 {
    let words = match words_of(rt) {
        Ok(words) => words,
        Err(error) if error.kind() == io::ErrorKind::InvalidData => {
            return refused(rt, "error: a word is no text\n");
        }
        Err(_) => return ended(rt, Err(Fault::from(Refusal::Memory))),
    };
    if words.is_empty() && terminals.input && terminals.error {
        // Where standard error fails, the schedule is read all the same.
        let _ = eprint!(rt; "msq: reading a schedule from standard input; msq --help tells more\n");
    }
    match read_words(rt.alloc(), &words) {
        Ok(command) => match command.task {
            Task::Explain => explained(rt, command.file.as_str()),
            _ => match faulty_list(rt.alloc(), &command) {
                Ok(None) => obeyed(rt, &command, terminals),
                Ok(Some(list)) => refused_list(rt, list),
                Err(_) => ended(rt, Err(Fault::from(Refusal::Memory))),
            },
        },
        Err((0, text)) => shown(rt, text.as_str()),
        Err((1, _)) => ended(rt, Err(Fault::from(Refusal::Memory))),
        Err((_, text)) => {
            let status = refused(rt, text.as_str());
            tell_takers(rt, &words);
            status
        }
    }
}

/// The words after the program's name.
fn words_of<R: Runtime + AllocGlobal>(rt: &R) -> io::Result<Vec<String>> {
    let mut words = Vec::new(rt.alloc());
    for word in env::args(rt)?.skip(1) {
        words.push(word)?;
    }
    Ok(words)
}

/// How a command is obeyed.
#[derive(Clone, Copy)]
struct Manner {
    /// Whether the text is kept, to explain a fault.
    keeps: bool,
    /// Whether what is drawn has colours.
    has_colours: bool,
    /// Whether the text is a recipe, which the command takes.
    is_recipe: bool,
}

/// The status of a command that reads a file. A fault is explained where standard error is a terminal, or the words ask for it.
fn obeyed<R: Runtime + AllocGlobal + Threads + Wait + Sync>(
    rt: &R,
    command: &Command,
    terminals: Terminals,
) -> u8 {
    let explains = command.explains || terminals.error;
    let whole = if terminals.error {
        length_of(rt, command.file.as_str())
    } else {
        0
    };
    let progress = Progress::new(rt, terminals.error, terminals.output, whole);
    let manner = Manner {
        keeps: explains,
        has_colours: shows_colours(rt, command, terminals.output),
        is_recipe: false,
    };
    let (outcome, notes) = outcome_of(rt, command, manner, &progress);
    progress.wipe();
    if let Ok(done) = outcome
        && let Some(lines) = done.overlap
    {
        warn(rt, lines);
    }
    let status = ended(rt, outcome.map(|done| done.ending));
    if explains {
        // Where standard error fails too, the status alone tells of the fault, and of a no the verdict.
        let _ = match outcome {
            Err(fault) => tell_cause(rt, command, &fault, &notes),
            Ok(done) => tell_no(rt, command, done.ending, &notes),
        };
    }
    status
}

/// How many bytes a file has; 0 where that can't be told, as of standard input.
fn length_of<R: Runtime>(rt: &R, file: &str) -> u64 {
    if file == "-" {
        return 0;
    }
    match rt.metadata(file) {
        Ok(known) if known.is_file() => known.len(),
        _ => 0,
    }
}

/// Obeys a command on its file, or on standard input for `-`, and writes to standard output. What is noted comes with the
/// outcome, the text where it is kept.
fn outcome_of<R: Runtime + AllocGlobal + Threads + Wait + Sync>(
    rt: &R,
    command: &Command,
    manner: Manner,
    progress: &Progress<'_, R>,
) -> (Result<Done, Fault>, Notes) {
    let file = command.file.as_str();
    if file == "-" {
        return looked_at(rt, command, rt.reader(), manner, progress);
    }
    match File::open(rt, file) {
        Ok(file) => looked_at(rt, command, file, manner, progress),
        Err(error) => unread(rt, error),
    }
}

/// What comes of a file that can't be opened or read.
fn unread<R: Runtime + AllocGlobal>(rt: &R, error: io::Error) -> (Result<Done, Fault>, Notes) {
    let cause = format!(in rt.alloc(); "{error}").ok();
    let fault = Fault::from(Refusal::Read);
    (Err(fault), Notes::unopened(rt.alloc(), cause))
}

/// Obeys a command on what a reader gives, and looks first whether that is a recipe.
fn looked_at<R: Runtime + AllocGlobal + Threads + Wait + Sync, F: Read + Drop>(
    rt: &R,
    command: &Command,
    mut reader: F,
    manner: Manner,
    progress: &Progress<'_, R>,
) -> (Result<Done, Fault>, Notes) {
    let mut start = Vec::new(rt.alloc());
    if takes_recipes(command) {
        match read_start(&mut reader, &mut start) {
            Ok(true) => {}
            Ok(false) => {
                let fault = Fault::from(Refusal::Memory);
                return (Err(fault), Notes::unopened(rt.alloc(), None));
            }
            Err(error) => return unread(rt, error),
        }
    }
    let manner = Manner {
        is_recipe: is_recipe(&start),
        ..manner
    };
    let source = ReaderSource::new(io::Cursor::new(start).chain(reader));
    noted(rt, command, source, manner, progress)
}

/// Obeys a command on what a source gives, and notes what goes by.
fn noted<R: Runtime + AllocGlobal + Threads + Wait + Sync, S: Source + Drop>(
    rt: &R,
    command: &Command,
    source: S,
    manner: Manner,
    progress: &Progress<'_, R>,
) -> (Result<Done, Fault>, Notes) {
    let mut reader = NotedSource {
        inner: source,
        alloc: rt.alloc(),
        text: Kept::new(rt.alloc(), manner.keeps),
        unread: None,
        progress,
    };
    let writer = NotedSink {
        inner: WriterSink::new(io::writer(rt)),
        alloc: rt.alloc(),
        unwritten: None,
        progress,
    };
    let (outcome, writer) = outcome_in(rt, command, manner, &mut reader, writer);
    let notes = Notes {
        text: reader.text,
        unread: reader.unread,
        unwritten: writer.unwritten,
    };
    (outcome, notes)
}

/// Whether a command draws with colours. On a terminal it does, unless `NO_COLOR` is set to a text.
fn shows_colours<R: Runtime + AllocGlobal>(rt: &R, command: &Command, is_shown: bool) -> bool {
    match command.task {
        Task::Show(options) => wants_colours(options, is_shown && !is_set(rt, "NO_COLOR")),
        _ => false,
    }
}

/// Whether a variable of the environment is set to a text.
fn is_set<R: Runtime + AllocGlobal>(rt: &R, name: &str) -> bool {
    match env::var(rt, name) {
        Ok(text) => !text.is_empty(),
        Err(error) => error != env::VarError::NotPresent,
    }
}

/// Obeys a command on what a source gives, and writes to a sink, which comes back.
fn outcome_in<R: Runtime + AllocGlobal + Threads + Wait + Sync, S: Source, W: Sink>(
    rt: &R,
    command: &Command,
    manner: Manner,
    reader: &mut S,
    mut writer: W,
) -> (Result<Done, Fault>, W) {
    match command.task {
        Task::Show(options) if manner.has_colours => {
            let (drawn, writer) = show_coloured(
                rt.alloc(),
                options,
                &page_frames(),
                &ACCESSES,
                manner.is_recipe,
                reader,
                writer,
            );
            (drawn.map(|()| Done::quietly(Ending::Well)), writer)
        }
        _ => {
            let outcome = outcome_on(rt, command, manner, reader, &mut writer);
            (outcome, writer)
        }
    }
}

/// What pages have around what they show.
fn page_frames() -> Frames<'static> {
    Frames {
        run: RUN_FRAME,
        history: HISTORY_FRAME,
    }
}

/// Obeys a command on what a source gives, and writes to a sink.
fn outcome_on<R: Runtime + AllocGlobal + Threads + Wait + Sync, S: Source, W: Sink>(
    rt: &R,
    command: &Command,
    manner: Manner,
    reader: &mut S,
    writer: &mut W,
) -> Result<Done, Fault> {
    match command.task {
        Task::Run if manner.is_recipe => run_recipe(rt.alloc(), reader, writer)?,
        Task::Trace if manner.is_recipe => trace_recipe(rt.alloc(), reader, writer)?,
        Task::Run => run_text(rt.alloc(), reader, writer)?,
        Task::Expand => expand_text(rt.alloc(), reader, writer)?,
        Task::Trace => trace_text(rt.alloc(), reader, writer)?,
        Task::Show(options) => {
            show_by(
                rt.alloc(),
                options,
                &page_frames(),
                &ACCESSES,
                manner.is_recipe,
                reader,
                writer,
            )?;
        }
        Task::Check => {
            let verdict = check_text(rt.alloc(), reader, writer)?;
            return Ok(Done::quietly(Ending::from(verdict)));
        }
        Task::Place(options) => {
            return placed(rt.alloc(), command, options, reader, writer);
        }
        Task::Work(options) => {
            let _ = work_by(rt, rt.alloc(), options, reader, writer)?;
        }
        Task::Post(kind) => {
            let _ = post_text(rt, rt.alloc(), reader, writer, kind)?;
        }
        // `run_program` explains refusals, which no file has.
        Task::Explain => {}
    }
    Ok(Done::quietly(Ending::Well))
}

/// Standard error as a writer.
#[derive(Drop)]
struct Stderr<'a, R> {
    rt: &'a R,
}

impl<R: Eprint> io::Write for Stderr<'_, R> {
    fn write(&mut self, bytes: &[u8]) -> io::Result<usize> {
        let Ok(text) = str::from_utf8(bytes) else {
            return Err(io::Error::from(io::ErrorKind::InvalidData));
        };
        self.rt.eprint(text)?;
        Ok(bytes.len())
    }

    fn flush(&mut self) -> io::Result<()> {
        Ok(())
    }
}

/// The status of an outcome, whose fault, if any, is written to standard error.
fn ended<R: Runtime>(rt: &R, outcome: Result<Ending, Fault>) -> u8 {
    end_of(outcome, &mut WriterSink::new(Stderr { rt }))
}

/// The status of the explanation of a refusal, or of the list of all where none is named, which is written to standard output.
fn explained<R: Runtime>(rt: &R, word: &str) -> u8 {
    let mut writer = WriterSink::new(io::writer(rt));
    let answer = if word == "-" {
        list(&ENTRIES, &mut writer).map(|()| true)
    } else {
        explain(&ENTRIES, word, &mut writer)
    };
    match answer {
        Ok(true) => 0,
        Ok(false) => {
            let _ = eprint!(rt;
                "error: '{}' is no refusal: msq explain lists their numbers and names\n",
                word.escape_debug()
            );
            2
        }
        Err(refusal) => ended(rt, Err(Fault::from(refusal))),
    }
}

/// The status of a list that isn't one of texts.
fn refused_list<R: Runtime>(rt: &R, list: &str) -> u8 {
    let _ = eprint!(rt;
        "error: '{}' is no list of values: each has 1 to 64 letters, digits, '-', '.', '_', with a comma between two\n",
        list.escape_debug()
    );
    2
}

/// The status of help that is shown on standard output.
fn shown<R: Runtime>(rt: &R, text: &str) -> u8 {
    match print!(rt; "{text}") {
        Ok(()) => 0,
        Err(_) => ended(rt, Err(Fault::from(Refusal::Write))),
    }
}

/// The status of words that are refused, for a reason that is written to standard error.
fn refused<R: Runtime>(rt: &R, reason: &str) -> u8 {
    // Where standard error fails too, the status alone tells of the refusal.
    let _ = eprint!(rt; "{reason}");
    2
}
