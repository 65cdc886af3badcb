//! The words after the program's name.
ghost use Rattle.std.specs.Prelude.{◌≡◌, ◌⊎◌, [], IfErr, IfOk, Some, map, option_map, string_bytes, codes, true, false};
ghost use Rattle.clap.specs.Words.{App, HasKind, Rule, app_of, first_of, found_of, kind_of, one_of, rows_of, rule_of, subcommand_rows_of, takes, with_rule, with_subcommand};
ghost use Rattle.command_line.specs.Commands.{bare_app, command_line_app, explain_app, faults_in, file_app, file_met, held_met, flag_rule, kind_named, number_rule};
ghost use Rattle.command_line.specs.Commands.{run_app, AreQueues, AreTaken, AskBackward, GoesForward, IsAsked, IsAskedSomewhere};
ghost use Rattle.command_line.specs.Commands.{IsCrewOf, IsStatusOf, IsTask, IsViewOf, SaysFlag, SaysNumber};

use crate::helps;
use crate::messages::{steps_backward, told, told_backward};
use crate::options::{Placing, crew_in, explains_in, flag_in, kind_in, placing_in, view_in};
use crate::places::{held_in, place_command};
use crate::queue_commands::{post_command, work_command};
use crate::show_options::show_command;
use clap::builder::ValueParser;
use clap::error::ErrorKind;
use clap::{Arg, ArgAction, ArgMatches};
use line_table::QueueKind;
use std::alloc::{AllocError, Global};

/// The version, which the header, the crate for cargo and CHANGELOG.md tell too.
const VERSION: &str = "0.5.0";

/// The names of the queues.
static QUEUES: [&str; 3] = ["two-lock", "nonblocking", "ring"];

/// The times at which a picture has colours.
static WHENS: [&str; 3] = ["auto", "always", "never"];

/// How `work` does jobs.
#[derive(Clone, Copy)]
pub struct Crew {
    /// How many workers there are.
    pub workers: u32,
    /// Over which queue.
    pub kind: QueueKind,
    /// How many nodes the queue has.
    pub nodes: u32,
}

/// When a picture has colours.
#[derive(Clone, Copy)]
pub enum Colours {
    /// Where it is shown on a terminal.
    Auto,
    Always,
    Never,
}

/// What `show` shows.
#[derive(Clone, Copy)]
pub struct ShowOptions {
    /// How many columns a row has at most.
    pub width: u32,
    /// The first step.
    pub from: u64,
    /// The last step; 0 for a hundred steps.
    pub to: u64,
    /// The one actor; 0 for as many as have room.
    pub actor: u32,
    /// Whether the file has a history, and no schedule.
    pub is_history: bool,
    /// Whether a page is written that steps through the run.
    pub is_page: bool,
    /// Whether what is found of a recorded history is drawn, as the reason why it isn't linearizable.
    pub draws_reason: bool,
    /// Whether a picture tells what the lines in its rows do.
    pub has_legend: bool,
    /// When a picture has colours.
    pub colours: Colours,
}

/// What is done with a file.
#[derive(Clone, Copy)]
pub enum Task {
    /// Runs the schedule in it.
    Run,
    /// Writes the schedule that the recipe in it stands for.
    Expand,
    /// Tells each step of the schedule in it.
    Trace,
    /// Draws the run of the schedule in it, the timeline of the history, or what is found of a recorded one.
    Show(ShowOptions),
    /// Judges the history in it.
    Check,
    /// Finds linearization points for the recorded history in it.
    Place(Placing),
    /// Does the jobs in it.
    Work(Crew),
    /// Posts the letters in it, over a queue of this kind.
    Post(QueueKind),
    /// Explains a refusal, whose number or name stands in the place of the file.
    Explain,
}

/// What the program is asked to do.
#[derive(Drop)]
pub struct Command {
    pub task: Task,
    /// The file's name; `-` is standard input.
    pub file: String,
    /// Whether a fault is explained, wherever its line goes.
    pub explains: bool,
    /// The list of what the queue holds at the start, where one is given.
    pub held: Option<String>,
}

/// The command that the words after the program's name ask for; no words ask for `run -`.
///
/// An error has the exit status and the text to print: 0 for help and the version, whose text
/// goes to standard output, 2 for words that are refused, and 1 with no text where memory was
/// refused. Takes memory, and doesn't wait.
pub fn read_words(alloc: Global, words: &[String]) -> Result<Command, (u8, String)>
    //= program/words (asked, passes, none): The words name the task, its file and its options as clap's definitions
    //=   say (`IsAsked`); no words are `run -`. They are taken only where clap finds no fault; words that are a
    //=   command line (`AreTaken`), and none, are refused with status 1 alone, that of refused memory, but for those
    //=   that ask for a last step below the first.
    ensures asked { IfOk result (IsAskedSomewhere (map string_bytes words.now)) }
    // Words that are a command line, and no words, are refused only where memory is, or where steps go backward.
    ensures passes { IfErr result (λ e. AreTaken (map string_bytes words.now)
        → (e.0 ≡ 1) ⊎ ((e.0 ≡ 2) × AskBackward (map string_bytes words.now))) }
    ensures none { words.now ≡ [] → IfErr result (λ e. e.0 ≡ 1) }
    //= program/forward: A last step below the first, 0 apart, is refused: the steps of a command that is answered go
    //=   forward.
    ensures forward { IfOk result (λ command. GoesForward command.task) }
    //= program/word_status (status, memory): Refused words have the status of something that clap finds in them, 0 for
    //=   help and the version, else 2; or 2 where their steps go backward; or 1, with no text, where memory is refused.
    ensures status { IfErr result (λ e. IsStatusOf (map string_bytes words.now) e.0
        ⊎ ((e.0 ≡ 2) × AskBackward (map string_bytes words.now))) }
    ensures memory { IfErr result (λ e. e.0 ≡ 1 → string_bytes e.1 ≡ []) }
{
    match asked(alloc, QUEUES.as_slice(), WHENS.as_slice(), words) {
        Ok(command) => match steps_backward(command.task) {
            Some((first, last)) => Err(told_backward(alloc, first, last)),
            None => Ok(command),
        },
        Err(error) => Err(told(alloc, &error)),
    }
}

/// A command of this name, with a FILE.
pub(crate) fn command_on<'a>(
    alloc: Global,
    name: &'a str,
    about: &'a str,
    file: &'a str,
    after: &'a str,
) -> Result<clap::Command<'a>, AllocError>
    ensures { IfOk result (λ command. app_of command ≡ file_app name.entry.now) }
{
    let file = Arg::new(alloc, "FILE").help(file).required(true);
    let command = clap::Command::new(alloc, name)
        .about(about)
        .after_help(after)
        .arg(file);
    let explain = flag_option(alloc, "EXPLAIN", "explain");
    with_arg(
        command,
        explain,
        "Explains a refusal on standard error, as on a terminal",
    )
}

/// A command with one more option, of this help, where memory was refused for neither.
pub(crate) fn with_arg<'a>(
    command: Result<clap::Command<'a>, AllocError>,
    arg: Arg<'a>,
    help: &'a str,
) -> Result<clap::Command<'a>, AllocError>
    ensures { (app : App) (rule : Rule) → arg.entry.global ≡ false → rule_of arg.entry ≡ rule
        → IfOk command.entry (λ c. app_of c ≡ app)
        → IfOk result (λ r. app_of r ≡ with_rule app rule) }
{
    command?.arg(arg.help(help))
}

/// The command `explain`.
fn explain_command<'a>(alloc: Global) -> Result<clap::Command<'a>, AllocError>
    ensures { IfOk result (λ command. app_of command ≡ explain_app) }
{
    let refusal = Arg::new(alloc, "FILE").value_name("REFUSAL").help(
        "The refusal's number, 1 to 16, or its name, spelled as NoNode; without it all of them are listed",
    );
    clap::Command::new(alloc, "explain")
        .about("Tells of a refusal, by its number or its name, why it is and what to do")
        .after_help(helps::EXPLAIN)
        .arg(refusal)
}

/// An option with a number in this range, and what it is where it isn't given.
pub(crate) fn number_option<'a>(
    alloc: Global,
    id: &'a str,
    long: &'a str,
    range: (u64, u64),
    other: &'a str,
) -> Arg<'a>
    ensures rule { rule_of result
        ≡ number_rule id.entry.now long.entry.now range.0 range.1 other.entry.now }
    ensures local { result.global ≡ false }
{
    Arg::new(alloc, id)
        .long(long)
        .value_parser(ValueParser::unsigned(range.0, range.1))
        .default_value(other)
}

/// An option that is given or not.
pub(crate) fn flag_option<'a>(alloc: Global, id: &'a str, long: &'a str) -> Arg<'a>
    ensures rule { rule_of result ≡ flag_rule id.entry.now long.entry.now }
    ensures local { result.global ≡ false }
{
    Arg::new(alloc, id).long(long).action(ArgAction::SetTrue)
}

/// The command `run`.
fn run_command<'a>(alloc: Global) -> Result<clap::Command<'a>, AllocError>
    ensures { IfOk result (λ command. app_of command ≡ run_app) }
{
    let command = command_on(
        alloc,
        "run",
        "Runs a schedule or a recipe and writes its history",
        "The schedule or the recipe; - is standard input",
        helps::RUN,
    );
    let expand = flag_option(alloc, "EXPAND", "expand");
    with_arg(
        command,
        expand,
        "Writes the schedule that a recipe stands for, and no history",
    )
}

/// The command line: `run`, `trace`, `show`, `check`, `place`, `work` and `post` with a FILE, `explain` with a refusal,
/// help and the version.
fn command_line<'a>(
    alloc: Global,
    queues: &'a [&'a str],
    whens: &'a [&'a str],
) -> Result<clap::Command<'a>, AllocError>
    ensures { IfOk result (λ command. app_of command ≡ command_line_app queues.entry whens.entry) }
{
    let program = joined(Ok(bare_program(alloc)), run_command(alloc));
    let program = joined(program, trace_command(alloc));
    let program = joined(program, show_command(alloc, whens));
    let program = joined(program, check_command(alloc));
    let program = joined(program, place_command(alloc));
    let program = joined(program, work_command(alloc, queues));
    let program = joined(program, post_command(alloc, queues));
    joined(program, explain_command(alloc))?.bin_name("msq")
}

/// The program before its commands are added.
fn bare_program<'a>(alloc: Global) -> clap::Command<'a>
    ensures { app_of result ≡ bare_app }
{
    clap::Command::new(alloc, "msq")
        .about(
            "Runs concurrent queues line by line, judges and places histories, does jobs, posts letters",
        )
        .version(VERSION)
        .after_help(helps::PROGRAM)
        .no_binary_name(true)
        .subcommand_required(true)
}

/// The command `trace`.
fn trace_command<'a>(alloc: Global) -> Result<clap::Command<'a>, AllocError>
    ensures { IfOk result (λ command. app_of command ≡ file_app (codes "trace")) }
{
    command_on(
        alloc,
        "trace",
        "Runs a schedule or a recipe and writes each of its steps",
        "The schedule or the recipe; - is standard input",
        helps::TRACE,
    )
}

/// The command `check`.
fn check_command<'a>(alloc: Global) -> Result<clap::Command<'a>, AllocError>
    ensures { IfOk result (λ command. app_of command ≡ file_app (codes "check")) }
{
    command_on(
        alloc,
        "check",
        "Judges a history: writes its table, or what is wrong with it",
        "The history, with its linearization points; - is standard input",
        helps::CHECK,
    )
}

/// A program with one more command, where memory was refused for neither.
fn joined<'a>(
    program: Result<clap::Command<'a>, AllocError>,
    more: Result<clap::Command<'a>, AllocError>,
) -> Result<clap::Command<'a>, AllocError>
    ensures { (app sub : App) → sub.top.is_plain ≡ true → IfOk program.entry (λ p. app_of p ≡ app)
        → IfOk more.entry (λ m. app_of m ≡ sub)
        → IfOk result (λ r. app_of r ≡ with_subcommand app sub.top) }
{
    program?.subcommand(more?)
}

/// The command, or what clap says instead.
fn asked(
    alloc: Global,
    queues: &'static [&'static str],
    whens: &'static [&'static str],
    words: &[String],
) -> Result<Command, clap::Error>
    ensures asked { IfOk result (IsAsked queues.entry whens.entry (map string_bytes words.now)) }
    ensures kinds { IfErr result (HasKind (faults_in queues.entry whens.entry (map string_bytes words.now))) }
    ensures passes { IfErr result (λ e.
        takes (command_line_app queues.entry whens.entry) (map string_bytes words.now) ≡ true
        → kind_of e ≡ ErrorKind.OutOfMemory) }
    ensures none { words.now ≡ [] → IfErr result (λ e. kind_of e ≡ ErrorKind.OutOfMemory) }
{
    if words.is_empty() {
        return Ok(command_of(alloc, Task::Run, "-", false, None)?);
    }
    let matches = command_line(alloc, queues, whens)?.try_get_matches_from(words)?;
    let file = file_in(&matches).unwrap_or("-");
    let (task, explains) = (task_in(&matches), explains_in(&matches));
    Ok(command_of(alloc, task, file, explains, held_in(&matches))?)
}

/// The FILE of the command that clap met.
fn file_in<'a>(matches: &ArgMatches<'a>) -> Option<&'a str>
    ensures { option_map (λ file. file.now) result ≡ file_met (subcommand_rows_of matches.now) }
{
    let (_command, options) = matches.subcommand()?;
    options.get_str("FILE")
}

/// The task of the command that clap met.
fn task_in(matches: &ArgMatches<'_>) -> Task
    ensures { IsTask (subcommand_rows_of matches.now) result }
{
    match matches.subcommand() {
        Some((name, options)) => task_of(name, options),
        None => Task::Run,
    }
}

/// The task of a command of this name, with these options.
fn task_of(name: &str, options: &ArgMatches<'_>) -> Task
    ensures { IsTask (Some (name.now, rows_of (found_of options.now))) result }
{
    if name == "trace" {
        Task::Trace
    } else if name == "show" {
        Task::Show(view_in(options))
    } else if name == "check" {
        Task::Check
    } else if name == "place" {
        Task::Place(placing_in(options))
    } else if name == "work" {
        Task::Work(crew_in(options))
    } else if name == "post" {
        Task::Post(kind_in(options))
    } else if name == "explain" {
        Task::Explain
    } else if flag_in(options, "EXPAND") {
        Task::Expand
    } else {
        Task::Run
    }
}

fn command_of(
    alloc: Global,
    task: Task,
    file: &str,
    explains: bool,
    held: Option<&str>,
) -> Result<Command, AllocError>
    ensures file { IfOk result (λ command. string_bytes command.file ≡ file.now) }
    ensures task { IfOk result (λ command. command.task ≡ task) }
    ensures explains { IfOk result (λ command. command.explains ≡ explains) }
    ensures held { IfOk result (λ command.
        option_map string_bytes command.held ≡ option_map (λ list. list.now) held.entry) }
{
    let file = String::from_str(alloc, file)?;
    let held = match held {
        Some(list) => Some(String::from_str(alloc, list)?),
        None => None,
    };
    Ok(Command {
        task,
        file,
        explains,
        held,
    })
}
