//! What is read of the options of a command.
ghost use Rattle.std.specs.Prelude.{◌≡◌, codes};
ghost use Rattle.clap.specs.Words.{first_of, found_of, one_of, rows_of, subcommand_rows_of};
ghost use Rattle.command_line.specs.Commands.{colours_by, colours_named, kind_by, kind_named, AsksForCauses, IsCrewOf, IsPlacingOf, IsViewOf, SaysFlag, SaysNumber, SaysNumberIn};

use crate::commands::{Colours, Crew, ShowOptions};
use clap::ArgMatches;
use line_table::{Kind, QueueKind};

/// How many workers there are where the words don't say it.
const USUAL_WORKERS: u32 = 4;

/// How many nodes there are where the words don't say it.
const USUAL_NODES: u32 = 1024;

/// How many columns a picture has at most where the words don't say it.
const USUAL_WIDTH: u32 = 80;

/// How many bytes the states of a search for an order take at most where the words don't say it.
const USUAL_ROOM: u32 = 1_073_741_824;

/// The first step that a picture shows where the words don't say it.
const USUAL_FROM: u64 = 1;

/// How `place` looks for points.
#[derive(Clone, Copy)]
pub struct Placing {
    /// How many bytes the states of a search take at most.
    pub room: u32,
    /// Whether the lines of a reason's operations are told.
    pub tells_why: bool,
}

/// What is shown, among the options of `show`.
pub(crate) fn view_in(options: &ArgMatches<'_>) -> ShowOptions
    ensures { IsViewOf (rows_of (found_of options.now)) result }
{
    ShowOptions {
        width: number_in(options, "WIDTH", USUAL_WIDTH),
        from: wide_number_in(options, "FROM", USUAL_FROM),
        to: wide_number_in(options, "TO", 0),
        actor: number_in(options, "ACTOR", 0),
        is_history: flag_in(options, "HISTORY"),
        is_page: flag_in(options, "HTML"),
        draws_reason: flag_in(options, "WHY"),
        has_legend: flag_in(options, "LINES"),
        colours: colours_in(options),
    }
}

/// Whether this option is given.
pub(crate) fn flag_in(options: &ArgMatches<'_>, id: &str) -> bool
    ensures { SaysFlag (one_of id.now (rows_of (found_of options.now))) result }
{
    options.get_flag(id)
}

/// Whether the command that clap met asks for a fault's explanation.
pub(crate) fn explains_in(matches: &ArgMatches<'_>) -> bool
    ensures { AsksForCauses (subcommand_rows_of matches.now) result }
{
    match matches.subcommand() {
        Some((_command, options)) => flag_in(options, "EXPLAIN"),
        None => false,
    }
}

/// The workers, the queue and the nodes among the options of `work`.
pub(crate) fn crew_in(options: &ArgMatches<'_>) -> Crew
    ensures { IsCrewOf (rows_of (found_of options.now)) result }
{
    Crew {
        workers: number_in(options, "WORKERS", USUAL_WORKERS),
        kind: kind_in(options),
        nodes: number_in(options, "NODES", USUAL_NODES),
    }
}

/// How points are looked for, among the options of `place`.
pub(crate) fn placing_in(options: &ArgMatches<'_>) -> Placing
    ensures { IsPlacingOf (rows_of (found_of options.now)) result }
{
    Placing {
        room: number_in(options, "ROOM", USUAL_ROOM),
        tells_why: flag_in(options, "WHY"),
    }
}

/// The number of this option, and another one where there is none.
fn number_in(options: &ArgMatches<'_>, id: &str, other: u32) -> u32
    ensures { SaysNumber (one_of id.now (rows_of (found_of options.now))) other result }
{
    match options.get_one::<u32>(id) {
        Some(number) => number,
        None => other,
    }
}

/// The same, of 64 bits.
fn wide_number_in(options: &ArgMatches<'_>, id: &str, other: u64) -> u64
    ensures { SaysNumberIn 64 (one_of id.now (rows_of (found_of options.now))) other result }
{
    match options.get_one::<u64>(id) {
        Some(wide) => wide,
        None => other,
    }
}

/// The kind of the queue that is named, and the usual one where none is.
pub(crate) fn kind_in(options: &ArgMatches<'_>) -> QueueKind
    ensures { result ≡ kind_named (first_of (codes "QUEUE") (rows_of (found_of options.now))) }
{
    match options.get_str("QUEUE") {
        Some(name) => kind_of(name),
        None => QueueKind::Linked(Kind::NonBlocking),
    }
}

/// The kind of the queue of this name.
fn kind_of(name: &str) -> QueueKind
    ensures { result ≡ kind_by name.now }
{
    if name == "two-lock" {
        QueueKind::Linked(Kind::TwoLock)
    } else if name == "ring" {
        QueueKind::Ring
    } else {
        QueueKind::Linked(Kind::NonBlocking)
    }
}

/// When a picture has colours, by the name of the time, and by the usual one where none is named.
fn colours_in(options: &ArgMatches<'_>) -> Colours
    ensures { result ≡ colours_named (first_of (codes "COLOR") (rows_of (found_of options.now))) }
{
    match options.get_str("COLOR") {
        Some(name) => colours_of(name),
        None => Colours::Auto,
    }
}

/// When a picture has colours that is named so.
fn colours_of(name: &str) -> Colours
    ensures { result ≡ colours_by name.now }
{
    if name == "always" {
        Colours::Always
    } else if name == "never" {
        Colours::Never
    } else {
        Colours::Auto
    }
}
