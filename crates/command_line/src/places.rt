//! The words of `place`.
ghost use Rattle.std.specs.Prelude.{◌≡◌, IfOk, false, option_map};
ghost use Rattle.clap.specs.Words.{app_of, rule_of, subcommand_rows_of};
ghost use Rattle.command_line.specs.Commands.{held_met, held_rule, place_app};

use crate::commands::{command_on, flag_option, number_option, with_arg};
use crate::helps;
use clap::{Arg, ArgMatches};
use std::alloc::{AllocError, Global};

/// The command `place`.
pub(crate) fn place_command<'a>(alloc: Global) -> Result<clap::Command<'a>, AllocError>
    ensures { IfOk result (λ command. app_of command ≡ place_app) }
{
    let command = command_on(
        alloc,
        "place",
        "Finds linearization points for a recorded history, or a reason why there are none",
        "The recording, or the history, whose points are not read; - is standard input",
        helps::PLACE,
    );
    let room = number_option(alloc, "ROOM", "room", (0, 4_294_967_295), "1073741824");
    let command = with_arg(
        command,
        room,
        "How many bytes the states of a search may take, up to 4294967295",
    );
    let why = flag_option(alloc, "WHY", "why");
    let command = with_arg(
        command,
        why,
        "Writes the lines of a reason's operations, with their numbers",
    );
    with_arg(
        command,
        held_option(alloc),
        "What the queue of a recording, not of a history, holds at the start, the front first, as tea,milk",
    )
}

/// The option with a list of what the queue holds at the start.
fn held_option<'a>(alloc: Global) -> Arg<'a>
    ensures rule { rule_of result ≡ held_rule }
    ensures local { result.global ≡ false }
{
    Arg::new(alloc, "HOLDS").long("holds")
}

/// The list of what the queue holds at the start, of the command that clap met.
pub(crate) fn held_in<'a>(matches: &ArgMatches<'a>) -> Option<&'a str>
    ensures { option_map (λ list. list.now) result ≡ held_met (subcommand_rows_of matches.now) }
{
    let (_command, options) = matches.subcommand()?;
    options.get_str("HOLDS")
}
