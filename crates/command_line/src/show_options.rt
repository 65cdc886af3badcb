//! The command `show`, which has the most options.
ghost use Rattle.std.specs.Prelude.{◌≡◌, IfOk, false};
ghost use Rattle.clap.specs.Words.{app_of, rule_of};
ghost use Rattle.command_line.specs.Commands.{color_rule, show_app};

use crate::commands::{command_on, flag_option, number_option, with_arg};
use crate::helps;
use clap::Arg;
use std::alloc::{AllocError, Global};

/// The command `show`.
pub(crate) fn show_command<'a>(
    alloc: Global,
    whens: &'a [&'a str],
) -> Result<clap::Command<'a>, AllocError>
    ensures { IfOk result (λ command. app_of command ≡ show_app whens.entry) }
{
    let command = command_on(
        alloc,
        "show",
        "Runs a schedule or a recipe and draws it: an actor a column, a step a row; or draws a history",
        "The schedule or the recipe; with --history a history, with --why a history or a recording; - is standard input",
        helps::SHOW,
    );
    let width = number_option(alloc, "WIDTH", "width", (40, 190), "80");
    let help = "How many columns a row has at most, 40 to 190";
    let command = with_arg(command, width, help);
    let from = number_option(alloc, "FROM", "from", (1, u64::MAX), "1");
    let command = with_arg(command, from, "The first step that is shown, 1 to 2^64 - 1");
    let to = number_option(alloc, "TO", "to", (0, u64::MAX), "0");
    let help = "The last step that is shown, FROM or a later one; 0 for a hundred steps";
    let command = with_arg(command, to, help);
    let actor = number_option(alloc, "ACTOR", "actor", (0, 65_535), "0");
    let help = "The one actor that is shown; 0 for as many as have room";
    let command = with_arg(command, actor, help);
    let history = flag_option(alloc, "HISTORY", "history");
    let help = "Draws the timeline of a history: an operation a row";
    let command = with_arg(command, history, help);
    let page = flag_option(alloc, "HTML", "html");
    let help =
        "Writes a page for a browser that goes through the run, or with --history through the history or the recording";
    let command = with_arg(command, page, help);
    let why = flag_option(alloc, "WHY", "why");
    let help = "Draws the reason why a history or a recording isn't linearizable";
    let command = with_arg(command, why, help);
    let lines = flag_option(alloc, "LINES", "lines");
    let help = "Tells behind a picture what each line in its rows does";
    let command = with_arg(command, lines, help);
    let help =
        "When a picture or a timeline has colours; auto: on a terminal, unless NO_COLOR is set";
    with_arg(command, color_option(alloc, whens), help)
}

/// The option with one of the times at which a picture has colours.
fn color_option<'a>(alloc: Global, whens: &'a [&'a str]) -> Arg<'a>
    ensures rule { rule_of result ≡ color_rule whens.entry }
    ensures local { result.global ≡ false }
{
    Arg::new(alloc, "COLOR")
        .long("color")
        .value_parser(whens)
        .default_value("auto")
}
