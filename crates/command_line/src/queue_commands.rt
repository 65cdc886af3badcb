//! The commands that work over a queue, `work` and `post`.
ghost use Rattle.std.specs.Prelude.{◌≡◌, IfOk, false};
ghost use Rattle.clap.specs.Words.{app_of, rule_of};
ghost use Rattle.command_line.specs.Commands.{post_app, queue_rule, work_app};

use crate::commands::{command_on, number_option, with_arg};
use crate::helps;
use clap::Arg;
use counted_ref::MOST_NODE;
use std::alloc::{AllocError, Global};

/// The command `work`, with the names of the queues.
pub(crate) fn work_command<'a>(
    alloc: Global,
    queues: &'a [&'a str],
) -> Result<clap::Command<'a>, AllocError>
    ensures { IfOk result (λ command. app_of command ≡ work_app queues.entry) }
{
    let command = command_on(
        alloc,
        "work",
        "Does jobs by workers over a queue, and writes the table of their results",
        "The jobs; - is standard input",
        helps::WORK,
    );
    let workers = number_option(alloc, "WORKERS", "workers", (1, 64), "4");
    let command = with_arg(
        command,
        workers,
        "How many workers there are, each a thread, 1 to 64",
    );
    let command = with_arg(command, queue_option(alloc, queues), "The queue");
    let nodes = number_option(alloc, "NODES", "nodes", (2, MOST_NODE as u64), "1024");
    with_arg(
        command,
        nodes,
        "How many nodes the queue has, or values a ring is full of, from 3 more than workers to 2^24 - 2",
    )
}

/// The command `post`, with the names of the queues.
pub(crate) fn post_command<'a>(
    alloc: Global,
    queues: &'a [&'a str],
) -> Result<clap::Command<'a>, AllocError>
    ensures { IfOk result (λ command. app_of command ≡ post_app queues.entry) }
{
    let command = command_on(
        alloc,
        "post",
        "Sends letters, each sender's in a thread, over a queue to one receiver, and writes them",
        "The letters; - is standard input",
        helps::POST,
    );
    with_arg(command, queue_option(alloc, queues), "The queue")
}

/// The option with one of the names of the queues.
fn queue_option<'a>(alloc: Global, queues: &'a [&'a str]) -> Arg<'a>
    ensures rule { rule_of result ≡ queue_rule queues.entry }
    ensures local { result.global ≡ false }
{
    Arg::new(alloc, "QUEUE")
        .long("queue")
        .value_parser(queues)
        .default_value("nonblocking")
}
