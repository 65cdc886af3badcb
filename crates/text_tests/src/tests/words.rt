use crate::tests::comparisons::same;
use command_line::{Colours, Command, Task, read_words};
use line_table::{Kind, QueueKind};
use std::alloc::{AllocError, Global};
use std::process::Abort;
use std::test::Fail;

/// What a task's words ask for: 1 for a run, 2 for a check, 3 for work, 4 for posting, 5 for placing, 6 for a trace, 7 for a picture, 8 for an
/// explanation; the workers, or the steps, the queue and the nodes.
type Told = (u8, u32, u8, u64);

/// Words, what they ask for, and the file.
const COMMANDS: [(&[&str], Told, &str); 33] = [
    (&[], (1, 0, 0, 0), "-"),
    (&["run", "-"], (1, 0, 0, 0), "-"),
    (&["run", "row.schedule"], (1, 0, 0, 0), "row.schedule"),
    (&["run", ""], (1, 0, 0, 0), ""),
    (&["run", "two words"], (1, 0, 0, 0), "two words"),
    (&["run", "--", "--help"], (1, 0, 0, 0), "--help"),
    (&["run", "--expand", "-"], (9, 0, 0, 0), "-"),
    (&["run", "a", "--expand"], (9, 0, 0, 0), "a"),
    (&["run", "--", "--expand"], (1, 0, 0, 0), "--expand"),
    (&["trace", "-"], (6, 0, 0, 0), "-"),
    (&["trace", "row.schedule"], (6, 0, 0, 0), "row.schedule"),
    (&["check", "-"], (2, 0, 0, 0), "-"),
    (&["check", "row.history"], (2, 0, 0, 0), "row.history"),
    (&["place", "-"], (5, 1_073_741_824, 0, 0), "-"),
    (&["place", "a", "--room", "0"], (5, 0, 0, 0), "a"),
    (
        &["place", "--room=4294967295", "a"],
        (5, 4_294_967_295, 0, 0),
        "a",
    ),
    (&["place", "a", "--why"], (5, 1_073_741_824, 1, 0), "a"),
    (&["work", "a"], (3, 4, 2, 1024), "a"),
    (&["work", "a", "--workers", "1"], (3, 1, 2, 1024), "a"),
    (&["work", "--workers=64", "a"], (3, 64, 2, 1024), "a"),
    (&["work", "-", "--queue", "two-lock"], (3, 4, 1, 1024), "-"),
    (
        &["work", "a", "--queue", "nonblocking"],
        (3, 4, 2, 1024),
        "a",
    ),
    (&["work", "a", "--queue", "ring"], (3, 4, 3, 1024), "a"),
    (
        &["work", "a", "--nodes", "16777214", "--workers", "2"],
        (3, 2, 2, 16_777_214),
        "a",
    ),
    (&["post", "a"], (4, 0, 2, 0), "a"),
    (&["post", "--queue=two-lock", "-"], (4, 0, 1, 0), "-"),
    (&["post", "a", "--queue", "nonblocking"], (4, 0, 2, 0), "a"),
    (&["post", "a", "--queue", "ring"], (4, 0, 3, 0), "a"),
    (&["explain"], (8, 0, 0, 0), "-"),
    (&["explain", "10"], (8, 0, 0, 0), "10"),
    (&["explain", "WornOut"], (8, 0, 0, 0), "WornOut"),
    (&["explain", "17"], (8, 0, 0, 0), "17"),
    (&["explain", "--", "--help"], (8, 0, 0, 0), "--help"),
];

/// Words that ask for a command, and whether they ask for the explanation of a fault.
const EXPLAINED: [(&[&str], bool); 18] = [
    (&[], false),
    (&["run", "a"], false),
    (&["run", "a", "--explain"], true),
    (&["run", "--explain", "-"], true),
    (&["run", "--", "--explain"], false),
    (&["trace", "a"], false),
    (&["trace", "a", "--explain"], true),
    (&["show", "--history", "a"], false),
    (&["show", "--history", "a", "--explain"], true),
    (&["check", "a"], false),
    (&["check", "--explain", "a"], true),
    (&["place", "a", "--room", "9"], false),
    (&["place", "a", "--explain", "--room", "9"], true),
    (&["work", "--workers", "2", "a"], false),
    (&["work", "--explain", "--workers", "2", "a"], true),
    (&["post", "a"], false),
    (&["post", "a", "--explain"], true),
    (&["explain", "1"], false),
];

/// Words that ask for a picture, its columns, its first and its last step, its actor, whether it is of a history, whether lines are
/// told, whether a reason is drawn, and the file.
const PICTURES: [(&[&str], [u64; 4], [bool; 3], &str); 7] = [
    (&["show", "a"], [80, 1, 0, 0], [false, false, false], "a"),
    (
        &["show", "--width", "40", "-"],
        [40, 1, 0, 0],
        [false, false, false],
        "-",
    ),
    (
        &["show", "--history", "a"],
        [80, 1, 0, 0],
        [true, false, false],
        "a",
    ),
    (
        &["show", "a", "--lines"],
        [80, 1, 0, 0],
        [false, true, false],
        "a",
    ),
    (
        &["show", "--why", "a"],
        [80, 1, 0, 0],
        [false, false, true],
        "a",
    ),
    (
        &[
            "show",
            "a",
            "--from=18446744073709551614",
            "--to",
            "18446744073709551614",
        ],
        [
            80,
            18_446_744_073_709_551_614,
            18_446_744_073_709_551_614,
            0,
        ],
        [false, false, false],
        "a",
    ),
    (
        &["show", "--width=190", "a", "--actor", "65535", "--history"],
        [190, 1, 0, 65_535],
        [true, false, false],
        "a",
    ),
];

/// Words that ask for a picture, and when it has colours.
const COLOURED: [(&[&str], Colours); 5] = [
    (&["show", "a"], Colours::Auto),
    (&["show", "--color", "auto", "a"], Colours::Auto),
    (&["show", "--color=always", "a"], Colours::Always),
    (&["show", "a", "--color", "never"], Colours::Never),
    (
        &["show", "--history", "a", "--color", "always", "--lines"],
        Colours::Always,
    ),
];

/// Words that ask for no command, and the status.
const OTHERS: [(&[&str], u8); 62] = [
    (&["run"], 2),
    (&["run", "a", "b"], 2),
    (&["run", "--fast", "a"], 2),
    (&["trace"], 2),
    (&["trace", "a", "b"], 2),
    (&["traces", "a"], 2),
    (&["show"], 2),
    (&["show", "a", "b"], 2),
    (&["show", "a", "--width", "39"], 2),
    (&["show", "a", "--width", "191"], 2),
    (&["show", "a", "--from", "0"], 2),
    (&["show", "a", "--from", "18446744073709551616"], 2),
    (&["show", "a", "--to", "18446744073709551616"], 2),
    (&["show", "a", "--to", "2", "--from", "3"], 2),
    (
        &[
            "show",
            "a",
            "--from=18446744073709551615",
            "--to=18446744073709551614",
        ],
        2,
    ),
    (&["show", "a", "--actor", "65536"], 2),
    (&["show", "a", "--history=true"], 2),
    (&["show", "a", "--why=true"], 2),
    (&["show", "a", "--color"], 2),
    (&["show", "a", "--color", "yes"], 2),
    (&["show", "a", "--colour", "never"], 2),
    (&["show", "--help"], 0),
    (&["check"], 2),
    (&["place"], 2),
    (&["place", "a", "b"], 2),
    (&["place", "a", "--room", "4294967296"], 2),
    (&["work"], 2),
    (&["work", "a", "b"], 2),
    (&["place", "a", "--why=1"], 2),
    (&["place", "a", "--holds"], 2),
    (&["place", "a", "--holds=x", "--holds=x"], 2),
    (&["check", "a", "--holds", "x"], 2),
    (&["check", "a", "--why"], 2),
    (&["work", "a", "--workers", "0"], 2),
    (&["work", "a", "--workers", "65"], 2),
    (&["work", "a", "--nodes", "1"], 2),
    (&["work", "a", "--nodes", "16777215"], 2),
    (&["work", "a", "--queue", "non-blocking"], 2),
    (&["work", "a", "--workers", "2", "--workers", "2"], 2),
    (&["run", "a", "--workers", "2"], 2),
    (&["work", "--help"], 0),
    (&["post"], 2),
    (&["post", "a", "b"], 2),
    (&["post", "a", "--workers", "2"], 2),
    (&["post", "a", "--queue", "two_lock"], 2),
    (&["post", "a", "--queue", "Ring"], 2),
    (&["post", "--help"], 0),
    (&["explain", "1", "2"], 2),
    (&["explain", "1", "--explain"], 2),
    (&["explain", "--help"], 0),
    (&["run", "--explain"], 2),
    (&["run", "a", "--explain=true"], 2),
    (&["run", "--expand"], 2),
    (&["run", "a", "--expand", "--expand"], 2),
    (&["trace", "a", "--expand"], 2),
    (&["run", "a", "--explain", "--explain"], 2),
    (&["--explain"], 2),
    (&["-"], 2),
    (&["Run", "a"], 2),
    (&["--help"], 0),
    (&["check", "--help"], 0),
    (&["--version"], 0),
];

fn told(task: Task) -> Told {
    match task {
        Task::Run => (1, 0, 0, 0),
        Task::Check => (2, 0, 0, 0),
        Task::Work(crew) => (3, crew.workers, number_of(crew.kind), u64::from(crew.nodes)),
        Task::Post(kind) => (4, 0, number_of(kind), 0),
        Task::Place(placing) => (5, placing.room, u8::from(placing.tells_why), 0),
        Task::Trace => (6, 0, 0, 0),
        Task::Show(view) => (7, view.width, 0, view.to),
        Task::Explain => (8, 0, 0, 0),
        Task::Expand => (9, 0, 0, 0),
    }
}

/// The number of a queue's kind.
fn number_of(kind: QueueKind) -> u8 {
    match kind {
        QueueKind::Linked(Kind::TwoLock) => 1,
        QueueKind::Linked(Kind::NonBlocking) => 2,
        QueueKind::Ring => 3,
    }
}

fn strings(alloc: Global, words: &[&str]) -> Result<Vec<String>, AllocError> {
    let mut strings = Vec::new(alloc);
    for word in words {
        strings.push(String::from_str(alloc, word)?)?;
    }
    Ok(strings)
}

/// The words ask for this task with this file; else their status is this one, and there is a text.
fn answers(
    rt: &impl Abort,
    alloc: Global,
    words: &[&str],
    want: Result<(Told, &str), u8>,
) -> Result<(), AllocError> {
    let answer = read_words(alloc, &strings(alloc, words)?);
    let found = match &answer {
        Ok(command) => Ok((told(command.task), command.file.as_str())),
        Err((status, text)) => Err((*status, text.is_empty())),
    };
    let want = want.map_err(|status| (status, false));
    same(rt, found, want, format_args!("{words:?}"));
    Ok(())
}

#[test]
fn reads_what_to_do_with_which_file(rt: HostRuntime) -> Result<(), Fail> {
    for (words, task, file) in &COMMANDS {
        answers(&rt, rt.alloc(), words, Ok((*task, *file)))?;
    }
    Ok(())
}

#[test]
fn reads_what_a_picture_shows(rt: HostRuntime) -> Result<(), Fail> {
    for (words, view, flags, file) in &PICTURES {
        let answer = read_words(rt.alloc(), &strings(rt.alloc(), words)?);
        let found = match &answer {
            Ok(
                Command {
                    task: Task::Show(view),
                    file,
                    ..
                },
            ) => Some((
                [
                    u64::from(view.width),
                    view.from,
                    view.to,
                    u64::from(view.actor),
                ],
                [view.is_history, view.has_legend, view.draws_reason],
                file.as_str(),
            )),
            _ => None,
        };
        let due = Some((*view, *flags, *file));
        same(&rt, found, due, format_args!("{words:?}"));
    }
    Ok(())
}

// What the option for it is called.
fn name_of(colours: Colours) -> &'static str {
    match colours {
        Colours::Auto => "auto",
        Colours::Always => "always",
        Colours::Never => "never",
    }
}

#[test]
fn reads_when_a_picture_has_colours(rt: HostRuntime) -> Result<(), Fail> {
    for (words, colours) in &COLOURED {
        let answer = read_words(rt.alloc(), &strings(rt.alloc(), words)?);
        let found = match &answer {
            Ok(
                Command {
                    task: Task::Show(view),
                    ..
                },
            ) => Some(name_of(view.colours)),
            _ => None,
        };
        same(
            &rt,
            found,
            Some(name_of(*colours)),
            format_args!("{words:?}"),
        );
    }
    Ok(())
}

#[test]
fn reads_whether_a_fault_is_explained(rt: HostRuntime) -> Result<(), Fail> {
    for (words, explains) in &EXPLAINED {
        let answer = read_words(rt.alloc(), &strings(rt.alloc(), words)?);
        let found = match &answer {
            Ok(command) => Some(command.explains),
            Err(_) => None,
        };
        same(&rt, found, Some(*explains), format_args!("{words:?}"));
    }
    Ok(())
}

/// Words, and the list of what the queue holds that they give.
const HELD: [(&[&str], Option<&str>); 5] = [
    (&[], None),
    (&["check", "a"], None),
    (&["place", "a", "--why"], None),
    (&["place", "a", "--holds", "tea,milk"], Some("tea,milk")),
    (&["place", "--holds=", "a"], Some("")),
];

#[test]
fn reads_what_a_queue_holds(rt: HostRuntime) -> Result<(), Fail> {
    for (words, held) in &HELD {
        let answer = read_words(rt.alloc(), &strings(rt.alloc(), words)?);
        let found = match &answer {
            Ok(command) => Some(command.held.as_ref().map(|list| list.as_str())),
            Err(_) => None,
        };
        same(&rt, found, Some(*held), format_args!("{words:?}"));
    }
    Ok(())
}

#[test]
fn refuses_other_words(rt: HostRuntime) -> Result<(), Fail> {
    for (words, want) in &OTHERS {
        answers(&rt, rt.alloc(), words, Err(*want))?;
    }
    Ok(())
}
