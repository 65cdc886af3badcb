//! What help says at its end: an example, and where the texts are described.

/// The program's own.
pub(crate) const PROGRAM: &str = "What reads a text, by its first line:
  msq schedule 1, or 2  run, trace, show: a schedule
  msq schedule 3        run, trace, show: a recipe
  history K             check, place, show --history, show --why
  msq record 1          place, show --why, show --html --history: a recording
  jobs K                work
  mail S K              post

With no words at all it runs the schedule on standard input.

Exit statuses:
  0  done, or help or the version was asked for
  1  refused, with one line on standard error: docs/FAULTS.md has each refusal
  2  the words were refused
  3  check or place said no
  4  place left it open

Where standard error is a terminal, lines behind that of a refusal explain it, as they do elsewhere with --explain, and a call
that takes over a second shows how far it is.";

/// That of `run`.
pub(crate) const RUN: &str = "Examples:
  msq run examples/first_run.schedule
  msq run --expand examples/turns.recipe

The texts: docs/FORMATS.md, Schedule, Recipe and History";

/// That of `trace`.
pub(crate) const TRACE: &str = "Example:
  msq trace examples/first_run.schedule

The texts: docs/FORMATS.md, Schedule and Trace";

/// That of `show`.
pub(crate) const SHOW: &str = "Examples:
  msq show --width 100 --lines examples/first_run.schedule
  msq show --html examples/reused_node.schedule
  msq show --history examples/first_run.history
  msq show --why examples/overtaken.recording
  msq show --html --history examples/overtaken.recording

The texts: docs/FORMATS.md, Schedule, History and Recording; what is drawn: docs/PICTURES.md";

/// That of `check`.
pub(crate) const CHECK: &str = "Example:
  msq check examples/first_run.history

A recorded history has no points, so what is written is no 1 Shape: msq place finds points for it, or a reason why there are
none.

The texts: docs/FORMATS.md, History and Verdict";

/// That of `place`.
pub(crate) const PLACE: &str = "Examples:
  msq place examples/pending_pop.recording
  msq place --why examples/overtaken.recording
  msq place --holds milk,tea examples/held/overtaken.recording

The texts: docs/FORMATS.md, History, Recording and Placed history";

/// That of `work`.
pub(crate) const WORK: &str = "Example:
  msq work examples/each_kind.jobs --workers 2 --queue two-lock

The texts: docs/FORMATS.md, Jobs and Results";

/// That of `post`.
pub(crate) const POST: &str = "Example:
  msq post examples/two_senders.mail

The texts: docs/FORMATS.md, Mail and Letters";

/// That of `explain`.
pub(crate) const EXPLAIN: &str = "Examples:
  msq explain
  msq explain NoNode

docs/FAULTS.md has the table";
