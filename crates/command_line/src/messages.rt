//! What clap says of words, and what is told of steps that go backward.
ghost use Rattle.std.specs.Prelude.{◌≡◌, ◌⊎◌, [], IfNone, IfSome, string_bytes};
ghost use Rattle.clap.specs.Words.{kind_of};
ghost use Rattle.command_line.specs.Commands.{status_at, GoesForward};

use crate::commands::Task;
use clap::error::ErrorKind;
use std::alloc::Global;

/// The status and the text of what clap says.
pub(crate) fn told(alloc: Global, error: &clap::Error) -> (u8, String)
    ensures status { (result.0 ≡ 1) ⊎ (result.0 ≡ status_at (kind_of error.now)) }
    ensures memory { result.0 ≡ 1 → string_bytes result.1 ≡ [] }
    ensures refused { kind_of error.now ≡ ErrorKind.OutOfMemory → result.0 ≡ 1 }
{
    if error.kind() == ErrorKind::OutOfMemory {
        return (1, String::new(alloc));
    }
    match format!(in alloc; "{error}") {
        Ok(text) => (if error.use_stderr() { 2 } else { 0 }, text),
        Err(_) => (1, String::new(alloc)),
    }
}

/// The first and the last step that a task shows, where the last one is below the first.
pub(crate) fn steps_backward(task: Task) -> Option<(u64, u64)>
    ensures none { IfNone result (GoesForward task) }
    ensures some { IfSome result (λ steps. ¬ GoesForward task) }
{
    let Task::Show(view) = task else {
        return None;
    };
    if view.to == 0 || view.from <= view.to {
        return None;
    }
    Some((view.from, view.to))
}

/// The status and the text for steps that go backward.
pub(crate) fn told_backward(alloc: Global, first: u64, last: u64) -> (u8, String)
    ensures status { (result.0 ≡ 1) ⊎ (result.0 ≡ 2) }
    ensures memory { result.0 ≡ 1 → string_bytes result.1 ≡ [] }
{
    let text = format!(in alloc;
        "error: '--to {last}' is below '--from {first}', so no step would be shown\n"
    );
    match text {
        Ok(text) => (2, text),
        Err(_) => (1, String::new(alloc)),
    }
}
