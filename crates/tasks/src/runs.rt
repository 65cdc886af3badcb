//! What a worker runs.
ghost use Rattle.std.specs.Prelude.{◌≡◌, Result};
ghost use Rattle.tasks.specs.Tasks.{IsDoneOf};

use crate::answers::Done;

/// What a worker runs, in a thread of its own. It is given up to be run, so it runs once, and may own what it needs.
///
/// A task may fail, by an error of its own type, and the others go on.
pub trait Task: Send + Drop {
    /// What it gives.
    type Output: Send + Drop;

    /// Why it fails.
    type Error: Send + Drop;

    // What it may answer.
    ghost answers: { Self → Result Self.Output Self.Error → Type 0 };

    /// Runs it. Whether it takes memory, its type says.
    fn run(self) -> Result<Self::Output, Self::Error>
        //= tasks/answer: What a task answers is what its type says of it.
        ensures { answers self result };
}

/// A task and its number, in order of submission from 0 on: what goes through a queue.
#[derive(Debug, Drop)]
pub struct Numbered<T> {
    pub number: usize,
    pub task: T,
}

impl<T: Task> Numbered<T> {
    /// Runs the task.
    pub fn run(self) -> Done<Result<T::Output, T::Error>>
        //= tasks/run: The result of a task has the task's number, and its own answer.
        ensures { IsDoneOf T.answers self result }
    {
        let Numbered { number, task } = self;
        Done {
            number,
            answer: task.run(),
        }
    }
}
