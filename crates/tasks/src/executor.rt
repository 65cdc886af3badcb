//! Tasks that are run, and the answer of each.
ghost use Rattle.std.specs.Prelude.{◌≡◌, ◌≤◌, [], length, vec_capacity, IfOk, IfErr};
ghost use Rattle.std.specs.List.{AllZip};
ghost use Rattle.tasks.specs.Settled.{IsSettled, AreSettled};

use crate::answers::Outcome;
use crate::new_queues::{MOST_WORKERS, nodes_for, pool_queue};
use crate::pools::{Unrun, run_on};
use crate::runs::Task;
use history::Refusal;
use node_arena::MOST_COUNT;
use nonblocking::NonBlockingAlgorithm;
use std::alloc::Global;
use std::sync::Wait;
use std::thread;
use std::thread::Threads;

/// Why a pool wasn't started, and what it was given: its tasks, or its feed.
#[derive(Drop)]
pub struct Unstarted<G> {
    pub refusal: Refusal,
    pub given: G,
}

// How many workers so many tasks get: as many as are asked for; else as many as run at once here, but no more than tasks.
fn workers_for<R: Threads>(rt: &R, asked: Option<usize>, tasks: usize) -> usize
    ensures { result ≤ 65534 }
{
    let workers = match asked {
        Some(workers) => workers,
        None => match thread::available_parallelism(rt) {
            Ok(count) => count.get().min(tasks),
            Err(_) => 1,
        },
    };
    workers.min(MOST_WORKERS)
}

// Room for the answers of so many tasks.
fn room_for<A: Drop>(alloc: Global, tasks: usize) -> Result<Vec<A>, Refusal>
    ensures none { IfOk result (λ answers. answers.items ≡ []) }
    ensures room { IfOk result (λ answers. tasks ≤ vec_capacity answers) }
    ensures only_memory { IfErr result (λ refusal. refusal ≡ Refusal.Memory) }
{
    let mut answers = Vec::new(alloc);
    match answers.reserve(tasks) {
        Ok(()) => Ok(answers),
        Err(_) => Err(Refusal::Memory),
    }
}

// The answer of a task, which is run here where it was left.
fn settle<T: Task>(outcome: Outcome<T, Result<T::Output, T::Error>>) -> Result<T::Output, T::Error>
    ensures { IsSettled T.answers outcome result }
{
    match outcome {
        Outcome::Answered(answer) => answer,
        Outcome::Left(task) => task.run(),
    }
}

// The answer of each task.
fn answer_each<T: Task>(
    outcomes: Vec<Outcome<T, Result<T::Output, T::Error>>>,
    mut answers: Vec<Result<T::Output, T::Error>>,
) -> Vec<Result<T::Output, T::Error>>
    requires room { length outcomes.items ≤ vec_capacity answers }
    requires none { answers.items ≡ [] }
    ensures { AreSettled T.answers outcomes.items result.items }
{
    for outcome in outcomes {
        answers.push_reserved(settle(outcome));
    }
    answers
}

/// Runs each of these tasks, in so many threads; where no number is said, in as many as run at once here. Its own answer of
/// each, in the tasks' order.
///
/// A task that fails is answered by its error, and the others go on. Which thread runs which is left open; one whose worker
/// is refused, and one for which the queue has no room, runs in the caller's thread.
///
/// Refusals: `Memory`, before any task is run; all tasks come back. Takes memory for three answers a task, a node and a slot
/// a task, and the threads for their results; waits.
///
/// ```rust
/// let answers = run_all(rt, alloc, tasks, None)?;
/// ```
pub fn run_all<R: Threads + Wait + Sync, T: Task>(
    rt: &R,
    alloc: Global,
    tasks: Vec<T>,
    workers: Option<usize>,
) -> Result<Vec<Result<T::Output, T::Error>>, Unstarted<Vec<T>>>
    //= tasks/run_all (answers, tasks, only_memory): Each task is answered once, at its own place, by its own answer;
    //=   or `Memory` is refused, and all come back. That none was run then, no clause says.
    ensures answers { IfOk result (λ answers. AllZip T.answers tasks.items answers.items) }
    ensures tasks { IfErr result (λ unstarted. unstarted.given.items ≡ tasks.items) }
    ensures only_memory { IfErr result (λ unstarted. unstarted.refusal ≡ Refusal.Memory) }
{
    let workers = workers_for(rt, workers, tasks.len());
    let answers = match room_for(alloc, tasks.len()) {
        Ok(answers) => answers,
        Err(refusal) => return Err(Unstarted {
            refusal,
            given: tasks,
        }),
    };
    let nodes = nodes_for(tasks.len());
    match pool_queue::<T, NonBlockingAlgorithm, 24>(alloc, nodes, MOST_COUNT, workers) {
        Ok((queue, seats)) => match run_on(rt, alloc, queue, seats, tasks) {
            Ok(ran) => Ok(answer_each(ran.outcomes, answers)),
            Err(unrun) => {
                let Unrun {
                    queue: _,
                    seats: _,
                    tasks,
                } = unrun;
                let refusal = Refusal::Memory;
                Err(Unstarted {
                    refusal,
                    given: tasks,
                })
            }
        },
        Err(refusal) => Err(Unstarted {
            refusal,
            given: tasks,
        }),
    }
}
