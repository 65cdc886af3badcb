//! Tasks that `run_all` runs: each is called once, whichever threads there are, and a task that fails takes no others with it.
use super::counted_tasks::{calls, others, tasks, wanted};
use crate::tests::comparisons::same;
use history::Refusal;
use std::alloc::Global;
use std::process::Abort;
use std::sync::Wait;
use std::test::Fail;
use std::thread::Threads;
use tasks::run_all;

/// How many tasks there are, and by how many workers they are run; by as many as run at once here where that is left open.
const RUNS: [(u64, Option<usize>); 10] = [
    (0, None),
    (0, Some(0)),
    (1, Some(0)),
    (1, None),
    (2, Some(1)),
    (7, Some(64)),
    (300, Some(0)),
    (1000, Some(2)),
    (1000, Some(8)),
    (3000, None),
];

// Runs so many tasks; how many have another answer than their own, and how many weren't run just once.
fn run_with<R: Threads + Wait + Sync>(
    rt: &R,
    alloc: Global,
    many: u64,
    workers: Option<usize>,
) -> Result<(u64, usize, usize), Fail> {
    let calls = calls(alloc, many)?;
    let tasks = tasks(alloc, many, &calls)?;
    let Ok(answers) = run_all(rt, alloc, tasks, workers) else {
        return Err(Fail::from(Refusal::Memory));
    };
    let mut number = 0u64;
    let mut wrong = 0;
    for answer in answers {
        if answer != wanted(number) {
            wrong += 1;
        }
        number += 1;
    }
    Ok((number, wrong, others(&calls, 1)))
}

/// Each task is called once, and its own answer stands at its place, though every third task fails.
#[test]
fn each_task_is_called_once(rt: HostRuntime) -> Result<(), Fail> {
    for (many, workers) in RUNS {
        let found = run_with(&rt, rt.alloc(), many, workers)?;
        same(&rt, found, (many, 0, 0), (many, workers));
    }
    Ok(())
}
