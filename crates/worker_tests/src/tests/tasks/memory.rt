//! Tasks where memory is refused: all come back, or each is answered.
use super::counted_tasks::{Calls, Counting, calls, others, tasks, wanted};
use super::fed::Row;
use crate::tests::comparisons::same;
use history::Refusal;
use std::alloc::Global;
use std::process::Abort;
use std::sync::{Arc, Wait};
use std::test::Fail;
use std::thread::Threads;
use tasks::{Unstarted, run_all, run_feed};

/// How many tasks there are.
const MANY: u64 = 20;

/// Where one allocation is refused, no task was run and all come back, in order, to be run by the next call; or each task is
/// answered.
#[test]
fn a_refused_allocation_is_told_once(rt: HostRuntime) -> Result<(), Fail> {
    let alloc = rt.alloc();
    let calls: Calls = match calls(alloc, MANY) {
        Ok(calls) => calls,
        Err(_) => calls(alloc, MANY)?,
    };
    let tasks = match tasks(alloc, MANY, &calls) {
        Ok(tasks) => tasks,
        Err(_) => tasks(alloc, MANY, &calls)?,
    };
    let answers = match run_all(&rt, alloc, tasks, Some(2)) {
        Ok(answers) => answers,
        Err(
            Unstarted {
                refusal,
                given: tasks,
            },
        ) => {
            same(
                &rt,
                (refusal, tasks.len()),
                (Refusal::Memory, 20),
                "all come back",
            );
            same(&rt, others(&calls, 0), 0, "none was run");
            match run_all(&rt, alloc, tasks, Some(2)) {
                Ok(answers) => answers,
                Err(unstarted) => return Err(Fail::from(unstarted.refusal)),
            }
        }
    };
    let mut number = 0u64;
    for answer in answers {
        same(&rt, answer, wanted(number), number);
        number += 1;
    }
    same(
        &rt,
        (number, others(&calls, 1)),
        (MANY, 0),
        "each was run once",
    );
    feed_is_told_once(&rt, alloc, &calls)
}

// Where one allocation of a fed pool is refused its feed wasn't asked, and comes back to be run by the next call.
fn feed_is_told_once<R: Threads + Wait + Sync + Abort>(
    rt: &R,
    alloc: Global,
    calls: &Calls,
) -> Result<(), Fail> {
    let row = Row::new(Arc::try_clone(calls)?, MANY);
    let fed = match run_feed::<_, Counting, _>(rt, alloc, row, Some(2), 4) {
        Ok(fed) => fed,
        Err(unfed) => {
            let told = (unfed.refusal, unfed.given.given, unfed.given.told);
            same(rt, told, (Refusal::Memory, 0, 0), "the feed comes back");
            match run_feed::<_, Counting, _>(rt, alloc, unfed.given, Some(2), 4) {
                Ok(fed) => fed,
                Err(unfed) => return Err(Fail::from(unfed.refusal)),
            }
        }
    };
    let found = (fed.feed.told, fed.feed.wrong, others(calls, 2));
    same(rt, found, (MANY, 0, 0), "each was run once more");
    Ok(())
}
