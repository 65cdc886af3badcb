//! Tasks that count, by their number, how often each is run, and how often each is dropped without being run.
use std::alloc::{AllocError, Global};
use std::sync::Arc;
use std::sync::atomic::AtomicU64;
use std::sync::atomic::Ordering::SeqCst;
use tasks::Task;

/// How often each task was run, by its number.
pub(super) type Calls = Arc<Vec<AtomicU64>, Global>;

/// A task that counts that it was run. Every third one fails.
#[derive(Drop)]
pub(super) struct Counting {
    pub(super) number: u64,
    calls: Calls,
}

/// Why a task failed: its number is a multiple of 3.
#[derive(Clone, Copy, Debug, PartialEq, Eq)]
pub(super) struct Third(pub(super) u64);

impl Task for Counting {
    type Output = u64;

    type Error = Third;

    ghost answers = { λ _ _. Unit {0} };

    fn run(self) -> Result<u64, Third> {
        let Counting { number, calls } = self;
        if let Some(count) = calls.get(number as usize) {
            count.fetch_add(1, SeqCst);
        }
        wanted(number)
    }
}

/// What the task of this number answers.
pub(super) fn wanted(number: u64) -> Result<u64, Third> {
    if number % 3 == 0 {
        return Err(Third(number));
    }
    Ok(number * 2)
}

/// A count for each of so many tasks.
pub(super) fn calls(alloc: Global, many: u64) -> Result<Calls, AllocError> {
    let mut counts = Vec::new(alloc);
    for _ in 0..many {
        counts.push(AtomicU64::new(0))?;
    }
    Ok(Arc::new(alloc, counts)?)
}

/// The task of this number, which counts here.
pub(super) fn task_of(number: u64, calls: &Calls) -> Result<Counting, AllocError> {
    let calls = Arc::try_clone(calls)?;
    Ok(Counting { number, calls })
}

/// So many tasks, of which each counts here.
pub(super) fn tasks(alloc: Global, many: u64, calls: &Calls) -> Result<Vec<Counting>, AllocError> {
    let mut tasks = Vec::new(alloc);
    for number in 0..many {
        tasks.push(task_of(number, calls)?)?;
    }
    Ok(tasks)
}

/// How many tasks weren't run exactly so often.
pub(super) fn others(calls: &Calls, often: u64) -> usize {
    calls
        .iter()
        .filter(|count| count.load(SeqCst) != often)
        .count()
}
