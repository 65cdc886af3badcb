//! What the submitter and the workers tell each other, and what only a look at that, or at memory, can tell.
ghost use Rattle.std.specs.Prelude.{◌≡◌, ◌<◌, ◌≤◌, IsTrue, true, Bool, vec_len, vec_capacity, IfSome, OnOk, OnErr};

use job_results::JobResult;
use shared_queue::Deadline;
use std::marker::{Brand, PhantomData};
use std::sync::atomic::{AtomicIn, AtomicUsize, Ordering, Rule};
use std::thread::SpawnError;
use std::time::Duration;

/// What has to be so before the submitter gives up.
pub(crate) trait Excuse {
    ghost cause: { Type 0 };
}

impl Excuse for Brand {
    ghost cause = { Unit {0} };
}

/// That a word stays 0 until there is an excuse.
pub(crate) struct Excused<X> {
    of: PhantomData<X>,
}

impl<X: Excuse> Rule for Excused<X> {
    ghost use Rattle.std.specs.Prelude.{◌<◌};

    ghost invariant = { λ n. 0 < n → X.cause };
}

/// That none of so many workers was left: as many had ended, or were never started. Only a look makes one.
#[derive(Clone, Copy, Debug, PartialEq, Eq)]
pub struct NoneLeft {
    workers: usize,
    ended: usize,
    ghost all: { workers ≤ ended },
}

/// That memory was refused: for a result, or for a worker's thread. Only that makes one.
#[derive(Clone, Copy, Debug, PartialEq, Eq)]
pub struct NoMemory {
    of: PhantomData<()>,
}

/// Room for one more result.
pub(crate) fn room_for_one<'a>(out: &mut Vec<JobResult<'a>>) -> Result<(), NoMemory>
    ensures room { OnOk result (vec_len out.new < vec_capacity out.new) }
    ensures same { out.new.items ≡ out.old.items }
{
    match out.reserve(1) {
        Ok(()) => Ok(()),
        Err(_) => Err(NoMemory { of: PhantomData }),
    }
}

/// What the workers and the submitter tell each other.
#[derive(Drop)]
pub(crate) struct Signals<X: Excuse> {
    given_up: AtomicIn<Excused<X>>,
    ended: AtomicUsize,
    unstarted: AtomicUsize,
}

impl<X: Excuse> Signals<X> {
    /// All workers run, and the submitter hasn't given up.
    pub(crate) fn new() -> Signals<X> {
        Signals {
            given_up: AtomicIn::new(0),
            ended: AtomicUsize::new(0),
            unstarted: AtomicUsize::new(0),
        }
    }

    /// The submitter pushes no more, and couldn't shut the queue.
    pub(crate) fn give_up(&self)
        requires { X.cause }
    {
        self.given_up.store(1, Ordering::SeqCst);
    }

    /// Whether the submitter pushes no more, and couldn't shut the queue.
    pub(crate) fn has_given_up(&self) -> bool
        ensures { IsTrue result → X.cause }
    {
        self.given_up.load(Ordering::SeqCst) != 0
    }

    /// A worker has ended, or was never started.
    pub(crate) fn end_one(&self) {
        self.ended.fetch_add(1, Ordering::SeqCst);
    }

    /// That none of so many workers is left; none where one may be.
    pub(crate) fn none_left(&self, workers: usize) -> Option<NoneLeft>
        ensures { IfSome result (λ none. none.workers ≡ workers) }
    {
        let ended = self.ended.load(Ordering::SeqCst);
        if ended < workers {
            return None;
        }
        Some(NoneLeft { workers, ended })
    }

    /// No thread can be made for the worker of this number, from 1 on, as was told.
    pub(crate) fn leave_out<F>(&self, worker: usize, _refused: &SpawnError<F>) {
        self.unstarted.store(worker, Ordering::SeqCst);
    }

    /// That no thread can be made for the worker of this number; none where one was.
    pub(crate) fn left_out(&self, worker: usize) -> Option<NoMemory> {
        if self.unstarted.load(Ordering::SeqCst) != worker {
            return None;
        }
        Some(NoMemory { of: PhantomData })
    }
}

/// That the submitter has given up, which ends the wait for a job.
#[derive(Drop)]
pub(crate) struct GivenUp<'a, X: Excuse> {
    signals: &'a Signals<X>,
}

impl<'a, X: Excuse> GivenUp<'a, X> {
    pub(crate) fn new(signals: &'a Signals<X>) -> GivenUp<'a, X> {
        GivenUp { signals }
    }
}

impl<'a, X: Excuse> Deadline for GivenUp<'a, X> {
    ghost comes = { λ d. true };

    fn is_past(&self) -> bool {
        self.signals.has_given_up()
    }

    fn left(&self) -> Option<Duration> {
        None
    }
}

/// That all workers have ended, which ends the wait for a node.
#[derive(Drop)]
pub(crate) struct AllEnded<'a, X: Excuse> {
    signals: &'a Signals<X>,
    workers: usize,
}

impl<'a, X: Excuse> AllEnded<'a, X> {
    /// So many workers have ended.
    pub(crate) fn new(signals: &'a Signals<X>, workers: usize) -> AllEnded<'a, X> {
        AllEnded { signals, workers }
    }
}

impl<'a, X: Excuse> Deadline for AllEnded<'a, X> {
    ghost comes = { λ d. true };

    fn is_past(&self) -> bool {
        self.signals.none_left(self.workers).is_some()
    }

    fn left(&self) -> Option<Duration> {
        None
    }
}
