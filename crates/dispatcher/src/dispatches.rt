//! Jobs that are done by workers over a queue, and their results, in the order of the jobs.
ghost use Rattle.std.specs.Prelude.{◌≡◌, ◌<◌, ◌⊎◌, ◌↔◌, IsTrue, map, length, IfOk, IfErr, Err};
ghost use Rattle.std.specs.List.{All};
ghost use Rattle.job_results.specs.Jobs.{job_rows};
ghost use Rattle.job_results.specs.Results.{row_of, HaveJobs};
ghost use Rattle.shared_queue.specs.Queues.{numbers_in};
ghost use Rattle.dispatcher.specs.Workers.{IsTaker, IsGiver, IsBadSize, StopsDispatch, StopsWorkers};
ghost use Rattle.dispatcher.specs.Submissions.{WasUnshut};
ghost use Rattle.dispatcher.specs.Crews.{HasRun, IsAsGiven, IsRefusedSize};
ghost use Rattle.dispatcher.specs.Goings.{WentOver, WasLost, LosesOnly};

use crate::crews::{JobsRun, Unrun, run};
use crate::gate::Gate;
use crate::results::{Dispatched, gathered, seats_for};
use crate::signals::{Excuse, Signals};
use carriers::Numbers;
use history::{Fifo, Refusal};
use job_results::{Gather, Job, JobResult};
use shared_queue::SharedQueue;
use std::alloc::Global;
use std::marker::Brand;
use std::sync::Wait;
use std::thread;
use std::thread::Threads;

/// The greatest number of jobs.
pub const MOST_JOBS: usize = 1_000_000;

// Whether there is no taker, or there are more jobs than may be.
fn is_bad_size<S>(takers: &[S], jobs: &[Job]) -> bool
    ensures { IsTrue result ↔ IsBadSize takers.now jobs.now }
{
    takers.is_empty() || jobs.len() > MOST_JOBS
}

/// Does jobs, with a thread for each taker, started before the first push; what the submitter and each worker brought back.
///
/// After the last job's push, or where a push is refused, the giver shuts the queue: workers go on until they find it shut
/// and empty. Where the shut is refused, they go on until they find it empty. A worker that is refused ends, and what it did
/// till then is told. The seats are the queue's: the giver's may push, the takers' may pop; all come back.
///
/// Refusals: `BadSize` where there is no taker or more than `MOST_JOBS` jobs, else `Memory`; no job was done then, and the seats
/// come back. Takes memory for a handle and what comes back of a taker, and each thread for its results; waits.
///
/// ```rust
/// let run = run_jobs(rt, alloc, &queue, giver, takers, &jobs, &gate)?;
/// for worker in &run.workers {
///     println!(rt; "{} jobs, {:?}", worker.results.len(), worker.end)?;
/// }
/// ```
pub fn run_jobs<'a, R: Threads + Wait + Sync, Q: Fifo + Sync, G: Gate + Sync>(
    rt: &R,
    alloc: Global,
    queue: &SharedQueue<Numbers<Q>>,
    giver: Q::Seat,
    takers: Vec<Q::Seat>,
    jobs: &'a [Job],
    gate: &G,
) -> Result<JobsRun<'a, Q::Seat>, Unrun<Q::Seat>>
    requires giver { IsGiver Q.is_seat Q.permits Q.known (numbers_in queue.now) giver }
    requires takers { All (IsTaker Q.is_seat Q.permits Q.known (numbers_in queue.now)) takers.items }
    //= jobs/run: Jobs that are run: the submitter pushed the numbers from 1 on, in order and each once, all of them or up to
    //=   the first that wasn't pushed: a look told that no worker was left, or the push was refused, with the queue's
    //=   cause. Then it shut the queue, found it shut, or was refused the shut, with the queue's cause. Each worker, in the
    //=   order of the seats handed in, brings its seat back and the result of each job whose number it took, also where it
    //=   was refused, and the gate was told of each. It ended since it found the queue shut and empty, or empty where a
    //=   shut was refused; or was refused memory, or a pop, with the queue's cause; or took a number that no job has.
    ensures run { IfOk result (HasRun Q.is_seat Q.known Q.push_cause Q.pop_cause Q.shut_cause
        (numbers_in queue.now) jobs.now
        (WasUnshut Q.is_seat Q.known Q.shut_cause (numbers_in queue.now)) (G.done gate.now)
        giver takers.items) }
    //= jobs/unrun (unrun, sized, refusal): Refused, `run_jobs` gives the seats back as they were. `BadSize` comes exactly
    //=   where there is no taker or more than 1,000,000 jobs; else only `Memory`.
    ensures unrun { IfErr result (IsAsGiven giver takers) }
    ensures sized { IsRefusedSize result ↔ IsBadSize takers.items jobs.now }
    ensures refusal { IfErr result (λ u. (u.refusal ≡ Refusal.BadSize) ⊎ (u.refusal ≡ Refusal.Memory)) }
{
    if is_bad_size(&takers, jobs) {
        return Err(Unrun {
            refusal: Refusal::BadSize,
            giver,
            takers,
        });
    }
    run_with::<R, Q, G, Brand>(rt, alloc, queue, giver, takers, jobs, gate)
}

// Runs the workers with signals of their own.
fn run_with<'a, R: Threads + Wait + Sync, Q: Fifo + Sync, G: Gate + Sync, X: Excuse + Sync>(
    rt: &R,
    alloc: Global,
    queue: &SharedQueue<Numbers<Q>>,
    giver: Q::Seat,
    takers: Vec<Q::Seat>,
    jobs: &'a [Job],
    gate: &G,
) -> Result<JobsRun<'a, Q::Seat>, Unrun<Q::Seat>>
    requires giver { IsGiver Q.is_seat Q.permits Q.known (numbers_in queue.now) giver }
    requires takers { All (IsTaker Q.is_seat Q.permits Q.known (numbers_in queue.now)) takers.items }
    requires excuse { WasUnshut Q.is_seat Q.known Q.shut_cause (numbers_in queue.now) → X.cause }
    ensures run { IfOk result (HasRun Q.is_seat Q.known Q.push_cause Q.pop_cause Q.shut_cause
        (numbers_in queue.now) jobs.now X.cause (G.done gate.now) giver takers.items) }
    ensures unrun { IfErr result (IsAsGiven giver takers) }
    ensures only_memory { IfErr result (λ unrun. unrun.refusal ≡ Refusal.Memory) }
{
    let signals = Signals::<X>::new();
    run_in_scope(rt, alloc, queue, giver, takers, jobs, gate, &signals)
}

// Runs the workers in a scope of threads, which ends once each of them has ended.
fn run_in_scope<
    's,
    'a: 's,
    R: Threads + Wait + Sync,
    Q: Fifo + Sync,
    G: Gate + Sync,
    X: Excuse + Sync,
>(
    rt: &'s R,
    alloc: Global,
    queue: &'s SharedQueue<Numbers<Q>>,
    giver: Q::Seat,
    takers: Vec<Q::Seat>,
    jobs: &'a [Job],
    gate: &'s G,
    told: &'s Signals<X>,
) -> Result<JobsRun<'a, Q::Seat>, Unrun<Q::Seat>>
    requires giver { IsGiver Q.is_seat Q.permits Q.known (numbers_in queue.now) giver }
    requires takers { All (IsTaker Q.is_seat Q.permits Q.known (numbers_in queue.now)) takers.items }
    requires excuse { WasUnshut Q.is_seat Q.known Q.shut_cause (numbers_in queue.now) → X.cause }
    ensures run { IfOk result (HasRun Q.is_seat Q.known Q.push_cause Q.pop_cause Q.shut_cause
        (numbers_in queue.now) jobs.now X.cause (G.done gate.now) giver takers.items) }
    ensures unrun { IfErr result (IsAsGiven giver takers) }
    ensures only_memory { IfErr result (λ unrun. unrun.refusal ≡ Refusal.Memory) }
{
    thread::scope(
        thread::scope_env(),
        rt,
        |scope| -> Result<JobsRun<Q::Seat>, Unrun<Q::Seat>>
            requires giver { IsGiver Q.is_seat Q.permits Q.known (numbers_in queue.now) giver }
            requires takers { All (IsTaker Q.is_seat Q.permits Q.known (numbers_in queue.now))
                takers.items }
            requires excuse { WasUnshut Q.is_seat Q.known Q.shut_cause (numbers_in queue.now)
                → X.cause }
            ensures run { IfOk result (HasRun Q.is_seat Q.known Q.push_cause Q.pop_cause
                Q.shut_cause (numbers_in queue.entry.now) jobs.entry.now X.cause
                (G.done gate.entry.now) giver takers.items) }
            ensures unrun { IfErr result (IsAsGiven giver takers) }
            ensures only_memory { IfErr result (λ unrun. unrun.refusal ≡ Refusal.Memory) }
        { run(scope, rt, alloc, queue, giver, takers, jobs, gate, told) },
    )
}

/// Does all jobs, as `dispatch` does, and gives the seats back beside the results, the giver's first.
///
/// ```rust
/// let done = dispatch_keeping_seats(rt, alloc, &queue, giver, takers, &jobs, &gate)?;
/// // All that the queue did is told, since each seat is handed in.
/// let (rest, _end) = queue.into_inner().close(alloc, done.seats)?;
/// ```
pub fn dispatch_keeping_seats<'a, R: Threads + Wait + Sync, Q: Fifo + Sync, G: Gate + Sync>(
    rt: &R,
    alloc: Global,
    queue: &SharedQueue<Numbers<Q>>,
    giver: Q::Seat,
    takers: Vec<Q::Seat>,
    jobs: &'a [Job],
    gate: &G,
) -> Result<Dispatched<'a, Q::Seat>, Refusal>
    requires giver { IsGiver Q.is_seat Q.permits Q.known (numbers_in queue.now) giver }
    requires takers { All (IsTaker Q.is_seat Q.permits Q.known (numbers_in queue.now)) takers.items }
    //= jobs/kept (rows, same, went, sized, refusal, lost): A dispatch that keeps the seats answers as `dispatch` does; with the
    //=   results come the seats, the queue's, each with the number that it had, the giver's first: the number of each job was
    //=   taken from the queue by one of them.
    ensures rows { IfOk result (λ d. map row_of d.results.items ≡ job_rows 1 jobs.now) }
    ensures same { IfOk result (λ d. HaveJobs d.results.items jobs.now) }
    ensures went { IfOk result (λ d. WentOver Q.is_seat Q.known (numbers_in queue.now) giver takers.items
        (length jobs.now) d.seats.items) }
    ensures sized { (result ≡ Err Refusal.BadSize) ↔ IsBadSize takers.items jobs.now }
    ensures refusal { IfErr result StopsDispatch }
    ensures lost { IfErr result (LosesOnly (WasLost Q.is_seat Q.known Q.push_cause Q.pop_cause
        Q.shut_cause (numbers_in queue.now) jobs.now (G.done gate.now) giver takers.items)) }
{
    if is_bad_size(&takers, jobs) {
        return Err(Refusal::BadSize);
    }
    let gather = Gather::new(alloc, jobs)?;
    let seats = seats_for(alloc, takers.len())?;
    match run_jobs(rt, alloc, queue, giver, takers, jobs, gate) {
        Ok(run) => gathered(gather, run, seats),
        Err(unrun) => Err(unrun.refusal),
    }
}

/// Does all jobs, with a thread for each taker, started before the first push; the results, in the order of the jobs.
///
/// After the last job's push, or where a push is refused, the giver shuts the queue: workers go on until they find it shut
/// and empty. Where the shut is refused, they go on until they find it empty. The seats are the queue's, and given up: the
/// giver's may push, the takers' may pop.
///
/// Refusals: `BadSize` where there is no
/// taker or more than `MOST_JOBS` jobs, before anything else; `Memory`; `Lost` where a job has no result, since a worker or
/// the submitter was refused. Takes memory for two results a job and a handle a taker, and each thread for its results;
/// waits.
///
/// ```rust
/// let jobs = [Job::Add(2, 3), Job::Mul(4, 5)];
/// let results = dispatch(rt, alloc, &queue, giver, takers, &jobs, &gate)?;
/// assert!(results.len() == 2 && results[1].number() == 2);
/// ```
pub fn dispatch<'a, R: Threads + Wait + Sync, Q: Fifo + Sync, G: Gate + Sync>(
    rt: &R,
    alloc: Global,
    queue: &SharedQueue<Numbers<Q>>,
    giver: Q::Seat,
    takers: Vec<Q::Seat>,
    jobs: &'a [Job],
    gate: &G,
) -> Result<Vec<JobResult<'a>>, Refusal>
    requires giver { IsGiver Q.is_seat Q.permits Q.known (numbers_in queue.now) giver }
    requires takers { All (IsTaker Q.is_seat Q.permits Q.known (numbers_in queue.now)) takers.items }
    //= jobs/dispatch (rows, same, sized, refusal, lost): A dispatch answers each job's number, kind and value once, in the
    //=   order of the jobs. `BadSize` comes exactly where there is no taker or more than 1,000,000 jobs; else `Lost`, only
    //=   where jobs were run of which some worker brought back no result, and `Memory`.
    ensures rows { IfOk result (λ results. map row_of results.items ≡ job_rows 1 jobs.now) }
    ensures same { IfOk result (λ results. HaveJobs results.items jobs.now) }
    ensures sized { (result ≡ Err Refusal.BadSize) ↔ IsBadSize takers.items jobs.now }
    ensures refusal { IfErr result StopsDispatch }
    ensures lost { IfErr result (LosesOnly (WasLost Q.is_seat Q.known Q.push_cause Q.pop_cause
        Q.shut_cause (numbers_in queue.now) jobs.now (G.done gate.now) giver takers.items)) }
{
    match dispatch_keeping_seats(rt, alloc, queue, giver, takers, jobs, gate) {
        Ok(done) => {
            let Dispatched { results, seats: _ } = done;
            Ok(results)
        }
        Err(refusal) => Err(refusal),
    }
}
