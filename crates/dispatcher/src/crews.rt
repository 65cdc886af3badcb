//! A thread for each worker.
ghost use Rattle.std.specs.Prelude.{◌≡◌, ◌≤◌, [], List, length, vec_capacity, IfErr, IfOk};
ghost use Rattle.std.specs.List.{All, AllZip};
ghost use Rattle.shared_queue.specs.Queues.{numbers_in};
ghost use Rattle.dispatcher.specs.Workers.{IsTaker, IsGiver};
ghost use Rattle.dispatcher.specs.Turns.{IsBack};
ghost use Rattle.dispatcher.specs.Submissions.{WasUnshut};
ghost use Rattle.dispatcher.specs.Crews.{IsStartedFor, Returned, HasRun, IsAsGiven};

use crate::gate::Gate;
use crate::signals::{Excuse, Signals};
use crate::submitter::{Given, submit};
use crate::workers::{Back, work};
use carriers::Numbers;
use history::{Fifo, Refusal};
use job_results::Job;
use shared_queue::SharedQueue;
use std::alloc::Global;
use std::marker::PhantomData;
use std::snapshot::Snapshot;
use std::sync::Wait;
use std::thread::{Promise, PromisedHandle, Scope, Threads};

/// What the submitter and each worker brought back, the workers in the order of their seats.
#[derive(Drop)]
pub struct JobsRun<'a, S> {
    pub giver: Given<S>,
    pub workers: Vec<Back<'a, S>>,
}

/// Jobs of which none was done, and why; the seats that were handed in.
#[derive(Drop)]
pub struct Unrun<S> {
    pub refusal: Refusal,
    pub giver: S,
    pub takers: Vec<S>,
}

// That a worker of these jobs brings this seat back.
#[derive(Drop)]
struct Returns<'s, 'a, Q: Fifo, G: Gate, X: Excuse> {
    queue: &'s SharedQueue<Numbers<Q>>,
    jobs: &'a [Job],
    gate: Snapshot<G>,
    was: Snapshot<Q::Seat>,
    excuse: PhantomData<X>,
}

impl<'s, 'a, Q: Fifo, G: Gate, X: Excuse> Promise<Back<'a, Q::Seat>> for Returns<'s, 'a, Q, G, X> {
    ghost use Rattle.shared_queue.specs.Queues.{numbers_in};
    ghost use Rattle.dispatcher.specs.Turns.{IsBack};

    ghost kept_by = { λ p back. IsBack Q.is_seat Q.known Q.pop_cause (numbers_in p.queue.now)
        p.jobs.now X.cause (G.done p.gate.value) p.was.value back };
}

// A worker that runs, or one for which no thread could be made, with what it brought back.
#[derive(Drop)]
enum Started<'s, 'a, Q: Fifo, G: Gate, X: Excuse> {
    Running(PromisedHandle<Back<'a, Q::Seat>, Returns<'s, 'a, Q, G, X>>),
    Unstarted(Back<'a, Q::Seat>),
}

// Starts a worker of this number, from 1 on, for this seat. It did nothing where no thread can be made.
fn start<'s, 'a: 's, E, R: Threads + Wait + Sync, Q: Fifo + Sync, G: Gate + Sync, X: Excuse + Sync>(
    scope: &Scope<'s, E>,
    rt: &'s R,
    alloc: Global,
    queue: &'s SharedQueue<Numbers<Q>>,
    seat: Q::Seat,
    jobs: &'a [Job],
    gate: &'s G,
    signals: &'s Signals<X>,
    number: usize,
) -> Started<'s, 'a, Q, G, X>
    requires { IsTaker Q.is_seat Q.permits Q.known (numbers_in queue.now) seat }
    ensures { IsStartedFor Q.is_seat Q.known Q.pop_cause (numbers_in queue.now) jobs.now X.cause
        G.done gate.now seat result }
{
    let was = Snapshot::of(&seat);
    let worker = scope.spawn_with(
        Returns {
            queue,
            jobs,
            gate: Snapshot::of(gate),
            was,
            excuse: PhantomData,
        },
        move || -> Back<Q::Seat>
            requires { IsTaker Q.is_seat Q.permits Q.known (numbers_in queue.now) seat }
            ensures { IsBack Q.is_seat Q.known Q.pop_cause (numbers_in queue.entry.now)
                jobs.entry.now X.cause (G.done gate.entry.now) seat result }
        { work(rt, alloc, queue, seat, jobs, gate, signals, number) },
    );
    match worker {
        Ok(handle) => Started::Running(handle),
        Err(refused) => {
            signals.leave_out(number, &refused);
            Started::Unstarted((refused.value)())
        }
    }
}

// Starts a worker for each of these seats, in their order.
fn start_all<
    's,
    'a: 's,
    E,
    R: Threads + Wait + Sync,
    Q: Fifo + Sync,
    G: Gate + Sync,
    X: Excuse + Sync,
>(
    scope: &Scope<'s, E>,
    rt: &'s R,
    alloc: Global,
    queue: &'s SharedQueue<Numbers<Q>>,
    takers: Vec<Q::Seat>,
    jobs: &'a [Job],
    gate: &'s G,
    signals: &'s Signals<X>,
    mut started: Vec<Started<'s, 'a, Q, G, X>>,
) -> Vec<Started<'s, 'a, Q, G, X>>
    requires takers { All (IsTaker Q.is_seat Q.permits Q.known (numbers_in queue.now)) takers.items }
    requires none { started.items ≡ [] }
    requires room { length takers.items ≤ vec_capacity started }
    ensures { AllZip (IsStartedFor Q.is_seat Q.known Q.pop_cause (numbers_in queue.now) jobs.now
        X.cause G.done gate.now) takers.items result.items }
{
    for seat in takers {
        let number = started.len() + 1;
        started.push_reserved(start(scope, rt, alloc, queue, seat, jobs, gate, signals, number));
    }
    started
}

// What a worker brought back, once it has ended.
fn join_one<'s, 'a, R: Threads, Q: Fifo, G: Gate, X: Excuse>(
    rt: &R,
    queue: &SharedQueue<Numbers<Q>>,
    jobs: &[Job],
    gate: &G,
    started: Started<'s, 'a, Q, G, X>,
) -> Back<'a, Q::Seat>
    ensures { Returned Q.is_seat Q.known Q.pop_cause (numbers_in queue.now) jobs.now X.cause
        G.done gate.now started.entry result }
{
    match started {
        Started::Running(handle) => handle.join(rt),
        Started::Unstarted(back) => back,
    }
}

// What each worker brought back, in their order, once all have ended.
fn join_all<'s, 'a, R: Threads, Q: Fifo, G: Gate, X: Excuse>(
    rt: &R,
    queue: &SharedQueue<Numbers<Q>>,
    jobs: &[Job],
    gate: &G,
    started: Vec<Started<'s, 'a, Q, G, X>>,
    mut workers: Vec<Back<'a, Q::Seat>>,
) -> Vec<Back<'a, Q::Seat>>
    requires none { workers.items ≡ [] }
    requires room { length started.items ≤ vec_capacity workers }
    ensures { AllZip (Returned Q.is_seat Q.known Q.pop_cause (numbers_in queue.now) jobs.now
        X.cause G.done gate.now) started.entry.items result.items }
{
    for one in started {
        workers.push_reserved(join_one(rt, queue, jobs, gate, one));
    }
    workers
}

/// Starts the workers, submits the jobs, and waits for each worker. All that can be refused comes before the first worker is
/// started.
pub(crate) fn run<
    's,
    'a: 's,
    E,
    R: Threads + Wait + Sync,
    Q: Fifo + Sync,
    G: Gate + Sync,
    X: Excuse + Sync,
>(
    scope: &Scope<'s, E>,
    rt: &'s R,
    alloc: Global,
    queue: &'s SharedQueue<Numbers<Q>>,
    giver: Q::Seat,
    takers: Vec<Q::Seat>,
    jobs: &'a [Job],
    gate: &'s G,
    signals: &'s Signals<X>,
) -> Result<JobsRun<'a, Q::Seat>, Unrun<Q::Seat>>
    requires giver { IsGiver Q.is_seat Q.permits Q.known (numbers_in queue.now) giver }
    requires takers { All (IsTaker Q.is_seat Q.permits Q.known (numbers_in queue.now)) takers.items }
    requires excuse { WasUnshut Q.is_seat Q.known Q.shut_cause (numbers_in queue.now) → X.cause }
    ensures run { IfOk result (HasRun Q.is_seat Q.known Q.push_cause Q.pop_cause Q.shut_cause
        (numbers_in queue.now) jobs.now X.cause (G.done gate.now) giver takers.items) }
    ensures unrun { IfErr result (IsAsGiven giver takers) }
    ensures only_memory { IfErr result (λ unrun. unrun.refusal ≡ Refusal.Memory) }
{
    let seats = takers.len();
    let mut started = Vec::new(alloc);
    let mut workers = Vec::new(alloc);
    if started.reserve(seats).is_err() || workers.reserve(seats).is_err() {
        return Err(Unrun {
            refusal: Refusal::Memory,
            giver,
            takers,
        });
    }
    let started = start_all(
        scope, rt, alloc, queue, takers, jobs, gate, signals, started,
    );
    let giver = submit(rt, queue, giver, jobs.len(), seats, signals);
    let workers = join_all(rt, queue, jobs, gate, started, workers);
    Ok(JobsRun { giver, workers })
}
