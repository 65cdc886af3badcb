//! A worker: turns until it is told to stop.
ghost use Rattle.std.specs.Prelude.{◌≡◌, IfOk, IfErr, OnOk, OnErr};
ghost use Rattle.shared_queue.specs.Queues.{numbers_in};
ghost use Rattle.history.specs.Entries.{LeadsTo};
ghost use Rattle.job_results.specs.Results.{number_in};
ghost use Rattle.dispatcher.specs.Workers.{IsTaker};
ghost use Rattle.dispatcher.specs.Turns.{TookNext, DoesNext, EndsSo, IsBack};

use crate::gate::Gate;
use crate::signals::{Excuse, GivenUp, NoMemory, Signals, room_for_one};
use crate::worker_turns::do_job;
use carriers::Numbers;
use history::{Fifo, Refusal, Taken};
use job_results::{Job, JobResult};
use shared_queue::{InTime, SharedQueue};
use std::alloc::Global;
use std::sync::Wait;

/// How a worker ended.
#[derive(Clone, Copy, Debug, PartialEq, Eq)]
pub enum End {
    /// It found the queue shut and empty.
    Finished,
    /// It found the queue empty, after the submitter had told that it pushes no more, and couldn't shut it.
    Stopped,
    /// Its thread was refused, or memory for a result.
    NoMemory(NoMemory),
    /// A pop was refused, by `WornOut`; or it took a number that no job has, by `Stranger`.
    Refused(Refusal),
}

/// What a worker brings back: its seat, the results of the jobs whose numbers it took, in this order, and how it ended.
#[derive(Drop)]
pub struct Back<'a, S> {
    pub seat: S,
    pub results: Vec<JobResult<'a>>,
    pub end: End,
}

// The next value, for which it sleeps; none where its sleep was ended, and none was left.
fn next_value<R: Wait, Q: Fifo, X: Excuse>(
    rt: &R,
    queue: &SharedQueue<Numbers<Q>>,
    seat: &mut Q::Seat,
    jobs: &[Job],
    signals: &Signals<X>,
) -> Result<Option<Taken>, End>
    requires { IsTaker Q.is_seat Q.permits Q.known (numbers_in queue.now) seat.old }
    ensures seat { IsTaker Q.is_seat Q.permits Q.known (numbers_in queue.now) seat.new }
    ensures number { (Q.known seat.new).number ≡ (Q.known seat.old).number }
    ensures took { IfOk result (TookNext (Q.known seat.old) (Q.known seat.new)) }
    ensures ended { IfErr result (EndsSo Q.is_seat Q.known Q.pop_cause (numbers_in queue.now)
        jobs.now X.cause seat.old seat.new) }
{
    match queue.recv_until(rt, seat, &GivenUp::new(signals)) {
        Ok(InTime::Done(front)) => Ok(Some(front.into_taken())),
        Ok(InTime::Late(_late)) => {
            if signals.has_given_up() {
                return Err(End::Stopped);
            }
            Ok(None)
        }
        Err(refusal) => match refusal {
            Refusal::Closed => Err(End::Finished),
            _ => Err(End::Refused(refusal)),
        },
    }
}

// Takes one value, and does its job; or takes none, where its sleep was ended.
fn work_next<'a, R: Wait, Q: Fifo, G: Gate, X: Excuse>(
    rt: &R,
    queue: &SharedQueue<Numbers<Q>>,
    seat: &mut Q::Seat,
    jobs: &'a [Job],
    gate: &G,
    out: &mut Vec<JobResult<'a>>,
    signals: &Signals<X>,
) -> Result<(), End>
    requires { IsTaker Q.is_seat Q.permits Q.known (numbers_in queue.now) seat.old }
    ensures seat { IsTaker Q.is_seat Q.permits Q.known (numbers_in queue.now) seat.new }
    ensures number { (Q.known seat.new).number ≡ (Q.known seat.old).number }
    ensures did { OnOk result (DoesNext jobs.now (G.done gate.now) (Q.known seat.old)
        (Q.known seat.new) out.old.items out.new.items) }
    ensures ended { IfErr result (EndsSo Q.is_seat Q.known Q.pop_cause (numbers_in queue.now)
        jobs.now X.cause seat.old seat.new) }
    ensures same { OnErr result (out.new.items ≡ out.old.items) }
{
    if let Err(none) = room_for_one(out) {
        return Err(End::NoMemory(none));
    }
    let Some(taken) = next_value(rt, queue, seat, jobs, signals)? else {
        return Ok(());
    };
    match do_job(jobs, gate, out, taken.body.number()) {
        Ok(()) => Ok(()),
        Err(refusal) => Err(End::Refused(refusal)),
    }
}

// Does jobs until it finds the queue shut and empty, is refused, or finds nothing more after the submitter gave up.
fn work_on<'a, R: Wait, Q: Fifo, G: Gate, X: Excuse>(
    rt: &R,
    alloc: Global,
    queue: &SharedQueue<Numbers<Q>>,
    mut seat: Q::Seat,
    jobs: &'a [Job],
    gate: &G,
    signals: &Signals<X>,
) -> Back<'a, Q::Seat>
    requires { IsTaker Q.is_seat Q.permits Q.known (numbers_in queue.now) seat }
    ensures { IsBack Q.is_seat Q.known Q.pop_cause (numbers_in queue.now) jobs.now X.cause
        (G.done gate.now) seat result }
{
    let mut results = Vec::new(alloc);
    for _ in rt.forever() {
        match work_next(rt, queue, &mut seat, jobs, gate, &mut results, signals) {
            Ok(()) => {}
            Err(end) => return Back { seat, results, end },
        }
    }
    unreachable!()
}

/// Does jobs until it finds the queue shut and empty, is refused, or finds nothing more after the submitter gave up. The worker of
/// this number, from 1 on, does nothing where no thread can be made for it.
pub(crate) fn work<'a, R: Wait, Q: Fifo, G: Gate, X: Excuse>(
    rt: &R,
    alloc: Global,
    queue: &SharedQueue<Numbers<Q>>,
    seat: Q::Seat,
    jobs: &'a [Job],
    gate: &G,
    signals: &Signals<X>,
    number: usize,
) -> Back<'a, Q::Seat>
    requires { IsTaker Q.is_seat Q.permits Q.known (numbers_in queue.now) seat }
    ensures { IsBack Q.is_seat Q.known Q.pop_cause (numbers_in queue.now) jobs.now X.cause
        (G.done gate.now) seat result }
{
    let back = match signals.left_out(number) {
        Some(none) => Back {
            seat,
            results: Vec::new(alloc),
            end: End::NoMemory(none),
        },
        None => work_on(rt, alloc, queue, seat, jobs, gate, signals),
    };
    signals.end_one();
    queue.wake_all();
    back
}
