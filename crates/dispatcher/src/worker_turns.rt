//! One turn of a worker.
ghost use Rattle.std.specs.Prelude.{◌≡◌, ◌<◌, ◌≤◌, length, vec_len, vec_capacity, IfOk, IfErr, OnOk, OnErr};
ghost use Rattle.history.specs.Seats.{MayPop};
ghost use Rattle.history.specs.Answers.{PopRefused, StopsPop};
ghost use Rattle.dispatcher.specs.WorkerTurns.{TakesNumber, IsNoJob, PutsResult, Works, WorksNot, HandsOn, IsTold, PutsOne};

use crate::gate::Gate;
use history::{Fifo, Refusal};
use job_results::{Job, JobResult};

/// What a turn of a worker did.
#[derive(Clone, Copy, Debug, PartialEq, Eq)]
pub enum Worked {
    /// It did the job of this number.
    Did(u64),
    /// It found the queue empty.
    Empty,
    /// It found the queue shut and empty: no number comes any more.
    Stop,
}

// Takes one value, in so many turns at most, 1 or more: the number that its body is; none where the queue was empty.
fn take_number<Q: Fifo>(queue: &Q, seat: &mut Q::Seat, turns: u32) -> Result<Option<u64>, Refusal>
    requires seat { Q.is_seat queue.now seat.old }
    requires role { MayPop (Q.permits queue.now) (Q.known seat.old).number }
    requires turns { 1 ≤ turns }
    ensures seat { Q.is_seat queue.now seat.new }
    ensures number { (Q.known seat.new).number ≡ (Q.known seat.old).number }
    ensures taken { IfOk result (TakesNumber (Q.known seat.old) (Q.known seat.new)) }
    ensures refused { IfErr result
        (λ refusal. PopRefused (Q.known seat.old) refusal (Q.known seat.new)) }
    ensures refusal { IfErr result StopsPop }
    ensures caused { IfErr result (Q.pop_cause queue.now seat.old seat.new turns) }
{
    let Some(taken) = queue.try_pop(seat, turns)? else {
        return Ok(None);
    };
    Ok(Some(taken.body.number()))
}

// Does this job, whose number passed the gate: its result is put at the end of `out`, which has room.
fn put_result<'a, G: Gate>(job: &'a Job, _gate: &G, out: &mut Vec<JobResult<'a>>, number: u64)
    requires room { vec_len out.old < vec_capacity out.old }
    requires begun { G.begun _gate.now number }
    ensures { PutsOne job.now number out.old.items out.new.items }
{
    out.push_reserved(JobResult::new(number, job));
}

// Does the job of this number: its result is put at the end of `out`, which has room. Refused by `Stranger` where the number
// is 0, or above that of the jobs.
pub(crate) fn do_job<'a, G: Gate>(
    jobs: &'a [Job],
    gate: &G,
    out: &mut Vec<JobResult<'a>>,
    number: u64,
) -> Result<(), Refusal>
    requires { vec_len out.old < vec_capacity out.old }
    ensures put { OnOk result (PutsResult jobs.now number out.old.items out.new.items) }
    ensures told { OnOk result (G.done gate.now number) }
    ensures refusal { IfErr result (λ refusal. refusal ≡ Refusal.Stranger) }
    ensures none { OnErr result (IsNoJob jobs.now number) }
    ensures refused { OnErr result (out.new.items ≡ out.old.items) }
{
    if number == 0 {
        return Err(Refusal::Stranger);
    }
    let Some(job) = jobs.get(number as usize - 1) else {
        return Err(Refusal::Stranger);
    };
    gate.before(number);
    put_result(job, gate, out, number);
    gate.after(number);
    Ok(())
}

/// Takes one value, in so many turns at most, 1 or more, and does the job of that number: its result is put at the end of
/// `out`. The seat may pop.
///
/// Where the queue is empty, and where it is shut and empty, it says so; `out` is then as before. Calls `gate.before` once
/// the value is taken, and `gate.after` once the result is in `out`. Takes memory for one more result, and doesn't wait.
///
/// Refusals: `Memory` where `out` can't grow, before anything is taken; `WornOut` and `Busy` of the pop, with nothing taken;
/// `Stranger` where the number taken is 0, or above that of the jobs. `out` is then as before.
///
/// ```rust
/// let jobs = [Job::Add(2, 3), Job::Mul(4, 5)];
/// // The body at the front is 2.
/// let worked = work_one(&queue, &mut taker, &jobs, &gate, &mut results, 8)?;
/// assert!(worked == Worked::Did(2));
/// // Nothing is left, and nothing comes any more.
/// queue.shut(rt, &mut giver)?;
/// assert!(work_one(&queue, &mut taker, &jobs, &gate, &mut results, 8)? == Worked::Stop);
/// ```
pub fn work_one<'a, Q: Fifo, G: Gate>(
    queue: &Q,
    seat: &mut Q::Seat,
    jobs: &'a [Job],
    gate: &G,
    out: &mut Vec<JobResult<'a>>,
    turns: u32,
) -> Result<Worked, Refusal>
    requires seat { Q.is_seat queue.now seat.old }
    requires role { MayPop (Q.permits queue.now) (Q.known seat.old).number }
    requires turns { 1 ≤ turns }
    ensures seat { Q.is_seat queue.now seat.new }
    ensures number { (Q.known seat.new).number ≡ (Q.known seat.old).number }
    //= jobs/turn: A worker's turn took one value with a job's number and put exactly this job's result at the end. Or
    //=   it took nothing, and the results stay: the queue was found empty or, at `Stop`, shut and empty, which its seat
    //=   notes.
    ensures worked { IfOk result
        (Works jobs.now (Q.known seat.old) (Q.known seat.new) out.old.items out.new.items) }
    //= jobs/told: A worker's turn that did a job told its gate of it by `after`, which asks for `before`.
    ensures told { IfOk result (IsTold (G.done gate.now)) }
    //= jobs/refused_turn (refusal, caused, refused): A refused turn leaves the results. At `Memory` what the seat knows
    //=   stays; at `WornOut` and `Busy` nothing was taken, and it hands on, as at `Stop`; at `Stranger` a number was
    //=   taken that is 0 or above the jobs'.
    ensures refusal { IfErr result (WorksNot jobs.now (Q.known seat.old) (Q.known seat.new)) }
    // `Stop` is a pop that was refused, so it has a cause too.
    ensures caused { HandsOn (Q.pop_cause queue.now seat.old seat.new turns) result }
    ensures refused { OnErr result (out.new.items ≡ out.old.items) }
{
    if out.reserve(1).is_err() {
        return Err(Refusal::Memory);
    }
    let number = match take_number(queue, seat, turns) {
        Ok(Some(number)) => number,
        Ok(None) => return Ok(Worked::Empty),
        Err(Refusal::Closed) => return Ok(Worked::Stop),
        Err(refusal) => return Err(refusal),
    };
    do_job(jobs, gate, out, number)?;
    Ok(Worked::Did(number))
}
