//! A queue of any kind, with a seat for each worker and one for the submitter.
ghost use Rattle.std.specs.Prelude.{◌≡◌, ◌≤◌, length, map, IfErr, IfOk};
ghost use Rattle.std.specs.List.{All};
ghost use Rattle.node_arena.specs.Seats.{plan_of};
ghost use Rattle.picked.specs.Picked.{any_arena_of};
ghost use Rattle.shared_queue.specs.Queues.{numbers_in};
ghost use Rattle.job_results.specs.Jobs.{job_rows};
ghost use Rattle.job_results.specs.Results.{row_of};
ghost use Rattle.dispatcher.specs.Workers.{IsTaker, IsGiver, StopsWorkers};
ghost use Rattle.dispatcher.specs.Goings.{WentOver};
ghost use Rattle.picked.specs.Picked.{IsAnySeat};
ghost use Rattle.node_arena.specs.Seats.{known_of};
ghost use Rattle.ring_queue.specs.Queues.{IsNumberSeat};
ghost use Rattle.ring_queue.specs.Seats.{known_of as ring_known_of};
ghost use Rattle.job_engine.specs.Crews.{crew_roles, ring_crew_roles, crew_plan, IsCrew, IsCrewRing, IsCrewQueue};
ghost use Rattle.job_engine.specs.Overs.{IsOver, WereOver};
ghost use Rattle.job_engine.specs.Works.{AreSized};
ghost use Rattle.job_engine.specs.Queues.{queue_in, seats_in};

use carriers::Numbers;
use dispatcher::{Dispatched, Gate, dispatch_keeping_seats};
use history::{Fifo, Refusal};
use job_results::{Job, JobResult};
use line_table::{Kind, QueueKind};
use node_arena::{MOST_COUNT, Role, Seat};
use picked::{AnyQueue, EitherQueue};
use ring_queue::{RingQueue, Role as RingRole, Seat as RingSeat};
use shared_queue::SharedQueue;
use std::alloc::Global;
use std::sync::Wait;
use std::thread::Threads;

/// The last place of a ring: the greatest one that a ring may have.
const MOST_PLACE: u64 = (1 << 62) - 1;

/// A gate that does nothing.
#[derive(Drop)]
struct Open;

impl Gate for Open {
    ghost begun = { λ gate number. Unit {0} };

    ghost done = { λ gate number. Unit {0} };

    fn before(&self, _number: u64) {}

    fn after(&self, _number: u64) {}
}

/// All seats of a queue over which jobs were done, the submitter's first.
#[derive(Drop)]
pub enum CrewSeats {
    /// Those of a queue of nodes.
    Linked(Vec<Seat>),
    /// Those of a ring.
    Ring(Vec<RingSeat>),
}

/// The queue over which a list of jobs was done, and its seats. No other one can be had.
#[derive(Drop)]
pub struct JobQueue {
    queue: EitherQueue<AnyQueue, RingQueue>,
    seats: CrewSeats,
}

impl JobQueue {
    /// The queue itself. Takes no memory and doesn't wait.
    pub fn queue(&self) -> &EitherQueue<AnyQueue, RingQueue>
        ensures { result.now ≡ queue_in self.now }
    {
        &self.queue
    }

    /// The queue and its seats, by which it can be closed. Takes no memory and doesn't wait.
    pub fn into_parts(self) -> (EitherQueue<AnyQueue, RingQueue>, CrewSeats)
        ensures queue { result.0 ≡ queue_in self }
        ensures seats { result.1 ≡ seats_in self }
    {
        let JobQueue { queue, seats } = self;
        (queue, seats)
    }
}

/// The results of jobs, in their order, by so many workers over a queue of this kind and with so many nodes, or values that
/// make a ring full; and the queue.
///
/// Refused by `Memory`, and by `Lost` where a job has no result. Takes memory, starts threads, and waits.
pub(crate) fn results_by<'a, R: Threads + Wait + Sync>(
    rt: &R,
    alloc: Global,
    workers: u32,
    kind: QueueKind,
    nodes: u32,
    jobs: &'a [Job],
) -> Result<(Vec<JobResult<'a>>, JobQueue), Refusal>
    requires sizes { AreSized workers nodes }
    requires few { length jobs.now ≤ 1000000 }
    ensures rows { IfOk result (λ r. map row_of r.0.items ≡ job_rows 1 jobs.now) }
    ensures over { IfOk result (λ r. IsCrewQueue kind nodes workers (queue_in r.1)) }
    ensures went { IfOk result
        (λ r. WereOver workers (length jobs.now) (queue_in r.1) (seats_in r.1)) }
    ensures refusal { IfErr result StopsWorkers }
{
    match kind {
        QueueKind::Linked(kind) => {
            let (done, queue) = results_by_nodes(rt, alloc, workers, kind, nodes, jobs)?;
            let queue = EitherQueue::First(queue);
            let Dispatched { results, seats } = done;
            let seats = CrewSeats::Linked(seats);
            Ok((results, JobQueue { queue, seats }))
        }
        QueueKind::Ring => {
            let (done, queue) = results_by_ring(rt, alloc, workers, nodes, jobs)?;
            let queue = EitherQueue::Second(queue);
            let Dispatched { results, seats } = done;
            let seats = CrewSeats::Ring(seats);
            Ok((results, JobQueue { queue, seats }))
        }
    }
}

// The same over a queue of nodes, of this kind.
fn results_by_nodes<'a, R: Threads + Wait + Sync>(
    rt: &R,
    alloc: Global,
    workers: u32,
    kind: Kind,
    nodes: u32,
    jobs: &'a [Job],
) -> Result<(Dispatched<'a, Seat>, AnyQueue), Refusal>
    requires sizes { AreSized workers nodes }
    requires few { length jobs.now ≤ 1000000 }
    ensures rows { IfOk result (λ r. map row_of r.0.results.items ≡ job_rows 1 jobs.now) }
    ensures went { IfOk result
        (λ r. IsOver IsAnySeat known_of r.1 workers (length jobs.now) r.0.seats.items) }
    ensures over { IfOk result (λ r. plan_of (any_arena_of r.1) ≡ crew_plan kind nodes workers) }
    ensures refusal { IfErr result StopsWorkers }
{
    let roles = roles_of(alloc, workers)?;
    let (queue, seats) = AnyQueue::new(alloc, kind, nodes, MOST_COUNT, &roles)?;
    results_over(rt, alloc, queue, workers, seats, jobs)
}

// The same over a ring that so many values make full.
fn results_by_ring<'a, R: Threads + Wait + Sync>(
    rt: &R,
    alloc: Global,
    workers: u32,
    values: u32,
    jobs: &'a [Job],
) -> Result<(Dispatched<'a, RingSeat>, RingQueue), Refusal>
    requires sizes { AreSized workers values }
    requires few { length jobs.now ≤ 1000000 }
    ensures rows { IfOk result (λ r. map row_of r.0.results.items ≡ job_rows 1 jobs.now) }
    ensures went { IfOk result
        (λ r. IsOver IsNumberSeat ring_known_of r.1 workers (length jobs.now) r.0.seats.items) }
    ensures over { IfOk result (λ r. IsCrewRing values workers r.1) }
    ensures refusal { IfErr result StopsWorkers }
{
    let roles = ring_roles_of(alloc, workers)?;
    let (queue, seats) = RingQueue::new(alloc, values, MOST_PLACE, &roles)?;
    results_over(rt, alloc, queue, workers, seats, jobs)
}

// A role for each worker, and the submitter's.
fn roles_of(alloc: Global, workers: u32) -> Result<Vec<Role>, Refusal>
    ensures roles { IfOk result (λ roles. roles.items ≡ crew_roles workers) }
    ensures only_memory { IfErr result (λ refusal. refusal ≡ Refusal.Memory) }
{
    let Ok(mut roles) = vec![in alloc; Role::Taker; workers as usize] else {
        return Err(Refusal::Memory);
    };
    match roles.push(Role::Giver) {
        Ok(()) => Ok(roles),
        Err(_) => Err(Refusal::Memory),
    }
}

// The same of a ring.
fn ring_roles_of(alloc: Global, workers: u32) -> Result<Vec<RingRole>, Refusal>
    ensures roles { IfOk result (λ roles. roles.items ≡ ring_crew_roles workers) }
    ensures only_memory { IfErr result (λ refusal. refusal ≡ Refusal.Memory) }
{
    let Ok(mut roles) = vec![in alloc; RingRole::Taker; workers as usize] else {
        return Err(Refusal::Memory);
    };
    match roles.push(RingRole::Giver) {
        Ok(()) => Ok(roles),
        Err(_) => Err(Refusal::Memory),
    }
}

// The results of jobs over this queue, which has a seat for each worker and then the submitter's; with them the seats, and the
// queue.
fn results_over<'a, R: Threads + Wait + Sync, Q: Fifo + Sync + Drop>(
    rt: &R,
    alloc: Global,
    queue: Q,
    workers: u32,
    seats: Vec<Q::Seat>,
    jobs: &'a [Job],
) -> Result<(Dispatched<'a, Q::Seat>, Q), Refusal>
    requires some { 1 ≤ workers }
    requires crew { IsCrew Q.is_seat Q.permits Q.known queue workers seats.items }
    requires few { length jobs.now ≤ 1000000 }
    ensures rows { IfOk result (λ r. map row_of r.0.results.items ≡ job_rows 1 jobs.now) }
    ensures same { IfOk result (λ r. r.1 ≡ queue) }
    ensures went { IfOk result
        (λ r. IsOver Q.is_seat Q.known r.1 workers (length jobs.now) r.0.seats.items) }
    ensures refusal { IfErr result StopsWorkers }
{
    let numbers = Numbers::new(queue);
    let queue = SharedQueue::new(numbers);
    let done = results_with(rt, alloc, &queue, workers, seats, jobs)?;
    Ok((done, queue.into_inner().into_queue()))
}

// The results of jobs over any queue, by a worker for each of its seats but the last, which is the submitter's.
fn results_with<'a, R: Threads + Wait + Sync, Q: Fifo + Sync>(
    rt: &R,
    alloc: Global,
    queue: &SharedQueue<Numbers<Q>>,
    workers: u32,
    mut seats: Vec<Q::Seat>,
    jobs: &'a [Job],
) -> Result<Dispatched<'a, Q::Seat>, Refusal>
    requires some { 1 ≤ workers }
    requires crew { IsCrew Q.is_seat Q.permits Q.known (numbers_in queue.now) workers seats.items }
    requires few { length jobs.now ≤ 1000000 }
    ensures rows { IfOk result (λ d. map row_of d.results.items ≡ job_rows 1 jobs.now) }
    ensures went { IfOk result (λ d. IsOver Q.is_seat Q.known (numbers_in queue.now) workers
        (length jobs.now) d.seats.items) }
    ensures refusal { IfErr result StopsWorkers }
{
    let Some(giver) = seats.pop() else {
        unreachable!()
    };
    submit(rt, alloc, queue, workers, giver, seats, jobs)
}

// The results of jobs by so many workers, each with one of these seats; the giver submits the jobs.
fn submit<'a, R: Threads + Wait + Sync, Q: Fifo + Sync>(
    rt: &R,
    alloc: Global,
    queue: &SharedQueue<Numbers<Q>>,
    workers: u32,
    giver: Q::Seat,
    takers: Vec<Q::Seat>,
    jobs: &'a [Job],
) -> Result<Dispatched<'a, Q::Seat>, Refusal>
    requires some { 1 ≤ workers }
    requires each { length takers.items ≡ workers }
    requires giver { IsGiver Q.is_seat Q.permits Q.known (numbers_in queue.now) giver }
    requires takers { All (IsTaker Q.is_seat Q.permits Q.known (numbers_in queue.now)) takers.items }
    requires few { length jobs.now ≤ 1000000 }
    ensures rows { IfOk result (λ d. map row_of d.results.items ≡ job_rows 1 jobs.now) }
    ensures went { IfOk result (λ d. WentOver Q.is_seat Q.known (numbers_in queue.now) giver
        takers.items (length jobs.now) d.seats.items) }
    ensures refusal { IfErr result StopsWorkers }
{
    dispatch_keeping_seats(rt, alloc, queue, giver, takers, jobs, &Open)
}
