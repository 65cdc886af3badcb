//! Tasks that are run by a pool: what became of each.
ghost use Rattle.std.specs.Prelude.{◌≡◌, ◌+◌, ◌≤◌, [], length, map, vec_capacity, Some, IfOk, IfErr};
ghost use Rattle.std.specs.List.{All, AllZip, Any};
ghost use denote.Param.Send.{IsSend, IsSync};
ghost use Rattle.history.specs.Seats.{MayPush};
ghost use Rattle.carriers.specs.Ends.{AsksSoMany};
ghost use Rattle.carriers.specs.Rests.{left_in};
ghost use Rattle.shared_queue.specs.Queues.{queue_of};
ghost use Rattle.tasks.specs.Tasks.{AreTold};
ghost use Rattle.tasks.specs.Gathers.{slots_in, fills};
ghost use Rattle.tasks.specs.Turns.{IsBack};
ghost use Rattle.tasks.specs.Offers.{HasLed};
ghost use Rattle.tasks.specs.Crews.{IsTaker, AreTakers, IsBatch};
ghost use Rattle.tasks.specs.Parts.{IsSpace, AreWithin, tells_of, told_of, CanTell};
ghost use Rattle.tasks.specs.Pools.{IsCrewOf, IsFinished, IsAnswered, IsRunBy};

use crate::answers::{Done, Outcome};
use crate::crews::run_crew;
use crate::gathers::Gather;
use crate::offers::{Led, lead};
use crate::parts::{Parts, part, parts_for};
use crate::runs::{Numbered, Task};
use crate::stops::{Stop, Unshut};
use crate::turns::{End, Worked, work};
use carriers::{Carrier, CloseCarrier, RestOf};
use history::Refusal;
use shared_queue::SharedQueue;
use std::alloc::Global;
use std::sync::Wait;
use std::thread::Threads;

/// What became of each task, in their order; how each worker ended; why the submitter last ran a task itself, and why the
/// queue couldn't be shut.
#[derive(Drop)]
pub struct Ran<T, A> {
    pub outcomes: Vec<Outcome<T, A>>,
    pub ends: Vec<End>,
    pub refused: Option<Refusal>,
    pub unshut: Option<Refusal>,
}

/// Tasks that weren't run, for want of memory, with the queue and its seats.
pub struct Unrun<C, S, T> {
    pub queue: C,
    pub seats: Vec<S>,
    pub tasks: Vec<T>,
}

// Room for what becomes of the tasks, and for what the workers bring back.
#[derive(Drop)]
struct Space<S, T, A> {
    gather: Gather<T, A>,
    workers: Vec<Worked<S, Vec<Done<A>>>>,
    parts: Parts<S, Vec<Done<A>>>,
}

// Tasks that are to be run, by whom they are offered, and what became of each.
#[derive(Drop)]
struct Batch<S, T, A> {
    giver: S,
    tasks: Vec<T>,
    gather: Gather<T, A>,
}

// Room for so many tasks and so many workers.
fn space_for<S: Drop, T: Drop, A: Drop>(
    alloc: Global,
    tasks: usize,
    seats: usize,
) -> Result<Space<S, T, A>, Refusal>
    ensures { IfOk result (IsSpace tasks seats) }
{
    let gather = Gather::new(alloc, tasks)?;
    let parts = parts_for(alloc, seats)?;
    let mut workers = Vec::new(alloc);
    if workers.reserve(seats).is_err() {
        return Err(Refusal::Memory);
    }
    Ok(Space {
        gather,
        workers,
        parts,
    })
}

// Puts the results of each worker under their numbers.
fn put_each<T: Drop, A: Drop>(gather: &mut Gather<T, A>, dones: Vec<Vec<Done<A>>>)
    requires { AreWithin (length (slots_in gather.old)) dones.items }
    ensures { slots_in gather.new ≡ fills (slots_in gather.old) (tells_of dones.items) }
{
    for done in dones {
        gather.put_done(done);
    }
}

// What became of each task: the submitter ran it, or a worker, or it is left.
fn told<T: Drop, A: Drop>(
    mut gather: Gather<T, A>,
    dones: Vec<Vec<Done<A>>>,
    rest: RestOf<Numbered<T>>,
) -> Vec<Outcome<T, A>>
    requires { CanTell (slots_in gather) dones.items (left_in rest) }
    ensures { map Some result.items ≡ told_of (slots_in gather) dones.items (left_in rest) }
{
    put_each(&mut gather, dones);
    gather.put_left(rest);
    gather.finish()
}

// Offers the tasks in this thread, while workers run them in theirs: what the submitter brought back, and each worker.
fn run_batch<R: Threads + Wait + Sync, T: Task, C: Carrier<Item = Numbered<T>> + Sync>(
    rt: &R,
    alloc: Global,
    queue: &SharedQueue<C>,
    takers: Vec<C::Seat>,
    batch: Batch<C::Seat, T, Result<T::Output, T::Error>>,
    workers: Vec<Worked<C::Seat, Vec<Done<Result<T::Output, T::Error>>>>>,
) -> (
    Led<C::Seat, T, Result<T::Output, T::Error>>,
    Vec<Worked<C::Seat, Vec<Done<Result<T::Output, T::Error>>>>>,
)
    requires bounds { IsSync R.row × IsSync C.row × IsSend T.row × IsSend T.Output.row ×
        IsSend T.Error.row × IsSend C.Seat.row }
    requires takers { AreTakers C.is_seat C.permits C.known (queue_of queue.now) takers.items }
    requires batch { IsBatch C.is_seat C.permits C.known (queue_of queue.now) batch }
    requires unused { workers.items ≡ [] }
    requires room { length takers.items ≤ vec_capacity workers }
    ensures led { HasLed C.is_seat C.known C.shut_cause T.answers (queue_of queue.now)
        batch.tasks.items batch.giver (slots_in batch.gather) result.0 }
    ensures back { AllZip (IsBack C.is_seat C.known C.pop_cause T.answers (queue_of queue.now))
        takers.items result.1.items }
{
    let stop = Stop::<Unshut>::new();
    let told = &stop;
    let work_by = move |seat: C::Seat| -> Worked<C::Seat, Vec<Done<Result<T::Output, T::Error>>>>
        requires { IsTaker C.is_seat C.permits C.known (queue_of queue.now) seat }
        ensures { IsBack C.is_seat C.known C.pop_cause T.answers (queue_of queue.entry.now)
            seat result }
    { work(rt, alloc, queue, seat, told) };
    let Batch {
        giver,
        tasks,
        gather,
    } = batch;
    let offer_each = move || -> Led<C::Seat, T, Result<T::Output, T::Error>>
        requires seat { C.is_seat (queue_of queue.now) giver }
        requires role { MayPush (C.permits (queue_of queue.now)) (C.known giver).number }
        requires slots { length (slots_in gather) ≡ length tasks.items }
        ensures { HasLed C.is_seat C.known C.shut_cause T.answers (queue_of queue.entry.now)
            tasks.items giver (slots_in gather) result }
    { lead(rt, queue, giver, tasks, gather, told) };
    run_crew(rt, &work_by, takers, offer_each, workers)
}

// Runs the tasks, once there is room for all that comes of it.
fn run_in<R: Threads + Wait + Sync, T: Task, C: CloseCarrier<Item = Numbered<T>> + Sync>(
    rt: &R,
    alloc: Global,
    queue: C,
    mut seats: Vec<C::Seat>,
    tasks: Vec<T>,
    room: C::Room,
    space: Space<C::Seat, T, Result<T::Output, T::Error>>,
) -> Ran<T, Result<T::Output, T::Error>>
    requires crew { IsCrewOf C.is_seat C.permits C.known queue seats.items }
    requires asked { AsksSoMany C.asks queue (length seats.items) }
    requires room { C.has_room queue room }
    requires space { IsSpace (length tasks.items) (length seats.items) space }
    ensures told { AreTold T.answers tasks.items result.outcomes.items }
    ensures joined { length result.ends.items + 1 ≡ length seats.items }
    ensures finished { Any IsFinished result.ends.items → All IsAnswered result.outcomes.items }
    ensures ran { IsRunBy C.is_seat C.known C.pop_cause C.shut_cause T.answers queue seats.items
        tasks.items result }
{
    let Some(giver) = seats.pop() else {
        unreachable!()
    };
    let Space {
        gather,
        workers,
        mut parts,
    } = space;
    let batch = Batch {
        giver,
        tasks,
        gather,
    };
    let queue = SharedQueue::new(queue);
    let (led, workers) = run_batch(rt, alloc, &queue, seats, batch, workers);
    let Led {
        seat,
        gather,
        refused,
        unshut,
    } = led;
    parts.seats.push_reserved(seat);
    part(workers, &mut parts);
    let Parts { seats, dones, ends } = parts;
    let (rest, _end) = queue.into_inner().close_with(room, seats);
    let outcomes = told(gather, dones, rest);
    Ran {
        outcomes,
        ends,
        refused,
        unshut,
    }
}

/// Runs each of these tasks in a pool of workers, one for each seat but the last one, which offers the tasks: what became
/// of each, in their order. The queue is closed.
///
/// A task that finds no room in the queue is run by the submitter, in this thread. A task that fails is answered by its
/// error, and the others go on. One is handed back only where no worker found the queue shut and empty. A worker for which
/// no thread can be made runs here, once all tasks are offered.
///
/// Refused for want of memory alone, before any task is offered; then all comes back. Takes memory for two outcomes a task,
/// for what `close` takes and for what workers bring back, and each thread for its results; waits.
pub fn run_on<R: Threads + Wait + Sync, T: Task, C: CloseCarrier<Item = Numbered<T>> + Sync>(
    rt: &R,
    alloc: Global,
    queue: C,
    seats: Vec<C::Seat>,
    tasks: Vec<T>,
) -> Result<Ran<T, Result<T::Output, T::Error>>, Unrun<C, C::Seat, T>>
    requires crew { IsCrewOf C.is_seat C.permits C.known queue seats.items }
    requires asked { AsksSoMany C.asks queue (length seats.items) }
    //= tasks/told (told, joined, finished): Each task that a pool was given is told of once, at its own place: by its own
    //=   answer, or as handed back. Each worker has ended. Where one found the queue shut and empty, each task is answered.
    ensures told { IfOk result (λ ran. AreTold T.answers tasks.items ran.outcomes.items) }
    ensures joined { IfOk result (λ ran. length ran.ends.items + 1 ≡ length seats.items) }
    ensures finished { IfOk result
        (λ ran. Any IsFinished ran.ends.items → All IsAnswered ran.outcomes.items) }
    //= tasks/run_by: What a pool tells was brought back by the submitter, which offered each task by the last seat and then
    //=   shut the queue, and by the workers, each by a seat of its own. So `refused` is none only where each task was pushed,
    //=   and `unshut` only where the queue was shut, or found shut, and else has its cause; a worker's end has its cause; a task
    //=   that is handed back was left in the queue.
    ensures ran { IfOk result (IsRunBy C.is_seat C.known C.pop_cause C.shut_cause T.answers queue
        seats.items tasks.items) }
    //= tasks/unrun (queue, seats, tasks): Refused, `run_on` gives all back. Why it is, no clause says.
    ensures queue { IfErr result (λ unrun. unrun.queue ≡ queue) }
    ensures seats { IfErr result (λ unrun. unrun.seats.items ≡ seats.items) }
    ensures tasks { IfErr result (λ unrun. unrun.tasks.items ≡ tasks.items) }
{
    let space = space_for(alloc, tasks.len(), seats.len());
    match (queue.room(alloc), space) {
        (Ok(room), Ok(space)) => Ok(run_in(rt, alloc, queue, seats, tasks, room, space)),
        _ => Err(Unrun {
            queue,
            seats,
            tasks,
        }),
    }
}
