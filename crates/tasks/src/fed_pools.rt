//! A pool that is fed: the tasks that it is given are run by its workers, and each result is told.
ghost use Rattle.std.specs.Prelude.{◌≡◌, ◌+◌, ◌++◌, ◌≤◌, ℕ, [], List, Result, length, map, None, vec_capacity, IfOk, IfErr};
ghost use Rattle.std.specs.List.{All, AllZip};
ghost use denote.Param.Send.{IsSend, IsSync};
ghost use Rattle.carriers.specs.Ends.{AsksSoMany};
ghost use Rattle.carriers.specs.Rests.{left_in};
ghost use Rattle.tasks.specs.declared.answers.Done.{Done};
ghost use Rattle.shared_queue.specs.Queues.{queue_of};
ghost use Rattle.tasks.specs.Answered.{value_in};
ghost use Rattle.tasks.specs.Workers.{IsPost, IsServed};
ghost use Rattle.tasks.specs.Leaders.{IsLeading, HasEnded};
ghost use Rattle.tasks.specs.Ends.{AllEnded};
ghost use Rattle.tasks.specs.FedPools.{IsLine, HasFed, AreRooms, IsSpace, unsent_of};

use crate::answers::Done;
use crate::crews::run_crew;
use crate::feeds::Feed;
use crate::leader::{Leader, Led, lead};
use crate::parts::{Parts, part, parts_for};
use crate::posts::{Post, posts_of, seats_of};
use crate::runs::{Numbered, Task};
use crate::stops::{AnyReason, Stop};
use crate::turns::End;
use crate::worker::{Served, serve};
use carriers::{Carrier, CloseCarrier, RestOf};
use history::Refusal;
use shared_queue::SharedQueue;
use std::alloc::Global;
use std::sync::Wait;
use std::thread::Threads;

/// A queue and all of its seats.
#[derive(Drop)]
pub struct Line<C, S> {
    pub queue: C,
    pub seats: Vec<S>,
}

/// The feed; the tasks that it gave and that weren't run; how each worker ended; why results were no longer taken before each
/// was told, and why the queue of tasks couldn't be shut.
#[derive(Drop)]
pub struct Fed<F, T> {
    pub feed: F,
    pub left: RestOf<Numbered<T>>,
    pub ends: Vec<End>,
    pub refused: Option<Refusal>,
    pub unshut: Option<Refusal>,
}

/// A feed that wasn't asked for anything, for want of memory, with the queues and their seats.
pub struct Unfed<F, C, S, D, U> {
    pub feed: F,
    pub tasks: Line<C, S>,
    pub results: Line<D, U>,
}

// What who handed out the tasks and the workers brought back.
#[derive(Drop)]
struct Crew<S, U, F, A> {
    led: Led<S, U, F>,
    workers: Vec<Served<S, U, A>>,
}

// Room for the posts of the workers, and for what these bring back, whose seats are then those of either queue.
#[derive(Drop)]
struct Space<S, U, A> {
    posts: Vec<Post<S, U>>,
    workers: Vec<Served<S, U, A>>,
    rooms: Rooms<S, U, A>,
}

// Room for what workers bring back, and for the seats of either queue.
#[derive(Drop)]
struct Rooms<S, U, A> {
    parts: Parts<Post<S, U>, Option<Done<A>>>,
    takers: Vec<S>,
    givers: Vec<U>,
}

// Room for what so many workers bring back.
fn rooms_for<S: Drop, U: Drop, A: Drop>(
    alloc: Global,
    workers: usize,
) -> Result<Rooms<S, U, A>, Refusal>
    ensures { IfOk result (AreRooms workers) }
{
    let parts = parts_for(alloc, workers)?;
    let mut takers = Vec::new(alloc);
    let mut givers = Vec::new(alloc);
    if takers.reserve(workers).is_err() || givers.reserve(workers).is_err() {
        return Err(Refusal::Memory);
    }
    Ok(Rooms {
        parts,
        takers,
        givers,
    })
}

// Room for so many workers.
fn space_for<S: Drop, U: Drop, A: Drop>(
    alloc: Global,
    workers: usize,
) -> Result<Space<S, U, A>, Refusal>
    ensures { IfOk result (IsSpace workers) }
{
    let rooms = rooms_for(alloc, workers)?;
    let mut posts = Vec::new(alloc);
    let mut served = Vec::new(alloc);
    if posts.reserve(workers).is_err() || served.reserve(workers).is_err() {
        return Err(Refusal::Memory);
    }
    Ok(Space {
        posts,
        workers: served,
        rooms,
    })
}

// Tells the results that are left in their queue.
fn tell_left<T: Task, F: Feed<T>>(feed: &mut F, rest: RestOf<Done<Result<T::Output, T::Error>>>)
    ensures told { (given : List T) (told : List (Done (Result T.Output T.Error)))
        → F.stands feed.old given told
        → F.stands feed.new given (told ++ map value_in (left_in rest)) }
    ensures kept { F.kept feed.new ≡ F.kept feed.old }
    ensures same { left_in rest ≡ [] → feed.new ≡ feed.old }
{
    for item in rest {
        feed.tell(item.value);
    }
}

// Tells the results that workers couldn't send.
fn tell_unsent<T: Task, F: Feed<T>>(
    feed: &mut F,
    unsent: Vec<Option<Done<Result<T::Output, T::Error>>>>,
)
    ensures told { (given : List T) (told : List (Done (Result T.Output T.Error)))
        → F.stands feed.old given told
        → F.stands feed.new given (told ++ unsent_of unsent.items) }
    ensures kept { F.kept feed.new ≡ F.kept feed.old }
    ensures same { unsent_of unsent.items ≡ [] → feed.new ≡ feed.old }
{
    for done in unsent {
        if let Some(done) = done {
            feed.tell(done);
        }
    }
}

// Closes both queues by all their seats, once the workers have ended, and tells the results that weren't told.
fn closed<
    T: Task,
    F: Feed<T>,
    C: CloseCarrier<Item = Numbered<T>>,
    D: CloseCarrier<Item = Done<Result<T::Output, T::Error>>>,
>(
    tasks: C,
    results: D,
    room: C::Room,
    results_room: D::Room,
    crew: Crew<C::Seat, D::Seat, F, Result<T::Output, T::Error>>,
    rooms: Rooms<C::Seat, D::Seat, Result<T::Output, T::Error>>,
) -> Fed<F, T>
    requires room { C.has_room tasks room }
    requires results_room { D.has_room results results_room }
    requires tasks_asked { AsksSoMany C.asks tasks (length crew.workers.items + 1) }
    requires results_asked { AsksSoMany D.asks results (length crew.workers.items + 1) }
    requires rooms { AreRooms (length crew.workers.items + 1) rooms }
    requires ended { AllEnded C.is_seat C.permits C.known D.is_seat D.permits D.known T.answers
        F.stands tasks results crew }
    requires idle { crew.led.refused ≡ None → F.idle crew.led.leader.feed }
    ensures told { HasFed T.answers F.stands result }
    ensures all { result.refused ≡ None → left_in result.left ≡ [] }
    ensures kept { F.kept result.feed ≡ F.kept crew.led.leader.feed }
    ensures idle { result.refused ≡ None → F.idle result.feed }
    ensures joined { length result.ends.items ≡ length crew.workers.items }
{
    let Crew { led, workers } = crew;
    let Led {
        leader,
        refused,
        unshut,
    } = led;
    let Leader {
        tasks: taker,
        results: giver,
        mut feed,
        given: _,
        awaited: _,
    } = leader;
    let mut parts = rooms.parts;
    parts.seats.push_reserved(Post { taker, giver });
    part(workers, &mut parts);
    let Parts {
        seats,
        dones: unsent,
        ends,
    } = parts;
    let (takers, givers) = seats_of(seats, rooms.takers, rooms.givers);
    let (left, _end) = tasks.close_with(room, takers);
    let (rest, _end) = results.close_with(results_room, givers);
    tell_left::<T, F>(&mut feed, rest);
    tell_unsent::<T, F>(&mut feed, unsent);
    Fed {
        feed,
        left,
        ends,
        refused,
        unshut,
    }
}

// Hands out the tasks in this thread, while workers run them in theirs: what came of it, once each has ended.
fn run_team<
    R: Threads + Wait + Sync,
    T: Task,
    F: Feed<T>,
    C: Carrier<Item = Numbered<T>> + Sync,
    D: Carrier<Item = Done<Result<T::Output, T::Error>>> + Sync,
>(
    rt: &R,
    tasks: &SharedQueue<C>,
    results: &SharedQueue<D>,
    posts: Vec<Post<C::Seat, D::Seat>>,
    leader: Leader<C::Seat, D::Seat, F>,
    workers: Vec<Served<C::Seat, D::Seat, Result<T::Output, T::Error>>>,
) -> Crew<C::Seat, D::Seat, F, Result<T::Output, T::Error>>
    requires bounds { IsSync R.row × IsSync C.row × IsSync D.row × IsSend T.row × IsSend T.Output.row ×
        IsSend T.Error.row × IsSend C.Seat.row × IsSend D.Seat.row }
    requires posts { All (IsPost C.is_seat C.permits C.known D.is_seat D.permits D.known
        (queue_of tasks.now) (queue_of results.now)) posts.items }
    requires leading { IsLeading C.is_seat C.permits C.known D.is_seat D.permits D.known T.answers
        F.stands (queue_of tasks.now) (queue_of results.now) leader }
    requires unused { workers.items ≡ [] }
    requires room { length posts.items ≤ vec_capacity workers }
    ensures led { HasEnded C.is_seat C.permits C.known D.is_seat D.permits D.known T.answers F.stands
        (queue_of tasks.now) (queue_of results.now) leader result.led }
    ensures kept { F.kept result.led.leader.feed ≡ F.kept leader.feed }
    ensures idle { result.led.refused ≡ None → F.idle result.led.leader.feed }
    ensures back { AllZip (IsServed C.is_seat C.permits C.known D.is_seat D.permits D.known T.answers
        (queue_of tasks.now) (queue_of results.now)) posts.items result.workers.items }
{
    let stop = Stop::<AnyReason>::new();
    let told = &stop;
    let serve_by = move |post: Post<C::Seat, D::Seat>| -> Served<
        C::Seat,
        D::Seat,
        Result<T::Output, T::Error>,
    >
        requires { IsPost C.is_seat C.permits C.known D.is_seat D.permits D.known
            (queue_of tasks.now) (queue_of results.now) post }
        ensures { IsServed C.is_seat C.permits C.known D.is_seat D.permits D.known T.answers
            (queue_of tasks.entry.now) (queue_of results.entry.now) post result }
    { serve(rt, tasks, results, post, told) };
    let lead_all = move || -> Led<C::Seat, D::Seat, F>
        requires { IsLeading C.is_seat C.permits C.known D.is_seat D.permits D.known T.answers
            F.stands (queue_of tasks.now) (queue_of results.now) leader }
        ensures led { HasEnded C.is_seat C.permits C.known D.is_seat D.permits D.known T.answers
            F.stands (queue_of tasks.entry.now) (queue_of results.entry.now) leader result }
        ensures kept { F.kept result.leader.feed ≡ F.kept leader.feed }
        ensures idle { result.refused ≡ None → F.idle result.leader.feed }
    { lead(rt, tasks, results, leader, told) };
    let (led, workers) = run_crew(rt, &serve_by, posts, lead_all, workers);
    Crew { led, workers }
}

// Runs the tasks that are given, once there is room for all that comes of it.
fn run_in<
    R: Threads + Wait + Sync,
    T: Task,
    F: Feed<T>,
    C: CloseCarrier<Item = Numbered<T>> + Sync,
    D: CloseCarrier<Item = Done<Result<T::Output, T::Error>>> + Sync,
>(
    rt: &R,
    feed: F,
    tasks: Line<C, C::Seat>,
    results: Line<D, D::Seat>,
    room: C::Room,
    results_room: D::Room,
    space: Space<C::Seat, D::Seat, Result<T::Output, T::Error>>,
) -> Fed<F, T>
    requires feed { F.stands feed [] [] }
    requires tasks { IsLine C.is_seat C.permits C.known tasks }
    requires results { IsLine D.is_seat D.permits D.known results }
    requires same { length tasks.seats.items ≡ length results.seats.items }
    requires tasks_asked { AsksSoMany C.asks tasks.queue (length tasks.seats.items) }
    requires results_asked { AsksSoMany D.asks results.queue (length results.seats.items) }
    requires room { C.has_room tasks.queue room }
    requires results_room { D.has_room results.queue results_room }
    requires space { IsSpace (length tasks.seats.items) space }
    ensures told { HasFed T.answers F.stands result }
    ensures all { result.refused ≡ None → left_in result.left ≡ [] }
    ensures kept { F.kept result.feed ≡ F.kept feed }
    ensures idle { result.refused ≡ None → F.idle result.feed }
    ensures joined { length result.ends.items + 1 ≡ length tasks.seats.items }
{
    let queue = SharedQueue::new(tasks.queue);
    let answers = SharedQueue::new(results.queue);
    let mut takers = tasks.seats;
    let mut givers = results.seats;
    let Some(tasks) = takers.pop() else {
        unreachable!()
    };
    let Some(results) = givers.pop() else {
        unreachable!()
    };
    let posts = posts_of(takers, givers, space.posts);
    let leader = Leader {
        tasks,
        results,
        feed,
        given: 0,
        awaited: 0,
    };
    let crew = run_team(rt, &queue, &answers, posts, leader, space.workers);
    closed(
        queue.into_inner(),
        answers.into_inner(),
        room,
        results_room,
        crew,
        space.rooms,
    )
}

/// Runs the tasks that a feed gives, in a thread for each seat but the last one of each queue, and in the caller's; each result
/// is told to the feed as it comes. It ends once the feed gives no task and each result is told. Both queues are closed.
///
/// The feed is called in the caller's thread alone, which hands out tasks, tells results, and runs a task itself where there
/// is no room for it, or nothing else to do. So neither a missing thread nor a small queue makes anybody wait for good: a
/// worker for which no thread can be made runs here at the end. A task that fails is answered by its error, and the others go
/// on.
///
/// Refused for want of memory alone, before the feed is asked; then all comes back. Takes memory for what `close` takes and for
/// what workers bring back, and none while tasks are run; waits.
pub fn run_fed<
    R: Threads + Wait + Sync,
    T: Task,
    F: Feed<T>,
    C: CloseCarrier<Item = Numbered<T>> + Sync,
    D: CloseCarrier<Item = Done<Result<T::Output, T::Error>>> + Sync,
>(
    rt: &R,
    alloc: Global,
    feed: F,
    tasks: Line<C, C::Seat>,
    results: Line<D, D::Seat>,
) -> Result<Fed<F, T>, Unfed<F, C, C::Seat, D, D::Seat>>
    requires feed { F.stands feed [] [] }
    requires tasks { IsLine C.is_seat C.permits C.known tasks }
    requires results { IsLine D.is_seat D.permits D.known results }
    requires same { length tasks.seats.items ≡ length results.seats.items }
    requires tasks_asked { AsksSoMany C.asks tasks.queue (length tasks.seats.items) }
    requires results_asked { AsksSoMany D.asks results.queue (length results.seats.items) }
    //= tasks/fed (told, all, kept, idle, joined): By its `stands` a feed gave some tasks, each of which is told of
    //=   once: its own result was told, under its number, or it is handed back. Where no refusal is told of who
    //=   handed out the tasks (`refused`), none is handed back, and the feed is idle. What it keeps is as before.
    //=   Each worker has ended.
    ensures told { IfOk result (HasFed T.answers F.stands) }
    ensures all { IfOk result (λ fed. fed.refused ≡ None → left_in fed.left ≡ []) }
    ensures kept { IfOk result (λ fed. F.kept fed.feed ≡ F.kept feed) }
    ensures idle { IfOk result (λ fed. fed.refused ≡ None → F.idle fed.feed) }
    ensures joined { IfOk result (λ fed. length fed.ends.items + 1 ≡ length tasks.seats.items) }
    //= tasks/unfed (feed, tasks, results): Refused, `run_fed` gives all back, the feed as it was. Why it is, no clause
    //=   says.
    ensures feed { IfErr result (λ unfed. unfed.feed ≡ feed) }
    ensures tasks { IfErr result (λ unfed. unfed.tasks ≡ tasks) }
    ensures results { IfErr result (λ unfed. unfed.results ≡ results) }
{
    let space = space_for(alloc, tasks.seats.len());
    let room = tasks.queue.room(alloc);
    match (room, results.queue.room(alloc), space) {
        (Ok(room), Ok(results_room), Ok(space)) => {
            Ok(run_in(rt, feed, tasks, results, room, results_room, space))
        }
        _ => Err(Unfed {
            feed,
            tasks,
            results,
        }),
    }
}
