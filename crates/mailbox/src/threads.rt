//! A thread for each sender, and the calling thread for the receiver.
ghost use Rattle.std.specs.Prelude.{◌≡◌, ◌≢◌, ◌≤◌, [], ◌∷◌, length, map, vec_capacity, IfOk, IfErr, IfSome};
ghost use Rattle.std.specs.List.{All, AllZip};
ghost use Rattle.mailbox.specs.Deliveries.{InOrder};
ghost use Rattle.mailbox.specs.Plans.{AreDue};
ghost use Rattle.mailbox.specs.Offices.{IsSender, IsReceiver, marks, receiver_knows};
ghost use Rattle.mailbox.specs.Posts.{IsTask, IsTaskAt, Plans, BringTexts, Delivered, letters_of, texts_in};
ghost use Rattle.mailbox.specs.Refusals.{EndsDue, EndsPost};
ghost use Rattle.mailbox.specs.Causes.{HasEnded, FirstIsTold, PostRefused};
ghost use Rattle.mailbox.specs.Endings.{IsLeftShut, PostLeaves};
ghost use Rattle.mailbox.specs.Threads.{IsBack, IsStartedFor, IsOfOffice, ComesBack, TellFirst};

use crate::due_texts::count_letters;
use crate::ends::{EndCounter, Ended, GivenUp};
use crate::office::Office;
use crate::parcels::Due;
use crate::receiver::{Letter, Receiver};
use crate::sender::Sender;
use crate::taken_letters::take_all;
use history::{Fifo, Refusal};
use std::alloc::Global;
use std::snapshot::Snapshot;
use std::sync::Wait;
use std::thread;
use std::thread::{Promise, PromisedHandle, Scope, Threads};

/// A sender, and the texts that it is to send, in order.
#[derive(Drop)]
pub struct Task<Q: Fifo + Drop> {
    pub sender: Sender<Q>,
    pub texts: Vec<String>,
}

// Sends the texts of the task of this number in order, up to the first refusal. Sleeps while there is no node for a letter, unless
// another sender was refused, or the receiver has ended.
fn send_texts<R: Wait, Q: Fifo + Drop>(
    rt: &R,
    office: &Office<Q>,
    number: usize,
    sender: &mut Sender<Q>,
    texts: Vec<String>,
    ended: &EndCounter,
) -> Ended
    requires office { IsSender Q.is_seat Q.permits Q.known office.now sender.old }
    requires due { AreDue (marks office.now) number 0 texts.items }
    ensures office { IsSender Q.is_seat Q.permits Q.known office.now sender.new }
    ensures ended { HasEnded Q.is_seat Q.known Q.push_cause office.now sender.old texts.items
        result.refusal }
{
    let until = GivenUp { counter: ended };
    let mut place = 0;
    for text in texts {
        let due = Due {
            task: number,
            place,
        };
        if let Err(refusal) = sender.send_due(rt, office, text, due, &until) {
            return Ended::refused(refusal);
        }
        place += 1;
    }
    Ended::well()
}

// Ends the waits for nodes: the letters won't all come.
fn give_up<Q: Fifo + Drop>(office: &Office<Q>, ended: &EndCounter) {
    ended.give_up();
    office.queue.wake_all();
}

// How a sender ends that has no thread: there was no memory for its first text, where it has one.
fn ends_unsent<Q: Fifo + Drop>(office: &Office<Q>, sender: &Sender<Q>, texts: &[String]) -> Ended
    ensures { HasEnded Q.is_seat Q.known Q.push_cause office.now sender.now texts.now
        result.refusal }
{
    let _ = office;
    let _ = sender;
    if texts.is_empty() {
        return Ended::well();
    }
    Ended::refused(Refusal::Memory)
}

// How a task's sender ended, and the sender, which comes back.
#[derive(Drop)]
struct Back<Q: Fifo + Drop> {
    end: Ended,
    sender: Sender<Q>,
}

// Sends the texts of the task of this number, and then counts its sender as ended. The last one shuts the queue: no other sender
// sends any more. Where the shut is refused, the receiver ends by the count, once it is woken. One without a thread does nothing.
fn send_all<R: Wait, Q: Fifo + Drop>(
    rt: &R,
    office: &Office<Q>,
    number: usize,
    task: Task<Q>,
    ended: &EndCounter,
) -> Back<Q>
    requires { IsTaskAt Q.is_seat Q.permits Q.known office.now number task }
    ensures { IsBack Q.is_seat Q.permits Q.known Q.push_cause office.now task result }
{
    let Task { mut sender, texts } = task;
    if ended.is_left_out(number) {
        let end = ends_unsent(office, &sender, &texts);
        return Back { end, sender };
    }
    let end = send_texts(rt, office, number, &mut sender, texts, ended);
    if end.refusal().is_some() {
        give_up(office, ended);
    }
    if ended.ends_last() && sender.shut(rt, office).is_err() {
        office.queue.wake_all();
    }
    Back { end, sender }
}

// That the sender of this task comes back in this office.
#[derive(Drop)]
struct Ends<Q: Fifo + Drop> {
    office: Snapshot<Office<Q>>,
    task: Snapshot<Task<Q>>,
}

impl<Q: Fifo + Drop> Promise<Back<Q>> for Ends<Q> {
    ghost use Rattle.mailbox.specs.Threads.{IsBack};

    ghost kept_by = { λ p back. IsBack Q.is_seat Q.permits Q.known Q.push_cause p.office.value
        p.task.value back };
}

// The thread of a task's sender; or the sender, where none could be made.
#[derive(Drop)]
enum Started<Q: Fifo + Drop> {
    Running(PromisedHandle<Back<Q>, Ends<Q>>),
    Unstarted(Back<Q>),
}

// Starts the thread of a task's sender. Where no thread can be made, the sender comes back, and counts as ended; the receiver
// doesn't take letters yet, so none has to wake it.
fn start<'s, E, R: Threads + Wait + Sync, Q: Fifo + Sync + Drop>(
    scope: &Scope<'s, E>,
    rt: &'s R,
    office: &'s Office<Q>,
    number: usize,
    task: Task<Q>,
    ended: &'s EndCounter,
) -> Started<Q>
    requires { IsTaskAt Q.is_seat Q.permits Q.known office.now number task }
    ensures { IsStartedFor Q.is_seat Q.permits Q.known Q.push_cause office.now task result }
{
    let promise = Ends {
        office: Snapshot::of(office),
        task: Snapshot::of(&task),
    };
    let started = scope.spawn_with(
        promise,
        move || -> Back<Q>
            requires { IsTaskAt Q.is_seat Q.permits Q.known office.now number task }
            ensures { IsBack Q.is_seat Q.permits Q.known Q.push_cause office.entry.now task result }
        { send_all(rt, office, number, task, ended) },
    );
    match started {
        Ok(handle) => Started::Running(handle),
        Err(refused) => {
            ended.leave_out(number);
            ended.ends_last();
            Started::Unstarted((refused.value)())
        }
    }
}

// Starts the thread of each task's sender, in their order.
fn start_all<'s, E, R: Threads + Wait + Sync, Q: Fifo + Sync + Drop>(
    scope: &Scope<'s, E>,
    rt: &'s R,
    office: &'s Office<Q>,
    tasks: Vec<Task<Q>>,
    mut threads: Vec<Started<Q>>,
    ended: &'s EndCounter,
) -> Vec<Started<Q>>
    requires tasks { All (IsTask Q.is_seat Q.permits Q.known office.now) tasks.items }
    requires plan { Plans office.now tasks.items }
    requires none { threads.items ≡ [] }
    requires room { length tasks.items ≤ vec_capacity threads }
    ensures { AllZip (IsStartedFor Q.is_seat Q.permits Q.known Q.push_cause office.now)
        tasks.items result.items }
{
    for task in tasks {
        let number = threads.len();
        threads.push_reserved(start(scope, rt, office, number, task, ended));
    }
    threads
}

// What is answered of a sender's refusal: that its letters are lost, where it found the queue shut.
fn answered(refusal: Option<Refusal>) -> Option<Refusal>
    requires { IfSome refusal EndsDue }
    ensures shut { refusal ≡ Some Refusal.Closed → result ≡ Some Refusal.Lost }
    ensures same { refusal ≢ Some Refusal.Closed → result ≡ refusal }
    ensures refusal { IfSome result EndsPost }
{
    match refusal {
        Some(Refusal::Closed) => Some(Refusal::Lost),
        refusal => refusal,
    }
}

// What is told of a sender that came back, and the sender.
fn told_of<Q: Fifo + Drop>(back: Back<Q>) -> (Option<Refusal>, Sender<Q>)
    ensures told { FirstIsTold (back.end.refusal ∷ []) result.0 }
    ensures refusal { IfSome result.0 EndsPost }
    ensures sender { result.1 ≡ back.sender }
{
    let Back { end, sender } = back;
    (answered(end.refusal()), sender)
}

// What is told of a sender, once its thread has ended, and the sender.
fn join_one<R: Threads + Wait, Q: Fifo + Drop>(
    rt: &R,
    office: &Office<Q>,
    thread: Started<Q>,
) -> (Option<Refusal>, Sender<Q>)
    requires { IsOfOffice Q.is_seat Q.permits Q.known office.now thread }
    ensures told { TellFirst Q.is_seat Q.known Q.push_cause (thread ∷ []) result.0 }
    ensures refusal { IfSome result.0 EndsPost }
    ensures sender { IsSender Q.is_seat Q.permits Q.known office.now result.1 }
{
    let _ = office;
    match thread {
        Started::Running(handle) => told_of(handle.join(rt)),
        Started::Unstarted(back) => told_of(back),
    }
}

// Waits for the senders' threads; what is told of the first sender that was refused, and one of the senders, if there are any.
fn join_all<R: Threads + Wait, Q: Fifo + Drop>(
    rt: &R,
    office: &Office<Q>,
    threads: Vec<Started<Q>>,
) -> (Option<Refusal>, Option<Sender<Q>>)
    requires { All (IsOfOffice Q.is_seat Q.permits Q.known office.now) threads.items }
    ensures first { TellFirst Q.is_seat Q.known Q.push_cause threads.items result.0 }
    ensures refusal { IfSome result.0 EndsPost }
    ensures back { ComesBack Q.is_seat Q.permits Q.known office.now threads.items result.1 }
{
    let mut first = None;
    let mut back = None;
    for thread in threads {
        let (refusal, sender) = join_one(rt, office, thread);
        back = Some(sender);
        if first.is_none() {
            first = refusal;
        }
    }
    (first, back)
}

// Shuts the queue by this sender, where there is one, unless it is shut: no sender sends any more.
fn leave_shut<R: Wait, Q: Fifo + Drop>(rt: &R, office: &Office<Q>, sender: Option<Sender<Q>>)
    requires { IfSome sender (IsSender Q.is_seat Q.permits Q.known office.now) }
    ensures { IfSome sender (λ _. IsLeftShut Q.is_seat Q.permits Q.known Q.shut_cause office.now) }
{
    if let Some(mut sender) = sender {
        let _ = sender.shut(rt, office);
    }
}

// Starts the senders' threads, takes the letters, waits for the threads, and sees that the queue is shut. All room is made before
// the first thread.
fn run<'s, 'a: 's, E, R: Threads + Wait + Sync, Q: Fifo + Sync + Drop>(
    scope: &Scope<'s, E>,
    rt: &'s R,
    alloc: Global,
    office: &'a Office<Q>,
    tasks: Vec<Task<Q>>,
    receiver: &mut Receiver<Q>,
    ended: &'s EndCounter,
) -> Result<Vec<Letter<'a>>, Refusal>
    requires tasks { All (IsTask Q.is_seat Q.permits Q.known office.now) tasks.items }
    requires plan { Plans office.now tasks.items }
    requires receiver { IsReceiver Q.is_seat Q.permits Q.known office.now receiver.old }
    ensures receiver { IsReceiver Q.is_seat Q.permits Q.known office.now receiver.new }
    ensures order { InOrder (receiver_knows Q.known receiver.new) }
    ensures delivered { IfOk result (λ v. Delivered Q.known receiver.old v.items receiver.new) }
    ensures all { IfOk result (λ v. length v.items ≡ letters_of tasks.items) }
    ensures texts { IfOk result (λ v. BringTexts (map texts_in tasks.items) v.items) }
    ensures refusal { IfErr result EndsPost }
    ensures caused { IfErr result (λ refusal. PostRefused Q.is_seat Q.known Q.push_cause office.now
        tasks.items receiver.old refusal receiver.new) }
    ensures leaves { PostLeaves Q.is_seat Q.permits Q.known Q.push_cause Q.shut_cause office.now
        tasks.items receiver.old result receiver.new }
{
    let senders = tasks.len();
    let Some(due) = count_letters(&tasks) else {
        return Err(Refusal::Memory);
    };
    let mut letters = Vec::new(alloc);
    let Ok(()) = letters.reserve(due) else {
        return Err(Refusal::Memory);
    };
    let Ok(counts) = vec![in alloc; 0usize; senders] else {
        return Err(Refusal::Memory);
    };
    let mut threads = Vec::new(alloc);
    let Ok(()) = threads.reserve(senders) else {
        return Err(Refusal::Memory);
    };
    let threads = start_all(scope, rt, office, tasks, threads, ended);
    let taken = take_all(rt, office, receiver, letters, due, counts, ended);
    give_up(office, ended);
    let (refused, back) = join_all(rt, office, threads);
    leave_shut(rt, office, back);
    let letters = taken?;
    if letters.len() < due {
        return Err(refused.unwrap_or(Refusal::Lost));
    }
    Ok(letters)
}

/// Sends the letters of each task in a thread of its own, and takes them in the calling thread. The receiver comes back.
///
/// The office was made for these tasks, by `Office::for_tasks`, and their seats are numbered from 1 on, in order. The letters
/// come in the order in which they were taken. The receiver sleeps while there is no letter, and a sender while there is no
/// node for one. A sender ends at its first refusal, which is `NoNode` where there was no node and another sender had been
/// refused, or the receiver had ended. The sender that ends last shuts the queue. It is left shut, where there are tasks, unless
/// its Tail is worn out: no letter can be sent any more.
///
/// Refusals: `Memory`, before any thread, where there is no room for the letters and threads; then that of a take, or `Lost`
/// where a letter isn't the next one of its sender's; else, where letters are missing, the refusal of the first task whose
/// sender was refused (`Memory` where its thread could not be made, `Lost` where it found the queue shut); else `Lost`. That
/// a take finds the queue shut and empty is none. Takes memory for the letters and the threads, and waits for all of them.
///
/// ```rust
/// let office = office.for_tasks(alloc, &tasks)?;
/// let (receiver, posted) = post(rt, alloc, &office, tasks, receiver);
/// let letters = posted?;
/// ```
pub fn post<'a, R: Threads + Wait + Sync, Q: Fifo + Sync + Drop>(
    rt: &R,
    alloc: Global,
    office: &'a Office<Q>,
    tasks: Vec<Task<Q>>,
    receiver: Receiver<Q>,
) -> (Receiver<Q>, Result<Vec<Letter<'a>>, Refusal>)
    requires tasks { All (IsTask Q.is_seat Q.permits Q.known office.now) tasks.items }
    requires plan { Plans office.now tasks.items }
    requires receiver { IsReceiver Q.is_seat Q.permits Q.known office.now receiver }
    //= letters/posted (receiver, order, delivered, all, texts, refusal): Letters posted come in the order taken: one
    //=   value popped for each, which its sender pushed, and no others; as many as the tasks have, seat 1's the texts
    //=   of the first task, in their order, and so on. At a refusal too the receiver given back is the office's and
    //=   took in order; a post is refused `NoNode`, `WornOut`, `Memory`, `BadSize` or `Lost`.
    ensures receiver { IsReceiver Q.is_seat Q.permits Q.known office.now result.0 }
    ensures order { InOrder (receiver_knows Q.known result.0) }
    ensures delivered { IfOk result.1 (λ v. Delivered Q.known receiver v.items result.0) }
    ensures all { IfOk result.1 (λ v. length v.items ≡ letters_of tasks.items) }
    ensures texts { IfOk result.1 (λ v. BringTexts (map texts_in tasks.items) v.items) }
    ensures refusal { IfErr result.1 EndsPost }
    //= letters/post_refused: Letters that aren't posted: at `Memory` the receiver may be as it was. Or, behind
    //=   letters taken, a take was refused that took nothing, or by `Lost`, where a letter is lost or out of its
    //=   turn. Or all were taken that were there, fewer than the tasks have: then each sender made as many entries as
    //=   it has letters, or as were before the refused one, and the first sender that was refused is told, by what it
    //=   was refused, with its cause, by `Lost` where it found the queue shut; and `Lost`, where none was.
    ensures caused { IfErr result.1 (λ refusal. PostRefused Q.is_seat Q.known Q.push_cause
        office.now tasks.items receiver refusal result.0) }
    //= letters/post_leaves: Unless a post is refused `Memory` with the receiver as it was, all its senders have
    //=   ended, by as many entries as they have letters, or as were before the one that was refused, with the cause.
    //=   Unless there were no tasks, its queue is then left shut, or Tail is worn out: a sender of its office shut
    //=   it, or found it shut, or was refused so, with the cause.
    ensures leaves { PostLeaves Q.is_seat Q.permits Q.known Q.push_cause Q.shut_cause office.now
        tasks.items receiver result.1 result.0 }
{
    let counter = EndCounter::new(tasks.len());
    let ended = &counter;
    thread::scope(
        thread::scope_env(),
        rt,
        |scope| -> (Receiver<Q>, Result<Vec<Letter>, Refusal>)
            requires tasks { All (IsTask Q.is_seat Q.permits Q.known office.now) tasks.items }
            requires plan { Plans office.now tasks.items }
            requires receiver { IsReceiver Q.is_seat Q.permits Q.known office.now receiver }
            ensures receiver { IsReceiver Q.is_seat Q.permits Q.known office.entry.now result.0 }
            ensures order { InOrder (receiver_knows Q.known result.0) }
            ensures delivered { IfOk result.1 (λ v. Delivered Q.known receiver v.items result.0) }
            ensures all { IfOk result.1 (λ v. length v.items ≡ letters_of tasks.items) }
            ensures texts { IfOk result.1 (λ v. BringTexts (map texts_in tasks.items) v.items) }
            ensures refusal { IfErr result.1 EndsPost }
            ensures caused { IfErr result.1 (λ refusal. PostRefused Q.is_seat Q.known Q.push_cause
                office.entry.now tasks.items receiver refusal result.0) }
            ensures leaves { PostLeaves Q.is_seat Q.permits Q.known Q.push_cause Q.shut_cause
                office.entry.now tasks.items receiver result.1 result.0 }
        {
            let mut receiver = receiver;
            let letters = run(scope, rt, alloc, office, tasks, &mut receiver, ended);
            (receiver, letters)
        },
    )
}
