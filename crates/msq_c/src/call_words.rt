//! A call that may wait, and what is to be done for it, as C has them.
ghost use Rattle.std.specs.Prelude.{◌≡◌, ◌≤◌, ◌⊎◌, IfSome, IfNone};
ghost use Rattle.msq_c.specs.Calls.{task_number, phase_number, code_number, laid, laid_with, new_call};
ghost use Rattle.msq_c.specs.Calls.{IsNoCall, Lifts};
ghost use Rattle.calls.specs.declared.calls.Act.TheVariants.{Tell};
ghost use Rattle.msq_c.specs.Calls.{IsTold, IsWatch, act_after};
ghost use Rattle.shared_queue.specs.TriedCalls.{call_after};

use crate::passed::Passed;
use calls::{Act, Call, Code, Phase, Task, start};
use shared_queue::{Asked, SteppedQueue, Tried};
use std::ptr;

/// A call between two of its steps, in the caller's memory. Nothing in it is an address: whatever stands there, a step is harmless.
#[repr(C)]
#[derive(Clone, Copy)]
pub struct MsqCall {
    pub word: u64,
    pub heard: u64,
    pub task: u8,
    pub phase: u8,
    pub then: u8,
    pub code: u8,
    pub looks: u8,
    pub tries: bool,
    pub woken: bool,
    pub last: bool,
    pub rings_values: bool,
    pub rings_room: bool,
    pub rings_all: bool,
}

/// The task with this number.
pub(crate) fn task_of(number: u8) -> Option<Task>
    ensures some { IfSome result (λ task. task_number task ≡ number) }
    ensures none { IfNone result (5 ≤ number) }
{
    match number {
        0 => Some(Task::Push),
        1 => Some(Task::Pop),
        2 => Some(Task::Shut),
        3 => Some(Task::DropSender),
        4 => Some(Task::DropReceiver),
        _ => None,
    }
}

fn number_of_task(task: Task) -> u8
    ensures { result ≡ task_number task }
{
    match task {
        Task::Push => 0,
        Task::Pop => 1,
        Task::Shut => 2,
        Task::DropSender => 3,
        Task::DropReceiver => 4,
    }
}

fn phase_of(number: u8) -> Option<Phase>
    ensures some { IfSome result (λ phase. phase_number phase ≡ number) }
    ensures none { IfNone result (12 ≤ number) }
{
    match number {
        0 => Some(Phase::Looks),
        1 => Some(Phase::Listens),
        2 => Some(Phase::Hears),
        3 => Some(Phase::LooksAgain),
        4 => Some(Phase::Slept),
        5 => Some(Phase::Unlistens),
        6 => Some(Phase::Gives),
        7 => Some(Phase::GivesBack),
        8 => Some(Phase::Ends),
        9 => Some(Phase::Rings),
        10 => Some(Phase::Adds),
        11 => Some(Phase::Finished),
        _ => None,
    }
}

fn number_of_phase(phase: Phase) -> u8
    ensures { result ≡ phase_number phase }
{
    match phase {
        Phase::Looks => 0,
        Phase::Listens => 1,
        Phase::Hears => 2,
        Phase::LooksAgain => 3,
        Phase::Slept => 4,
        Phase::Unlistens => 5,
        Phase::Gives => 6,
        Phase::GivesBack => 7,
        Phase::Ends => 8,
        Phase::Rings => 9,
        Phase::Adds => 10,
        Phase::Finished => 11,
    }
}

fn code_of(number: u8) -> Option<Code>
    ensures some { IfSome result (λ code. code_number code ≡ number) }
    ensures none { IfNone result (5 ≤ number) }
{
    match number {
        0 => Some(Code::Done),
        1 => Some(Code::Nothing),
        2 => Some(Code::Busy),
        3 => Some(Code::Closed),
        4 => Some(Code::Worn),
        _ => None,
    }
}

fn number_of_code(code: Code) -> u8
    ensures { result ≡ code_number code }
{
    match code {
        Code::Done => 0,
        Code::Nothing => 1,
        Code::Busy => 2,
        Code::Closed => 3,
        Code::Worn => 4,
    }
}

impl MsqCall {
    /// A call as C has it, with this word, that heard so many rings.
    pub(crate) fn with(call: &Call, word: u64, heard: u64) -> MsqCall
        ensures { result ≡ laid_with call.now word heard }
    {
        MsqCall {
            word,
            heard,
            task: number_of_task(call.task),
            phase: number_of_phase(call.phase),
            then: number_of_phase(call.next),
            code: number_of_code(call.code),
            looks: call.looks,
            tries: call.tries,
            woken: call.woken,
            last: call.last,
            rings_values: call.rings_values,
            rings_room: call.rings_room,
            rings_all: call.rings_all,
        }
    }

    /// A call as C has it that passes a W.
    pub(crate) fn of<A, W: Passed<A>>(asked: &Asked<A>) -> MsqCall
        ensures { result ≡ laid W.passes asked.now }
    {
        MsqCall::with(&asked.call, W::kept(&asked.value), asked.heard)
    }

    /// The call without its value, where these are the numbers of one.
    pub(crate) fn call(&self) -> Option<Call>
        ensures some { IfSome result (λ c. laid_with c self.now.word self.now.heard ≡ self.now) }
        ensures none { IfNone result (IsNoCall self.now) }
    {
        Some(Call {
            task: task_of(self.task)?,
            tries: self.tries,
            phase: phase_of(self.phase)?,
            next: phase_of(self.then)?,
            code: code_of(self.code)?,
            woken: self.woken,
            last: self.last,
            looks: self.looks,
            rings_values: self.rings_values,
            rings_room: self.rings_room,
            rings_all: self.rings_all,
        })
    }

    /// The call, where these are the numbers of one, and this is its value.
    pub(crate) fn lift<A: Drop, W: Passed<A>>(&self, word: &W) -> Option<Asked<A>>
        ensures some { IfSome result (Lifts W.passes self.now word.now) }
        ensures none { IfNone result (IsNoCall self.now ⊎ W.passes.none word.now) }
    {
        let value = word.value()?;
        Some(Asked {
            call: self.call()?,
            value: Some(value),
            heard: self.heard,
        })
    }
}

/// A new call of this task.
pub(crate) fn asked_for<T>(task: Task, tries: bool, value: Option<T>) -> Asked<T>
    ensures { result ≡ new_call task tries value }
{
    Asked {
        call: start(task, tries),
        value,
        heard: 0,
    }
}

/// What is to be done before a call's next step: 0 its answer is told, 1 others are to run, 2 the caller is to sleep unless the word
/// differs by now from what was heard, and 3 so many that sleep on the word are to be woken.
#[repr(C)]
#[derive(Drop)]
pub struct MsqAct {
    pub what: u32,
    pub code: u32,
    pub word: *mut u64,
    pub heard: u32,
    pub many: u32,
}

/// All that sleep.
const ALL: u32 = 0x7fff_ffff;

impl MsqAct {
    fn new(what: u32, code: u32) -> MsqAct
        ensures what { result.what ≡ what }
        ensures code { result.code ≡ code }
        ensures many { result.many ≡ 0 }
    {
        MsqAct {
            what,
            code,
            word: ptr::null_mut(),
            heard: 0,
            many: 0,
        }
    }

    /// This answer is to be told. It writes each field by itself: what is read as it was written is read without a wait.
    pub(crate) fn tell(&mut self, code: Code)
        ensures { IsTold (Tell code) self.new }
    {
        self.what = 0;
        self.code = u32::from(number_of_code(code));
        self.many = 0;
    }

    /// Nothing but to look at what comes, as this word is rung.
    pub(crate) fn watch(word: *mut u64) -> MsqAct
        ensures { IsWatch result }
    {
        MsqAct {
            what: 1,
            code: 0,
            word,
            heard: 0,
            many: 0,
        }
    }

    fn wake(word: *mut u64, many: u32) -> MsqAct
        ensures what { result.what ≡ 3 }
        ensures code { result.code ≡ 0 }
        ensures many { result.many ≡ many }
    {
        MsqAct {
            what: 3,
            code: 0,
            word,
            heard: 0,
            many,
        }
    }

    /// What is to be done for a call of this queue that heard so many rings.
    pub(crate) fn of<C>(act: Act, queue: &SteppedQueue<C>, heard: u64) -> MsqAct
        ensures { IsTold act result }
    {
        match act {
            Act::Tell(code) => MsqAct::new(0, u32::from(number_of_code(code))),
            Act::Sleep(bell) => MsqAct {
                what: 2,
                code: 0,
                word: queue.rings(bell),
                heard: (heard & 0xffff_ffff) as u32,
                many: 0,
            },
            Act::WakeOne(bell) => MsqAct::wake(queue.rings(bell), 1),
            Act::WakeAll(bell) => MsqAct::wake(queue.rings(bell), ALL),
            Act::GoOn | Act::Yield => MsqAct::new(1, 0),
        }
    }
}

// What is to be done first for a call whose try came to this.
fn going_on(tried: Tried) -> Act
    ensures { result ≡ act_after tried }
{
    match tried {
        Tried::Told(code) => Act::Tell(code),
        Tried::Wakes(bell) => Act::WakeOne(bell),
        Tried::Rest(_) | Tried::AtPlace(_) => Act::Yield,
    }
}

/// Lays down the call of a try that goes on, with its word, and tells what is to be done first.
#[inline(never)]
pub(crate) fn keep<C>(
    queue: &SteppedQueue<C>,
    tried: Tried,
    task: Task,
    word: u64,
    call: &mut MsqCall,
    told: &mut MsqAct,
)
    ensures call { call.new ≡ laid_with (call_after task tried) word 0 }
    ensures told { IsTold (act_after tried) told.new }
{
    *call = MsqCall::with(&tried.call(task), word, 0);
    *told = MsqAct::of(going_on(tried), queue, 0);
}
