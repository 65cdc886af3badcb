//! A seat with its share of a queue whose calls are stepped, and its calls.
ghost use Rattle.std.specs.Prelude.{◌≡◌, ◌≤◌};
ghost use Rattle.shared_queue.specs.Sharing.{stepped_at, share_queue};
ghost use Rattle.shared_queue.specs.Stepped.{capacity_of};
ghost use Rattle.msq_c.specs.Calls as calls;
ghost use Rattle.msq_c.specs.Calls.{LaysTry, BegunFrom, BeginsBlock, StepsBlock, new_call};
ghost use Rattle.msq_c.specs.Calls.{AnswersBegin, AnswersStep, HasLength, HearsBell};

use crate::bounds::MsqLen;
use crate::call_words::{MsqAct, MsqCall, asked_for, keep, task_of};
use crate::passed::Passed;
use crate::seat_blocks::APART;
use crate::slots::{Slot, lift};
use crate::troubles::Trouble;
use calls::{Act, Bell, Task};
use carriers::Carrier;
use owned::Look;
use shared_queue::{Share, Tried};
use std::alloc::Global;

/// A seat with its share of a queue.
#[repr(C)]
#[derive(Drop)]
pub struct ShareBlock<C: Carrier + Drop> {
    share: Share<C>,
    apart: [u64; APART],
}

// The value of a new call of a task: that of a push.
fn first_value<A: Drop>(task: Task, value: A) -> Option<A>
    ensures { result ≡ calls.first_value task value }
{
    match task {
        Task::Push => Some(value),
        _ => None,
    }
}

impl<C: Carrier + Drop> ShareBlock<C> {
    pub(crate) fn new(share: Share<C>) -> ShareBlock<C>
        ensures { result.share ≡ share }
    {
        ShareBlock {
            share,
            apart: [0; APART],
        }
    }

    pub(crate) fn into_share(self) -> Share<C>
        ensures { result ≡ self.share }
    {
        let ShareBlock { share, apart: _ } = self;
        share
    }

    /// The queue.
    pub(crate) fn queue(&self) -> &C
        ensures { result.now ≡ share_queue self.now.share }
    {
        self.share.queue().queue()
    }

    // How many values there are, at most as many as there is room for.
    fn len<L: Look<C, Told = Option<MsqLen>>>(&mut self) -> u64
        ensures queue { stepped_at self.new.share ≡ stepped_at self.old.share }
        ensures room { result ≤ capacity_of (stepped_at self.old.share) }
    {
        if let Some(taken) = self.share.queue().taken() {
            return taken;
        }
        match self.share.look::<L>() {
            Some(len) => len.least.min(self.share.queue().capacity()),
            None => 0,
        }
    }
}

impl<A: Drop, C: Carrier<Item = A> + Drop> ShareBlock<C> {
    // Steps a call with this value.
    fn step<W: Passed<A>>(
        &mut self,
        word: &mut W,
        call: &mut MsqCall,
        past: bool,
        told: &mut MsqAct,
    ) -> Result<(), Trouble>
        ensures { StepsBlock W.passes self.old self.new word.old word.new call.old call.new past
            told.old told.new result }
    {
        let Some(mut asked) = call.lift::<A, W>(word) else {
            return Err(Trouble::BadSize);
        };
        let act = self.share.step(&mut asked, past);
        *told = MsqAct::of(act, self.share.queue(), asked.heard);
        *call = MsqCall::of::<A, W>(&asked);
        word.put(&asked.value);
        Ok(())
    }

    // Writes what a try of this task came to, with this value: of one that is told a word and a code.
    #[inline(always)]
    fn lay<W: Passed<A>>(
        &self,
        tried: Tried,
        task: Task,
        value: &Option<A>,
        word: &mut W,
        call: &mut MsqCall,
        told: &mut MsqAct,
    )
        ensures { LaysTry W.passes task tried value.now word.old word.new call.old call.new
            told.new }
    {
        word.put(value);
        match tried {
            Tried::Told(code) => told.tell(code),
            tried => keep(self.share.queue(), tried, task, W::kept(value), call, told),
        }
    }

    // Makes the first steps of a new call, which is late from the first if it never waits, and writes what it came to.
    #[inline(never)]
    fn first_steps<W: Passed<A>>(
        &mut self,
        task: Task,
        tries: bool,
        value: Option<A>,
        word: &mut W,
        call: &mut MsqCall,
        told: &mut MsqAct,
    )
        ensures queue { stepped_at self.new.share ≡ stepped_at self.old.share }
        ensures begun { BegunFrom W.passes tries (new_call task tries value) self.old self.new
            word.old word.new call.old call.new told.new }
    {
        let mut asked = asked_for(task, tries, value);
        let act = self.share.step(&mut asked, tries);
        *told = MsqAct::of(act, self.share.queue(), asked.heard);
        word.put(&asked.value);
        match act {
            Act::Tell(_) => {}
            _ => *call = MsqCall::of::<A, W>(&asked),
        }
    }

    // Begins a call, and makes its first steps: a try is made in one piece. Its numbers are laid down unless it is told by then.
    fn begin<W: Passed<A>>(
        &mut self,
        task: u8,
        tries: bool,
        word: &mut W,
        call: &mut MsqCall,
        told: &mut MsqAct,
    ) -> Result<(), Trouble>
        ensures { BeginsBlock W.passes self.old self.new task tries word.old word.new
            call.old call.new told.old told.new result }
    {
        let Some(task) = task_of(task) else {
            return Err(Trouble::BadSize);
        };
        let Some(value) = word.value() else {
            return Err(Trouble::BadSize);
        };
        match (tries, task) {
            (true, Task::Push) => {
                let mut value = Some(value);
                let tried = self.share.try_push(&mut value);
                self.lay(tried, Task::Push, &value, word, call, told);
                Ok(())
            }
            (true, Task::Pop) => {
                let mut value = None;
                let tried = self.share.try_pop(&mut value);
                self.lay(tried, Task::Pop, &value, word, call, told);
                Ok(())
            }
            _ => {
                let value = first_value(task, value);
                self.first_steps(task, tries, value, word, call, told);
                Ok(())
            }
        }
    }
}

/// Begins a call by a handle, and makes its first steps.
pub(crate) fn begin<A: Drop, C: Carrier<Item = A> + Drop, W: Passed<A>, H: Slot<ShareBlock<C>>>(
    alloc: Global,
    slot: &mut H,
    task: u8,
    tries: bool,
    word: &mut W,
    call: &mut MsqCall,
    told: &mut MsqAct,
) -> Result<(), Trouble>
    ensures { AnswersBegin W.passes H.holds H.own slot.old slot.new task tries word.old word.new
        call.old call.new told.old told.new result }
{
    if !slot.is_full() {
        return Err(Trouble::NoHandle);
    }
    let mut own = lift(alloc, slot);
    let answer = own.begin(task, tries, word, call, told);
    *slot = H::of(own);
    answer
}

/// Steps a call by a handle, with this value.
pub(crate) fn step<A: Drop, C: Carrier<Item = A> + Drop, W: Passed<A>, H: Slot<ShareBlock<C>>>(
    alloc: Global,
    slot: &mut H,
    word: &mut W,
    call: &mut MsqCall,
    past: bool,
    told: &mut MsqAct,
) -> Result<(), Trouble>
    ensures { AnswersStep W.passes H.holds H.own slot.old slot.new word.old word.new
        call.old call.new past told.old told.new result }
{
    if !slot.is_full() {
        return Err(Trouble::NoHandle);
    }
    let mut own = lift(alloc, slot);
    let answer = own.step(word, call, past, told);
    *slot = H::of(own);
    answer
}

/// How many values there are, by a handle.
pub(crate) fn len<C: Carrier + Drop, L: Look<C, Told = Option<MsqLen>>, H: Slot<ShareBlock<C>>>(
    alloc: Global,
    slot: &mut H,
) -> Result<u64, Trouble>
    ensures { HasLength H.holds H.own slot.old slot.new result }
{
    if !slot.is_full() {
        return Err(Trouble::NoHandle);
    }
    let mut own = lift(alloc, slot);
    let len = own.len::<L>();
    *slot = H::of(own);
    Ok(len)
}

/// Listens to a bell for good, by a handle, and tells its word.
pub(crate) fn listen<C: Carrier + Drop, H: Slot<ShareBlock<C>>>(
    alloc: Global,
    slot: &mut H,
    bell: Bell,
    told: &mut MsqAct,
) -> Result<(), Trouble>
    ensures { HearsBell H.holds H.own slot.old slot.new told.old told.new result }
{
    if !slot.is_full() {
        return Err(Trouble::NoHandle);
    }
    let own = lift(alloc, slot);
    own.share.queue().listen(bell);
    *told = MsqAct::watch(own.share.queue().rings(bell));
    *slot = H::of(own);
    Ok(())
}
