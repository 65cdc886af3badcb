//! What became of each task, by its number.
ghost use Rattle.std.specs.Prelude.{◌≡◌, ◌≤◌, ◌<◌, [], length, map, replicate, Some, None, slice_set, vec_len, vec_capacity, IfOk, IfErr};
ghost use Rattle.std.specs.List.{All};

use crate::answers::{Done, Outcome};
use crate::runs::Numbered;
use carriers::RestOf;
use history::Refusal;
use std::alloc::Global;

/// What became of so many tasks, each by its number.
#[derive(Drop)]
pub struct Gather<T, A> {
    slots: Vec<Option<Outcome<T, A>>>,
    out: Vec<Outcome<T, A>>,
    ghost room: { vec_len slots ≤ vec_capacity out },
    ghost unused: { out.items ≡ [] },
}

// So many slots with nothing in them.
fn empty_slots<T: Drop, A: Drop>(
    alloc: Global,
    tasks: usize,
) -> Result<Vec<Option<Outcome<T, A>>>, Refusal>
    ensures slots { IfOk result (λ slots. slots.items ≡ replicate tasks None) }
    ensures only_memory { IfErr result (λ refusal. refusal ≡ Refusal.Memory) }
{
    let mut slots = Vec::new(alloc);
    if slots.reserve(tasks).is_err() {
        return Err(Refusal::Memory);
    }
    for _ in 0..tasks {
        slots.push_reserved(None);
    }
    Ok(slots)
}

impl<T: Drop, A: Drop> Gather<T, A> {
    ghost use Rattle.carriers.specs.Rests.{left_in};
    ghost use Rattle.tasks.specs.Gathers.{slots_in, fills, told_done, told_left, IsFilled};

    /// Nothing is known yet of so many tasks.
    ///
    /// Refused by `Memory` alone. Takes memory for two outcomes a task.
    pub fn new(alloc: Global, tasks: usize) -> Result<Gather<T, A>, Refusal>
        //= tasks/gather (new, only_memory): A gather has a slot for each task. What is put under a
        //=   number stands there, and all else stays; once each slot is filled it gives them in the tasks' order.
        ensures new { IfOk result (λ g. slots_in g ≡ replicate tasks None) }
        ensures only_memory { IfErr result (λ refusal. refusal ≡ Refusal.Memory) }
    {
        let slots = empty_slots(alloc, tasks)?;
        let mut out = Vec::new(alloc);
        if out.reserve(slots.len()).is_err() {
            return Err(Refusal::Memory);
        }
        Ok(Gather { slots, out })
    }

    /// Puts what became of the task of this number. Takes no memory.
    pub fn put(&mut self, number: usize, outcome: Outcome<T, A>)
        requires { number < length (slots_in self.old) }
        //= tasks/gather
        ensures { slots_in self.new ≡ slice_set (slots_in self.old) number (Some outcome) }
    {
        self.slots[number] = Some(outcome);
    }

    /// Puts each of these results under its number, one after another. Takes no memory.
    pub fn put_done(&mut self, done: Vec<Done<A>>)
        requires { All (λ d. d.number < length (slots_in self.old)) done.items }
        //= tasks/gather
        ensures { slots_in self.new ≡ fills (slots_in self.old) (map told_done done.items) }
    {
        for one in done {
            self.put(one.number, Outcome::Answered(one.answer));
        }
    }

    /// Puts each task that was left under its number, one after another. Takes no memory.
    pub fn put_left(&mut self, rest: RestOf<Numbered<T>>)
        requires { All (λ x. x.value.number < length (slots_in self.old)) (left_in rest) }
        //= tasks/gather
        ensures { slots_in self.new ≡ fills (slots_in self.old) (map told_left (left_in rest)) }
    {
        for item in rest {
            let Numbered { number, task } = item.value;
            self.put(number, Outcome::Left(task));
        }
    }

    /// What became of each task, in their order. Takes no memory.
    pub fn finish(self) -> Vec<Outcome<T, A>>
        requires { All IsFilled (slots_in self) }
        //= tasks/gather
        ensures { map Some result.items ≡ slots_in self }
    {
        let Gather { slots, mut out } = self;
        for slot in slots {
            let Some(outcome) = slot else { unreachable!() };
            out.push_reserved(outcome);
        }
        out
    }
}
