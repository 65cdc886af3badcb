//! The texts that are due, fixed before the first letter is sent.
ghost use Rattle.std.specs.Prelude.{◌≡◌, map, IfOk, IfErr, IfSome};
ghost use Rattle.std.specs.List.{All};
ghost use Rattle.mailbox.specs.Plans.{plan_numbers};
ghost use Rattle.mailbox.specs.Posts.{IsTask, Plans, HasQueueOf, letters_of, texts_in};

use crate::office::Office;
use crate::parcels::Letters;
use crate::threads::Task;
use boxcar::tag::{Names, Tag};
use history::{Fifo, Refusal};
use std::alloc::Global;

// How a store is marked with the texts of tasks.
pub(crate) struct TextsOf;

impl<Q: Fifo + Drop> Names<Vec<Task<Q>>> for TextsOf {
    ghost numbers = { λ tasks. plan_numbers (map texts_in tasks.items) };
}

/// How many letters these are; none where it is no number of letters that memory could hold.
pub(crate) fn count_letters<Q: Fifo + Drop>(tasks: &[Task<Q>]) -> Option<usize>
    ensures { IfSome result (λ n. n ≡ letters_of tasks.now) }
{
    let mut count = 0usize;
    for task in tasks {
        count = count.checked_add(task.texts.len())?;
    }
    Some(count)
}

impl<Q: Fifo + Drop> Office<Q> {
    /// The same office where the texts of these tasks are due, so that `post` can send them. Letters sent before are given
    /// up.
    ///
    /// Refused by `Memory` alone; the office is then given up. Takes memory for a table of letters, and doesn't wait.
    ///
    /// ```rust
    /// let office = office.for_tasks(alloc, &tasks)?;
    /// let (receiver, posted) = post(rt, alloc, &office, tasks, receiver);
    /// ```
    pub fn for_tasks(self, alloc: Global, tasks: &Vec<Task<Q>>) -> Result<Office<Q>, Refusal>
        requires { All (IsTask Q.is_seat Q.permits Q.known self) tasks.now.items }
        //= letters/tasks (queue, tasks, plan, only_memory): An office made for tasks keeps its queue; the tasks'
        //=   senders are its own, and it is made for just the texts of these tasks. Or Memory.
        ensures queue { IfOk result (λ o. HasQueueOf self o) }
        ensures tasks { IfOk result (λ o. All (IsTask Q.is_seat Q.permits Q.known o) tasks.now.items) }
        ensures plan { IfOk result (λ o. Plans o tasks.now.items) }
        ensures only_memory { IfErr result (λ refusal. refusal ≡ Refusal.Memory) }
    {
        let Office { queue, letters: _ } = self;
        match Letters::with_rule(alloc, Tag::of::<Vec<Task<Q>>, TextsOf>(tasks)) {
            Ok(letters) => Ok(Office { queue, letters }),
            Err(_) => Err(Refusal::Memory),
        }
    }
}
