//! Where the words of a ring lie in its table, and the slot and the parity of a place.
ghost use Rattle.std.specs.Prelude.{◌≡◌, ◌%◌, ◌^◌, ◌<◌, ◌≤◌};
ghost use Rattle.ring_queue.specs.Words.{parity};
ghost use Rattle.ring_queue.specs.Placed.{value_word};

use crate::plans::Plan;
use crate::queue::RingQueue;

/// The word of Tail.
pub(crate) const TAIL: usize = 0;

/// The word of Head, 128 bytes behind that of Tail.
pub(crate) const HEAD: usize = 16;

/// The word of the first slot; the words of slots lie 16 bytes apart.
pub(crate) const SLOTS: usize = 32;

/// The bit of Tail that says that the queue is shut.
pub(crate) const SHUT: u64 = 1 << 62;

/// Where a word of the value of a slot lies in a ring of so many slots: the first beside the slot's word, the further ones in a
/// pair of words for each slot, behind all slots.
#[inline(always)]
pub(crate) fn part_word(slots: u64, slot: usize, part: usize) -> usize
    requires small { slots ≤ 2 ^ 49 }
    requires slot { slot < slots }
    requires part { part < 3 }
    ensures { result ≡ value_word slots slot part }
{
    let first = SLOTS + 2 * slot + 1;
    if part == 0 {
        first
    } else {
        first + 2 * slots as usize + part - 2
    }
}

impl<T> RingQueue<T> {
    /// What it was made for.
    #[inline(always)]
    pub(crate) fn sizes(&self) -> &Plan
        ensures { result.now ≡ self.now.plan }
    {
        &self.plan
    }

    /// The slot of a place.
    #[inline(always)]
    pub(crate) fn slot_of(&self, place: u64) -> usize
        ensures value { result ≡ place % self.now.plan.slots }
        ensures within { result < self.now.plan.slots }
    {
        (place & (self.plan.slots - 1)) as usize
    }

    /// The parity of a place's lap.
    #[inline(always)]
    pub(crate) fn parity_of(&self, place: u64) -> u64
        ensures { result ≡ parity self.now.plan.slots place }
    {
        if place & self.plan.slots == 0 { 0 } else { 1 }
    }
}
