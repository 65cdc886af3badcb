//! The parts of a push: its node, the number of its slot, and what comes back.
ghost use Rattle.std.specs.Prelude.{◌≡◌, ◌≤◌, ◌<◌, ◌^◌, Err};
ghost use Rattle.node_arena.specs.Seats.{IsReady};
ghost use Rattle.node_arena.specs.Hands.{HasValue};
ghost use Rattle.value_queue.specs.Queues.{arena_of};
ghost use Rattle.value_queue.specs.Pushes.{HasNode, TakesBack, back_with};

use crate::queue::QueueOf;
use arena_queue::Algorithm;
use carriers::Unpushed;
use free_list::take;
use history::{Body, Refusal};
use node_arena::{Held, Seat};
use std::sync::atomic::Ordering::Relaxed;

// The number of a slot, as what is pushed.
pub(crate) fn body_of(slot: usize) -> Body
    requires { slot < 2 ^ 48 }
    ensures { result ≡ slot }
{
    match Body::new(slot as u64) {
        Some(body) => body,
        None => unreachable!(),
    }
}

impl<T, A: Algorithm<B>, const B: u32> QueueOf<T, A, B> {
    // The node of a push, from the pocket or else taken, and how many turns failed before it was there.
    pub(crate) fn node(&self, seat: &mut Seat<T>, turns: u32) -> Result<(Held, u32), Refusal>
        requires ready { IsReady (arena_of self.now) seat.old }
        requires turns { 1 ≤ turns }
        ensures { HasNode (arena_of self.now) seat.old seat.new turns result }
    {
        match seat.pocket() {
            Some(held) => Ok((held, 0)),
            None => {
                let held = take(&self.arena, seat, turns)?;
                Ok((held, seat.failed()))
            }
        }
    }

    // Where a push of this node looks for a slot first: at that of its number; of pushes that are tried again every second one elsewhere.
    pub(crate) fn first_slot(&self, node: u32, moved: u64) -> u32 {
        if moved % 2 == 0 {
            return node;
        }
        let slots = u64::from(self.arena.setup().size);
        let slot = u64::from(node).wrapping_add(moved / 2);
        if slot < slots {
            slot as u32
        } else {
            u32::try_from(slot - slots).unwrap_or(0)
        }
    }

    // After a push that tried so many slots in vain the next one looks elsewhere, behind those that were tried so far, or at its node's
    // slot again, by turns. (Where another push was done or failed meanwhile, that will do.)
    #[cold]
    #[inline(never)]
    pub(crate) fn move_on(&self, moved: u64, failed: u32) {
        let failed = u64::from(failed);
        let behind = moved / 2;
        let next = if moved % 2 == 0 {
            behind.max(failed).wrapping_mul(2).wrapping_add(1)
        } else if behind.wrapping_add(failed) < u64::from(self.arena.setup().size) {
            behind.wrapping_add(failed).wrapping_mul(2)
        } else {
            0
        };
        let _ = self.moved.compare_exchange(moved, next, Relaxed, Relaxed);
    }

    // After a push that found a slot the next one looks at its node's.
    pub(crate) fn settle(&self, moved: u64) {
        if moved != 0 {
            self.moved.store(0, Relaxed);
        }
    }

    // The value in a slot comes back where the push of that slot was refused, and the slot is given back. (This and `unpushed` are
    // functions of their own: a refusal that is written where none may stand would have LLVM move each value once more.)
    #[cold]
    #[inline(never)]
    pub(crate) fn taken_back(
        &self,
        seat: &mut Seat<T>,
        slot: usize,
        refusal: Refusal,
    ) -> Result<(), Unpushed<T>>
        requires ready { IsReady (arena_of self.now) seat.old }
        requires has { HasValue (arena_of self.now) seat.old slot }
        ensures { TakesBack (arena_of self.now) seat.old seat.new slot refusal result }
    {
        let value = self.arena.take_value(seat, slot);
        self.arena.free_slot(seat, slot);
        Err(Unpushed { refusal, value })
    }
}

// The answer of a push that got no node, or no slot.
#[cold]
#[inline(never)]
pub(crate) fn unpushed<T>(refusal: Refusal, value: T) -> Result<(), Unpushed<T>>
    ensures { result ≡ Err (back_with refusal value) }
{
    Err(Unpushed { refusal, value })
}
