//! The queue, and a new one.
ghost use Rattle.std.specs.Prelude.{◌≡◌, ◌≤◌, ◌^◌, true, length, map, IfOk, IfErr};
ghost use Rattle.std.specs.List.{All};
ghost use Rattle.ring_queue.specs.Plans.{permits_by};
ghost use Rattle.ring_queue.specs.NewRings.{IsMadeFor, RingRefused};
ghost use Rattle.value_queue.specs.Queues.{AreNewOf};
ghost use Rattle.ring_values.specs.ValuesSeen.{known_by};
ghost use Rattle.ring_values.specs.Carried.{carries_of, slots_in};

use history::Refusal;
use ring_queue::{RingQueue, Role, Seat};
use std::alloc::Global;

/// A bounded queue of values on a ring of words. Threads share it by reference, each with a seat of its own; its calls are those of
/// a `Carrier`.
///
/// Nothing is asked of the values' type. A queue that isn't `Drop`, since its values aren't, has to be closed.
#[derive(Drop)]
pub struct RingValues<T> {
    pub(crate) ring: RingQueue<T>,
    ghost carries: { carries_of ring ≡ true },
    ghost narrow: { slots_in ring ≤ 2 ^ 48 },
}

impl<T> RingValues<T> {
    ghost use Rattle.ring_values.specs.Queues.{ring_of, permits_of, IsQueueSeat};

    /// A queue with room for `most` values, one at least, and a seat for each role, 1 to `MOST_SEATS` of them, in their order. Its slots
    /// are the least power of two that `most` and a slot for each seat fit in; its places go up to `limit`, from the number of slots
    /// to 2^62 - 1.
    ///
    /// Refusals: `BadSize` where one of them is out of its range, else `Memory`. Takes memory for three words and a value a slot, the
    /// seats and their roles, and doesn't wait.
    ///
    /// ```rust
    /// let roles = [Role::Giver, Role::Taker];
    /// let (queue, seats) = RingValues::<String>::new(alloc, 1024, (1 << 62) - 1, &roles)?;
    /// ```
    pub fn new(
        alloc: Global,
        most: u32,
        limit: u64,
        roles: &[Role],
    ) -> Result<(RingValues<T>, Vec<Seat<T>>), Refusal>
        //= ring_values/opening (ok, permits, seats, unused, refused): A new ring of values is as a new ring of numbers, with a slot
        //=   for a value for each of its slots; each seat may do what its role says, is in no call, and has seen nothing.
        ensures ok { IfOk result
            (λ r. IsMadeFor true most limit roles.now (ring_of r.0) r.1.items) }
        ensures permits { IfOk result (λ r. permits_of r.0 ≡ permits_by roles.now) }
        ensures seats { IfOk result (λ r. All (IsQueueSeat r.0) r.1.items) }
        ensures unused { IfOk result (λ r. AreNewOf (permits_of r.0) (map known_by r.1.items)) }
        ensures refused { IfErr result (RingRefused true most limit roles.now) }
    {
        let (ring, seats) = RingQueue::<T>::with_slots(alloc, most, limit, roles)?;
        Ok((RingValues { ring }, seats))
    }

    /// How many seats the queue was made with. Takes no memory and doesn't wait.
    pub fn seat_count(&self) -> usize
        //= ring_values/seat_count: A ring of values tells how many seats it was made with.
        ensures { result ≡ length (permits_of self.now) }
    {
        self.ring.seat_count()
    }
}
