//! An office over a new ring.
ghost use Rattle.std.specs.Prelude.{◌≡◌, ◌⊎◌, ◌+◌, ◌<◌, ◌≤◌, ℕ, map, max, IfErr, IfOk, true};
ghost use Rattle.std.specs.List.{All};
ghost use Rattle.history.specs.Seats.{MayPop};
ghost use Rattle.node_arena.specs.Plans.{permits_by};
ghost use Rattle.ring_queue.specs.NewRings.{RingRefused};
ghost use Rattle.value_queue.specs.Queues.{AreNewOf};
ghost use Rattle.shared_queue.specs.Handles.{sender_seat, receiver_seat};
ghost use Rattle.ring_values.specs.ValuesSeen.{known_by};
ghost use Rattle.ring_values.specs.Queues.{plan_of, permits_of, IsQueueSeat};
ghost use Rattle.post_office.specs.Offices.{office_queue, AreOf};
ghost use Rattle.post_office.specs.Roles.{office_roles, ring_roles_for, newcomers};

use crate::new_offices::{desks_for, roles_for};
use crate::offices::PostOffice;
use history::Refusal;
use ring_queue::{Role, Seat};
use ring_values::RingValues;
use shared_queue::{Receiver, Sender};
use std::alloc::Global;

/// How many senders and receivers there may be together: the seats of a ring are 32,767 at most.
const MOST_HANDLES: usize = 32_764;

/// The greatest place that there is.
const MOST_PLACE: u64 = (1 << 62) - 1;

/// What `open_ring` gives: the office, its senders and its receivers.
pub type OpenedRing<T> = (
    PostOffice<RingValues<T>>,
    Vec<Sender<RingValues<T>>>,
    Vec<Receiver<RingValues<T>>>,
);

// A new ring that so many letters make full, with a seat for each handle, and those that only shut.
fn ring_for<T>(
    alloc: Global,
    places: u32,
    senders: usize,
    receivers: usize,
) -> Result<(RingValues<T>, Vec<Seat<T>>), Refusal>
    ensures permits { IfOk result
        (λ r. permits_of r.0 ≡ permits_by (office_roles senders receivers)) }
    ensures seats { IfOk result (λ r. All (IsQueueSeat r.0) r.1.items) }
    ensures unused { IfOk result (λ r. AreNewOf (permits_of r.0) (map known_by r.1.items)) }
    ensures sized { IfOk result (λ r. (plan_of r.0).most ≡ max places 1) }
    ensures refused { IfErr result (λ refusal. (refusal ≡ Refusal.Memory)
        ⊎ RingRefused true (max places 1) 4611686018427387903 (ring_roles_for senders receivers)
        refusal) }
{
    if senders.saturating_add(receivers) > MOST_HANDLES {
        return Err(Refusal::BadSize);
    }
    let roles = roles_for(alloc, Role::Giver, Role::Taker, senders, receivers)?;
    let most = places.max(1);
    let (ring, seats) = RingValues::<T>::new(alloc, most, MOST_PLACE, &roles)?;
    Ok((ring, seats))
}

impl<T: Send + Drop> PostOffice<RingValues<T>> {
    /// As `open`, over a new ring that so many letters make full, or one: the seats of the senders are numbered from 1 on.
    ///
    /// It ends by `shut`, or by dropping, and what is left is then received: a ring is closed by all its seats, of which those by
    /// which the last handles shut it don't come back.
    ///
    /// Refusals: `BadSize` where the handles are more than 32,764; else `Memory`. Takes memory for a place for each letter, for one
    /// more of each seat, and for the handles, and doesn't wait.
    ///
    /// ```rust
    /// let (mut office, senders, receivers) = PostOffice::open_ring(alloc, 1000, 4, 2)?;
    /// ```
    pub fn open_ring(
        alloc: Global,
        places: u32,
        senders: usize,
        receivers: usize,
    ) -> Result<OpenedRing<T>, Refusal>
        //= offices/open_ring (queue, senders, receivers, takers, sized, refused): An office opened over a new ring has as many
        //=   senders and receivers as were asked for, numbered from 1 on, which have done nothing; no other seat may pop; and
        //=   as many letters make the ring full as were asked for, at least one. It is refused by `Memory`, or as a new ring
        //=   of these sizes is.
        ensures queue { IfOk result (λ r. AreOf (office_queue r.0) r.0 r.1.items r.2.items) }
        ensures senders { IfOk result
            (λ r. map (λ h. known_by (sender_seat h)) r.1.items ≡ newcomers 1 senders) }
        ensures receivers { IfOk result (λ r. map (λ h. known_by (receiver_seat h)) r.2.items
            ≡ newcomers (senders + 1) receivers) }
        ensures takers { IfOk result (λ r. (n : ℕ) → MayPop (permits_of (office_queue r.0)) n
            → (senders < n) × (n ≤ senders + receivers)) }
        ensures sized { IfOk result (λ r. (plan_of (office_queue r.0)).most ≡ max places 1) }
        ensures refused { IfErr result (λ refusal. (refusal ≡ Refusal.Memory)
            ⊎ RingRefused true (max places 1) 4611686018427387903 (ring_roles_for senders receivers)
            refusal) }
    {
        let (queue, seats) = ring_for::<T>(alloc, places, senders, receivers)?;
        let desks = desks_for(seats, senders)?;
        PostOffice::new(alloc, queue, desks)
    }
}
