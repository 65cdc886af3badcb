//! An office over a new queue of nodes.
ghost use Rattle.std.specs.Prelude.{◌≡◌, ◌⊎◌, ◌+◌, ◌++◌, ◌∷◌, [], ◌<◌, ◌≤◌, ℕ, length, map, max, min, IfErr, IfOk};
ghost use Rattle.history.specs.Seats.{MayPop};
ghost use Rattle.node_arena.specs.NewArenas.{NewRefused};
ghost use Rattle.shared_queue.specs.Handles.{sender_seat, receiver_seat};
ghost use Rattle.value_queue.specs.ValuesSeen.{known_by};
ghost use Rattle.picked.specs.Values.{permits_of};
ghost use Rattle.picked.specs.Splits.{non_blocking_plan};
ghost use Rattle.post_office.specs.Offices.{office_queue, AreOf};
ghost use Rattle.post_office.specs.Roles.{roles_of, office_roles, newcomers};

use crate::offices::{Desks, PostOffice};
use history::Refusal;
use node_arena::Role;
use picked::ValueQueue;
use shared_queue::{Receiver, Sender};
use std::alloc::Global;

/// How many senders and receivers there may be together: the seats are 65,535 at most.
const MOST_HANDLES: usize = 65_532;

/// What `open` gives: the office, its senders and its receivers.
pub type Opened<T> = (
    PostOffice<ValueQueue<T>>,
    Vec<Sender<ValueQueue<T>>>,
    Vec<Receiver<ValueQueue<T>>>,
);

/// The roles of so many senders and receivers, and of the seats that only shut.
pub(crate) fn roles_for<R: Copy + Drop>(
    alloc: Global,
    giver: R,
    taker: R,
    senders: usize,
    receivers: usize,
) -> Result<Vec<R>, Refusal>
    ensures roles { IfOk result (λ roles. roles.items ≡ roles_of giver taker senders receivers) }
    ensures only_memory { IfErr result (λ refusal. refusal ≡ Refusal.Memory) }
{
    let mut roles = Vec::new(alloc);
    for _ in 0..senders {
        if roles.push(giver).is_err() {
            return Err(Refusal::Memory);
        }
    }
    for _ in 0..receivers {
        if roles.push(taker).is_err() {
            return Err(Refusal::Memory);
        }
    }
    for _ in 0..3usize {
        if roles.push(giver).is_err() {
            return Err(Refusal::Memory);
        }
    }
    Ok(roles)
}

// How many nodes so many letters take, and so many handles, each of which may have one in its hand; one is always in the
// queue. As many as there may be, where they take more.
fn nodes_for(places: u32, handles: u32) -> u32
    ensures { result ≡ max (min (places + handles + 1) 4294967295) 2 }
{
    places.saturating_add(handles).saturating_add(1).max(2)
}

/// The seats of a new queue, by what they are for.
pub(crate) fn desks_for<S: Drop>(mut seats: Vec<S>, senders: usize) -> Result<Desks<S>, Refusal>
    requires { senders + 3 ≤ length seats.items }
    ensures desks { IfOk result (λ d. seats.items ≡ d.senders.items ++ (d.receivers.items
        ++ d.office ∷ d.last_sender ∷ d.last_receiver ∷ [])) }
    ensures many { IfOk result (λ d. length d.senders.items ≡ senders) }
    ensures only_memory { IfErr result (λ refusal. refusal ≡ Refusal.Memory) }
{
    let Some(last_receiver) = seats.pop() else {
        unreachable!()
    };
    let Some(last_sender) = seats.pop() else {
        unreachable!()
    };
    let Some(office) = seats.pop() else {
        unreachable!()
    };
    let Ok(receivers) = seats.split_off(senders) else {
        return Err(Refusal::Memory);
    };
    Ok(Desks {
        senders: seats,
        receivers,
        office,
        last_sender,
        last_receiver,
    })
}

impl<T: Send + Drop> PostOffice<ValueQueue<T>> {
    /// A new office with places for so many letters, or more, and so many senders and receivers. The seats of the senders are
    /// numbered from 1 on, in their order: each letter is received with the number of the seat that sent it.
    ///
    /// Refusals: `BadSize` where the handles are more than 65,532, or there are not so many places; else `Memory`. Takes memory
    /// for a place for each letter and each handle, and for the handles, and doesn't wait.
    ///
    /// ```rust
    /// let (mut office, senders, receivers) = PostOffice::open(alloc, 1000, 4, 2)?;
    /// ```
    pub fn open(
        alloc: Global,
        places: u32,
        senders: usize,
        receivers: usize,
    ) -> Result<Opened<T>, Refusal>
        //= offices/open (queue, senders, receivers, takers, refused): An office opened over a new queue has as many
        //=   senders and receivers as were asked for, numbered from 1 on, which have done nothing; no other seat may
        //=   pop. It is refused by `Memory`, or as a new queue of values is of a node for each place, each handle and
        //=   one more. That it has so many places, no clause says.
        ensures queue { IfOk result (λ r. AreOf (office_queue r.0) r.0 r.1.items r.2.items) }
        ensures senders { IfOk result
            (λ r. map (λ h. known_by (sender_seat h)) r.1.items ≡ newcomers 1 senders) }
        ensures receivers { IfOk result (λ r. map (λ h. known_by (receiver_seat h)) r.2.items
            ≡ newcomers (senders + 1) receivers) }
        ensures takers { IfOk result (λ r. (n : ℕ) → MayPop (permits_of (office_queue r.0)) n
            → (senders < n) × (n ≤ senders + receivers)) }
        ensures refused { IfErr result (λ refusal. (refusal ≡ Refusal.Memory)
            ⊎ NewRefused
            (non_blocking_plan (max (min (places + (senders + receivers) + 1) 4294967295) 2)
            (office_roles senders receivers)) refusal) }
    {
        if senders.saturating_add(receivers) > MOST_HANDLES {
            return Err(Refusal::BadSize);
        }
        let roles = roles_for(alloc, Role::Giver, Role::Taker, senders, receivers)?;
        let nodes = nodes_for(places, (senders + receivers) as u32);
        let (queue, seats) = ValueQueue::<T>::new(alloc, nodes, &roles)?;
        let desks = desks_for(seats, senders)?;
        PostOffice::new(alloc, queue, desks)
    }
}
