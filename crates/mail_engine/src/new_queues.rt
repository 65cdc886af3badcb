//! A new queue with a seat for each sender and one for their receiver.
ghost use Rattle.std.specs.Prelude.{◌≡◌, [], ◌∷◌, ◌++◌, IfOk, IfErr, OnOk};
ghost use Rattle.node_arena.specs.NewArenas.{plan};
ghost use Rattle.node_arena.specs.Plans.{IsPlanned};
ghost use Rattle.node_arena.specs.Seats.{known_of};
ghost use Rattle.arena_queue.specs.Queues.{permits_of, IsQueueSeat, IsQueueMade};
ghost use Rattle.ring_queue.specs.Queues.{IsNumberSeat, permits_in};
ghost use Rattle.ring_queue.specs.Seats.{known_of as ring_known};
ghost use Rattle.mail_engine.specs.Rows.{giver_and_taker_roles, IsOpened, OpenRefused};
ghost use Rattle.mail_engine.specs.Rows.{ring_roles, IsMailRing, OpenRingRefused};

use arena_queue::{Algorithm, ArenaQueue};
use history::Refusal;
use node_arena::{Role, Seat};
use ring_queue::{RingQueue, Role as RingRole, Seat as RingSeat};
use std::alloc::Global;

/// The last place of a ring: the greatest one that a ring may have.
const MOST_PLACE: u64 = (1 << 62) - 1;

/// A queue with so many nodes and this greatest count, a seat for each of so many senders, and their receiver's.
///
/// Senders are numbered from 1 on. Refusals: `BadSize` where a size is out of the range of `ArenaQueue::new`, and
/// `Memory`. Takes memory for the queue, and doesn't wait.
pub fn mail_queue<A: Algorithm<24>>(
    alloc: Global,
    nodes: u32,
    limit: u64,
    senders: u16,
) -> Result<(ArenaQueue<A>, Vec<Seat>, Seat), Refusal>
    //= letters/senders (made, opened, sized, refused): A new queue of senders and their receiver is of the nodes,
    //=   greatest count and seats asked for; each sender may push, the receiver alone may pop, and all are new.
    //=   Sized.
    ensures made { IfOk result (λ r. IsQueueMade A.kind nodes limit (giver_and_taker_roles senders)
        r.0 (r.1.items ++ r.2 ∷ [])) }
    ensures opened { IfOk result (λ r. IsOpened IsQueueSeat permits_of known_of
        senders r.0 r.1.items r.2) }
    ensures sized { OnOk result (IsPlanned
        (plan 24 A.kind nodes limit (giver_and_taker_roles senders))) }
    ensures refused { IfErr result (OpenRefused
        (plan 24 A.kind nodes limit (giver_and_taker_roles senders))) }
{
    let roles = roles_of(alloc, senders)?;
    let (queue, mut seats) = ArenaQueue::<A>::new(alloc, nodes, limit, &roles)?;
    let Some(receiver) = seats.pop() else {
        unreachable!()
    };
    Ok((queue, seats, receiver))
}

/// A ring that so many values make full, a seat for each of so many senders, and their receiver's.
///
/// Senders are numbered from 1 on. Refusals: `BadSize` where a size is out of the range of `RingQueue::new`, and
/// `Memory`. Takes memory for the ring, and doesn't wait.
pub fn mail_ring(
    alloc: Global,
    values: u32,
    senders: u16,
) -> Result<(RingQueue, Vec<RingSeat>, RingSeat), Refusal>
    //= letters/ring_senders (made, opened, refused): A new ring of senders and their receiver is of the values and
    //=   seats asked for; each sender may push, the receiver alone may pop, and all are new. It is refused by
    //=   `Memory`, or by `BadSize` only where a size is out of its range.
    ensures made { IfOk result (λ r. IsMailRing values senders r.0 (r.1.items ++ r.2 ∷ [])) }
    ensures opened { IfOk result (λ r. IsOpened IsNumberSeat permits_in ring_known
        senders r.0 r.1.items r.2) }
    ensures refused { IfErr result (OpenRingRefused values senders) }
{
    let roles = ring_roles_of(alloc, senders)?;
    let (queue, mut seats) = RingQueue::new(alloc, values, MOST_PLACE, &roles)?;
    let Some(receiver) = seats.pop() else {
        unreachable!()
    };
    Ok((queue, seats, receiver))
}

// A role that gives for each sender, and then one that takes.
fn roles_of(alloc: Global, senders: u16) -> Result<Vec<Role>, Refusal>
    ensures roles { IfOk result (λ roles. roles.items ≡ giver_and_taker_roles senders) }
    ensures only_memory { IfErr result (λ refusal. refusal ≡ Refusal.Memory) }
{
    let Ok(mut roles) = vec![in alloc; Role::Giver; usize::from(senders)] else {
        return Err(Refusal::Memory);
    };
    match roles.push(Role::Taker) {
        Ok(()) => Ok(roles),
        Err(_) => Err(Refusal::Memory),
    }
}

// The same of a ring.
fn ring_roles_of(alloc: Global, senders: u16) -> Result<Vec<RingRole>, Refusal>
    ensures roles { IfOk result (λ roles. roles.items ≡ ring_roles senders) }
    ensures only_memory { IfErr result (λ refusal. refusal ≡ Refusal.Memory) }
{
    let Ok(mut roles) = vec![in alloc; RingRole::Giver; usize::from(senders)] else {
        return Err(Refusal::Memory);
    };
    match roles.push(RingRole::Taker) {
        Ok(()) => Ok(roles),
        Err(_) => Err(Refusal::Memory),
    }
}
