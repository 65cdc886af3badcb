//! A new queue whose calls are stepped, and a handle for each of its seats.
ghost use Rattle.std.specs.Prelude.{◌≡◌, ◌≢◌, ◌+◌, ◌≤◌, ◌^◌, ℕ, List, map, length, IfOk, IfErr, IfSome, IfNone, OnOk, OnErr};
ghost use Rattle.std.specs.List.{All};
ghost use Rattle.shared_queue.specs.Seats.{IsBoth};
ghost use Rattle.msq_c.specs.Ends.{IsMemory};
ghost use Rattle.msq_c.specs.Made.{Asks};
ghost use Rattle.msq_c.specs.NewShares as new;
ghost use Rattle.msq_c.specs.NewShares.{HasNodes, AreNewOf, RefusesShares, RefusesFilling, share_at};
ghost use Rattle.msq_c.specs.NewShares.{IsNewNumbers};
ghost use Rattle.msq_c.specs.WordEnds.{AreFull, AreEmpty};

use crate::new_queues::{RING, Spacer, are_asked, hand_over, new_queue, spacer_for};
use crate::seat_blocks::{Queue, QueueSeat};
use crate::share_blocks::ShareBlock;
use crate::slots::{Slot, all_are_empty, sealed};
use crate::troubles::Trouble;
use carriers::{Carrier, Numbers};
use history::Refusal;
use shared_queue::{Share, SteppedQueue, deal};
use std::alloc::Global;

/// The number of a role that pushes and pops.
const BOTH: u8 = 3;

/// A queue that is made as numbers ask for it, with all its seats.
pub trait NewQueue: Carrier + Drop + Sized {
    // A new queue is of the kind with this number, with so many nodes and this limit, and its seats are of the roles with these numbers.
    ghost is_new: { (kind nodes limit : ℕ) (roles : List ℕ) → Self → List Self.Seat → Type 0 };

    /// A new queue of the kind with this number, and its seats.
    fn new_queue(
        alloc: Global,
        kind: u32,
        nodes: u32,
        limit: u64,
        numbers: &[u8],
    ) -> Result<(Self, Vec<Self::Seat>), Trouble>
        requires { Asks kind nodes limit numbers.now }
        ensures new { IfOk result (λ r. is_new kind nodes limit numbers.now r.0 r.1.items) }
        ensures len { IfOk result (λ r. length r.1.items ≡ length numbers.now) }
        ensures both { (count : ℕ) → numbers.now ≡ new.all_both count → IfOk result
            (λ r. All (IsBoth Self.is_seat Self.permits Self.known r.0) r.1.items) }
        ensures only_memory { IfErr result IsMemory };
}

impl NewQueue for Numbers<Queue> {
    ghost is_new = { IsNewNumbers };

    fn new_queue(
        alloc: Global,
        kind: u32,
        nodes: u32,
        limit: u64,
        numbers: &[u8],
    ) -> Result<(Numbers<Queue>, Vec<QueueSeat>), Trouble> {
        let (queue, seats) = new_queue(alloc, kind, nodes, limit, numbers)?;
        Ok((Numbers::new(queue), seats))
    }
}

// How many nodes a queue of a kind has for so many values, and calls at once: of a ring as many as there are values, 2 at least, and
// else one more for each call, which may hold one, and one that is always in the queue.
fn nodes_for(kind: u32, capacity: u32, calls: usize) -> Option<u32>
    ensures nodes { IfSome result (HasNodes kind capacity calls) }
    ensures none { IfNone result ((kind ≢ 2) × (2 ^ 32 ≤ capacity + calls + 1)) }
{
    if kind == RING {
        return Some(capacity.max(2));
    }
    let Ok(calls) = u32::try_from(calls) else {
        return None;
    };
    capacity.checked_add(calls)?.checked_add(1)
}

// So many roles that push and pop.
fn all_both(alloc: Global, count: usize) -> Result<Vec<u8>, Trouble>
    ensures roles { IfOk result (λ roles. roles.items ≡ new.all_both count) }
    ensures only_memory { IfErr result IsMemory }
{
    match vec![in alloc; BOTH; count] {
        Ok(roles) => Ok(roles),
        Err(_) => Err(Trouble::Refused(Refusal::Memory)),
    }
}

// A new queue's shares, and what lies between them and its words.
fn shares_of<C: NewQueue>(
    alloc: Global,
    kind: u32,
    capacity: u32,
    limit: u64,
    count: usize,
) -> Result<(Vec<Share<C>>, Spacer), Trouble>
    ensures made { IfOk result (λ r. AreNewOf C.is_new kind capacity limit count r.0.items) }
    ensures len { IfOk result (λ r. length r.0.items ≡ count) }
    ensures refused { IfErr result (RefusesShares kind capacity limit count) }
{
    if capacity == 0 {
        return Err(Trouble::BadSize);
    }
    let Some(nodes) = nodes_for(kind, capacity, count) else {
        return Err(Trouble::BadSize);
    };
    let roles = all_both(alloc, count)?;
    if !are_asked(kind, nodes, limit, &roles) {
        return Err(Trouble::BadSize);
    }
    let (queue, seats) = C::new_queue(alloc, kind, nodes, limit, &roles)?;
    let spacer = spacer_for(alloc, nodes)?;
    let counts = kind != RING || capacity < nodes;
    let stepped = SteppedQueue::new(queue, u64::from(capacity), counts);
    let Ok(shares) = deal(alloc, stepped, seats) else {
        return Err(Trouble::Refused(Refusal::Memory));
    };
    Ok((shares, spacer))
}

// Each share in a block of its own.
fn boxed<C: Carrier + Drop>(
    alloc: Global,
    shares: Vec<Share<C>>,
) -> Result<Vec<Box<ShareBlock<C>, Global>>, Trouble>
    ensures boxes { IfOk result (λ boxes. map (λ b. b.value.share) boxes.items ≡ shares.items) }
    ensures only_memory { IfErr result IsMemory }
{
    let mut boxes = Vec::new(alloc);
    for share in shares {
        let Ok(boxed) = Box::new(alloc, ShareBlock::new(share)) else {
            return Err(Trouble::Refused(Refusal::Memory));
        };
        if boxes.push(boxed).is_err() {
            return Err(Trouble::Refused(Refusal::Memory));
        }
    }
    Ok(boxes)
}

// So many full handles with the shares of a new queue.
fn handles_of<C: NewQueue, H: Slot<ShareBlock<C>>>(
    alloc: Global,
    kind: u32,
    capacity: u32,
    limit: u64,
    count: usize,
) -> Result<Vec<H>, Trouble>
    ensures full { IfOk result (λ h. AreFull H.holds h.items) }
    ensures made { IfOk result (λ h. AreNewOf C.is_new kind capacity limit count
        (map (share_at H.own) h.items)) }
    ensures len { IfOk result (λ h. length h.items ≡ count) }
    ensures refused { IfErr result (RefusesShares kind capacity limit count) }
{
    let (shares, _spacer) = shares_of::<C>(alloc, kind, capacity, limit, count)?;
    let boxes = boxed(alloc, shares)?;
    sealed::<ShareBlock<C>, H>(alloc, boxes)
}

/// A new queue, whose shares fill these handles.
pub(crate) fn create<C: NewQueue, H: Slot<ShareBlock<C>>>(
    alloc: Global,
    kind: u32,
    capacity: u32,
    limit: u64,
    slots: &mut [H],
) -> Result<(), Trouble>
    ensures empty { OnOk result (AreEmpty H.holds slots.old) }
    ensures full { OnOk result (AreFull H.holds slots.new) }
    ensures made { OnOk result (AreNewOf C.is_new kind capacity limit (length slots.old)
        (map (share_at H.own) slots.new)) }
    ensures refused { IfErr result (RefusesFilling H.holds kind capacity limit slots.old) }
    ensures same { OnErr result (slots.new ≡ slots.old) }
{
    if !all_are_empty::<ShareBlock<C>, H>(slots) {
        return Err(Trouble::InUse);
    }
    match handles_of::<C, H>(alloc, kind, capacity, limit, slots.len()) {
        Ok(mut handles) => {
            hand_over(slots, &mut handles);
            Ok(())
        }
        Err(refusal) => Err(refusal),
    }
}
