//! A new queue of words, and a handle for each of its seats.
ghost use Rattle.std.specs.Prelude.{◌≡◌, ◌≤◌, map, length, IfOk, IfErr, OnOk, OnErr};
ghost use Rattle.node_arena.specs.Plans.{Layout, IsPlanned};
ghost use Rattle.msq_c.specs.Ends.{IsMemory};
ghost use Rattle.msq_c.specs.Made.{Asks};
ghost use Rattle.msq_c.specs.WordBlocks.{owned_in};
ghost use Rattle.msq_c.specs.WordMade.{plan_for, MayMake, AreUnused, AreMade, AreAsked, RefusesCreate};

use crate::new_queues::{Spacer, are_asked, count_for, hand_over, kind_of, roles_of, spacer_for};
use crate::slots::{Slot, all_are_empty, sealed};
use crate::troubles::Trouble;
use crate::word_blocks::WordsBlock;
use history::Refusal;
use line_table::Kind;
use node_arena::Role;
use owned::{OwnedSeat, deal};
use picked::AnyValues;
use std::alloc::Global;

/// The number of the last kind that a queue of words can be of.
const TWO_LOCK: u32 = 1;

// A new queue's seats, each with a share, and what lies between them and its words.
fn seats_of<T: Send + Drop>(
    alloc: Global,
    kind: Kind,
    nodes: u32,
    limit: u64,
    roles: &[Role],
) -> Result<(Vec<OwnedSeat<AnyValues<T>>>, Spacer), Trouble>
    requires { IsPlanned (plan_for kind nodes limit roles.now) }
    ensures unused { IfOk result
        (λ made. AreUnused (plan_for kind nodes limit roles.now) made.0.items) }
    ensures only_memory { IfErr result IsMemory }
{
    let count = count_for(nodes, limit);
    let Ok((queue, seats)) = AnyValues::<T>::with_limit(alloc, kind, nodes, count, roles) else {
        return Err(Trouble::Refused(Refusal::Memory));
    };
    let spacer = spacer_for(alloc, nodes)?;
    let Ok(owned) = deal(alloc, queue, seats) else {
        return Err(Trouble::Refused(Refusal::Memory));
    };
    Ok((owned, spacer))
}

// Each seat in a block of its own.
fn boxed<T: Send + Drop>(
    alloc: Global,
    owned: Vec<OwnedSeat<AnyValues<T>>>,
) -> Result<Vec<Box<WordsBlock<AnyValues<T>>, Global>>, Trouble>
    ensures boxes { IfOk result (λ boxes. map (λ b. owned_in b.value) boxes.items ≡ owned.items) }
    ensures only_memory { IfErr result IsMemory }
{
    let mut boxes = Vec::new(alloc);
    for seat in owned {
        let Ok(boxed) = Box::new(alloc, WordsBlock::new(seat)) else {
            return Err(Trouble::Refused(Refusal::Memory));
        };
        if boxes.push(boxed).is_err() {
            return Err(Trouble::Refused(Refusal::Memory));
        }
    }
    Ok(boxes)
}

// Handles with the seats of a new queue.
fn made<T: Send + Drop, H: Slot<WordsBlock<AnyValues<T>>>>(
    alloc: Global,
    owned: Vec<OwnedSeat<AnyValues<T>>>,
) -> Result<Vec<H>, Trouble>
    ensures made { (z : Layout) → AreUnused z owned.items →
        IfOk result (λ h. AreMade H.holds H.own z h.items) }
    ensures only_memory { IfErr result IsMemory }
{
    let boxes = boxed(alloc, owned)?;
    sealed::<WordsBlock<AnyValues<T>>, H>(alloc, boxes)
}

// Handles with the seats of a new queue, as these numbers ask for it.
fn handles_of<T: Send + Drop, H: Slot<WordsBlock<AnyValues<T>>>>(
    alloc: Global,
    kind: u32,
    nodes: u32,
    limit: u64,
    numbers: &[u8],
) -> Result<Vec<H>, Trouble>
    requires asks { Asks kind nodes limit numbers.now }
    requires linked { kind ≤ 1 }
    ensures made { IfOk result (λ h. AreAsked H.holds H.own kind nodes limit numbers.now h.items) }
    ensures len { IfOk result (λ h. length h.items ≡ length numbers.now) }
    ensures only_memory { IfErr result IsMemory }
{
    let roles = roles_of(alloc, numbers)?;
    let kind = kind_of(kind);
    let (owned, _spacer) = seats_of::<T>(alloc, kind, nodes, limit, &roles)?;
    made::<T, H>(alloc, owned)
}

/// A new queue, whose seats fill these handles, one for each role.
pub(crate) fn create<T: Send + Drop, H: Slot<WordsBlock<AnyValues<T>>>>(
    alloc: Global,
    kind: u32,
    nodes: u32,
    limit: u64,
    roles: &[u8],
    slots: &mut [H],
) -> Result<(), Trouble>
    ensures made { OnOk result (AreAsked H.holds H.own kind nodes limit roles.now slots.new) }
    ensures might { OnOk result (MayMake H.holds kind nodes limit roles.now slots.old) }
    ensures same { OnErr result (slots.new ≡ slots.old) }
    ensures refused { IfErr result (RefusesCreate H.holds kind nodes limit roles.now slots.old) }
{
    if !all_are_empty::<WordsBlock<AnyValues<T>>, H>(slots) {
        return Err(Trouble::InUse);
    }
    if kind > TWO_LOCK || roles.len() != slots.len() || !are_asked(kind, nodes, limit, roles) {
        return Err(Trouble::BadSize);
    }
    let mut handles = handles_of::<T, H>(alloc, kind, nodes, limit, roles)?;
    hand_over(slots, &mut handles);
    Ok(())
}
