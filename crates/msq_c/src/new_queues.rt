//! A new queue, and a handle for each of its seats.
ghost use Rattle.std.specs.Prelude.{◌≡◌, ◌<◌, ◌≤◌, ◌^◌, map, length, IfOk, IfErr, OnOk, OnErr, MatchBool};
ghost use Rattle.std.specs.List.{All};
ghost use Rattle.history.specs.Openings.{AreNew};
ghost use Rattle.picked.specs.Either.{IsEitherSeat};
ghost use Rattle.picked.specs.Picked.{IsPickedSeat};
ghost use Rattle.ring_queue.specs.Queues.{IsNumberSeat};
ghost use Rattle.msq_c.specs.Queues.{known_of, permits_of};
ghost use Rattle.msq_c.specs.Ends.{IsMemory};
ghost use Rattle.msq_c.specs.Made as made;
ghost use Rattle.msq_c.specs.Made.{kind_number, role_number, ring_role_number, IsRole};
ghost use Rattle.msq_c.specs.Made.{AreSizes, AreNoSizes, Asks, IsOutOfRange, MayMake, IsNew};
ghost use Rattle.msq_c.specs.Made.{AreUnused, AreAsked, RefusesCreate};
ghost use Rattle.msq_c.specs.Blocks.{owned_in};

use crate::handles::MsqSeat;
use crate::ring_acts::AT_ONCE;
use crate::seat_blocks::{Queue, QueueSeat, SeatBlock};
use crate::slots::{all_are_empty, sealed};
use crate::troubles::Trouble;
use carriers::Numbers;
use history::{MOST_ACTOR, Refusal, Taken};
use line_table::Kind;
use node_arena::{Role, most_count, most_node};
use owned::{OwnedSeat, deal};
use picked::{EitherQueue, PickedQueue, bits_for};
use ring_queue::{MOST_SEATS, RingQueue, Role as RingRole};
use std::alloc::Global;

/// The number of the ring.
pub(crate) const RING: u32 = 2;

/// The kind of this number.
pub(crate) fn kind_of(number: u32) -> Kind
    requires { number ≤ 1 }
    ensures { kind_number result ≡ number }
{
    match number {
        0 => Kind::NonBlocking,
        _ => Kind::TwoLock,
    }
}

// The role of this number.
fn role_of(number: u8) -> Role
    requires { IsRole number }
    ensures { role_number result ≡ number }
{
    match number {
        1 => Role::Giver,
        2 => Role::Taker,
        _ => Role::Both,
    }
}

// The roles of these numbers.
pub(crate) fn roles_of(alloc: Global, numbers: &[u8]) -> Result<Vec<Role>, Trouble>
    requires { All IsRole numbers.now }
    ensures roles { IfOk result (λ roles. map role_number roles.items ≡ numbers.now) }
    ensures only_memory { IfErr result IsMemory }
{
    let mut roles = Vec::new(alloc);
    for number in numbers {
        if roles.push(role_of(*number)).is_err() {
            return Err(Trouble::Refused(Refusal::Memory));
        }
    }
    Ok(roles)
}

// The role of this number in a ring.
fn ring_role_of(number: u8) -> RingRole
    requires { IsRole number }
    ensures { ring_role_number result ≡ number }
{
    match number {
        1 => RingRole::Giver,
        2 => RingRole::Taker,
        _ => RingRole::Both,
    }
}

// The roles of these numbers in a ring.
pub(crate) fn ring_roles_of(alloc: Global, numbers: &[u8]) -> Result<Vec<RingRole>, Trouble>
    requires { All IsRole numbers.now }
    ensures roles { IfOk result (λ roles. map ring_role_number roles.items ≡ numbers.now) }
    ensures only_memory { IfErr result IsMemory }
{
    let mut roles = Vec::new(alloc);
    for number in numbers {
        if roles.push(ring_role_of(*number)).is_err() {
            return Err(Trouble::Refused(Refusal::Memory));
        }
    }
    Ok(roles)
}

// Whether each is the number of a role.
fn are_roles(numbers: &[u8]) -> bool
    ensures { MatchBool result (All IsRole numbers.now) (¬ All IsRole numbers.now) }
{
    numbers.iter().all(|number| 1 <= *number && *number <= 3)
}

// Whether a queue has such sizes.
fn are_sizes(nodes: u32, limit: u64, seats: usize) -> bool
    ensures { MatchBool result (AreSizes nodes limit seats) (AreNoSizes nodes limit seats) }
{
    if nodes < 2 || nodes > most_node(32) {
        return false;
    }
    if limit < 1 || limit >= 1 << 62 {
        return false;
    }
    seats >= 1 && seats as u64 <= MOST_ACTOR
}

// Whether all these numbers are in their ranges.
pub(crate) fn are_asked(kind: u32, nodes: u32, limit: u64, roles: &[u8]) -> bool
    ensures { MatchBool result (Asks kind nodes limit roles.now)
        (IsOutOfRange kind nodes limit roles.now) }
{
    if kind > RING || !are_roles(roles) {
        return false;
    }
    if kind == RING && roles.len() > MOST_SEATS {
        return false;
    }
    are_sizes(nodes, limit, roles.len())
}

/// So many words fill two pages.
const TWO_PAGES: usize = 1024;

// Blocks that keep what is allocated next off the pages with a new queue's words: one takes the place of the words that the
// queue was made from, the other two pages. A processor that reads there fetches words that other threads write.
#[derive(Drop)]
pub(crate) struct Spacer {
    _words: Vec<u64>,
    _pages: Vec<u64>,
}

pub(crate) fn spacer_for(alloc: Global, nodes: u32) -> Result<Spacer, Trouble>
    ensures { IfErr result IsMemory }
{
    let words = (nodes as usize).saturating_mul(2).saturating_add(48);
    match (
        Vec::with_capacity(alloc, words),
        Vec::with_capacity(alloc, TWO_PAGES),
    ) {
        (Ok(words), Ok(pages)) => Ok(Spacer {
            _words: words,
            _pages: pages,
        }),
        _ => Err(Trouble::Refused(Refusal::Memory)),
    }
}

// The greatest count of a queue of so many nodes, with this limit.
pub(crate) fn count_for(nodes: u32, limit: u64) -> u64
    ensures { result ≡ made.count_for nodes limit }
{
    limit.min(most_count(bits_for(nodes)))
}

// The last place of a ring with room for so many values, with this limit.
fn places_for(values: u32, limit: u64) -> u64
    requires { limit < 2 ^ 62 }
    ensures { result ≡ made.places_for values limit }
{
    (limit + 2 * u64::from(values)).min((1 << 62) - 1)
}

// A new queue of nodes, of this kind, and its seats.
fn new_linked(
    alloc: Global,
    kind: u32,
    nodes: u32,
    limit: u64,
    numbers: &[u8],
) -> Result<(Queue, Vec<QueueSeat>), Trouble>
    requires asks { Asks kind nodes limit numbers.now }
    requires few { kind ≤ 1 }
    ensures new { IfOk result (λ r. IsNew kind nodes limit numbers.now r.0 r.1.items) }
    ensures seats { IfOk result
        (λ r. All (IsEitherSeat IsPickedSeat IsNumberSeat r.0) r.1.items) }
    ensures unused { IfOk result (λ r. AreNew (permits_of r.0) (map known_of r.1.items)) }
    ensures only_memory { IfErr result IsMemory }
{
    let roles = roles_of(alloc, numbers)?;
    let kind = kind_of(kind);
    let count = count_for(nodes, limit);
    let Ok((queue, seats)) = PickedQueue::with_limit(alloc, kind, nodes, count, &roles) else {
        return Err(Trouble::Refused(Refusal::Memory));
    };
    let Ok(made) = EitherQueue::of_first(alloc, queue, seats) else {
        return Err(Trouble::Refused(Refusal::Memory));
    };
    Ok(made)
}

// A new ring with room for so many values, and its seats.
fn new_ring(
    alloc: Global,
    values: u32,
    limit: u64,
    numbers: &[u8],
) -> Result<(Queue, Vec<QueueSeat>), Trouble>
    requires { Asks 2 values limit numbers.now }
    ensures new { IfOk result (λ r. IsNew 2 values limit numbers.now r.0 r.1.items) }
    ensures seats { IfOk result
        (λ r. All (IsEitherSeat IsPickedSeat IsNumberSeat r.0) r.1.items) }
    ensures unused { IfOk result (λ r. AreNew (permits_of r.0) (map known_of r.1.items)) }
    ensures only_memory { IfErr result IsMemory }
{
    let roles = ring_roles_of(alloc, numbers)?;
    let places = places_for(values, limit);
    let Ok((queue, seats)) = RingQueue::new(alloc, values, places, &roles) else {
        return Err(Trouble::Refused(Refusal::Memory));
    };
    let Ok(made) = EitherQueue::of_second(alloc, queue, seats) else {
        return Err(Trouble::Refused(Refusal::Memory));
    };
    Ok(made)
}

/// A new queue of the kind with this number, and its seats.
pub(crate) fn new_queue(
    alloc: Global,
    kind: u32,
    nodes: u32,
    limit: u64,
    numbers: &[u8],
) -> Result<(Queue, Vec<QueueSeat>), Trouble>
    requires { Asks kind nodes limit numbers.now }
    ensures new { IfOk result (λ r. IsNew kind nodes limit numbers.now r.0 r.1.items) }
    ensures seats { IfOk result
        (λ r. All (IsEitherSeat IsPickedSeat IsNumberSeat r.0) r.1.items) }
    ensures unused { IfOk result (λ r. AreNew (permits_of r.0) (map known_of r.1.items)) }
    ensures only_memory { IfErr result IsMemory }
{
    if kind == RING {
        return new_ring(alloc, nodes, limit, numbers);
    }
    new_linked(alloc, kind, nodes, limit, numbers)
}

// A new queue's seats, as these numbers ask for it, each with a share, and what lies between them and its words.
fn seats_of(
    alloc: Global,
    kind: u32,
    nodes: u32,
    limit: u64,
    numbers: &[u8],
) -> Result<(Vec<OwnedSeat<Numbers<Queue>>>, Spacer), Trouble>
    requires { Asks kind nodes limit numbers.now }
    ensures unused { IfOk result
        (λ made. AreUnused kind nodes limit numbers.now made.0.items) }
    ensures only_memory { IfErr result IsMemory }
{
    let (queue, seats) = new_queue(alloc, kind, nodes, limit, numbers)?;
    let spacer = spacer_for(alloc, nodes)?;
    let numbers = Numbers::new(queue);
    let Ok(owned) = deal(alloc, numbers, seats) else {
        return Err(Trouble::Refused(Refusal::Memory));
    };
    Ok((owned, spacer))
}

// Room for what a seat pops at one step: of a ring for as many as that may be, and else for none.
fn room_for(alloc: Global, seat: &OwnedSeat<Numbers<Queue>>) -> Result<Vec<Taken>, Trouble>
    ensures { IfErr result IsMemory }
{
    let size = match seat.queue().queue() {
        EitherQueue::First(_) => 0,
        EitherQueue::Second(_) => AT_ONCE,
    };
    let Ok(room) = Vec::with_capacity(alloc, size) else {
        return Err(Trouble::Refused(Refusal::Memory));
    };
    Ok(room)
}

// Each seat in a block of its own.
fn boxed(
    alloc: Global,
    owned: Vec<OwnedSeat<Numbers<Queue>>>,
) -> Result<Vec<Box<SeatBlock, Global>>, Trouble>
    ensures boxes { IfOk result (λ boxes. map (λ b. owned_in b.value) boxes.items ≡ owned.items) }
    ensures only_memory { IfErr result IsMemory }
{
    let mut boxes = Vec::new(alloc);
    for seat in owned {
        let room = room_for(alloc, &seat)?;
        let Ok(boxed) = Box::new(alloc, SeatBlock::new(seat, room)) else {
            return Err(Trouble::Refused(Refusal::Memory));
        };
        if boxes.push(boxed).is_err() {
            return Err(Trouble::Refused(Refusal::Memory));
        }
    }
    Ok(boxes)
}

// Handles with the seats of a new queue, as these numbers ask for it.
fn handles_of(
    alloc: Global,
    kind: u32,
    nodes: u32,
    limit: u64,
    numbers: &[u8],
) -> Result<Vec<MsqSeat>, Trouble>
    requires { Asks kind nodes limit numbers.now }
    ensures made { IfOk result (λ h. AreAsked kind nodes limit numbers.now h.items) }
    ensures len { IfOk result (λ h. length h.items ≡ length numbers.now) }
    ensures only_memory { IfErr result IsMemory }
{
    let (owned, _spacer) = seats_of(alloc, kind, nodes, limit, numbers)?;
    let boxes = boxed(alloc, owned)?;
    sealed::<SeatBlock, MsqSeat>(alloc, boxes)
}

// Hands over what may go to another thread.
pub(crate) fn hand_over<T: Send + Drop>(slots: &mut [T], handles: &mut [T])
    requires { length slots.old ≡ length handles.old }
    ensures { slots.new ≡ handles.old }
{
    slots.swap_with_slice(handles);
}

/// A new queue, whose seats fill these handles, one for each role.
pub(crate) fn create(
    alloc: Global,
    kind: u32,
    nodes: u32,
    limit: u64,
    roles: &[u8],
    slots: &mut [MsqSeat],
) -> Result<(), Trouble>
    ensures made { OnOk result (AreAsked kind nodes limit roles.now slots.new) }
    ensures might { OnOk result (MayMake kind nodes limit roles.now slots.old) }
    ensures same { OnErr result (slots.new ≡ slots.old) }
    ensures refused { IfErr result (RefusesCreate kind nodes limit roles.now slots.old) }
{
    if !all_are_empty::<SeatBlock, MsqSeat>(slots) {
        return Err(Trouble::InUse);
    }
    if roles.len() != slots.len() || !are_asked(kind, nodes, limit, roles) {
        return Err(Trouble::BadSize);
    }
    let mut handles = handles_of(alloc, kind, nodes, limit, roles)?;
    hand_over(slots, &mut handles);
    Ok(())
}
