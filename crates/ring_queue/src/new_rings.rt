//! A new ring.
ghost use Rattle.std.specs.Prelude.{◌≡◌, ◌<◌, ◌≤◌, ◌^◌, true, false, length, map, IfOk, IfErr};
ghost use Rattle.std.specs.List.{All};
ghost use Rattle.history.specs.Openings.{AreNew};
ghost use Rattle.ring_queue.specs.Plans.{IsPlanned, permits_by, further_of, slots_of};
ghost use Rattle.ring_queue.specs.Seats.{known_of};
ghost use Rattle.ring_queue.specs.PlacedSeats.{IsWordSeat};
ghost use Rattle.ring_queue.specs.Queues.{IsNumberSeat, permits_in};
ghost use Rattle.ring_queue.specs.NewRings.{AreFirst, AreFresh, IsLeastPower, slots_for, IsMade, IsMadeFor, IsMadeOf, RingRefused};

use crate::new_seats::deal_all;
use crate::places::{HEAD, SHUT, TAIL};
use crate::plans::Plan;
use crate::queue::RingQueue;
use crate::roles::Role;
use crate::seats::Seat;
use atomic_table::Table;
use history::Refusal;
use std::alloc::{AllocError, Global};

/// The greatest number of seats, 2^15 - 1.
pub const MOST_SEATS: usize = (1 << 15) - 1;

/// The greatest number of words of a value that lies in its place, 3.
pub const MOST_WORDS: usize = 3;

// The words at the start: the places of the first lap count as taken, and so many words behind are 0.
fn words_at_start(alloc: Global, slots: u64, behind: u64) -> Result<Vec<u64>, AllocError>
    requires slots { slots ≤ 2 ^ 49 }
    requires behind { behind ≤ 2 ^ 51 }
    ensures { IfOk result (λ words. AreFirst slots behind words.items) }
{
    let mut words = vec![in alloc; 0u64; 32 + 2 * slots as usize + behind as usize]?;
    words[TAIL] = slots;
    words[HEAD] = slots;
    Ok(words)
}

// The least power of two that is no less than `room`.
fn power_from(room: u64) -> u64
    requires some { 1 ≤ room }
    requires few { room ≤ 2 ^ 48 }
    ensures { IsLeastPower room result }
{
    let mut slots = 1;
    for _ in 0..48u32 {
        if slots >= room {
            return slots;
        }
        slots *= 2;
    }
    slots
}

// How many slots the table of a plan has, each with a flag.
fn slot_count(plan: &Plan) -> u64
    ensures { result ≡ slots_of plan.now }
{
    if plan.carries { plan.slots } else { 0 }
}

// How many further words the table of a plan has for values.
fn further_count(plan: &Plan) -> u64
    requires { plan.now.slots ≤ 2 ^ 49 }
    ensures { result ≡ further_of plan.now }
{
    if plan.width < 2 { 0 } else { 2 * plan.slots }
}

fn built<T>(alloc: Global, plan: Plan) -> Result<(RingQueue<T>, Vec<Seat<T>>), AllocError>
    requires planned { IsPlanned plan }
    ensures plan { IfOk result (λ r. r.0.plan ≡ plan) }
    ensures count { IfOk result (λ r. length r.1.items ≡ length plan.roles) }
    ensures seats { IfOk result (λ r. AreFresh plan r.0.table.shared.table_id r.1.items) }
{
    let flags = slot_count(&plan);
    let behind = further_count(&plan) + flags;
    let words = words_at_start(alloc, plan.slots, behind)?;
    let room = Vec::with_capacity(alloc, plan.roles.len())?;
    let (table, mut keeper) = Table::vacant(alloc, words.as_slice(), flags as usize, &plan)?;
    let seats = deal_all(&table, &mut keeper, &plan, room);
    Ok((RingQueue { table, plan }, seats))
}

// For how many slots a ring asks that carries values or doesn't.
fn room_for(most: u32, roles: &[Role], carries: bool) -> u64
    requires { length roles.now < 2 ^ 15 }
    ensures value { result ≡ slots_for carries most roles.now }
    ensures few { (most ≤ result) × (result ≤ 2 ^ 48) }
{
    let values = u64::from(most);
    if carries {
        values + roles.len() as u64
    } else {
        values
    }
}

// A ring of these sizes, which carries values or has their words in its places, so many, or neither, and its seats.
fn made<T>(
    alloc: Global,
    most: u32,
    limit: u64,
    roles: &[Role],
    carries: bool,
    placed: bool,
    width: usize,
) -> Result<(RingQueue<T>, Vec<Seat<T>>), Refusal>
    requires apart { placed ≡ true → carries ≡ false }
    requires thin { width ≤ 3 }
    requires in_places { placed ≡ true → 1 ≤ width }
    requires elsewhere { placed ≡ false → width ≡ 0 }
    ensures ok { IfOk result
        (λ r. IsMadeOf carries placed width most limit roles.now r.0 r.1.items) }
    ensures refused { IfErr result (RingRefused carries most limit roles.now) }
{
    if most == 0 || roles.is_empty() || roles.len() > MOST_SEATS {
        return Err(Refusal::BadSize);
    }
    let slots = power_from(room_for(most, roles, carries));
    if limit < slots || limit >= SHUT {
        return Err(Refusal::BadSize);
    }
    let Ok(roles) = roles.to_vec(alloc) else {
        return Err(Refusal::Memory);
    };
    let plan = Plan {
        slots,
        most: u64::from(most),
        limit,
        roles,
        carries,
        placed,
        width,
    };
    let Ok(made) = built(alloc, plan) else {
        return Err(Refusal::Memory);
    };
    Ok(made)
}

impl RingQueue {
    /// A ring with room for `most` values, one at least, and a seat for each role, 1 to `MOST_SEATS` of them, in their order. Its
    /// slots are the least power of two that `most` fits in; its places go up to `limit`, from the number of slots to 2^62 - 1.
    ///
    /// Refusals: `BadSize` where one of them is out of its range, else `Memory`. Takes memory for two words a slot, the seats
    /// and their roles, and doesn't wait.
    pub fn new(
        alloc: Global,
        most: u32,
        limit: u64,
        roles: &[Role],
    ) -> Result<(RingQueue, Vec<Seat>), Refusal>
        //= ring/opening (ok, permits, seats, unused, refused): A new ring has the sizes asked for, the least power of two of slots
        //=   that its values fit in, and a seat for each role, in no call, that has seen nothing. It is refused for a size out of
        //=   its range, or else for want of memory.
        ensures ok { IfOk result (λ r. IsMade most limit roles.now r.0 r.1.items) }
        ensures permits { IfOk result (λ r. permits_in r.0 ≡ permits_by roles.now) }
        ensures seats { IfOk result (λ r. All (IsNumberSeat r.0) r.1.items) }
        ensures unused { IfOk result (λ r. AreNew (permits_in r.0) (map known_of r.1.items)) }
        ensures refused { IfErr result (RingRefused false most limit roles.now) }
    {
        made(alloc, most, limit, roles, false, false, 0)
    }
}

impl<T> RingQueue<T> {
    /// A ring that carries values, of the sizes of `new`; but its slots are the least power of two that `most` and a slot for each
    /// seat fit in, which has one in hand while it calls.
    ///
    /// Refusals: those of `new`. Takes memory for three words and a slot a slot, the seats and their roles, and doesn't wait.
    pub fn with_slots(
        alloc: Global,
        most: u32,
        limit: u64,
        roles: &[Role],
    ) -> Result<(RingQueue<T>, Vec<Seat<T>>), Refusal>
        //= ring/slots (ok, refused): A new ring that carries values is as a new ring of numbers, with a slot for a value for
        //=   each slot of the ring, and no seat has one.
        ensures ok { IfOk result
            (λ r. IsMadeFor true most limit roles.now r.0 r.1.items) }
        ensures refused { IfErr result (RingRefused true most limit roles.now) }
    {
        made(alloc, most, limit, roles, true, false, 0)
    }

    /// A ring whose values lie in their places, each of `width` words, 1 to `MOST_WORDS`, of the sizes of `new`.
    ///
    /// Refusals: those of `new`. Takes memory for two words a slot, four where values are of more than one, the seats and their
    /// roles, and doesn't wait.
    pub fn with_words(
        alloc: Global,
        width: usize,
        most: u32,
        limit: u64,
        roles: &[Role],
    ) -> Result<(RingQueue<T>, Vec<Seat<T>>), Refusal>
        requires some { 1 ≤ width }
        requires few { width ≤ 3 }
        //= ring/words (ok, seats, refused): A new ring whose values lie in their places is as a new ring of numbers, with each
        //=   value in its place, one to three words as asked for.
        ensures ok { IfOk result
            (λ r. IsMadeOf false true width most limit roles.now r.0 r.1.items) }
        ensures seats { IfOk result (λ r. All (IsWordSeat r.0) r.1.items) }
        ensures refused { IfErr result (RingRefused false most limit roles.now) }
    {
        made(alloc, most, limit, roles, false, true, width)
    }
}
