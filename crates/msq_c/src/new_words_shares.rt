//! A new queue of three words whose calls may wait, and its seats.
ghost use Rattle.std.specs.Prelude.{◌≡◌, ◌≤◌, ◌<◌, ◌^◌, IfOk, IfErr};
ghost use Rattle.std.specs.List.{All};
ghost use Rattle.msq_c.specs.Ends.{IsMemory};
ghost use Rattle.msq_c.specs.Made.{Asks};
ghost use Rattle.msq_c.specs.NewWordsShares as new;
ghost use Rattle.msq_c.specs.NewWordsShares.{IsNew};
ghost use Rattle.msq_c.specs.WordsQueues.{IsSeat, AreUnused};

use crate::new_queues::{RING, count_for, kind_of, ring_roles_of, roles_of};
use crate::new_shares::NewQueue;
use crate::troubles::Trouble;
use crate::words_shares::{WordsQueue, WordsSeat};
use history::Refusal;
use picked::{AnyValues, EitherQueue, EitherSeat};
use ring_values::RingValues;
use std::alloc::Global;

// The last place of a ring with room for so many values, by so many seats, with this limit.
fn places_for(values: u32, limit: u64, seats: usize) -> u64
    requires limit { limit < 2 ^ 62 }
    requires seats { seats < 2 ^ 15 }
    ensures { result ≡ new.places_for values limit seats }
{
    (limit + 2 * (u64::from(values) + seats as u64)).min((1 << 62) - 1)
}

// A new queue of nodes, of this kind, and its seats.
fn new_linked(
    alloc: Global,
    kind: u32,
    nodes: u32,
    limit: u64,
    numbers: &[u8],
) -> Result<(WordsQueue, Vec<WordsSeat>), Trouble>
    requires asks { Asks kind nodes limit numbers.now }
    requires few { kind ≤ 1 }
    ensures new { IfOk result (λ r. IsNew kind nodes limit numbers.now r.0 r.1.items) }
    ensures seats { IfOk result (λ r. All (IsSeat r.0) r.1.items) }
    ensures unused { IfOk result (λ r. AreUnused r.0 r.1.items) }
    ensures only_memory { IfErr result IsMemory }
{
    let roles = roles_of(alloc, numbers)?;
    let kind = kind_of(kind);
    let count = count_for(nodes, limit);
    let Ok((queue, within)) = AnyValues::with_limit(alloc, kind, nodes, count, &roles) else {
        return Err(Trouble::Refused(Refusal::Memory));
    };
    let Ok(seats) = EitherSeat::all_first(alloc, within) else {
        return Err(Trouble::Refused(Refusal::Memory));
    };
    Ok((EitherQueue::First(queue), seats))
}

// A new ring with room for so many values, and its seats.
fn new_ring(
    alloc: Global,
    values: u32,
    limit: u64,
    numbers: &[u8],
) -> Result<(WordsQueue, Vec<WordsSeat>), Trouble>
    requires { Asks 2 values limit numbers.now }
    ensures new { IfOk result (λ r. IsNew 2 values limit numbers.now r.0 r.1.items) }
    ensures seats { IfOk result (λ r. All (IsSeat r.0) r.1.items) }
    ensures unused { IfOk result (λ r. AreUnused r.0 r.1.items) }
    ensures only_memory { IfErr result IsMemory }
{
    let roles = ring_roles_of(alloc, numbers)?;
    let places = places_for(values, limit, numbers.len());
    let Ok((queue, within)) = RingValues::new(alloc, values, places, &roles) else {
        return Err(Trouble::Refused(Refusal::Memory));
    };
    let Ok(seats) = EitherSeat::all_second(alloc, within) else {
        return Err(Trouble::Refused(Refusal::Memory));
    };
    Ok((EitherQueue::Second(queue), seats))
}

// A new queue of the kind with this number, and its seats.
fn new_queue(
    alloc: Global,
    kind: u32,
    nodes: u32,
    limit: u64,
    numbers: &[u8],
) -> Result<(WordsQueue, Vec<WordsSeat>), Trouble>
    requires { Asks kind nodes limit numbers.now }
    ensures new { IfOk result (λ r. IsNew kind nodes limit numbers.now r.0 r.1.items) }
    ensures seats { IfOk result (λ r. All (IsSeat r.0) r.1.items) }
    ensures unused { IfOk result (λ r. AreUnused r.0 r.1.items) }
    ensures only_memory { IfErr result IsMemory }
{
    if kind == RING {
        return new_ring(alloc, nodes, limit, numbers);
    }
    new_linked(alloc, kind, nodes, limit, numbers)
}

impl NewQueue for WordsQueue {
    ghost is_new = { IsNew };

    fn new_queue(
        alloc: Global,
        kind: u32,
        nodes: u32,
        limit: u64,
        numbers: &[u8],
    ) -> Result<(WordsQueue, Vec<WordsSeat>), Trouble> {
        let (queue, seats) = new_queue(alloc, kind, nodes, limit, numbers)?;
        Ok((queue, seats))
    }
}
