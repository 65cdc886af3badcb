//! A pool of the seats of a queue.
ghost use Rattle.std.specs.Prelude.{◌≡◌, ◌<◌, length, map, IfOk, IfErr, IfSome};
ghost use Rattle.std.specs.List.{All};
ghost use Rattle.seat_pool.specs.Words.{AreWords};

use crate::leases::{Held, Lease};
use crate::parts::Part;
use crate::places::{Enter, Give, Home, PlaceTable, Take};
use atomic_table::Table;
use carriers::Carrier;
use crossbeam_utils::Backoff;
use history::Refusal;
use std::alloc::Global;
use std::snapshot::Snapshot;
use std::sync::{Arc, Wait};

/// The word of a place whose seat is leased.
const LEASED: u64 = 0;

/// A queue, and the places of its seats.
#[derive(Drop)]
pub struct Store<C: Carrier + Drop> {
    pub(crate) home: Home<C>,
    pub(crate) table: PlaceTable<C>,
    ghost keyed: { table.shared.key ≡ home },
    ghost sized: { table.shared.table_id.words ≡ table.shared.table_id.slots },
    ghost seated: { table.shared.table_id.words ≡ length home.first.value.items },
}

/// A handle of a pool: of a queue with its seats, each of which one thread at a time leases. Threads share it by a reference,
/// or each have one of their own (`share`), and need nothing else. It may be shared so where its queue is `Send` and `Sync`.
///
/// ```rust
/// let pool = SeatPool::new(alloc, queue, seats)?;
/// // In any thread, again and again:
/// if let Some(mut lease) = pool.lease(Part::Giver) {
///     lease.try_push(value, 8)?;
/// }
/// ```
#[derive(Drop)]
pub struct SeatPool<C: Carrier + Drop> {
    pub(crate) store: Arc<Store<C>, Global>,
}

// The words of the places where these seats lie.
fn words_of<C: Carrier + Drop>(
    alloc: Global,
    queue: &C,
    seats: &[C::Seat],
) -> Result<Vec<u64>, Refusal>
    requires { All (C.is_seat queue.now) seats.now }
    ensures words { IfOk result (λ words.
        AreWords (C.permits queue.now) (map (λ s. (C.known s).number) seats.now) words.items) }
    ensures only_memory { IfErr result (λ refusal. refusal ≡ Refusal.Memory) }
{
    let mut words = Vec::new(alloc);
    for seat in seats {
        let part = Part::of(queue.may_push(seat), queue.may_pop(seat));
        if words.push(part.number()).is_err() {
            return Err(Refusal::Memory);
        }
    }
    Ok(words)
}

// Each of these seats as a place holds it.
fn placed<S: Drop>(alloc: Global, seats: Vec<S>) -> Result<Vec<Option<S>>, Refusal>
    ensures seats { IfOk result (λ slots. slots.items ≡ map Some seats.items) }
    ensures only_memory { IfErr result (λ refusal. refusal ≡ Refusal.Memory) }
{
    let Ok(mut slots) = Vec::with_capacity(alloc, seats.len()) else {
        return Err(Refusal::Memory);
    };
    for seat in seats {
        slots.push_reserved(Some(seat));
    }
    Ok(slots)
}

impl<C: Carrier + Drop> Store<C> {
    ghost use Rattle.seat_pool.specs.Pools.{places_of, IsFrom};

    // A store of these seats, whose places have these words.
    fn new(alloc: Global, queue: C, seats: Vec<C::Seat>) -> Result<Store<C>, Refusal>
        requires { All (C.is_seat queue) seats.items }
        ensures queue { IfOk result (λ store. store.home.queue ≡ queue) }
        ensures seats { IfOk result (λ store. store.home.first.value ≡ seats) }
        ensures only_memory { IfErr result (λ refusal. refusal ≡ Refusal.Memory) }
    {
        let words = words_of(alloc, &queue, &seats)?;
        let home = Home {
            queue,
            first: Snapshot::of(&seats),
        };
        let slots = placed(alloc, seats)?;
        match Table::new(alloc, &words, slots, &home) {
            Ok((table, _)) => Ok(Store { home, table }),
            Err(_) => Err(Refusal::Memory),
        }
    }

    pub(crate) fn into_queue(self) -> C
        ensures { result ≡ self.home.queue }
    {
        let Store { home, table: _ } = self;
        home.into_queue()
    }

    // How many places there are.
    pub(crate) fn places(&self) -> usize
        ensures { result ≡ places_of self.now }
    {
        self.table.word_count()
    }

    // The part of the seat that lies in a place, at one moment.
    pub(crate) fn part_at(&self, place: usize) -> Option<Part>
        requires { place < places_of self.now }
    {
        Part::numbered(self.table.shared.peek(place))
    }

    // Takes the seat that lies in a place, where it has this part.
    pub(crate) fn take_at(&self, place: usize, part: Part) -> Option<Held<C>>
        requires { place < places_of self.now }
        ensures from { IfSome result (IsFrom self.now) }
        ensures part { IfSome result (λ held. held.part ≡ part) }
        ensures place { IfSome result (λ held. held.place ≡ place) }
    {
        let shared = &self.table.shared;
        let number = part.number();
        let (_, mut token) = shared.load_new_seat::<Enter>(place);
        if shared.compare_exchange::<Take<C>>(&mut token, place, number, LEASED) != number {
            return None;
        }
        let seat = shared.exchange(&mut token, place, None)?;
        Some(Held {
            home: Snapshot::of(&self.home),
            token,
            seat,
            place,
            part,
        })
    }

    // Takes a seat of this part from the first place where one lies.
    pub(crate) fn find(&self, part: Part) -> Option<Held<C>>
        ensures from { IfSome result (IsFrom self.now) }
        ensures part { IfSome result (λ held. held.part ≡ part) }
    {
        for place in 0..self.places() {
            if self.part_at(place) == Some(part) {
                if let Some(held) = self.take_at(place, part) {
                    return Some(held);
                }
            }
        }
        None
    }

    // Puts a seat back into its place.
    pub(crate) fn give_back(&self, held: Held<C>)
        requires { IsFrom self.now held }
    {
        let Held {
            home: _,
            mut token,
            seat,
            place,
            part,
        } = held;
        let shared = &self.table.shared;
        drop(shared.exchange(&mut token, place, Some(seat)));
        shared.store::<Give>(&mut token, place, part.number());
    }
}

impl<C: Carrier + Drop> SeatPool<C> {
    ghost use Rattle.seat_pool.specs.Pools.{store_of, queue_in, numbers_of};
    ghost use Rattle.seat_pool.specs.Leases.{pool_of, part_of, IsAble};

    /// A pool of this queue's seats.
    ///
    /// Refused by `Memory` alone; the queue is then given up. Takes memory for the places, and doesn't wait.
    pub fn new(alloc: Global, queue: C, seats: Vec<C::Seat>) -> Result<SeatPool<C>, Refusal>
        requires { All (C.is_seat queue) seats.items }
        //= leases/pool (queue, seats, only_memory): A pool has the queue, and the numbers of the seats in their
        //=   order, that it was made with; a further handle, where it is given, is of the same pool. Or Memory.
        ensures queue { IfOk result (λ pool. queue_in (store_of pool) ≡ queue) }
        ensures seats { IfOk result (λ pool.
            numbers_of C.known (store_of pool) ≡ map (λ s. (C.known s).number) seats.items) }
        ensures only_memory { IfErr result (λ refusal. refusal ≡ Refusal.Memory) }
    {
        let store = Store::new(alloc, queue, seats)?;
        match Arc::new(alloc, store) {
            Ok(store) => Ok(SeatPool { store }),
            Err(_) => Err(Refusal::Memory),
        }
    }

    /// One more handle of this pool; none where it has 2^63 - 1. Takes no memory and doesn't wait.
    pub fn share(&self) -> Option<SeatPool<C>>
        //= leases/pool
        ensures { IfSome result (λ pool. store_of pool ≡ store_of self.now) }
    {
        match Arc::try_clone(&self.store) {
            Ok(store) => Some(SeatPool { store }),
            Err(_) => None,
        }
    }

    /// A seat of this part, until the lease is dropped. None where each such seat was found leased.
    ///
    /// Takes no memory and doesn't wait.
    pub fn lease(&self, part: Part) -> Option<Lease<C>>
        //= leases/lease (pool, part, able)
        ensures pool { IfSome result (λ lease. pool_of lease ≡ store_of self.now) }
        ensures part { IfSome result (λ lease. part_of lease ≡ part) }
        ensures able { IfSome result (IsAble C.permits C.known) }
    {
        let Ok(pool) = Arc::try_clone(&self.store) else {
            return None;
        };
        let held = pool.find(part)?;
        Some(Lease { pool, held })
    }

    /// A seat of this part, until the lease is dropped; waits for one while each is leased.
    ///
    /// Takes no memory, and waits.
    pub fn lease_waiting<R: Wait>(&self, rt: &R, part: Part) -> Lease<C>
        //= leases/lease (pool, part, able)
        ensures pool { pool_of result ≡ store_of self.now }
        ensures part { part_of result ≡ part }
        ensures able { IsAble C.permits C.known result }
    {
        let backoff = Backoff::new();
        for _ in rt.forever() {
            if let Some(lease) = self.lease(part) {
                return lease;
            }
            backoff.snooze();
        }
        unreachable!()
    }
}
