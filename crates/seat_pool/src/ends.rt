//! The end of a pool: its queue and seats.
ghost use Rattle.std.specs.Prelude.{◌≡◌, ◌<◌, ◌≤◌, [], length, map, vec_capacity, IfOk, IfErr, IfSome};
ghost use Rattle.std.specs.List.{All};

use crate::leases::Held;
use crate::pools::{SeatPool, Store};
use carriers::Carrier;
use std::alloc::Global;
use std::sync::Arc;

/// A pool that wasn't taken apart, as it was, and why.
#[derive(Drop)]
pub enum Unparted<C: Carrier + Drop> {
    /// So many of its seats are leased, 1 or more.
    Leased(SeatPool<C>, usize),
    /// There are further handles of it.
    InUse(SeatPool<C>),
    /// Memory was refused.
    Memory(SeatPool<C>),
}

// Why the seats of a pool aren't all there.
#[derive(Drop)]
enum Lack {
    Leased(usize),
    Memory,
}

// The seats themselves, in a list with room for them.
fn bare<C: Carrier + Drop>(all: Vec<Held<C>>, mut seats: Vec<C::Seat>) -> Vec<C::Seat>
    requires empty { seats.items ≡ [] }
    requires room { length all.items ≤ vec_capacity seats }
    ensures { result.items ≡ map (λ held. held.seat) all.items }
{
    for held in all {
        seats.push_reserved(held.into_seat());
    }
    seats
}

impl<C: Carrier + Drop> Store<C> {
    ghost use Rattle.seat_pool.specs.Pools.{numbers_of, places_of, IsFrom};
    ghost use Rattle.seat_pool.specs.Ends.{LacksSome};

    // Takes the seat that lies in a place, whichever part it has.
    fn take_any(&self, place: usize) -> Option<Held<C>>
        requires { place < places_of self.now }
        ensures from { IfSome result (IsFrom self.now) }
        ensures place { IfSome result (λ held. held.place ≡ place) }
    {
        self.take_at(place, self.part_at(place)?)
    }

    // Puts seats back into their places.
    fn give_all_back(&self, all: Vec<Held<C>>)
        requires { All (IsFrom self.now) all.items }
    {
        for held in all {
            self.give_back(held);
        }
    }

    // Takes the seat that lies in each place, and counts the places where none does.
    fn take_each(&self, mut all: Vec<Held<C>>) -> (Vec<Held<C>>, usize)
        requires empty { all.items ≡ [] }
        requires room { places_of self.now ≤ vec_capacity all }
        ensures from { All (IsFrom self.now) result.0.items }
        ensures numbers { result.1 ≡ 0 →
            map (λ h. (C.known h.seat).number) result.0.items ≡ numbers_of C.known self.now }
    {
        let mut out = 0usize;
        for place in 0..self.places() {
            match self.take_any(place) {
                Some(held) => all.push_reserved(held),
                None => out += 1,
            }
        }
        (all, out)
    }

    // Takes all seats, in the order of the places, or none.
    fn take_all(&self, alloc: Global) -> Result<Vec<Held<C>>, Lack>
        ensures from { IfOk result (λ all. All (IsFrom self.now) all.items) }
        ensures numbers { IfOk result (λ all.
            map (λ h. (C.known h.seat).number) all.items ≡ numbers_of C.known self.now) }
        ensures lacks { IfErr result LacksSome }
    {
        let Ok(all) = Vec::with_capacity(alloc, self.places()) else {
            return Err(Lack::Memory);
        };
        let (all, out) = self.take_each(all);
        if out > 0 {
            self.give_all_back(all);
            return Err(Lack::Leased(out));
        }
        Ok(all)
    }
}

impl<C: Carrier + Drop> SeatPool<C> {
    ghost use Rattle.seat_pool.specs.Pools.{store_of, queue_in, numbers_of, IsFrom};
    ghost use Rattle.seat_pool.specs.Ends.{GivesPoolBack};

    /// The queue and all its seats, in the order in which the pool was made with them.
    ///
    /// Refused `Leased`, with their number, where seats are leased, `InUse` where there are further handles of the pool, and
    /// `Memory`; the pool comes back as it was. Takes memory for the seats, and doesn't wait.
    ///
    /// ```rust
    /// let (queue, seats) = pool.into_parts(alloc)?;
    /// let (rest, _) = queue.close(alloc, seats)?;
    /// ```
    pub fn into_parts(self, alloc: Global) -> Result<(C, Vec<C::Seat>), Unparted<C>>
        //= leases/parts (queue, seats, numbers, back): A pool that is taken apart gives its queue and all seats that it was
        //=   made with, in their order, each with what it has seen. One that isn't comes back as it was; where that is for
        //=   seats that are leased, with a number above 0. That it is just theirs, no clause says.
        ensures queue { IfOk result (λ parts. parts.0 ≡ queue_in (store_of self)) }
        ensures seats { IfOk result (λ parts. All (C.is_seat parts.0) parts.1.items) }
        ensures numbers { IfOk result (λ parts. map (λ s. (C.known s).number) parts.1.items
            ≡ numbers_of C.known (store_of self)) }
        ensures back { IfErr result (GivesPoolBack self) }
    {
        let Ok(seats) = Vec::with_capacity(alloc, self.store.places()) else {
            return Err(Unparted::Memory(self));
        };
        match self.store.take_all(alloc) {
            Ok(all) => self.parts_by(seats, all),
            Err(Lack::Leased(out)) => Err(Unparted::Leased(self, out)),
            Err(Lack::Memory) => Err(Unparted::Memory(self)),
        }
    }

    // The queue and its seats, which were taken from their places.
    fn parts_by(
        self,
        seats: Vec<C::Seat>,
        all: Vec<Held<C>>,
    ) -> Result<(C, Vec<C::Seat>), Unparted<C>>
        requires empty { seats.items ≡ [] }
        requires room { length (numbers_of C.known (store_of self)) ≤ vec_capacity seats }
        requires from { All (IsFrom (store_of self)) all.items }
        requires numbers { map (λ h. (C.known h.seat).number) all.items
            ≡ numbers_of C.known (store_of self) }
        ensures queue { IfOk result (λ parts. parts.0 ≡ queue_in (store_of self)) }
        ensures seats { IfOk result (λ parts. All (C.is_seat parts.0) parts.1.items) }
        ensures numbers { IfOk result (λ parts. map (λ s. (C.known s).number) parts.1.items
            ≡ numbers_of C.known (store_of self)) }
        ensures back { IfErr result (GivesPoolBack self) }
    {
        match Arc::try_unwrap(self.store) {
            Ok(store) => {
                let seats = bare(all, seats);
                Ok((store.into_queue(), seats))
            }
            Err(store) => {
                store.give_all_back(all);
                Err(Unparted::InUse(SeatPool { store }))
            }
        }
    }
}
