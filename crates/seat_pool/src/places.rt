//! The places where seats lie that nobody leases, and what the steps of a lease tell.
ghost use Rattle.std.specs.Prelude.{◌≡◌};

use atomic_table::{Play, Seat, Table, TableRule};
use carriers::Carrier;
use std::alloc::Global;
use std::marker::PhantomData;
use std::snapshot::Snapshot;

/// A queue, and its seats as they were when their pool was made.
#[derive(Drop)]
pub struct Home<C: Carrier + Drop> {
    pub(crate) queue: C,
    pub(crate) first: Snapshot<Vec<C::Seat>>,
}

impl<C: Carrier + Drop> Home<C> {
    pub(crate) fn into_queue(self) -> C
        ensures { result ≡ self.queue }
    {
        let Home { queue, first: _ } = self;
        queue
    }
}

/// The rule: a place whose word is that of a part has a seat of this part.
pub struct Places<C> {
    marker: PhantomData<C>,
}

impl<C: Carrier + Drop> TableRule<Option<C::Seat>, Home<C>, Home<C>> for Places<C> {
    ghost use Rattle.seat_pool.specs.Places.{AreKept};

    ghost holds = { AreKept C.is_seat C.permits C.known };

    ghost first = { λ home. home };
}

/// The table of the places.
pub(crate) type PlaceTable<C> = Table<
    Option<<C as Carrier>::Seat>,
    Home<C>,
    Home<C>,
    Places<C>,
    Global,
>;

/// What a step on a place is made with.
pub(crate) type Token<C> = Seat<Option<<C as Carrier>::Seat>, Home<C>>;

/// A new token, which knows the queue and its seats.
pub(crate) struct Enter;

impl<S, H> Play<S, H> for Enter {
    ghost use Rattle.seat_pool.specs.Places.{Enters};

    ghost then = { Enters };
}

/// A seat is taken from its place.
pub(crate) struct Take<C> {
    marker: PhantomData<C>,
}

impl<C: Carrier + Drop> Play<Option<C::Seat>, Home<C>> for Take<C> {
    ghost use Rattle.seat_pool.specs.Places.{Takes};

    ghost then = { Takes C.is_seat C.permits C.known };
}

/// A seat is given back to its place.
pub(crate) struct Give;

impl<S, H> Play<S, H> for Give {
    ghost then = { λ _ _ _ _. Unit {0} };
}
