//! The table, its rule, and how views change beside steps.
use crate::plans::Plan;
use atomic_table::{Join, Play, Seat, Split, Table, TableRule};
use std::alloc::Global;
use std::marker::{Brand, Model, PhantomData};

/// What a seat knows, of its queue and of the values that this carries. No value of it is made.
pub struct Knowing<T> {
    unused: PhantomData<T>,
}

impl<T> Model for Knowing<T> {
    ghost use Rattle.ring_queue.specs.Beside.{Beside, knows_nothing};

    ghost Value = { Beside T };

    ghost view = { λ _. knows_nothing };
}

/// The rule: words and seats are those of a queue, which a history leads to, and where values are carried, each in the queue lies
/// in its slot.
pub struct WordRule;

impl<T> TableRule<Option<T>, Knowing<T>, Plan> for WordRule {
    ghost use Rattle.ring_queue.specs.Beside.{HoldsBy, first_beside};

    //= ring/rule: By what `atomic_table` states of a table, a ring's *rule* (`HoldsBy`) holds between any two atomic steps of any
    //=   threads.
    ghost holds = { HoldsBy };

    ghost first = { first_beside };
}

/// The table of the words, and of the slots.
pub type WordTable<T = ()> = Table<Option<T>, Knowing<T>, Plan, WordRule, Global>;

/// What a seat steps with.
pub type SeatToken<T = ()> = Seat<Option<T>, Knowing<T>>;

// Each call picks what its step tells.
impl<T> Play<Option<T>, Knowing<T>> for Brand {
    ghost then = { λ _ _ _ _. Unit {0} };
}

/// The ring's own token deals the next number.
pub(crate) struct Deal;

impl<T> Split<Knowing<T>> for Deal {
    ghost use Rattle.ring_queue.specs.Beside.{left_dealt, right_dealt};

    ghost left = { left_dealt };

    ghost right = { right_dealt };
}

/// A spare token, which knows nothing.
pub(crate) struct Spare;

impl<T> Split<Knowing<T>> for Spare {
    ghost use Rattle.ring_queue.specs.Beside.{left_as_it_is, knows_nothing};

    ghost left = { left_as_it_is };

    ghost right = { λ _. knows_nothing };
}

/// A new token, which gathers those of seats that are closed.
pub(crate) struct Open;

impl<T> Play<Option<T>, Knowing<T>> for Open {
    ghost use Rattle.ring_queue.specs.Beside.{OpensBeside};

    ghost then = { λ _ _ _ me. OpensBeside me };
}

/// Two seats become one, or a token that gathers takes in one of a seat that is closed.
pub(crate) struct Gather;

impl<T> Join<Knowing<T>> for Gather {
    ghost use Rattle.ring_queue.specs.Beside.{both_beside, knows_nothing};

    ghost both = { both_beside };

    ghost spent = { knows_nothing };
}

/// Two seats that were one.
pub(crate) struct Part;

impl<T> Split<Knowing<T>> for Part {
    ghost use Rattle.ring_queue.specs.Beside.{first_beside_of, second_beside_of};

    ghost left = { first_beside_of };

    ghost right = { second_beside_of };
}
