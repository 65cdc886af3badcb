//! The table, its rule, and how views change beside steps.
use crate::plans::Plan;
use atomic_table::{Join, Play, Seat, Split, Table, TableRule};
use std::alloc::Global;
use std::marker::{Brand, Model, PhantomData};

/// What a seat knows: its actor, its path, a prefix of the history, its own entries, its notes, and what it knows of the
/// values. No value of it is made.
pub struct Knowing<T> {
    unused: PhantomData<T>,
}

impl<T> Model for Knowing<T> {
    ghost use Rattle.node_arena.specs.Beside.{Beside, knows_nothing};

    ghost Value = { Beside T };

    ghost view = { λ _. knows_nothing };
}

/// The rule: words and seats are those of a traced world that moves lead to.
pub struct WordRule;

impl<T> TableRule<Option<T>, Knowing<T>, Plan> for WordRule {
    ghost use Rattle.node_arena.specs.Beside.{HoldsFor, first_beside};

    ghost holds = { HoldsFor };

    ghost first = { first_beside };
}

/// The table of the shared words, and of the slots.
pub type WordTable<T = ()> = Table<Option<T>, Knowing<T>, Plan, WordRule, Global>;

/// What a seat steps with.
pub type SeatToken<T = ()> = Seat<Option<T>, Knowing<T>>;

// Each call picks what its step tells.
impl<T> Play<Option<T>, Knowing<T>> for Brand {
    ghost then = { λ _ _ _ _. Unit {0} };
}

/// The arena's own token deals the next number.
pub(crate) struct Deal;

impl<T> Split<Knowing<T>> for Deal {
    ghost use Rattle.node_arena.specs.Beside.{left_dealt, right_dealt};

    ghost left = { left_dealt };

    ghost right = { right_dealt };
}

/// A spare token, which knows nothing.
pub(crate) struct Spare;

impl<T> Split<Knowing<T>> for Spare {
    ghost use Rattle.node_arena.specs.Beside.{left_as_it_is, knows_nothing};

    ghost left = { left_as_it_is };

    ghost right = { λ _. knows_nothing };
}

/// A new token, which gathers those of seats that are closed.
pub(crate) struct Open;

impl<T> Play<Option<T>, Knowing<T>> for Open {
    ghost use Rattle.node_arena.specs.Beside.{OpensBeside};

    ghost then = { λ _ _ _ me. OpensBeside me };
}

/// Two seats become one, or a token that gathers takes in one of a seat that is closed.
pub(crate) struct Gather;

impl<T> Join<Knowing<T>> for Gather {
    ghost use Rattle.node_arena.specs.Beside.{both_beside, knows_nothing};

    ghost both = { both_beside };

    ghost spent = { knows_nothing };
}

/// Two seats that were one.
pub(crate) struct Part;

impl<T> Split<Knowing<T>> for Part {
    ghost use Rattle.node_arena.specs.Beside.{first_beside_of, second_beside_of};

    ghost left = { first_beside_of };

    ghost right = { second_beside_of };
}
