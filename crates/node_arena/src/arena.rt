//! The arena: the table of the shared words, and what it was made for.
ghost use Rattle.std.specs.Prelude.{◌≡◌};

use crate::plans::Plan;
use crate::views::WordTable;
use std::marker::Model;
use step_machine::Setup;

/// The shared words of a queue, in each reference `B` bits, 16 to 32, for the number of the node and the others for the
/// count. Threads share it by reference, each with a seat of its own.
#[derive(Drop)]
pub struct ArenaOf<const B: u32, T = ()> {
    pub(crate) table: WordTable<T>,
    pub(crate) plan: Plan,
}

/// An arena with 24 bits for the number of a node: up to `MOST_NODE` nodes, and counts up to `MOST_COUNT`.
pub type Arena = ArenaOf<24>;

impl<const B: u32, T> Model for ArenaOf<B, T> {
    ghost use Rattle.std.specs.Prelude.{◌≡◌};
    ghost use Rattle.node_arena.specs.Arenas.{Arena as Arenas};
    ghost use Rattle.node_arena.specs.Plans.{IsTable};

    ghost Value = { Arenas };

    ghost view = { λ a. record { plan = a.plan; key = a.table.shared.key; id = a.table.shared.table_id } };

    ghost invariant = { λ a. IsTable a.plan a.table.shared.key a.table.shared.table_id × (a.plan.setup.bits ≡ B) };
}

impl<const B: u32, T> ArenaOf<B, T> {
    ghost use Rattle.counted_ref.specs.Ref.{IsSplit};
    ghost use Rattle.node_arena.specs.Seats.{setup_of};

    /// The kind of queue, the split, how many nodes there are, and the greatest count.
    pub fn setup(&self) -> Setup
        ensures value { result ≡ setup_of self.now }
        ensures split { IsSplit B }
        ensures bits { result.bits ≡ B }
    {
        self.plan.setup
    }
}
