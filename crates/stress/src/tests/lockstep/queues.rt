//! The queues that can be looked into.
use arena_queue::{Algorithm, ArenaQueueOf};
use history::{Fifo, Refusal};
use line_table::Kind;
use node_arena::{Held, Role, Seat};
use std::alloc::Global;

/// Both seats may push and pop.
const ROLES: [Role; 2] = [Role::Both; 2];

/// A queue with words and pockets to compare, and so many bits of a reference for the number of a node.
pub trait Watched<const B: u32>: Fifo {
    /// Which queue it is.
    fn kind() -> Kind;

    /// A queue of so many nodes and this greatest count, with its seats 1 and 2.
    fn made(alloc: Global, nodes: u32, limit: u64) -> Result<(Self, Vec<Self::Seat>), Refusal>;

    /// What a word holds; none where there is no such word.
    fn peek(&self, word: usize) -> Option<u64>;

    /// The node in a seat's pocket.
    fn pocket(seat: &Self::Seat) -> Option<Held>;

    /// Tells a seat to keep its nodes.
    fn keep_nodes(&self, seat: &mut Self::Seat);

    /// Whether a seat keeps its nodes.
    fn keeps_nodes(seat: &Self::Seat) -> bool;
}

impl<A: Algorithm<B>, const B: u32> Watched<B> for ArenaQueueOf<A, B> {
    fn kind() -> Kind {
        A::kind()
    }

    fn made(
        alloc: Global,
        nodes: u32,
        limit: u64,
    ) -> Result<(ArenaQueueOf<A, B>, Vec<Seat>), Refusal> {
        ArenaQueueOf::<A, B>::new(alloc, nodes, limit, &ROLES)
    }

    fn peek(&self, word: usize) -> Option<u64> {
        self.peek(word)
    }

    fn pocket(seat: &Seat) -> Option<Held> {
        seat.pocket()
    }

    fn keep_nodes(&self, seat: &mut Seat) {
        seat.keep_nodes(true);
    }

    fn keeps_nodes(seat: &Seat) -> bool {
        seat.keeps_nodes()
    }
}
