//! The non-blocking queue as an algorithm on an arena.
ghost use Rattle.line_table.specs.declared.lines.Kind.TheVariants as kinds;
ghost use Rattle.nonblocking.specs.Worn.{push_worn, pop_worn, shut_worn};

use crate::{pops, pushes, shuts};
use arena_queue::{Algorithm, ArenaQueueOf};
use history::{Body, Refusal, Taken};
use line_table::Kind;
use node_arena::{ArenaOf, Held, Seat};

/// The non-blocking queue, in whose references `B` bits, 16 to 32, hold the number of a node and the others a count. Threads
/// share it by reference, each with a seat of its own.
///
/// A push is refused `NoNode` where at one step all nodes were used and none was free, `WornOut(Free)` where at one step
/// Free's count was the greatest one, `WornOut(Next)` where the count of the node's own next was it, `WornOut(Tail)`
/// where Tail's was it, `Closed` where at one step the queue was shut, and `Busy` where each of so many turns failed. A
/// node that the call got stays in the seat's pocket, for its next push; at `WornOut(Next)` it is set aside. A shut is
/// refused `WornOut(Tail)`, `Closed` or `Busy` so, and a pop likewise, `Closed` where the queue was shut and empty.
pub type MsQueueOf<const B: u32> = ArenaQueueOf<NonBlockingAlgorithm, B>;

/// The non-blocking queue with 24 bits for the number of a node: up to `MOST_NODE` nodes, and counts up to
/// `MOST_COUNT`.
pub type MsQueue = MsQueueOf<24>;

/// The algorithm of the non-blocking queue.
#[derive(Drop)]
pub struct NonBlockingAlgorithm;

impl<const B: u32> Algorithm<B> for NonBlockingAlgorithm {
    ghost kind = { kinds.NonBlocking };

    //= queues/queue_causes (push_worn, pop_worn, shut_worn)
    ghost push_worn = { push_worn };

    ghost pop_worn = { pop_worn };

    ghost shut_worn = { shut_worn };

    fn kind() -> Kind {
        Kind::NonBlocking
    }

    fn push_with_node<T>(
        arena: &ArenaOf<B, T>,
        seat: &mut Seat<T>,
        held: Held,
        body: Body,
        spent: u32,
        turns: u32,
    ) -> Result<(), Refusal> {
        pushes::push_node(arena, seat, held, body, spent, turns)
    }

    fn pop_without_node<T>(
        arena: &ArenaOf<B, T>,
        seat: &mut Seat<T>,
        spent: u32,
        turns: u32,
    ) -> Result<Option<Taken>, Refusal> {
        pops::pop_with_empty_pocket(arena, seat, spent, turns)
    }

    fn shut<T>(arena: &ArenaOf<B, T>, seat: &mut Seat<T>, turns: u32) -> Result<(), Refusal> {
        shuts::shut_queue(arena, seat, turns)
    }
}
