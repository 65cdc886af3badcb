//! Where a node is, and how that is found out.
ghost use Rattle.std.specs.Prelude.{◌≡◌, ◌+◌, ◌<◌, length};
ghost use Rattle.counted_ref.specs.Ref.{IsSplit, reserved_node};
ghost use Rattle.step_machine.specs.Places.{in_hand, in_pocket, held};
ghost use Rattle.step_machine.specs.NodePlaces.{TellsWhetherThere, TellsOfChain};

use counted_ref::shut_node;
use line_steps::{ActorOf, MemoryOf};

/// Where a node is. It is in one place at a time.
#[derive(Clone, Copy, Debug, PartialEq, Eq)]
pub enum Place {
    /// It was never used.
    Untouched,
    /// In the chain from Head. The first one there, the dummy, has no value of the queue.
    Queue,
    /// In the chain from Free.
    Free,
    /// In an actor's hand or pocket.
    Held,
    /// Never used again, since its count or that of Free is at the limit.
    SetAside,
}

/// Whether a node is in the queue's chain that starts at another one, among the first nodes there.
pub fn is_in_chain<const B: u32>(memory: &MemoryOf<B>, from: u32, node: u32, most: u32) -> bool
    requires split { IsSplit B }
    requires few { length memory.now.words.nodes < reserved_node B }
    ensures { TellsOfChain B result memory.now.words.nodes from node most }
{
    let mut at = from;
    for _ in 0..most {
        if at == 0 || at == shut_node(B) {
            return false;
        }
        if at == node {
            return true;
        }
        at = memory.next_of(at).node();
    }
    false
}

/// Whether an actor has a node in its hand or in its pocket.
fn has<const B: u32>(actor: &ActorOf<B>, node: u32) -> bool
    ensures { TellsWhetherThere result (in_hand node actor.now + in_pocket node actor.now.pocket) }
{
    if actor.holds && actor.node == node {
        return true;
    }
    match actor.pocket {
        Some(held) => held.node == node,
        None => false,
    }
}

/// Whether an actor has a node.
pub fn is_held<const B: u32>(actors: &Vec<ActorOf<B>>, node: u32) -> bool
    ensures { TellsWhetherThere result (held node actors.now.items) }
{
    for actor in actors {
        if has(actor, node) {
            return true;
        }
    }
    false
}
