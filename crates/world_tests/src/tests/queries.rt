//! What can be asked of a world with no condition.
use counted_ref::CountedRefOf;
use history::Taken;
use line_table::Line;
use step_machine::{Held, Place, WorldOf};

/// The line of an actor; none where it has no call or isn't there.
pub fn line_of<const B: u32>(world: &WorldOf<B>, actor: u16) -> Option<Line> {
    if actor < 1 || usize::from(actor) > world.actors() {
        return None;
    }
    world.line(actor)
}

/// The pocket of an actor; none where it is empty or the actor isn't there.
pub fn pocket_of<const B: u32>(world: &WorldOf<B>, actor: u16) -> Option<Held> {
    if actor < 1 || usize::from(actor) > world.actors() {
        return None;
    }
    world.pocket(actor)
}

/// A reference as its node and its count.
pub fn parts<const B: u32>(reference: CountedRefOf<B>) -> (u32, u64) {
    (reference.node(), reference.count())
}

/// The `next` of a node; none where the node isn't there.
pub fn next_of<const B: u32>(world: &WorldOf<B>, node: u32) -> Option<(u32, u64)> {
    if node < 1 || node > world.setup().size {
        return None;
    }
    Some(parts(world.next_of(node)))
}

/// Where a node is; none where it isn't there.
pub fn place_of<const B: u32>(world: &WorldOf<B>, node: u32) -> Option<Place> {
    if node < 1 || node > world.setup().size {
        return None;
    }
    Some(world.place_of(node))
}

/// The value of a node; none where the node isn't there.
pub fn value_of<const B: u32>(world: &WorldOf<B>, node: u32) -> Option<Taken> {
    if node < 1 || node > world.setup().size {
        return None;
    }
    Some(world.value_of_node(node))
}
