//! What a queue and a world have to agree in.
use crate::tests::lockstep::queues::Watched;
use step_machine::{Held, WorldOf};

/// Whether the shared words are those of a world, the locks too, and there are no others.
pub fn has_words<Q: Watched<B>, const B: u32>(queue: &Q, world: &WorldOf<B>) -> bool {
    let words = 6 + 2 * world.setup().size as usize;
    for index in 0..=words {
        if queue.peek(index) != world.word(index) {
            return false;
        }
    }
    true
}

/// The pocket of an actor; none where it is empty or there is no such actor.
fn pocket_of<const B: u32>(world: &WorldOf<B>, actor: u16) -> Option<Held> {
    if actor == 0 || usize::from(actor) > world.actors() {
        return None;
    }
    world.pocket(actor)
}

/// Whether a seat has the actor's pocket.
pub fn has_pocket<Q: Watched<B>, const B: u32>(
    seat: &Q::Seat,
    world: &WorldOf<B>,
    actor: u16,
) -> bool {
    Q::pocket(seat) == pocket_of(world, actor)
}
