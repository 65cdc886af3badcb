//! What is left of an arena that is closed.
use history::{Refusal, Rest};
use line_table::Kind;
use node_arena::{Arena, Role};
use std::alloc::Global;
use std::test::Fail;

// The rest of a new arena that is closed with so many of its three seats.
fn rest_with(alloc: Global, kind: Kind, given: usize) -> Result<Rest, Refusal> {
    let roles = [Role::Giver, Role::Taker, Role::Both];
    let (arena, mut seats) = Arena::new(alloc, kind, 3, 100, &roles)?;
    seats.truncate(given);
    let room = arena.room(alloc)?;
    Ok(arena.close_with(room, seats).0)
}

/// Nothing is left of a queue in which no call was made, and nothing was taken, so any of its seats made all pushes and
/// pops. Where one allocation is refused, the second arena is closed.
#[test]
fn an_arena_without_calls_leaves_nothing(rt: HostRuntime) -> Result<(), Fail> {
    for kind in [Kind::TwoLock, Kind::NonBlocking] {
        for given in [0, 1, 3] {
            let mut rest = match rest_with(rt.alloc(), kind, given) {
                Err(Refusal::Memory) => rest_with(rt.alloc(), kind, given)?,
                answer => answer?,
            };
            let front = rest.next();
            assert_eq!(rt;
                (rest.taken(), rest.whole()),
                (0, true),
                "closed with {given} seats"
            );
            assert_eq!(rt; front, None, "closed with {given} seats");
        }
    }
    Ok(())
}
