//! What a new arena is, where memory is there, and what it is refused.
use history::Refusal;
use line_table::Kind;
use node_arena::{Arena, Role, Seat};
use std::alloc::Global;
use std::test::Fail;

/// The greatest count of all.
const GREATEST_LIMIT: u64 = 1_099_511_627_775;

// A new arena, asked for again where memory was refused.
fn arena_of(
    alloc: Global,
    kind: Kind,
    nodes: u32,
    limit: u64,
    roles: &[Role],
) -> Result<(Arena, Vec<Seat>), Refusal> {
    match Arena::new(alloc, kind, nodes, limit, roles) {
        Err(Refusal::Memory) => Arena::new(alloc, kind, nodes, limit, roles),
        answer => answer,
    }
}

/// Arenas of both kinds, of few and many nodes, for one seat and for seats of all roles. Where one allocation is
/// refused, the second call makes the arena.
#[test]
fn arenas_have_their_sizes_and_a_seat_for_each_role(rt: HostRuntime) -> Result<(), Fail> {
    let all = [Role::Giver, Role::Taker, Role::Both, Role::Taker];
    // The number of each seat, and whether it may push and pop.
    let expected = [
        (1, true, false),
        (2, false, true),
        (3, true, true),
        (4, false, true),
    ];
    for kind in [Kind::TwoLock, Kind::NonBlocking] {
        for (nodes, limit, roles) in [(2, 1, 1), (3, 100, 2), (1000, GREATEST_LIMIT, 4)] {
            let (arena, seats) = arena_of(rt.alloc(), kind, nodes, limit, &all[..roles])?;
            let setup = arena.setup();
            assert_eq!(rt;
                (setup.kind, setup.size, setup.limit, seats.len()),
                (kind, nodes, limit, roles),
                "the setup, and a seat for each role"
            );
            for (seat, seated) in seats.iter().zip(expected) {
                let calls = (seat.number(), seat.may_push(), seat.may_pop());
                let found = (calls, seat.pocket(), seat.failed());
                assert_eq!(rt; found, (seated, None, 0), "a new seat of {roles}");
            }
        }
    }
    Ok(())
}

// So many roles, all with both calls.
fn roles_of(alloc: Global, count: usize) -> Result<Vec<Role>, Refusal> {
    match vec![in alloc; Role::Both; count] {
        Ok(roles) => Ok(roles),
        Err(_) => Err(Refusal::Memory),
    }
}

/// The greatest sizes of all, at once: 268 MB of words, which are there.
#[test]
fn the_greatest_sizes_are_accepted(rt: HostRuntime) -> Result<(), Fail> {
    let roles = roles_of(rt.alloc(), 65_535)?;
    let (arena, seats) = Arena::new(
        rt.alloc(),
        Kind::NonBlocking,
        16_777_214,
        GREATEST_LIMIT,
        &roles,
    )?;
    assert_eq!(rt;
        (arena.setup().size, seats.len()),
        (16_777_214, 65_535),
        "the sizes"
    );
    Ok(())
}

/// Sizes out of their ranges are refused as such, before any memory is asked for.
#[test]
fn sizes_out_of_range_are_refused(rt: HostRuntime) -> Result<(), Fail> {
    let one = [Role::Both];
    for (nodes, limit, seats) in [
        (0, 3, 1),
        (1, 3, 1),
        (16_777_215, 3, 1),
        (2, 0, 1),
        (2, GREATEST_LIMIT + 1, 1),
        (2, 3, 0),
    ] {
        let made = Arena::new(rt.alloc(), Kind::TwoLock, nodes, limit, &one[..seats]);
        let refusal = match made {
            Ok(_) => None,
            Err(cause) => Some(cause),
        };
        assert_eq!(rt;
            refusal,
            Some(Refusal::BadSize),
            "{nodes} nodes, limit {limit}, {seats} seats"
        );
    }
    Ok(())
}
