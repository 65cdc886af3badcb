//! Takes and give backs in turn, by one seat and by two.
use crate::free_nodes::seats_of;
use free_list::{give_back, take};
use history::{Refusal, WornWord};
use node_arena::{Arena, Held, Role, Seat};
use std::alloc::Global;
use std::test::Fail;

// An arena with two seats.
fn two_seats(alloc: Global, nodes: u32, limit: u64) -> Option<(Arena, Seat, Seat)> {
    let (arena, mut seats) = seats_of(alloc, nodes, limit, &[Role::Both; 2])?;
    let second = seats.pop()?;
    let first = seats.pop()?;
    Some((arena, first, second))
}

// Takes a node and gives it back.
fn round(arena: &Arena, seat: &mut Seat) -> Result<Held, Refusal> {
    let held = take(arena, seat, 8)?;
    give_back(arena, seat, 8)?;
    Ok(held)
}

// How many rounds succeed, each with node 2 and mark 0, and what the next one is refused.
fn refused_after(arena: &Arena, mut seat: Seat) -> (u32, Refusal) {
    for count in 0..10 {
        match round(arena, &mut seat) {
            Ok(held) => {
                if held.node != 2 || held.mark != 0 {
                    return (count, Refusal::Lost);
                }
            }
            Err(refusal) => return (count, refusal),
        }
    }
    (10, Refusal::Busy)
}

/// With two nodes one seat takes and gives back node 2 until Free's count is the greatest one: the node is then free
/// and can't be taken, or it is set aside.
#[test]
fn a_node_is_used_until_its_count_is_the_greatest(rt: HostRuntime) -> Result<(), Fail> {
    for (limit, count, refusal) in [
        (1, 1, Refusal::WornOut(WornWord::Free)),
        (2, 2, Refusal::NoNode),
        (3, 2, Refusal::WornOut(WornWord::Free)),
    ] {
        let (arena, mut seats) = seats_of(rt.alloc(), 2, limit, &[Role::Both]).expect(
            &rt, "an arena",
        );
        let seat = seats.pop().expect(&rt, "a seat");
        assert_eq!(rt;
            refused_after(&arena, seat),
            (count, refusal),
            "at limit {limit}"
        );
    }
    Ok(())
}

/// With two nodes a second seat finds none while the first has node 2.
#[test]
fn a_second_seat_finds_no_node(rt: HostRuntime) -> Result<(), Fail> {
    let (arena, mut one, mut other) = two_seats(rt.alloc(), 2, 3).expect(&rt, "an arena");
    let numbers = (one.number(), other.number());
    let taken = (take(&arena, &mut one, 8), take(&arena, &mut other, 8));
    let held = Held { node: 2, mark: 0 };
    assert_eq!(rt;
        (numbers, taken, one.pocket()),
        ((1, 2), (Ok(held), Err(Refusal::NoNode)), Some(held)),
        "the numbers, the answers and the first pocket"
    );
    Ok(())
}

/// Seats that meet keep their pockets, and go on.
#[test]
fn seats_that_met_go_on(rt: HostRuntime) -> Result<(), Fail> {
    let (arena, mut one, mut other) = two_seats(rt.alloc(), 3, 3).expect(&rt, "an arena");
    arena.meet(&mut one, &mut other);
    let first = take(&arena, &mut one, 8);
    arena.meet(&mut other, &mut one);
    let pockets = (one.pocket(), other.pocket());
    let second = take(&arena, &mut other, 8);
    let (two, three) = (Held { node: 2, mark: 0 }, Held { node: 3, mark: 0 });
    assert_eq!(rt;
        (first, pockets, second),
        (Ok(two), (Some(two), None), Ok(three)),
        "the nodes taken, and the pockets between"
    );
    Ok(())
}
