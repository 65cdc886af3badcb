//! Runs in which a count, or the places of a ring, are used up.
use super::calls::Told::{Back, NoPop, NoShut, Pop, Push, Shut};
use super::calls::{Told, go, go_in, go_through};
use super::comparisons::same;
use super::queues::{Left, Made};
use carriers::Numbers;
use history::Refusal::{self, Closed, WornOut};
use history::WornWord;
use node_arena::{Held, Role};
use nonblocking::MsQueue;
use ring_queue::RingQueue;
use std::test::Fail;
use two_lock::TwoLockQueue;

/// Where Free stands among the words.
const FREE_WORD: usize = 1;

/// The reference to node 4 with the count 1.
const NODE_4_COUNT_1: u64 = 4 + (1 << 24);

const WORN: Refusal = WornOut(WornWord::Tail);

/// With the greatest count 1: one value is taken, and not the next one.
const HEAD_WORN: [(usize, Told); 4] = [
    (1, Push(1)),
    (1, Push(2)),
    (1, Pop(1, 1)),
    (1, NoPop(WornOut(WornWord::Head))),
];

/// With the greatest count 1: the third push is refused.
const TAIL_WORN: [(usize, Told); 3] = [(1, Push(1)), (1, Push(2)), (1, Back(3, WORN))];

/// Then the same push is refused again, and the first value is popped.
const STILL_WORN: [(usize, Told); 2] = [(1, Back(3, WORN)), (1, Pop(1, 1))];

/// With the greatest count 2: two values go through, and the third one can't be popped.
const TAIL_WORN_LATER: [(usize, Told); 6] = [
    (1, Push(1)),
    (1, Pop(1, 1)),
    (1, Push(2)),
    (1, Pop(1, 2)),
    (1, Push(3)),
    (1, NoPop(WORN)),
];

/// With the greatest count 1 Tail is swung once, to the last node: it is worn out, and the closed end is
/// looked at before it.
const SHUT_BEHIND_A_WORN_TAIL: [(usize, Told); 4] = [
    (1, Push(1)),
    (1, Shut),
    (1, Pop(1, 1)),
    (1, NoPop(Closed)),
];

/// Of a ring whose places are used up the last value is popped, and a shut is still made.
const NO_PLACE: [(usize, Told); 6] = [
    (1, Back(1, WORN)),
    (1, Pop(1, 9)),
    (1, Back(1, WORN)),
    (1, Shut),
    (1, Back(1, Closed)),
    (1, NoPop(Closed)),
];

/// With the greatest count 1 one value can be taken of a two-lock queue; the next pop finds Head worn out.
#[test]
fn a_worn_head_refuses_pops(rt: HostRuntime) -> Result<(), Fail> {
    let (queue, mut seats) = Numbers::<TwoLockQueue>::made(rt.alloc(), 3, 1, &[Role::Both])?;
    go(&rt, &queue, &mut seats, &HEAD_WORN)
}

/// With the greatest count 1 the second push leaves Tail behind, and the third one can't swing it: it keeps
/// its node, which the next pop frees first. Free is then worn out too, so that pop sets the old dummy aside.
/// Tail stays behind, so one value can be taken. A shut can't swing it either: it is refused, and leaves the
/// pocket as it is.
#[test]
fn a_worn_tail_refuses_pushes_and_pops(rt: HostRuntime) -> Result<(), Fail> {
    let (queue, mut seats) = Numbers::<MsQueue>::made(rt.alloc(), 3, 1, &[Role::Both])?;
    let kept = Some(Held { node: 4, mark: 0 });
    go(&rt, &queue, &mut seats, &TAIL_WORN)?;
    same(&rt, seats[0].pocket(), kept, "behind a push");
    go(&rt, &queue, &mut seats, &[(1, NoShut(WORN))])?;
    same(&rt, seats[0].pocket(), kept, "behind a shut");
    go(&rt, &queue, &mut seats, &STILL_WORN)?;
    let free = queue.queue().peek(FREE_WORD);
    same(
        &rt,
        (free, seats[0].pocket()),
        (Some(NODE_4_COUNT_1), None),
        "",
    );
    go(&rt, &queue, &mut seats, &[(1, NoPop(WORN))])?;
    let wanted = Left {
        taken: 1,
        first: [Some((1, 2)), None, None, None],
        whole: true,
        was_shut: false,
    };
    same(&rt, queue.leaves(rt.alloc(), seats)?, wanted, "");
    Ok(())
}

/// A pop of a shut and empty queue is refused Closed, also where Tail is worn out.
#[test]
fn a_closed_end_comes_before_a_worn_tail(rt: HostRuntime) -> Result<(), Fail> {
    let (queue, mut seats) = Numbers::<MsQueue>::made(rt.alloc(), 2, 1, &[Role::Both])?;
    go(&rt, &queue, &mut seats, &SHUT_BEHIND_A_WORN_TAIL)
}

/// With the greatest count 2 Tail can be swung twice. The third push leaves it behind, and the pop that would
/// have to swing it is refused.
#[test]
fn a_worn_tail_refuses_a_pop(rt: HostRuntime) -> Result<(), Fail> {
    let (queue, mut seats) = Numbers::<MsQueue>::made(rt.alloc(), 2, 2, &[Role::Both])?;
    go(&rt, &queue, &mut seats, &TAIL_WORN_LATER)
}

/// A ring of two slots goes up to place 9 where the limit is 10; what is in it is popped, and a shut is still
/// made.
#[test]
fn places_are_used_up(rt: HostRuntime) -> Result<(), Fail> {
    let (queue, mut seats) = Numbers::<RingQueue>::made(rt.alloc(), 2, 10, &[Role::Both])?;
    go_through(&rt, &queue, &mut seats, 1, 2..9)?;
    go_in(&rt, &queue, &mut seats, 1, &[(1, Push(9))])?;
    go_in(&rt, &queue, &mut seats, 1, &NO_PLACE)
}
