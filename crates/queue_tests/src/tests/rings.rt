//! Runs that rings alone make: their sizes, seats that lag, and slots of other seats.
use super::calls::Told::{Back, Empty, NoPop, Pop, Push, Shut};
use super::calls::{go, go_in, go_through, told};
use super::comparisons::same;
use super::queues::{AMPLE, Made};
use carriers::{Carrier, Numbers, Unpushed};
use history::Refusal::{self, BadSize, Busy, Closed, NoNode};
use node_arena::Role;
use rand::RngExt;
use rand_pcg::Pcg32;
use ring_queue::{MOST_SEATS, MOST_WORDS, RingQueue, Role as RingRole, Seat};
use ring_values::RingValues;
use std::process::Abort;
use std::sync::Wait;
use std::test::Fail;

type Ring = Numbers<RingQueue>;

/// How many values go through where they are many.
const ROUNDS: u64 = 1000;

/// How many values a ring of 64 slots has room for beside a slot for each of two seats.
const FULL: u32 = 62;

/// The most values, the limit, and how many seats; then whether there is such a ring. With room for three
/// values it has 4 slots.
const SIZES: [((u32, u64, usize), bool); 8] = [
    ((3, 4, 2), true),
    ((3, 3, 2), false),
    ((3, (1 << 62) - 1, 2), true),
    ((3, 1 << 62, 2), false),
    ((0, 1 << 40, 2), false),
    ((3, 1 << 40, 0), false),
    ((1, 1, 1), true),
    ((1, 0, 1), false),
];

/// A ring has sizes in their ranges, each up to its ends.
#[test]
fn sizes_have_their_ranges(rt: HostRuntime) -> Result<(), Fail> {
    for ((most, limit, seats), has) in SIZES {
        let made = Ring::made(rt.alloc(), most, limit, &[Role::Both; 2][..seats]);
        let wanted = if has { None } else { Some(BadSize) };
        same(&rt, made.err(), wanted, (most, limit, seats));
    }
    let many = vec![in rt.alloc(); RingRole::Both; MOST_SEATS + 1]?;
    let refused = RingQueue::new(rt.alloc(), 1, 1 << 40, many.as_slice());
    same(&rt, refused.err(), Some(BadSize), "a seat too many");
    RingQueue::new(rt.alloc(), 1, 1 << 40, &many[..MOST_SEATS])?;
    Ok(())
}

/// A ring takes just as many values as it has room for, and goes on after a pop.
#[test]
fn a_full_ring_refuses(rt: HostRuntime) -> Result<(), Fail> {
    for room in 1..201u32 {
        let (queue, mut seats) = Ring::made(rt.alloc(), room, AMPLE, &[Role::Both])?;
        for body in 0..u64::from(room) {
            go_in(&rt, &queue, &mut seats, 1, &[(1, Push(body))])?;
        }
        go_in(&rt, &queue, &mut seats, 1, &[(1, Back(9, NoNode))])?;
        for body in 0..u64::from(room) {
            go_in(&rt, &queue, &mut seats, 1, &[(1, Pop(1, body))])?;
        }
        go_in(&rt, &queue, &mut seats, 1, &[(1, Empty), (1, Push(9))])?;
    }
    Ok(())
}

/// A seat whose head and tail are many laps old goes on from where the ring is: seat 3 finds nothing at the
/// first place, 8, and comes back behind place 24.
#[test]
fn an_old_head_goes_on(rt: HostRuntime) -> Result<(), Fail> {
    let (queue, mut seats) = Ring::made(rt.alloc(), 8, AMPLE, &[Role::Both; 3])?;
    go_in(&rt, &queue, &mut seats, 1, &[(3, Empty)])?;
    go_in(&rt, &queue, &mut seats, 2, &[(2, Push(1)), (1, Pop(2, 1))])?;
    go_through(&rt, &queue, &mut seats, 2, 9..23)?;
    go_in(&rt, &queue, &mut seats, 2, &[(1, Push(23))])?;
    go_in(
        &rt,
        &queue,
        &mut seats,
        1,
        &[(2, Push(24)), (1, Shut), (3, Back(2, Closed))],
    )?;
    go_in(
        &rt,
        &queue,
        &mut seats,
        2,
        &[(3, Pop(1, 23)), (3, Pop(2, 24)), (3, NoPop(Closed))],
    )
}

/// A push of one turn is done, however far others have come since its seat's last one.
#[test]
fn an_old_tail_costs_no_turn(rt: HostRuntime) -> Result<(), Fail> {
    let (queue, mut seats) = Ring::made(rt.alloc(), 4, AMPLE, &[Role::Both; 2])?;
    go_in(&rt, &queue, &mut seats, 1, &[(1, Push(100))])?;
    go_in(
        &rt,
        &queue,
        &mut seats,
        2,
        &[(2, Pop(1, 100)), (2, Push(0))],
    )?;
    for body in 1..100 {
        go_in(
            &rt,
            &queue,
            &mut seats,
            2,
            &[(2, Pop(2, body - 1)), (2, Push(body))],
        )?;
    }
    go_in(&rt, &queue, &mut seats, 1, &[(1, Push(2)), (1, Push(3))])?;
    let (one, other) = seats.split_at_mut(1);
    queue.meet(&mut one[0], &mut other[0]);
    Ok(())
}

/// One seat alone with one turn a call is never refused by `Busy`, where it pushes or pops as is drawn.
#[test]
fn one_seat_alone_with_one_turn_is_never_busy(rt: HostRuntime) -> Result<(), Fail> {
    let (queue, mut seats) = Ring::made(rt.alloc(), 3, AMPLE, &[Role::Both])?;
    let mut draw = Pcg32::new(1, 0);
    for number in 0..10_000u64 {
        let call = if draw.random_range(0..2u32) == 0 {
            Push(number)
        } else {
            Empty
        };
        let found = told(rt.alloc(), &queue, &mut seats[0], call, 1)?;
        let is_busy = matches!(found, Back(_, Busy) | NoPop(Busy));
        same(&rt, is_busy, false, call);
    }
    Ok(())
}

// Pushes a number, and tries again while slots are in the way: why it wasn't pushed.
fn pushed(
    rt: &impl Wait,
    queue: &RingValues<u64>,
    seat: &mut Seat<u64>,
    number: u64,
) -> Option<(Refusal, u64)> {
    match queue.push(rt, seat, number) {
        Ok(()) => None,
        Err(Unpushed { refusal, value }) => Some((refusal, value)),
    }
}

/// A seat comes to a slot though another one's values lie where it looks first.
#[test]
fn a_seat_looks_on_for_a_slot(rt: HostRuntime) -> Result<(), Fail> {
    let roles = [Role::Giver, Role::Giver, Role::Taker];
    let (queue, mut seats) = RingValues::<u64>::made(rt.alloc(), ROUNDS as u32, AMPLE, &roles)?;
    for number in 0..ROUNDS {
        let seat = if number < ROUNDS / 2 { 0 } else { 1 };
        same(
            &rt,
            pushed(&rt, &queue, &mut seats[seat], number),
            None,
            number,
        );
    }
    for number in 0..ROUNDS {
        let from = if number < ROUNDS / 2 { 1 } else { 2 };
        go(&rt, &queue, &mut seats, &[(3, Pop(from, number))])?;
    }
    Ok(())
}

/// A full ring of values says so each time, to each seat.
#[test]
fn a_full_ring_of_values_says_so(rt: HostRuntime) -> Result<(), Fail> {
    let roles = [Role::Giver, Role::Giver];
    let (queue, mut seats) = RingValues::<u64>::made(rt.alloc(), FULL, AMPLE, &roles)?;
    for seat in [0, 1] {
        for number in 0..ROUNDS {
            let is_pushed = seat == 0 && number < u64::from(FULL);
            let wanted = if is_pushed {
                None
            } else {
                Some((NoNode, number))
            };
            same(
                &rt,
                pushed(&rt, &queue, &mut seats[seat], number),
                wanted,
                number,
            );
        }
    }
    Ok(())
}

/// Values of one to three words in their places come out whole, in order, each of the seat that pushed it, over many laps; a full
/// ring refuses, an empty one has none, and the end tells those left.
#[test]
fn words_lie_in_their_places(rt: HostRuntime) -> Result<(), Fail> {
    carries_words(&rt, 1)?;
    carries_words(&rt, 2)?;
    carries_words(&rt, MOST_WORDS)
}

// The words of a value, so many of them.
fn words_of(value: u64) -> [u64; 3] {
    [value, value / 3, u64::MAX - value]
}

fn carries_words(rt: &(impl AllocGlobal + Abort), width: usize) -> Result<(), Fail> {
    let roles = [RingRole::Both, RingRole::Both];
    let (queue, mut seats) = RingQueue::<()>::with_words(rt.alloc(), width, 3, AMPLE, &roles)?;
    let mut came = [0u64; 3];
    for i in 0..ROUNDS {
        for j in 0..3u64 {
            let value = words_of(u64::MAX - 3 * i - j);
            queue.push_words(&mut seats[(j % 2) as usize], &value[..width], 8)?;
        }
        let refused = queue.push_words(&mut seats[0], &words_of(7)[..width], 8);
        same(rt, refused.err(), Some(NoNode), "full");
        for j in 0..3u64 {
            let popped = queue.pop_words(&mut seats[1], &mut came[..width], 8)?;
            same(
                rt,
                popped.map(|taken| taken.from),
                Some(1 + (j % 2) as u16),
                i,
            );
            same(
                rt,
                &came[..width] == &words_of(u64::MAX - 3 * i - j)[..width],
                true,
                "words",
            );
        }
        let none = queue.pop_words(&mut seats[0], &mut came[..width], 8)?;
        same(rt, none.is_none(), true, "none");
    }
    queue.push_words(&mut seats[1], &words_of(5)[..width], 8)?;
    queue.push_words(&mut seats[0], &words_of(6)[..width], 8)?;
    queue.shut_words(&mut seats[0])?;
    let refused = queue.push_words(&mut seats[0], &words_of(7)[..width], 8);
    same(rt, refused.err(), Some(Closed), "shut");
    let (numbers, values) = queue.word_rooms(rt.alloc())?;
    let (_, values) = queue.close_words(numbers, values, seats);
    same(rt, values.len(), 2 * width, "left");
    same(rt, &values[..width] == &words_of(5)[..width], true, "left");
    same(rt, &values[width..] == &words_of(6)[..width], true, "left");
    Ok(())
}
