//! What a closed arena leaves: values of each type in order, with who pushed each.
use super::calls::{Values, close, last, only, pop, pop_and_hold, push, values};
use history::Refusal;
use node_arena::{Emptiness, LeftValues, Role, Seat};
use std::test::Fail;

/// A value without `Drop` or `Clone`: it can only be taken apart.
struct Ticket {
    number: u64,
}

#[test]
fn texts_are_left_in_order(rt: HostRuntime) -> Result<(), Fail> {
    let (arena, mut seats) = values::<String>(rt.alloc(), 8, &[Role::Both; 2])?;
    let mut two = last(&mut seats)?;
    let mut one = last(&mut seats)?;
    for (seat, text) in [(1, "a"), (2, "b"), (1, ""), (2, "d")] {
        let text = format!(in rt.alloc(); "{text}")?;
        let seat = if seat == 1 { &mut one } else { &mut two };
        assert_eq!(rt; push(&arena, seat, text), Ok(()));
    }
    assert_eq!(rt; arena.emptiness(&mut two), Emptiness::Holds);
    let front = pop(&arena, &mut two)?.unwrap_or(String::new(rt.alloc()));
    assert_eq!(rt; front.as_str(), "a");
    let seats = only(rt.alloc(), [one, two])?;
    let Ok(mut left) = close(rt.alloc(), arena, seats) else {
        return Err(Refusal::Memory.into());
    };
    assert_eq!(rt;
        (left.taken(), left.whole(), left.was_shut()),
        (1, true, false)
    );
    for (from, text) in [(2, "b"), (1, ""), (2, "d")] {
        let Some(value) = left.take_front() else {
            return Err(Refusal::BadSize.into());
        };
        assert_eq!(rt; value.from, from);
        assert_eq!(rt; value.value.as_str(), text);
    }
    assert!(rt; left.take_front().is_none());
    Ok(())
}

#[test]
fn values_of_no_size_are_counted(rt: HostRuntime) -> Result<(), Fail> {
    let (arena, mut seats) = values::<()>(rt.alloc(), 4, &[Role::Both; 2])?;
    let mut two = last(&mut seats)?;
    let mut one = last(&mut seats)?;
    for _ in 0..3 {
        assert_eq!(rt; push(&arena, &mut one, ()), Ok(()));
    }
    assert_eq!(rt; push(&arena, &mut two, ()), Err((Refusal::NoNode, ())));
    assert_eq!(rt; pop(&arena, &mut two), Ok(Some(())));
    let seats = only(rt.alloc(), [two])?;
    let Ok(mut left) = close(rt.alloc(), arena, seats) else {
        return Err(Refusal::Memory.into());
    };
    assert_eq!(rt; (left.taken(), left.whole()), (1, false));
    for _ in 0..2 {
        assert_eq!(rt; left.take_front().map(|value| value.from), Some(1));
    }
    assert!(rt; left.take_front().is_none());
    Ok(())
}

// The tickets that are left, as digits from the front on: those in the queue, and those that lie elsewhere.
fn tickets_left(mut left: LeftValues<Ticket>) -> (u64, u64) {
    let mut queued = 0;
    while let Some(front) = left.take_front() {
        let Ticket { number } = front.value;
        queued = queued * 10 + number;
    }
    let mut others = 0;
    let mut slots = left.into_slots();
    while let Some(slot) = slots.pop() {
        if let Some(Ticket { number }) = slot {
            others = others * 10 + number;
        }
    }
    slots.destroy_empty();
    (queued, others)
}

// Pushes tickets 1 to 4 by the first seat; the second one takes one, and keeps it in its slot.
fn hand_over(arena: &Values<Ticket>, seats: &mut Vec<Seat<Ticket>>) -> Option<Refusal> {
    let (Some(mut one), Some(mut two)) = (seats.pop(), seats.pop()) else {
        return Some(Refusal::BadSize);
    };
    for number in 1..5 {
        if let Err((refusal, Ticket { number: _ })) = push(arena, &mut one, Ticket { number }) {
            return Some(refusal);
        }
    }
    pop_and_hold(arena, &mut two).err()
}

#[test]
fn tickets_that_cannot_be_dropped_all_come_back(rt: HostRuntime) -> Result<(), Fail> {
    let numbers = Vec::with_capacity(rt.alloc(), 8)?;
    let slots = Vec::with_capacity(rt.alloc(), 8)?;
    match values::<Ticket>(rt.alloc(), 8, &[Role::Both; 3]) {
        Ok((arena, mut seats)) => {
            let refused = hand_over(&arena, &mut seats);
            let (left, _) = arena.close_values(numbers, slots, seats);
            let whole = left.whole();
            let found = tickets_left(left);
            assert_eq!(rt; refused, None);
            assert_eq!(rt; (whole, found), (false, (234, 1)));
            Ok(())
        }
        Err(refusal) => {
            slots.destroy_empty();
            Err(refusal.into())
        }
    }
}
