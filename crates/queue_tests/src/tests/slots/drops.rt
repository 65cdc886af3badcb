//! Each value that is in an arena is dropped once, with the arena or with what is left of it.
use super::calls::{Values, close, last, only, pop, pop_and_hold, push, values};
use history::Refusal;
use node_arena::{Role, Seat};
use std::alloc::Global;
use std::process::Abort;
use std::rc::Rc;
use std::test::Fail;

/// A value that tells how many of it there are.
type Counted = Rc<u8, Global>;

// A value, and an arena with five pushed values that are the same one, by the first of its two seats.
fn five_pushed<R: AllocGlobal + Abort>(
    rt: &R,
) -> Result<(Counted, Values<Counted>, Seat<Counted>, Seat<Counted>), Fail> {
    let mark: Counted = Rc::new(rt.alloc(), 7)?;
    let (arena, mut seats) = values::<Counted>(rt.alloc(), 8, &[Role::Both; 2])?;
    let two = last(&mut seats)?;
    let mut one = last(&mut seats)?;
    for _ in 0..5 {
        assert!(rt; push(&arena, &mut one, mark.clone()?).is_ok());
    }
    Ok((mark, arena, one, two))
}

#[test]
fn an_arena_that_is_dropped_drops_each_value_once(rt: HostRuntime) -> Result<(), Fail> {
    let (mark, arena, mut one, mut two) = five_pushed(&rt)?;
    assert!(rt; pop(&arena, &mut one)?.is_some());
    assert_eq!(rt; Rc::strong_count(&mark), 5, "one was taken, and dropped");
    assert!(rt; pop_and_hold(&arena, &mut two)?);
    drop(two);
    drop(one);
    assert_eq!(rt; Rc::strong_count(&mark), 5, "one is out with a seat");
    drop(arena);
    assert_eq!(rt; Rc::strong_count(&mark), 1);
    Ok(())
}

#[test]
fn what_is_left_is_dropped_once(rt: HostRuntime) -> Result<(), Fail> {
    let (mark, arena, mut one, mut two) = five_pushed(&rt)?;
    assert!(rt; pop_and_hold(&arena, &mut two)?);
    drop(two);
    let seats = only(rt.alloc(), [one])?;
    let Ok(mut left) = close(rt.alloc(), arena, seats) else {
        return Err(Refusal::Memory.into());
    };
    assert_eq!(rt; Rc::strong_count(&mark), 6);
    assert!(rt; left.take_front().is_some());
    assert_eq!(rt;
        Rc::strong_count(&mark),
        5,
        "the front one was taken, and dropped"
    );
    drop(left);
    assert_eq!(rt; Rc::strong_count(&mark), 1);
    Ok(())
}
