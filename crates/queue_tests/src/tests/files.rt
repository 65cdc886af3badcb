//! Values that do something as they are dropped, and values that can't be: they go through the queues of
//! values.
use super::comparisons::same;
use super::mocks::{Ticket, told};
use super::queues::AMPLE;
use carriers::{Carrier, ItemOf};
use history::Refusal;
use node_arena::Role;
use ring_queue::Role as RingRole;
use ring_values::{LeftValues, RingValues};
use std::io::{PipeWriter, Read, Write, pipe};
use std::test::Fail;
use value_queue::MsValueQueue;

/// Room for all slots of a ring of two values and one seat.
const ROOM: usize = 6;

/// A file that went through is written to. One that is left is closed by the queue that is dropped; else the
/// second read would wait for ever.
#[test]
fn files_go_through(rt: HostRuntime) -> Result<(), Fail> {
    let (mut reader, writer) = pipe(&rt)?;
    let (queue, mut seats) = MsValueQueue::<PipeWriter>::new(rt.alloc(), 3, AMPLE, &[Role::Both])?;
    assert!(rt; queue.try_push(&mut seats[0], writer, 3).is_ok());
    let Ok(Some(mut item)) = queue.try_pop(&mut seats[0], 3) else {
        return Err(Fail::from("no file"));
    };
    item.value.write_all(b"text")?;
    assert!(rt; queue.try_push(&mut seats[0], item.value, 3).is_ok());
    let mut read = [0u8; 8];
    assert_eq!(rt; reader.read(&mut read)?, 4);
    drop(queue);
    assert_eq!(rt; reader.read(&mut read)?, 0);
    Ok(())
}

// The number of a ticket that came out.
fn number_of(item: Option<ItemOf<Ticket>>) -> Option<u64> {
    let Ticket { number } = item?.value;
    Some(number)
}

// The tickets left, the first three of those in the queue, and how many lie elsewhere.
fn tickets_left(mut left: LeftValues<Ticket>) -> ([Option<u64>; 3], u64) {
    let first = number_of(left.take_front());
    let second = number_of(left.take_front());
    let third = number_of(left.take_front());
    let mut others = 0u64;
    let mut slots = left.into_slots();
    while let Some(slot) = slots.pop() {
        if let Some(Ticket { number: _ }) = slot {
            others = others.wrapping_add(1);
        }
    }
    slots.destroy_empty();
    ([first, second, third], others)
}

/// Values without `Drop` go through a ring, and those that are left all come out of it.
#[test]
fn tickets_left_in_a_ring_all_come_back(rt: HostRuntime) -> Result<(), Fail> {
    let numbers = Vec::with_capacity(rt.alloc(), ROOM)?;
    let slots = Vec::with_capacity(rt.alloc(), ROOM)?;
    match RingValues::<Ticket>::new(rt.alloc(), 2, AMPLE, &[RingRole::Both]) {
        Ok((queue, mut seats)) => {
            let first = told(queue.try_push(&mut seats[0], Ticket { number: 1 }, 3));
            let second = told(queue.try_push(&mut seats[0], Ticket { number: 2 }, 3));
            let third = told(queue.try_push(&mut seats[0], Ticket { number: 3 }, 3));
            let front = match queue.try_pop(&mut seats[0], 3) {
                Ok(item) => number_of(item),
                Err(_) => None,
            };
            let left = queue.close_values(numbers, slots, seats);
            let whole = left.whole();
            same(&rt, (first, second), (None, None), "there is room");
            same(&rt, third, Some((Refusal::NoNode, 3)), "there is none");
            same(&rt, front, Some(1), "the front");
            let wanted = (true, ([Some(2), None, None], 0));
            same(&rt, (whole, tickets_left(left)), wanted, "what is left");
            Ok(())
        }
        Err(refusal) => {
            slots.destroy_empty();
            Err(refusal.into())
        }
    }
}
