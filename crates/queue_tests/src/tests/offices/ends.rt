//! How an office ends, over the non-blocking queue and over a ring.
use super::common::{Small, Texts, small, small_ring, text};
use crate::tests::comparisons::same;
use carriers::{Carrier, Unpushed};
use history::Refusal;
use post_office::PostOffice;
use ring_values::RingValues;
use shared_queue::{Receiver, Sender};
use std::alloc::Global;
use std::process::Abort;
use std::sync::Wait;
use std::test::Fail;

// A letter is refused, since the office is shut, and comes back.
fn is_closed<R: Wait + Abort, C: Carrier<Item = String> + Drop>(
    rt: &R,
    alloc: Global,
    sender: &mut Sender<C>,
) -> Result<(), Fail> {
    let back = Unpushed {
        refusal: Refusal::Closed,
        value: text(alloc, "b")?,
    };
    same(rt, sender.send(rt, text(alloc, "b")?), Err(back), "");
    Ok(())
}

// The letter "a" of seat 1 comes.
fn comes<R: Wait + Abort, C: Carrier<Item = String> + Drop>(rt: &R, receiver: &mut Receiver<C>) {
    assert!(rt;
        matches!(receiver.recv_or_end(rt), Ok(Some(letter)) if letter.value.as_str() == "a" && letter.from == 1)
    );
}

fn ends_by_a_shut<R: Wait + Abort, C: Carrier<Item = String> + Drop>(
    rt: &R,
    alloc: Global,
    (mut office, mut one, _other, mut receiver): Small<C>,
) -> Result<(), Fail> {
    one.send(rt, text(alloc, "a")?)?;
    office.shut(rt)?;
    is_closed(rt, alloc, &mut one)?;
    assert!(rt; matches!(office.shut(rt), Err(Refusal::Closed)));
    comes(rt, &mut receiver);
    assert!(rt; matches!(receiver.recv_or_end(rt), Ok(None)));
    Ok(())
}

#[test]
fn a_shut_office_gives_what_it_accepted_and_then_the_end(rt: HostRuntime) -> Result<(), Fail> {
    ends_by_a_shut(&rt, rt.alloc(), small(rt.alloc(), 4)?)?;
    ends_by_a_shut(&rt, rt.alloc(), small_ring(rt.alloc(), 4)?)
}

fn ends_by_senders<R: Wait + Abort, C: Carrier<Item = String> + Drop>(
    rt: &R,
    alloc: Global,
    (_office, mut one, other, mut receiver): Small<C>,
) -> Result<(), Fail> {
    one.send(rt, text(alloc, "a")?)?;
    drop(one);
    comes(rt, &mut receiver);
    assert!(rt; matches!(receiver.try_recv(), Ok(None)));
    drop(other);
    assert!(rt; matches!(receiver.recv_or_end(rt), Ok(None)));
    Ok(())
}

#[test]
fn the_last_sender_that_goes_ends_it(rt: HostRuntime) -> Result<(), Fail> {
    ends_by_senders(&rt, rt.alloc(), small(rt.alloc(), 4)?)?;
    ends_by_senders(&rt, rt.alloc(), small_ring(rt.alloc(), 4)?)
}

fn ends_by_receivers<R: Wait + Abort, C: Carrier<Item = String> + Drop>(
    rt: &R,
    alloc: Global,
    (_office, mut one, _other, receiver): Small<C>,
) -> Result<(), Fail> {
    drop(receiver);
    is_closed(rt, alloc, &mut one)
}

#[test]
fn the_last_receiver_that_goes_ends_it(rt: HostRuntime) -> Result<(), Fail> {
    ends_by_receivers(&rt, rt.alloc(), small(rt.alloc(), 4)?)?;
    ends_by_receivers(&rt, rt.alloc(), small_ring(rt.alloc(), 4)?)
}

#[test]
fn a_place_is_used_again(rt: HostRuntime) -> Result<(), Fail> {
    let alloc = rt.alloc();
    let (_office, mut one, _other, mut receiver) = small(alloc, 1)?;
    let mut refused = 0u32;
    for _ in 0..100 {
        for _ in 0..8 {
            if one.try_send(text(alloc, "a")?).is_err() {
                refused = refused.wrapping_add(1);
            }
        }
        for _ in 0..8 {
            let _ = receiver.try_recv();
        }
    }
    // There are four nodes more than the place: for the dummy, and in each seat's hand.
    assert!(rt; refused >= 400);
    assert!(rt; refused <= 700);
    Ok(())
}

#[test]
fn sizes_out_of_range_are_refused(rt: HostRuntime) -> Result<(), Fail> {
    for (places, senders, receivers) in [
        (8, 65_533, 0),
        (8, 40_000, 40_000),
        (8, usize::MAX, usize::MAX),
        (u32::MAX, 1, 1),
    ] {
        let opened = PostOffice::<Texts>::open(rt.alloc(), places, senders, receivers);
        assert!(rt; matches!(opened, Err(Refusal::BadSize)));
    }
    let (_office, senders, receivers) = PostOffice::<Texts>::open(rt.alloc(), 0, 0, 0)?;
    assert_eq!(rt; (senders.len(), receivers.len()), (0, 0));
    for (senders, receivers) in [(32_765, 0), (20_000, 20_000), (usize::MAX, usize::MAX)] {
        let opened = PostOffice::<RingValues<String>>::open_ring(rt.alloc(), 8, senders, receivers);
        assert!(rt; matches!(opened, Err(Refusal::BadSize)));
    }
    let made = PostOffice::<RingValues<String>>::open_ring(rt.alloc(), 0, 0, 0)?;
    assert_eq!(rt; (made.1.len(), made.2.len()), (0, 0));
    Ok(())
}

/// A sender of a ring sends though another one's letters lie where it looks for a slot first.
#[test]
fn senders_of_a_ring_look_on_for_a_slot(rt: HostRuntime) -> Result<(), Fail> {
    let alloc = rt.alloc();
    let (_office, mut first, mut second, mut receiver) = small_ring(alloc, 200)?;
    for _ in 0..100 {
        first.send(&rt, text(alloc, "a")?)?;
    }
    for _ in 0..100 {
        second.send(&rt, text(alloc, "b")?)?;
    }
    let mut from_each = [0u64; 2];
    for _ in 0..200 {
        let letter = receiver.recv(&rt)?;
        from_each[if letter.value.as_str() == "a" { 0 } else { 1 }] += 1;
    }
    assert_eq!(rt; from_each, [100, 100]);
    Ok(())
}
