//! Offices that are closed: what is left, and what comes back.
use super::common::{both, only, small, text};
use carriers::RestOf;
use history::Refusal;
use post_office::{PostOffice, Unended};
use std::alloc::Global;
use std::sync::Arc;
use std::sync::atomic::AtomicU64;
use std::sync::atomic::Ordering::SeqCst;
use std::test::Fail;

// The next letter that is left: who sent it, and whether it is this text.
fn next_is(rest: &mut RestOf<String>, from: u16, due: &str) -> bool {
    match rest.next() {
        Some(letter) => letter.from == from && letter.value.as_str() == due,
        None => false,
    }
}

#[test]
fn letters_left_come_in_order_with_who_sent_them(rt: HostRuntime) -> Result<(), Fail> {
    let alloc = rt.alloc();
    let (office, mut one, mut other, mut receiver) = small(alloc, 4)?;
    one.try_send(text(alloc, "a")?)?;
    other.try_send(text(alloc, "b")?)?;
    one.try_send(text(alloc, "c")?)?;
    let first = receiver.try_recv()?;
    assert!(rt; matches!(first, Some(letter) if letter.from == 1 && letter.value.as_str() == "a"));
    let closed = office.close(alloc, both(alloc, one, other)?, only(alloc, receiver)?);
    let Ok((mut rest, _end)) = closed else {
        return Err(Refusal::Busy)?;
    };
    assert_eq!(rt;
        (rest.taken(), rest.whole(), rest.was_shut()),
        (1, true, false)
    );
    assert!(rt; next_is(&mut rest, 2, "b"));
    assert!(rt; next_is(&mut rest, 1, "c"));
    assert!(rt; rest.next().is_none());
    Ok(())
}

#[test]
fn an_office_that_is_in_use_comes_back(rt: HostRuntime) -> Result<(), Fail> {
    let alloc = rt.alloc();
    let (office, mut one, other, receiver) = small(alloc, 4)?;
    one.try_send(text(alloc, "a")?)?;
    let closed = office.close(alloc, only(alloc, one)?, only(alloc, receiver)?);
    let Err(Unended::InUse(office, senders, receivers)) = closed else {
        return Err(Refusal::Busy)?;
    };
    assert_eq!(rt; (senders.len(), receivers.len()), (1, 1));
    drop(other);
    let Ok((mut rest, _end)) = office.close(alloc, senders, receivers) else {
        return Err(Refusal::Busy)?;
    };
    assert_eq!(rt; (rest.whole(), rest.was_shut()), (true, false));
    assert!(rt; next_is(&mut rest, 1, "a"));
    Ok(())
}

#[test]
fn a_rest_is_not_whole_where_a_handle_is_missing(rt: HostRuntime) -> Result<(), Fail> {
    let alloc = rt.alloc();
    let (office, one, mut other, receiver) = small(alloc, 4)?;
    other.try_send(text(alloc, "b")?)?;
    drop(other);
    let Ok((mut rest, _end)) = office.close(alloc, only(alloc, one)?, only(alloc, receiver)?) else {
        return Err(Refusal::Busy)?;
    };
    assert!(rt; !rest.whole());
    assert!(rt; next_is(&mut rest, 2, "b"));
    Ok(())
}

// A letter that counts, as it is dropped, that it was.
struct Counted {
    drops: Arc<AtomicU64, Global>,
}

impl Drop for Counted {
    fn drop(self) {
        let Self { drops } = self;
        drops.fetch_add(1, SeqCst);
    }
}

#[test]
fn each_letter_that_is_left_is_dropped_once(rt: HostRuntime) -> Result<(), Fail> {
    let alloc = rt.alloc();
    let drops = Arc::new(alloc, AtomicU64::new(0))?;
    let (office, mut senders, receivers) = PostOffice::<picked::ValueQueue<Counted>>::open(
        alloc, 4, 1, 1,
    )?;
    for _ in 0..4 {
        let drops = Arc::try_clone(&drops)?;
        if let Some(sender) = senders.first_mut() {
            let _ = sender.try_send(Counted { drops });
        }
    }
    let Ok((mut rest, end)) = office.close(alloc, senders, receivers) else {
        return Err(Refusal::Busy)?;
    };
    let one = rest.next();
    assert_eq!(rt; drops.load(SeqCst), 0);
    drop(one);
    drop(rest);
    drop(end);
    assert_eq!(rt; drops.load(SeqCst), 4);
    Ok(())
}
