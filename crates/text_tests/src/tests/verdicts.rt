//! Calls that succeed: each verdict with its place, on histories that were judged by hand.
use crate::tests::comparisons::same;
use history::{Body, Cause, Op, Refusal, Reply, Stamped, Taken, Verdict, check};
use std::test::Fail;

fn enqueue(body: u64) -> Result<Op, Fail> {
    Ok(Op::Enq(Body::new(body).ok_or("not a body")?))
}

fn value(from: u16, body: u64) -> Result<Option<Reply>, Fail> {
    let body = Body::new(body).ok_or("not a body")?;
    Ok(Some(Reply::Value(Taken { from, body })))
}

fn operation(
    actor: u16,
    op: Op,
    steps: (u64, Option<u64>, Option<u64>),
    reply: Option<Reply>,
) -> Stamped {
    let (first, last, at) = steps;
    Stamped {
        actor,
        op,
        first,
        last,
        at,
        reply,
    }
}

fn no(place: u64, cause: Cause) -> Verdict {
    Verdict::No { place, cause }
}

#[test]
fn judges_one_operation(rt: HostRuntime) -> Result<(), Fail> {
    let no_reply = operation(1, Op::Deq, (1, Some(4), Some(3)), None);
    let no_last = operation(1, Op::Deq, (1, None, Some(3)), Some(Reply::Empty));
    let no_place = operation(1, enqueue(1)?, (1, Some(4), None), Some(Reply::Done));
    let early_place = operation(1, enqueue(1)?, (5, None, Some(3)), None);
    let late_place = operation(1, enqueue(1)?, (1, Some(4), Some(5)), Some(Reply::Done));
    let without_effect = operation(1, enqueue(1)?, (5, None, None), None);
    let rows = [
        (no_reply, no(1, Cause::Shape)),
        (no_last, no(1, Cause::Shape)),
        (no_place, no(1, Cause::Shape)),
        (early_place, no(1, Cause::Span)),
        (late_place, no(1, Cause::Span)),
        (without_effect, Verdict::Yes),
    ];
    for (only, verdict) in &rows {
        same(
            &rt,
            check(rt.alloc(), &[*only]),
            Ok(*verdict),
            format_args!("on {only:?}"),
        );
    }
    Ok(())
}

#[test]
fn judges_no_operations(rt: HostRuntime) -> Result<(), Fail> {
    same(&rt, check(rt.alloc(), &[]), Ok(Verdict::Yes), "");
    Ok(())
}

#[test]
fn names_the_later_of_two_at_one_place(rt: HostRuntime) -> Result<(), Fail> {
    let history = [
        operation(1, enqueue(1)?, (1, Some(4), Some(3)), Some(Reply::Done)),
        operation(2, enqueue(2)?, (2, Some(5), Some(3)), Some(Reply::Done)),
    ];
    same(
        &rt,
        check(rt.alloc(), &history),
        Ok(no(2, Cause::Shared)),
        "",
    );
    Ok(())
}

#[test]
fn names_an_empty_reply_that_comes_after_a_push(rt: HostRuntime) -> Result<(), Fail> {
    let history = [
        operation(1, enqueue(1)?, (1, Some(4), Some(2)), Some(Reply::Done)),
        operation(2, Op::Deq, (5, Some(9), Some(6)), Some(Reply::Empty)),
    ];
    same(
        &rt,
        check(rt.alloc(), &history),
        Ok(no(2, Cause::Reply)),
        "",
    );
    Ok(())
}

#[test]
fn places_an_empty_reply_where_it_was_seen(rt: HostRuntime) -> Result<(), Fail> {
    let pushed = operation(2, enqueue(9)?, (4, Some(13), Some(12)), Some(Reply::Done));
    for (at, verdict) in [(3, Verdict::Yes), (14, no(1, Cause::Reply))] {
        let seen = operation(1, Op::Deq, (1, Some(14), Some(at)), Some(Reply::Empty));
        same(&rt, check(rt.alloc(), &[seen, pushed]), Ok(verdict), at);
    }
    Ok(())
}

#[test]
fn judges_refused_and_unfinished_operations(rt: HostRuntime) -> Result<(), Fail> {
    let refused = Some(Reply::Refused(Refusal::NoNode));
    let history = [
        operation(1, enqueue(1)?, (1, Some(10), Some(9)), Some(Reply::Done)),
        operation(1, enqueue(2)?, (11, Some(12), Some(12)), refused),
        operation(1, Op::Deq, (13, Some(21), Some(18)), value(1, 1)?),
        operation(1, enqueue(2)?, (22, None, Some(31)), None),
        operation(2, Op::Deq, (23, Some(40), Some(32)), value(1, 2)?),
    ];
    same(&rt, check(rt.alloc(), &history), Ok(Verdict::Yes), "");
    Ok(())
}

#[test]
fn judges_what_follows_a_shut(rt: HostRuntime) -> Result<(), Fail> {
    let shut = operation(1, Op::Shut, (1, Some(4), Some(4)), Some(Reply::Done));
    let closed = Some(Reply::Refused(Refusal::Closed));
    let rows = [
        (enqueue(1)?, Some(Reply::Done), no(2, Cause::Reply)),
        (enqueue(1)?, closed, Verdict::Yes),
        (Op::Shut, Some(Reply::Done), no(2, Cause::Reply)),
        (Op::Shut, closed, Verdict::Yes),
        (Op::Deq, Some(Reply::Empty), no(2, Cause::Reply)),
        (Op::Deq, closed, Verdict::Yes),
    ];
    for (op, reply, verdict) in &rows {
        let later = operation(1, *op, (5, Some(14), Some(13)), *reply);
        same(
            &rt,
            check(rt.alloc(), &[shut, later]),
            Ok(*verdict),
            format_args!("on {later:?}"),
        );
    }
    Ok(())
}

#[test]
fn a_shut_queue_gives_its_values_first(rt: HostRuntime) -> Result<(), Fail> {
    let closed = Some(Reply::Refused(Refusal::Closed));
    let pushed = operation(1, enqueue(5)?, (1, Some(10), Some(9)), Some(Reply::Done));
    let shut = operation(2, Op::Shut, (11, Some(14), Some(14)), Some(Reply::Done));
    let refused = operation(1, enqueue(6)?, (15, Some(22), Some(22)), closed);
    let last = operation(2, Op::Deq, (32, Some(35), Some(35)), closed);
    for (reply, verdict) in [(value(1, 5)?, Verdict::Yes), (closed, no(4, Cause::Reply))] {
        let taken = operation(2, Op::Deq, (23, Some(31), Some(28)), reply);
        same(
            &rt,
            check(rt.alloc(), &[pushed, shut, refused, taken, last]),
            Ok(verdict),
            format_args!("on {taken:?}"),
        );
    }
    Ok(())
}

#[test]
fn a_queue_that_is_not_shut_is_not_closed(rt: HostRuntime) -> Result<(), Fail> {
    let closed = Some(Reply::Refused(Refusal::Closed));
    for op in [enqueue(1)?, Op::Deq, Op::Shut] {
        let only = operation(1, op, (1, Some(4), Some(4)), closed);
        same(
            &rt,
            check(rt.alloc(), &[only]),
            Ok(no(1, Cause::Reply)),
            format_args!("on {only:?}"),
        );
    }
    Ok(())
}
