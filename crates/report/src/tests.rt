//! Tables of histories, typed from outside: as they stand in a file, and by a call that succeeds.
use crate::history_table;
use history::{Body, Op, Refusal, Reply, Stamped, Taken};
use std::alloc::Global;
use std::process::Abort;
use std::test::Fail;
use text_io::Script;

fn body(number: u64) -> Result<Body, Fail> {
    Ok(Body::new(number).ok_or("not a body")?)
}

fn enqueue(actor: u16, number: u64, first: u64, at: u64) -> Result<Stamped, Fail> {
    let op = Op::Enq(body(number)?);
    Ok(Stamped {
        actor,
        op,
        first,
        last: Some(at),
        at: Some(at),
        reply: Some(Reply::Done),
    })
}

fn dequeue(actor: u16, from: u16, number: u64, first: u64, at: u64) -> Result<Stamped, Fail> {
    let value = Taken {
        from,
        body: body(number)?,
    };
    Ok(Stamped {
        actor,
        op: Op::Deq,
        first,
        last: Some(at),
        at: Some(at),
        reply: Some(Reply::Value(value)),
    })
}

fn writes(rt: &impl Abort, alloc: Global, history: &[Stamped], table: &[u8]) -> Result<(), Fail> {
    let mut writer = Script::writer(alloc, 1000, 7)?;
    history_table(alloc, history, &mut writer)?;
    assert_eq!(rt; writer.written(), table);
    Ok(())
}

#[test]
fn tables_two_operations(rt: HostRuntime) -> Result<(), Fail> {
    let history = [enqueue(1, 5, 1, 9)?, dequeue(2, 1, 5, 11, 16)?];
    let table: &[u8] = b"yes
         9      1 enq 5 -> done
        16      2 deq -> value 1 5
done             1
value            1
";
    writes(&rt, rt.alloc(), &history, table)
}

#[test]
fn counts_an_operation_without_a_reply(rt: HostRuntime) -> Result<(), Fail> {
    let unfinished = Stamped {
        last: None,
        reply: None,
        ..enqueue(1, 5, 1, 9)?
    };
    let history = [unfinished, dequeue(2, 1, 5, 10, 20)?];
    let table: &[u8] = b"yes
         9      1 enq 5 -> -
        20      2 deq -> value 1 5
unfinished       1
value            1
";
    writes(&rt, rt.alloc(), &history, table)
}

#[test]
fn tables_a_refusal(rt: HostRuntime) -> Result<(), Fail> {
    let refused = Stamped {
        last: Some(12),
        reply: Some(Reply::Refused(Refusal::NoNode)),
        ..enqueue(1, 2, 11, 12)?
    };
    let history = [
        enqueue(1, 1, 1, 9)?,
        refused,
        dequeue(1, 1, 1, 13, 18)?,
        enqueue(1, 2, 22, 31)?,
    ];
    let table: &[u8] = b"yes
         9      1 enq 1 -> done
        12      1 enq 2 -> refused 1
        18      1 deq -> value 1 1
        31      1 enq 2 -> done
done             2
refused          1
value            1
";
    writes(&rt, rt.alloc(), &history, table)
}

#[test]
fn tables_no_operations(rt: HostRuntime) -> Result<(), Fail> {
    writes(&rt, rt.alloc(), &[], b"yes\n")
}

#[test]
fn leaves_out_what_has_no_place_and_keeps_the_order_of_equal_ones(
    rt: HostRuntime,
) -> Result<(), Fail> {
    let placeless = Stamped {
        last: None,
        at: None,
        reply: None,
        ..enqueue(3, 3, 2, 9)?
    };
    let empty = Stamped {
        actor: 65535,
        op: Op::Deq,
        first: 5,
        last: Some(18446744073709551615),
        at: Some(18446744073709551615),
        reply: Some(Reply::Empty),
    };
    let history = [
        empty,
        placeless,
        enqueue(2, 281_474_976_710_655, 1, 7)?,
        enqueue(1, 0, 3, 7)?,
        dequeue(4, 65535, 1, 4, 6)?,
        enqueue(5, 0, 3, 7)?,
    ];
    let table: &[u8] = b"yes
         6      4 deq -> value 65535 1
         7      2 enq 281474976710655 -> done
         7      1 enq 0 -> done
         7      5 enq 0 -> done
18446744073709551615  65535 deq -> empty
empty            1
unfinished       1
done             3
value            1
";
    writes(&rt, rt.alloc(), &history, table)
}

#[test]
fn tables_a_shut_and_refusals_of_it(rt: HostRuntime) -> Result<(), Fail> {
    let shut = Stamped {
        op: Op::Shut,
        ..enqueue(2, 0, 11, 14)?
    };
    let closed = Some(Reply::Refused(Refusal::Closed));
    let refused = Stamped {
        reply: closed,
        ..enqueue(1, 6, 15, 22)?
    };
    let last = Stamped {
        reply: closed,
        ..dequeue(2, 1, 5, 32, 35)?
    };
    let taken = dequeue(2, 1, 5, 23, 28)?;
    let history = [enqueue(1, 5, 1, 9)?, shut, refused, taken, last];
    let table: &[u8] = b"yes
         9      1 enq 5 -> done
        14      2 shut -> done
        22      1 enq 6 -> refused 16
        28      2 deq -> value 1 5
        35      2 deq -> refused 16
done             2
refused          2
value            1
";
    writes(&rt, rt.alloc(), &history, table)
}
