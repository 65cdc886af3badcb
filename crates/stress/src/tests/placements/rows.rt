//! Small histories: placed with the stamps given, placed with others, each reason, and what is open for want of room.
use crate::tests::placements::answers::answer;
use crate::tests::placements::comparisons::same;
use std::test::Fail;

/// A history, and what is answered of it.
type Row = (&'static [u8], &'static str);

// The most bytes that states may take.
const ROOM: u64 = 1 << 30;

const PLACED: &[Row] = &[
    (
        b"history 2
1 enq 5 first 1 last 10 at - reply done
2 deq first 11 last 19 at - reply value 1 5
",
        "history 2
1 enq 5 first 1 last 10 at 1 reply done
2 deq first 11 last 19 at 11 reply value 1 5
",
    ),
    // A pending push had its effect, since its value was taken.
    (
        b"history 2
1 enq 5 first 1 last - at - reply -
2 deq first 10 last 23 at - reply value 1 5
",
        "history 2
1 enq 5 first 1 last - at 1 reply -
2 deq first 10 last 23 at 10 reply value 1 5
",
    ),
    (
        b"history 2
1 deq first 1 last 14 at - reply empty
2 enq 9 first 4 last 13 at - reply done
",
        "history 2
1 deq first 1 last 14 at 1 reply empty
2 enq 9 first 4 last 13 at 4 reply done
",
    ),
    // A pending pop took the value that is in front.
    (
        b"history 4
1 enq 1 first 1 last 2 at - reply done
1 enq 2 first 3 last 4 at - reply done
3 deq first 5 last - at - reply -
2 deq first 5 last 6 at - reply value 1 2
",
        "history 4
1 enq 1 first 1 last 2 at 1 reply done
1 enq 2 first 3 last 4 at 3 reply done
3 deq first 5 last - at 5 reply -
2 deq first 5 last 6 at 6 reply value 1 2
",
    ),
    // What was pushed before the shut is taken behind it.
    (
        b"history 4
1 enq 1 first 1 last 4 at - reply done
2 shut first 2 last 5 at - reply done
3 deq first 3 last 6 at - reply value 1 1
4 deq first 7 last 8 at - reply refused 16
",
        "history 4
1 enq 1 first 1 last 4 at 1 reply done
2 shut first 2 last 5 at 2 reply done
3 deq first 3 last 6 at 3 reply value 1 1
4 deq first 7 last 8 at 7 reply refused 16
",
    ),
    // Three operations have two numbers, so that each number becomes four.
    (
        b"history 3
1 enq 1 first 5 last 5 at - reply done
2 enq 2 first 5 last 5 at - reply done
3 deq first 5 last 6 at - reply value 1 1
",
        "history 3
1 enq 1 first 1 last 4 at 1 reply done
2 enq 2 first 1 last 4 at 3 reply done
3 deq first 1 last 8 at 2 reply value 1 1
",
    ),
    // The first push may have its point at 2 alone, and the second one before it.
    (
        b"history 3
1 enq 1 first 2 last 2 at - reply done
1 enq 2 first 1 last 2 at - reply done
1 enq 3 first 9223372036854775808 last 9223372036854775808 at - reply done
",
        "history 3
1 enq 1 first 2 last 2 at 2 reply done
1 enq 2 first 1 last 2 at 1 reply done
1 enq 3 first 9223372036854775808 last 9223372036854775808 at 9223372036854775808 reply done
",
    ),
    // Two operations have one number, so that each of the two used becomes four, however far apart they are.
    (
        b"history 3
1 enq 1 first 1 last 1 at - reply done
2 enq 2 first 1 last 1 at - reply done
3 enq 3 first 18446744073709551615 last 18446744073709551615 at - reply done
",
        "history 3
1 enq 1 first 1 last 4 at 1 reply done
2 enq 2 first 1 last 4 at 2 reply done
3 enq 3 first 5 last 8 at 7 reply done
",
    ),
];

const IMPOSSIBLE: &[Row] = &[
    (
        b"history 1
1 deq first 1 last 4 at - reply -
",
        "no 1 Shape",
    ),
    (
        b"history 1
1 enq 1 first 3 last 2 at - reply done
",
        "no 1 Span",
    ),
    (
        b"history 1
1 enq 1 first 1 last 2 at - reply empty
",
        "no 1 Reply",
    ),
    (
        b"history 1
1 shut first 1 last 2 at - reply empty
",
        "no 1 Reply",
    ),
    (
        b"history 2
1 enq 1 first 5 last 6 at - reply done
2 deq first 1 last 4 at - reply value 1 1
",
        "no 2 Sooner 1",
    ),
    (
        b"history 3
1 enq 1 first 1 last 2 at - reply done
2 deq first 3 last 4 at - reply value 1 1
3 deq first 3 last 4 at - reply value 1 1
",
        "no 3 Sooner 2 1",
    ),
    (
        b"history 4
1 enq 1 first 1 last 2 at - reply done
1 enq 2 first 3 last 4 at - reply done
2 deq first 5 last 6 at - reply value 1 2
2 deq first 7 last 8 at - reply value 1 1
",
        "no 3 Order 2 1",
    ),
    // The pending pop began too late to take the value in front.
    (
        b"history 4
1 enq 1 first 1 last 2 at - reply done
1 enq 2 first 3 last 4 at - reply done
2 deq first 5 last 6 at - reply value 1 2
3 deq first 7 last - at - reply -
",
        "no 3 Order 2 1",
    ),
    // A push is done after the shut ended, and one after a call ended that was told of the shut.
    (
        b"history 2
1 shut first 1 last 2 at - reply done
1 enq 1 first 3 last 4 at - reply done
",
        "no 2 Late 1",
    ),
    (
        b"history 3
1 shut first 1 last - at - reply -
2 enq 1 first 2 last 3 at - reply refused 16
2 enq 2 first 4 last 5 at - reply done
",
        "no 3 Late 2",
    ),
    (
        b"history 2
1 shut first 1 last 2 at - reply done
2 deq first 3 last 4 at - reply empty
",
        "no 2 Late 1",
    ),
    // The push of the value taken is pending, and began after the shut ended.
    (
        b"history 3
1 shut first 1 last 2 at - reply done
1 enq 1 first 3 last - at - reply -
2 deq first 4 last 5 at - reply value 1 1
",
        "no 3 Late 1",
    ),
    (
        b"history 2
1 shut first 1 last 4 at - reply done
2 shut first 2 last 3 at - reply done
",
        "no 2 Twice 1",
    ),
    // Nobody shut the queue, or not yet.
    (
        b"history 1
1 deq first 1 last 4 at - reply refused 16
",
        "no 1 Unshut",
    ),
    (
        b"history 2
1 enq 1 first 1 last 2 at - reply refused 16
2 shut first 3 last 4 at - reply done
",
        "no 1 Unshut",
    ),
    // The push had its effect before the shut had, though it ended after that began; its value is never taken, or later.
    (
        b"history 3
1 enq 1 first 1 last 4 at - reply done
2 shut first 2 last 5 at - reply done
3 deq first 3 last 6 at - reply refused 16
",
        "no 3 Undrained 1",
    ),
    (
        b"history 4
1 enq 1 first 1 last 4 at - reply done
2 shut first 2 last 5 at - reply done
3 deq first 3 last 6 at - reply refused 16
3 deq first 7 last 8 at - reply value 1 1
",
        "no 3 Undrained 1",
    ),
    // The push of what is taken later is pending, or one of two of the same value.
    (
        b"history 4
1 enq 1 first 1 last - at - reply -
2 shut first 2 last 3 at - reply done
3 deq first 4 last 5 at - reply refused 16
3 deq first 6 last 7 at - reply value 1 1
",
        "no 3 Undrained 1",
    ),
    (
        b"history 5
1 enq 1 first 1 last 2 at - reply done
1 enq 1 first 3 last 4 at - reply done
2 shut first 5 last 6 at - reply done
3 deq first 7 last 8 at - reply refused 16
3 deq first 9 last 10 at - reply value 1 1
",
        "no 4 Undrained 2",
    ),
    // The value may be taken from 6 on alone, and what finds the queue empty has to do so by 5, when the shut ended.
    (
        b"history 4
1 enq 1 first 1 last 2 at - reply done
2 deq first 3 last 6 at - reply empty
2 shut first 4 last 5 at - reply done
3 deq first 6 last - at - reply -
",
        "no 2 Full 1",
    ),
    // The value 1 is there until 7, and 2 from 6 on.
    (
        b"history 5
1 enq 1 first 1 last 2 at - reply done
1 enq 2 first 3 last 6 at - reply done
2 deq first 5 last 9 at - reply empty
3 deq first 7 last 8 at - reply value 1 1
3 deq first 10 last 11 at - reply value 1 2
",
        "no 3 Full 1 2",
    ),
    // The value 2 is pushed after 1 and before it, and taken before both.
    (
        b"history 6
1 enq 1 first 1 last 2 at - reply done
1 enq 2 first 3 last 4 at - reply done
1 enq 1 first 5 last 6 at - reply done
2 deq first 7 last 8 at - reply value 1 2
2 deq first 9 last 10 at - reply value 1 1
2 deq first 11 last 12 at - reply value 1 1
",
        "no 4 Stuck 1 2",
    ),
];

// The value 1 is pushed by two at one time, and the one that began later ended sooner: so 2 was pushed between them.
const SEARCHED: &[u8] = b"history 12
1 enq 1 first 1 last 10 at - reply done
1 enq 1 first 2 last 3 at - reply done
1 enq 2 first 4 last 5 at - reply done
2 deq first 6 last 7 at - reply value 1 1
2 deq first 8 last 9 at - reply value 1 2
2 deq first 11 last 12 at - reply value 1 1
1 enq 3 first 13 last 14 at - reply done
2 deq first 15 last 16 at - reply value 1 3
1 enq 4 first 17 last 18 at - reply done
2 deq first 19 last 20 at - reply value 1 4
1 enq 5 first 21 last 22 at - reply done
2 deq first 23 last 24 at - reply value 1 5
";

const FOUND: &str = "history 12
1 enq 1 first 1 last 10 at 5 reply done
1 enq 1 first 2 last 3 at 2 reply done
1 enq 2 first 4 last 5 at 4 reply done
2 deq first 6 last 7 at 6 reply value 1 1
2 deq first 8 last 9 at 8 reply value 1 2
2 deq first 11 last 12 at 11 reply value 1 1
1 enq 3 first 13 last 14 at 13 reply done
2 deq first 15 last 16 at 15 reply value 1 3
1 enq 4 first 17 last 18 at 17 reply done
2 deq first 19 last 20 at 19 reply value 1 4
1 enq 5 first 21 last 22 at 21 reply done
2 deq first 23 last 24 at 23 reply value 1 5
";

#[test]
fn searches_within_the_room_that_it_has(rt: HostRuntime) -> Result<(), Fail> {
    for (room, wanted) in [(0, "open Room"), (100, "open Room"), (ROOM, FOUND)] {
        let found = answer(rt.alloc(), SEARCHED, room)?;
        same(&rt, found.as_str(), wanted, room);
    }
    Ok(())
}

#[test]
fn places_what_has_an_order(rt: HostRuntime) -> Result<(), Fail> {
    for (text, wanted) in PLACED {
        let found = answer(rt.alloc(), text, ROOM)?;
        same(&rt, found.as_str(), wanted, "");
    }
    Ok(())
}

#[test]
fn tells_why_there_is_no_order(rt: HostRuntime) -> Result<(), Fail> {
    for (text, wanted) in IMPOSSIBLE {
        let found = answer(rt.alloc(), text, ROOM)?;
        same(&rt, found.as_str(), wanted, "");
    }
    Ok(())
}
