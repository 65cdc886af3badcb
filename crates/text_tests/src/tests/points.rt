use crate::tests::trials::{
    Engine, does_by_any_piece, tells_each_end, writes_a_prefix, writes_nothing,
};
use std::test::Fail;

const RECORDED: &str = "history 4
1 enq 1 first 1 last 2 at - reply done
1 enq 2 first 3 last 4 at - reply done
3 deq first 5 last - at - reply -
2 deq first 5 last 6 at - reply value 1 2
";

const ITS_POINTS: &str = "history 4
1 enq 1 first 1 last 2 at 1 reply done
1 enq 2 first 3 last 4 at 3 reply done
3 deq first 5 last - at 5 reply -
2 deq first 5 last 6 at 6 reply value 1 2
";

const NO_SHAPE: &str = "history 1
1 deq first 1 last 4 at 3 reply -
";

const NO_SPAN: &str = "history 1
1 enq 1 first 3 last 2 at - reply done
";

const TOLD_AMISS: &str = "history 1
1 enq 1 first 1 last 2 at - reply empty
";

const TAKEN_TWICE: &str = "history 3
1 enq 1 first 1 last 2 at - reply done
2 deq first 3 last 4 at - reply value 1 1
3 deq first 3 last 4 at - reply value 1 1
";

const OVERTAKEN: &str = "history 4
1 enq 1 first 1 last 2 at - reply done
1 enq 2 first 3 last 4 at - reply done
2 deq first 5 last 6 at - reply value 1 2
2 deq first 7 last 8 at - reply value 1 1
";

const NEVER_EMPTY: &str = "history 5
1 enq 1 first 1 last 2 at - reply done
1 enq 2 first 3 last 6 at - reply done
2 deq first 5 last 9 at - reply empty
3 deq first 7 last 8 at - reply value 1 1
3 deq first 10 last 11 at - reply value 1 2
";

// The queue is shut while it has a value, which is taken after that.
const SHUT: &str = "history 4
1 enq 1 first 1 last 2 at - reply done
2 shut first 3 last 4 at - reply done
1 enq 2 first 5 last 6 at - reply refused 16
2 deq first 7 last 8 at - reply value 1 1
";

const ITS_SHUT: &str = "history 4
1 enq 1 first 1 last 2 at 1 reply done
2 shut first 3 last 4 at 3 reply done
1 enq 2 first 5 last 6 at 5 reply refused 16
2 deq first 7 last 8 at 7 reply value 1 1
";

// The value 1 is pushed before 2 and after it, and both times taken after it.
const REPEATED: &str = "history 6
1 enq 1 first 1 last 2 at - reply done
1 enq 2 first 3 last 4 at - reply done
1 enq 1 first 5 last 6 at - reply done
2 deq first 7 last 8 at - reply value 1 2
2 deq first 9 last 10 at - reply value 1 1
2 deq first 11 last 12 at - reply value 1 1
";

// Two operations have the number 1, so each of the two numbers used becomes four.
const CROWDED: &str = "history 3
1 enq 1 first 1 last 1 at - reply done
2 enq 2 first 1 last 1 at - reply done
3 enq 3 first 18446744073709551615 last 18446744073709551615 at - reply done
";

const ITS_ROOM: &str = "history 3
1 enq 1 first 1 last 4 at 1 reply done
2 enq 2 first 1 last 4 at 2 reply done
3 enq 3 first 5 last 8 at 7 reply done
";

/// Recorded histories, the status, and what is written.
const FOUND: [(&str, u8, &str); 11] = [
    ("history 0\n", 0, "history 0\n"),
    (RECORDED, 0, ITS_POINTS),
    (NO_SHAPE, 3, "no 1 Shape\n"),
    (NO_SPAN, 3, "no 1 Span\n"),
    (TOLD_AMISS, 3, "no 1 Reply\n"),
    (TAKEN_TWICE, 3, "no 3 Sooner 2 1\n"),
    (OVERTAKEN, 3, "no 3 Order 2 1\n"),
    (NEVER_EMPTY, 3, "no 3 Full 1 2\n"),
    (SHUT, 0, ITS_SHUT),
    (REPEATED, 3, "no 4 Stuck 1 2\n"),
    (CROWDED, 0, ITS_ROOM),
];

#[test]
fn places_histories_whatever_the_pieces(rt: HostRuntime) -> Result<(), Fail> {
    for (text, status, want) in &FOUND {
        does_by_any_piece(&rt, rt.alloc(), Engine::Place, text, *status, want)?;
    }
    Ok(())
}

#[test]
fn judges_what_is_placed_to_be_right(rt: HostRuntime) -> Result<(), Fail> {
    let table = "yes
         1      1 enq 1 -> done
         3      1 enq 2 -> done
         5      3 deq -> -
         6      2 deq -> value 1 2
done             2
unfinished       1
value            1
";
    does_by_any_piece(&rt, rt.alloc(), Engine::Check, ITS_POINTS, 0, table)
}

#[test]
fn tells_the_end_of_each_truncated_recording(rt: HostRuntime) -> Result<(), Fail> {
    tells_each_end(&rt, rt.alloc(), Engine::Place, RECORDED.as_bytes())
}

#[test]
fn writes_nothing_where_a_read_fails(rt: HostRuntime) -> Result<(), Fail> {
    writes_nothing(&rt, rt.alloc(), Engine::Place, RECORDED)
}

/// Recorded histories, and what is written.
const BEGUN: [(&str, &str); 3] = [
    (RECORDED, ITS_POINTS),
    (NEVER_EMPTY, "no 3 Full 1 2\n"),
    (REPEATED, "no 4 Stuck 1 2\n"),
];

#[test]
fn writes_a_prefix_where_a_write_fails(rt: HostRuntime) -> Result<(), Fail> {
    for (text, want) in &BEGUN {
        writes_a_prefix(&rt, rt.alloc(), Engine::Place, text, want.as_bytes())?;
    }
    Ok(())
}
