//! Timelines that were worked out by hand, of histories that need not be a queue's; and faults.
use crate::tests::pictures::WHOLE;
use crate::tests::trials::{Engine, does_by_any_piece, writes_nothing};
use crate::tests::written::{tells_a_fault, tells_a_writer_that_fails, text_fault};
use history::TextCause;
use show_engine::View;
use std::test::Fail;

const HISTORY: &str = "history 6
1 enq 5 first 1 last 10 at 8 reply done
2 deq first 2 last 4 at 3 reply empty
3 enq 6 first 5 last - at 7 reply -
2 deq first 6 last 9 at 9 reply value 3 6
65535 shut first 120 last 130 at 125 reply done
1 enq 281474976710655 first 4 last 140 at 140 reply refused 16
";

/// The first hundred steps of it.
const FIRST: &str = "     1 |=*|                                     enq 5 -> done
     2 *|                                       deq -> empty
     3  |*====================================> enq 6 -> -
     2   |*                                     deq -> value 3 6
     1  |=====================================> enq 281474976710655 -> refused ~
steps 1 to 100 of 140, operations 5 of 6
";

/// Four steps, between which bars go on.
const MIDDLE: &str = "     1 <=============================*========> enq 5 -> done
     3 |===================*==================> enq 6 -> -
     2           |============================> deq -> value 3 6
     1 <======================================> enq 281474976710655 -> refused ~
steps 5 to 8 of 140, operations 4 of 6
";

/// One actor, in few columns.
const OF_ACTOR_1: &str = "     1 *|                             enq 5 -> done
     1 |============================> enq 281474976710655 -~
steps 4 to 130 of 140, operations 2 of 6
";

const EMPTY: &str = "steps 1 to 0 of 0, operations 0 of 0
";

/// Steps that are not there.
const LATER: &str = "     3 <======================================> enq 6 -> -
steps 500 to 140 of 140, operations 1 of 6
";

/// Histories, what is shown of them, and their timelines.
const TIMELINES: [(&str, View<'static>, &str); 5] = [
    (HISTORY, WHOLE, FIRST),
    (
        HISTORY,
        View {
            from: 5,
            to: 8,
            ..WHOLE
        },
        MIDDLE,
    ),
    (
        HISTORY,
        View {
            width: 60,
            from: 4,
            to: 130,
            actor: 1,
            legend: &[],
        },
        OF_ACTOR_1,
    ),
    ("history 0\n", WHOLE, EMPTY),
    (HISTORY, View { from: 500, ..WHOLE }, LATER),
];

const FAULTS: [(&str, &str, u64, TextCause); 3] = [
    ("history 6", "history 7", 8, TextCause::End),
    ("at 3 reply empty", "at 3 empty", 3, TextCause::Form),
    ("1 enq 5", "0 enq 5", 2, TextCause::Range),
];

#[test]
fn draws_bars_in_the_steps_that_are_shown(rt: HostRuntime) -> Result<(), Fail> {
    for (text, view, timeline) in &TIMELINES {
        does_by_any_piece(&rt, rt.alloc(), Engine::Timeline(*view), text, 0, timeline)?;
    }
    Ok(())
}

#[test]
fn writes_nothing_of_a_faulty_history(rt: HostRuntime) -> Result<(), Fail> {
    for (old, new, line, cause) in &FAULTS {
        let due = text_fault(*line, *cause);
        tells_a_fault(&rt, Engine::Timeline(WHOLE), HISTORY, (*old, *new), due)?;
    }
    Ok(())
}

#[test]
fn tells_a_history_whose_reading_or_writing_fails(rt: HostRuntime) -> Result<(), Fail> {
    writes_nothing(&rt, rt.alloc(), Engine::Timeline(WHOLE), HISTORY)?;
    tells_a_writer_that_fails(&rt, Engine::Timeline(WHOLE), HISTORY)
}
