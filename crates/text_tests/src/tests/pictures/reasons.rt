//! Pictures of reasons that were worked out by hand, of recordings and of a history; what has points; and faults.
use crate::tests::pictures::WHOLE;
use crate::tests::trials::{Engine, does_by_any_piece, writes_nothing};
use crate::tests::written::{tells_a_fault, tells_a_writer_that_fails, text_fault};
use history::TextCause;
use show_engine::View;
use std::test::Fail;

/// Tea was pushed behind milk, and taken before it. The clock counts nanoseconds.
const RECORDING: &str = "msq record 1
operations 6
stock deq from 3930676106000 to 3930676106100 reply empty
till-2 deq from 3930676106500 to 3930676106600 reply value tea
till-1 enq milk from 3930676106100 to 3930676106200 reply done
till-1 enq tea from 3930676106300 to 3930676106400 reply done
till-2 deq from 3930676106700 to 3930676106800 reply value milk
stock deq from 3930676106900 to - reply -
";

/// Each operation of the reason, and the pop that ended as milk's push began.
const PICTURE: &str = "no 2 Order 4 3
  |                                        3 stock deq from 3930676106000 to 3930676106100 reply empty
!                       |=====|            4 till-2 deq from 3930676106500 to 3930676106600 reply value tea
! |====|                                   5 till-1 enq milk from 3930676106100 to 3930676106200 reply done
!            |=====|                       6 till-1 enq tea from 3930676106300 to 3930676106400 reply done
!                                   |====| 7 till-2 deq from 3930676106700 to 3930676106800 reply value milk
times 0 to 700 from 3930676106100, operations 5 of 6
";

/// Three hundred numbers of it, in few columns.
const PART: &str = "no 2 Order 4 3
!              |=====| 4 till-2 deq from 3930676106500 to 3930676106600 reply value tea
! <=====|              6 till-1 enq tea from 3930676106300 to 3930676106400 reply done
times 0 to 299 from 3930676106301, operations 2 of 6
";

/// Each operation of a recording is the actor 1's.
const OF_NONE: &str = "no 2 Order 4 3
times 0 to 700 from 3930676106100, operations 0 of 6
";

/// The value is there while a pop beside its push is told that the queue is empty. Points that none asked for are drawn too.
const HISTORY: &str = "history 4
1 enq 1 first 1 last 2 at 2 reply done
2 deq first 5 last 14 at 9 reply empty
3 enq 3 first 3 last - at - reply -
2 deq first 15 last 20 at 19 reply value 1 1
";

const OF_HISTORY: &str = "no 2 Full 1
! |=*                                      2 1 enq 1 first 1 last 2 at 2 reply done
!         |=======*=========|              3 2 deq first 5 last 14 at 9 reply empty
      |==================================> 4 3 enq 3 first 3 last - at - reply -
!                             |=======*=|  5 2 deq first 15 last 20 at 19 reply value 1 1
times 0 to 19 from 1, operations 4 of 4
";

const OF_ACTOR_2: &str = "no 2 Full 1
!         |=======*=========|              3 2 deq first 5 last 14 at 9 reply empty
!                             |=======*=|  5 2 deq first 15 last 20 at 19 reply value 1 1
times 0 to 19 from 1, operations 2 of 4
";

/// Points, as `place` writes them.
const PUSHED: &str = "msq record 1
operations 1
till-1 enq milk from 100 to 200 reply done
";

const PLACED: &str = "history 1
1 enq 1 first 100 last 200 at 100 reply done
";

/// Texts, what of them is asked for, and what is drawn.
const PICTURES: [(&str, View<'static>, &str); 6] = [
    (RECORDING, WHOLE, PICTURE),
    (
        RECORDING,
        View {
            width: 40,
            from: 3_930_676_106_301,
            to: 3_930_676_106_600,
            ..WHOLE
        },
        PART,
    ),
    (RECORDING, View { actor: 2, ..WHOLE }, OF_NONE),
    (HISTORY, WHOLE, OF_HISTORY),
    (HISTORY, View { actor: 2, ..WHOLE }, OF_ACTOR_2),
    (PUSHED, WHOLE, PLACED),
];

const FAULTS: [(&str, &str, u64, TextCause); 3] = [
    ("operations 6", "operations 7", 9, TextCause::End),
    ("reply value tea", "value tea", 4, TextCause::Form),
    ("to 3930676106600", "to 3930676106499", 4, TextCause::Range),
];

#[test]
fn draws_a_reason_with_the_lines_of_its_text(rt: HostRuntime) -> Result<(), Fail> {
    for (text, view, picture) in &PICTURES {
        does_by_any_piece(&rt, rt.alloc(), Engine::Reason(*view), text, 0, picture)?;
    }
    Ok(())
}

#[test]
fn writes_nothing_of_a_faulty_recording(rt: HostRuntime) -> Result<(), Fail> {
    for (old, new, line, cause) in &FAULTS {
        let due = text_fault(*line, *cause);
        tells_a_fault(&rt, Engine::Reason(WHOLE), RECORDING, (*old, *new), due)?;
    }
    Ok(())
}

#[test]
fn tells_a_recording_whose_reading_or_writing_fails(rt: HostRuntime) -> Result<(), Fail> {
    writes_nothing(&rt, rt.alloc(), Engine::Reason(WHOLE), RECORDING)?;
    tells_a_writer_that_fails(&rt, Engine::Reason(WHOLE), RECORDING)
}
