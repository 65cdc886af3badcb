//! Rows with their colours, typed by hand, and a byte that no coloured text may have.
ghost use Rattle.std.specs.Prelude.{◌<◌};

use crate::tests::comparisons::same;
use history::Refusal;
use show_engine::{Coloured, Drawing};
use std::alloc::Global;
use std::test::Fail;
use text_io::{Script, Trouble, send};

const ROWS: &str = "    48  E7 Tail <5,4>       | Head 1 >2
    49 *E9 5.next := <6,1>  | Head 1 6 ~
    50 *D13 Head := <7,1> -> value 1 5
";

/// Bright from a star on, dim from the bar on, to the end of the row.
const BRIGHT_ROWS: &str = "\x1b[0m    48  E7 Tail <5,4>       \x1b[0;2m| Head 1 >2\x1b[0m
    49 \x1b[0;1;32m*E9 5.next := <6,1>  \x1b[0;2m| Head 1 6 ~\x1b[0m
    50 \x1b[0;1;32m*D13 Head := <7,1> -> value 1 5\x1b[0m
";

const BARS: &str = "     1 |=*|    enq 5 -> done
     2 *|      deq -> empty
     3  |      shut -> done
     3     *=> enq 6 -> -
";

/// The stars alone.
const BRIGHT_BARS: &str = "\x1b[0m     1 |=\x1b[0;1;32m*\x1b[0m|    enq 5 -> done
     2 \x1b[0;1;32m*\x1b[0m|      deq -> empty
     3  |      shut -> done
     3     \x1b[0;1;32m*\x1b[0m=> enq 6 -> -
";

const BESIDE: &str = "no 2 Late 1
  |==|  4 owner deq from 1 to 3 reply closed
!  *|=| 5 5 enq 4 first 3 last 5 at 2 reply done
times 0 to 4 from 1, operations 2 of 3
";

/// The row of the reason's operation.
const BRIGHT_BESIDE: &str = "\x1b[0mno 2 Late 1
  |==|  4 owner deq from 1 to 3 reply closed
\x1b[0;1;32m!  *|=| 5 5 enq 4 first 3 last 5 at 2 reply done\x1b[0m
times 0 to 4 from 1, operations 2 of 3
";

/// What is drawn, a text of it, and the same with colours.
const COLOURED: [(Drawing, &str, &str); 4] = [
    (Drawing::Picture, ROWS, BRIGHT_ROWS),
    (Drawing::Timeline, BARS, BRIGHT_BARS),
    (Drawing::Reason, BESIDE, BRIGHT_BESIDE),
    (Drawing::Timeline, "", ""),
];

// What reaches a writer that takes pieces of this size, and is in trouble at one call.
fn coloured(alloc: Global, drawing: Drawing, text: &str, piece: usize) -> Result<String, Fail>
    requires { 0 < piece }
{
    let writer = Script::writer(alloc, 1000, piece)?;
    let mut sink = Coloured::new(writer, drawing);
    send(text.as_bytes(), &mut sink).map_err(|_| "refused")?;
    sink.finish().map_err(|_| "refused")?;
    let writer = sink.into_inner();
    let told = std::str::from_utf8(writer.written()).ok().ok_or("no text")?;
    Ok(String::from_str(alloc, told)?)
}

#[test]
fn colours_stars_and_what_stands_beside_actors(rt: HostRuntime) -> Result<(), Fail> {
    for (drawing, text, due) in &COLOURED {
        for piece in [1, 7, 4096] {
            let found = coloured(rt.alloc(), *drawing, text, piece)?;
            same(&rt, found.as_str(), *due, piece);
        }
    }
    Ok(())
}

#[test]
fn takes_no_byte_that_begins_a_colour(rt: HostRuntime) -> Result<(), Fail> {
    let mut sink = Coloured::new(Script::writer(rt.alloc(), 100, 100)?, Drawing::Timeline);
    let answer = send(b"a\x1b[2Jb", &mut sink);
    same(&rt, answer, Err(Refusal::Write), "an escape");
    same(&rt, sink.finish(), Ok(()), "what was before it");
    let writer = sink.into_inner();
    same(
        &rt,
        writer.written(),
        b"\x1b[0ma\x1b[0m".as_slice(),
        "what was before it",
    );
    Ok(())
}

#[test]
fn holds_bytes_back_where_a_write_fails(rt: HostRuntime) -> Result<(), Fail> {
    for trouble in [Trouble::Failure, Trouble::Standstill] {
        let writer = Script::writer(rt.alloc(), 1000, 5)?.with(trouble, 3);
        let mut sink = Coloured::new(writer, Drawing::Timeline);
        same(
            &rt,
            send(BARS.as_bytes(), &mut sink),
            Ok(()),
            "what is held back",
        );
        same(&rt, sink.finish(), Err(Refusal::Write), "the third call");
        same(&rt, sink.finish(), Ok(()), "the same bytes again");
        let writer = sink.into_inner();
        same(&rt, writer.written(), BRIGHT_BARS.as_bytes(), "all of them");
    }
    Ok(())
}
