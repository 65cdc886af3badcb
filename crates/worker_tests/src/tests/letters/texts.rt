//! Texts of mail that are posted over each queue, from any source to any sink.
use crate::tests::comparisons::same;
use crate::tests::jobs::texts::KINDS;
use history::Refusal;
use line_table::QueueKind;
use mail_engine::post_text;
use std::alloc::Global;
use std::process::Abort;
use std::sync::Wait;
use std::test::Fail;
use std::thread::Threads;
use text_io::{Script, Trouble};

const THREE: &[u8] = b"mail 2 3
1 hello
2 hi
1 again
";

const THREE_TOLD: &[u8] = b"letters 3
1 hello
1 again
2 hi
";

// Senders without letters; texts that are empty or look like other lines; a sender alone.
const FOUR: &[u8] = b"mail 64 4
63 letters 3
2\x20
63 1 hello
2 mail 64 4
";

const FOUR_TOLD: &[u8] = b"letters 4
2\x20
2 mail 64 4
63 letters 3
63 1 hello
";

/// Texts of mail, and what is told of them.
const TOLD: [(&[u8], &[u8]); 4] = [
    (THREE, THREE_TOLD),
    (FOUR, FOUR_TOLD),
    (b"mail 1 0\n", b"letters 0\n"),
    (b"mail 1 2\n1 b\n1 a\n", b"letters 2\n1 b\n1 a\n"),
];

// Posts what a reader gives over a queue of this kind: the answer, and what was written, are these.
fn posts<R: Threads + Wait + Sync + Abort>(
    rt: &R,
    alloc: Global,
    (mut reader, mut writer): (Script, Script),
    kind: QueueKind,
    wanted: (Result<(), Refusal>, &[u8]),
    tried: usize,
) {
    let answer = post_text(rt, alloc, &mut reader, &mut writer, kind);
    let found = (answer.map(|_| ()), writer.written());
    same(rt, found, wanted, format_args!("{tried} of {kind:?}"));
}

#[test]
fn each_senders_letters_are_told_in_order(rt: HostRuntime) -> Result<(), Fail> {
    for (text, told) in &TOLD {
        for kind in &KINDS {
            for piece in [1, 7, 4096] {
                let reader = Script::reader(rt.alloc(), text, piece)?;
                let writer = Script::writer(rt.alloc(), 1000, piece)?;
                let wanted = (Ok(()), *told);
                posts(&rt, rt.alloc(), (reader, writer), *kind, wanted, piece);
            }
        }
    }
    Ok(())
}

// Where a call of the writer fails or takes nothing, what was taken before it stands.
fn a_write_ends_it<R: Threads + Wait + Sync + Abort>(
    rt: &R,
    alloc: Global,
    kind: QueueKind,
) -> Result<(), Fail> {
    for call in 1..=4u64 {
        for trouble in [Trouble::Failure, Trouble::Standstill] {
            let reader = Script::reader(alloc, THREE, 9)?;
            let writer = Script::writer(alloc, 1000, 9)?.with(trouble, call);
            let told = (call as usize - 1) * 9;
            assert!(rt; told <= THREE_TOLD.len());
            let wanted = (Err(Refusal::Write), &THREE_TOLD[..told]);
            posts(rt, alloc, (reader, writer), kind, wanted, call as usize);
        }
    }
    Ok(())
}

// Where a call of the reader fails, nothing is written.
fn a_read_ends_it<R: Threads + Wait + Sync + Abort>(
    rt: &R,
    alloc: Global,
    kind: QueueKind,
) -> Result<(), Fail> {
    for call in 1..=5u64 {
        let reader = Script::reader(alloc, THREE, 9)?.with(Trouble::Failure, call);
        let writer = Script::writer(alloc, 1000, 9)?;
        let wanted = (Err(Refusal::Read), b"".as_slice());
        posts(rt, alloc, (reader, writer), kind, wanted, call as usize);
    }
    Ok(())
}

/// Four calls write 31 bytes in pieces of 9. Four read 30 of them, and a fifth tells the end.
#[test]
fn a_call_that_fails_ends_it(rt: HostRuntime) -> Result<(), Fail> {
    for kind in KINDS {
        a_write_ends_it(&rt, rt.alloc(), kind)?;
        a_read_ends_it(&rt, rt.alloc(), kind)?;
    }
    Ok(())
}
