//! Texts of jobs that are done over each queue, from any source to any sink.
use history::{Close, Refusal};
use job_engine::{CrewSeats, JobQueue, work_text};
use line_table::{Kind, QueueKind};
use picked::{AnyQueueOf, EitherQueue};
use std::alloc::Global;
use std::test::Fail;
use text_io::{Script, Trouble};

const FOUR: &[u8] = b"jobs 4
add 2 3
mul 4 5
div 7 0
len abc
";

// 153 bytes.
const FOUR_TOLD: &[u8] = b"results 4
       1 add 5
       2 mul 20
       3 div by-zero
       4 len 3
add              1
mul              1
div              1
len              1
";

// Texts that are empty, or look like other lines.
const THREE: &[u8] = b"jobs 3
len add 1 1
div 7 2
len\x20
";

const THREE_TOLD: &[u8] = b"results 3
       1 len 7
       2 div 3
       3 len 0
len              2
div              1
";

/// Each queue that jobs and letters go over.
pub const KINDS: [QueueKind; 3] = [
    QueueKind::Linked(Kind::TwoLock),
    QueueKind::Linked(Kind::NonBlocking),
    QueueKind::Ring,
];

// Which kind of queue this is; how many values were taken from it, whether its seats did all that was done, and whether it was
// shut, as it tells where all its seats close it.
fn closed(alloc: Global, done: JobQueue) -> Result<(QueueKind, u64, bool, bool), Refusal> {
    let (kind, rest) = match done.into_parts() {
        (EitherQueue::First(queue), CrewSeats::Linked(seats)) => {
            let kind = match &queue {
                AnyQueueOf::NonBlocking(_) => Kind::NonBlocking,
                AnyQueueOf::TwoLock(_) => Kind::TwoLock,
            };
            let (rest, _end) = queue.close(alloc, seats)?;
            (QueueKind::Linked(kind), rest)
        }
        (EitherQueue::Second(queue), CrewSeats::Ring(seats)) => {
            let (rest, _end) = queue.close(alloc, seats)?;
            (QueueKind::Ring, rest)
        }
        _ => unreachable!(),
    };
    Ok((kind, rest.taken(), rest.whole(), rest.was_shut()))
}

/// As many values as jobs were taken from the queue that is answered, by its own seats, and it was shut.
#[test]
fn each_jobs_result_is_told_in_order(rt: HostRuntime) -> Result<(), Fail> {
    let rows: [(&[u8], &[u8], u64); 3] = [
        (FOUR, FOUR_TOLD, 4),
        (THREE, THREE_TOLD, 3),
        (b"jobs 0\n", b"results 0\n", 0),
    ];
    for (text, told, jobs) in &rows {
        for kind in KINDS {
            for piece in [1, 7, 4096] {
                let mut reader = Script::reader(rt.alloc(), text, piece)?;
                let mut writer = Script::writer(rt.alloc(), 1000, piece)?;
                let answer = work_text(&rt, rt.alloc(), &mut reader, &mut writer, 2, kind, 5);
                let found = match answer {
                    Ok(done) => closed(rt.alloc(), done),
                    Err(refusal) => Err(refusal),
                };
                assert_eq!(rt;
                    (found, writer.written()),
                    (Ok((kind, *jobs, true, true)), *told),
                    "{piece} of {kind:?}"
                );
            }
        }
    }
    Ok(())
}

/// Nine calls write 153 bytes in pieces of 17. Three read 39 of them, and a fourth tells the end.
#[test]
fn a_call_that_fails_ends_it(rt: HostRuntime) -> Result<(), Fail> {
    for kind in KINDS {
        for call in 1..=9u64 {
            for trouble in [Trouble::Failure, Trouble::Standstill] {
                let mut reader = Script::reader(rt.alloc(), FOUR, 17)?;
                let mut writer = Script::writer(rt.alloc(), 1000, 17)?.with(trouble, call);
                let answer = work_text(&rt, rt.alloc(), &mut reader, &mut writer, 2, kind, 5);
                let told = (call as usize - 1) * 17;
                assert!(rt; told <= FOUR_TOLD.len());
                assert_eq!(rt;
                    (answer.map(|_| ()), writer.written()),
                    (Err(Refusal::Write), &FOUR_TOLD[..told])
                );
            }
        }
        for call in 1..=4u64 {
            let mut reader = Script::reader(rt.alloc(), FOUR, 17)?.with(Trouble::Failure, call);
            let mut writer = Script::writer(rt.alloc(), 1000, 17)?;
            let answer = work_text(&rt, rt.alloc(), &mut reader, &mut writer, 2, kind, 5);
            assert_eq!(rt;
                (answer.map(|_| ()), writer.written()),
                (Err(Refusal::Read), b"".as_slice())
            );
        }
    }
    Ok(())
}
