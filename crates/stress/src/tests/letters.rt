//! Letters through an office, and of many senders over each queue of a mailbox; values for threads that sleep.
use crate::letters::came;
use crate::offices::{Office, posted};
use crate::queues::kind_of;
use crate::sleepers::{Task, told_of};
use line_table::Kind;
use std::test::Fail;

/// The runs of offices: senders, receivers, letters of each sender, places.
const OFFICES: [(usize, usize, u64, u32); 4] = [
    (4, 2, 25_000, 1000),
    (4, 1, 2_500, 1),
    (1, 2, 100_000, 64),
    (2, 1, 0, 10),
];

/// The runs of mailboxes: how often each is made, of how many senders, with how many letters each.
const MAILBOXES: [(u32, u16, usize); 2] = [(5, 4, 1000), (1, 64, 1_562)];

/// How many values are sent to a thread that sleeps for each, and how many milliseconds eight threads sleep for none.
const FEW: u32 = 100;

/// Each letter, a text, comes once, and each sender's in order to each receiver.
#[test]
fn each_letter_comes_once_through_an_office(rt: HostRuntime) -> Result<(), Fail> {
    for (senders, receivers, letters, places) in OFFICES {
        let asked = Office {
            senders,
            receivers,
            letters,
            places,
        };
        let right = posted::<_, String>(&rt, rt.alloc(), asked)?.is_right(letters * senders as u64);
        assert!(rt;
            right,
            "{senders} senders, {receivers} receivers, {places} places"
        );
    }
    Ok(())
}

/// All letters of 4 and of 64 senders come, each sender's in order, and the queue is then shut.
#[test]
fn each_senders_letters_come_in_order(rt: HostRuntime) -> Result<(), Fail> {
    for name in ["two-lock", "non-blocking", "ring"] {
        let kind = kind_of(name).expect(&rt, name);
        for (times, senders, letters) in MAILBOXES {
            for _ in 0..times {
                let came = came(&rt, rt.alloc(), kind, senders, letters)?;
                assert_eq!(rt;
                    (came.in_order, came.shut),
                    (Some(letters * usize::from(senders)), true),
                    "{name}, {senders} senders of {letters} letters"
                );
            }
        }
    }
    Ok(())
}

/// All of 100 values come to a thread that sleeps for each, and eight threads that sleep are told of a shut.
#[test]
fn who_sleeps_is_told_of_a_value_and_of_a_shut(rt: HostRuntime) -> Result<(), Fail> {
    for kind in [Kind::TwoLock, Kind::NonBlocking] {
        let times = told_of(&rt, rt.alloc(), kind, Task::Wake, FEW)?;
        assert_eq!(rt; times.len(), FEW as usize, "{kind:?}: values that came");
        let told = told_of(&rt, rt.alloc(), kind, Task::Idle, FEW)?;
        assert_eq!(rt;
            told.first().copied(),
            Some(8),
            "{kind:?}: threads that were told of a shut"
        );
    }
    Ok(())
}
