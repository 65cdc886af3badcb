use crate::tests::comparisons::same;
use engine_faults::{Ending, Fault, end_of};
use history::{Refusal, TextCause, WornWord};
use std::process::Abort;
use std::test::Fail;
use text_io::{Script, Trouble};

/// Outcomes, the refusals among them with the lines that they are told of; the status, and what is written.
const ENDS: [(Result<Ending, (Refusal, Option<u64>)>, u8, &str); 13] = [
    (Ok(Ending::Well), 0, ""),
    (Ok(Ending::No), 3, ""),
    (Ok(Ending::Open), 4, ""),
    (Err((Refusal::NoNode, None)), 1, "fault 1 NoNode\n"),
    (
        Err((Refusal::WornOut(WornWord::Next), None)),
        1,
        "fault 2 WornOut Next\n",
    ),
    (Err((Refusal::Memory, None)), 1, "fault 4 Memory\n"),
    (
        Err((Refusal::IdleActor, Some(8))),
        1,
        "fault 6 IdleActor line 8\n",
    ),
    (
        Err((Refusal::ActorBusy, Some(8))),
        1,
        "fault 7 ActorBusy line 8\n",
    ),
    (
        Err((Refusal::NotHere, Some(8))),
        1,
        "fault 8 NotHere line 8\n",
    ),
    (
        Err((Refusal::NoSuchActor, Some(8))),
        1,
        "fault 9 NoSuchActor line 8\n",
    ),
    (
        Err((Refusal::Text(18446744073709551615, TextCause::Extra), None)),
        1,
        "fault 10 Text line 18446744073709551615 Extra\n",
    ),
    (Err((Refusal::Read, None)), 1, "fault 11 Read\n"),
    (Err((Refusal::Write, None)), 1, "fault 12 Write\n"),
];

// The program ends with this status, and writes this.
fn ends(
    rt: &impl Abort,
    outcome: Result<Ending, (Refusal, Option<u64>)>,
    mut writer: Script,
    status: u8,
    written: &str,
) {
    let outcome = outcome.map_err(|(refusal, line)| Fault { refusal, line });
    let found = end_of(outcome, &mut writer);
    same(
        rt,
        (found, writer.written()),
        (status, written.as_bytes()),
        written,
    );
}

#[test]
fn ends_with_a_status_and_a_line_where_there_is_a_fault(rt: HostRuntime) -> Result<(), Fail> {
    for (outcome, status, line) in &ENDS {
        let writer = Script::writer(rt.alloc(), 100, 7)?;
        ends(&rt, *outcome, writer, *status, line);
    }
    Ok(())
}

#[test]
fn ends_with_the_status_where_the_line_cannot_be_written(rt: HostRuntime) -> Result<(), Fail> {
    let writer = Script::writer(rt.alloc(), 100, 7)?;
    let writer = writer.with(Trouble::Failure, 2);
    ends(&rt, Err((Refusal::Read, None)), writer, 1, "fault 1");
    Ok(())
}
