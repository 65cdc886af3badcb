use crate::tests::comparisons::same;
use engine_faults::Fault;
use history::{Refusal, TextCause};
use std::test::Fail;

/// Refusals with the lines that they are told of, and the text of the fault.
const FAULTS: [(Refusal, Option<u64>, &str); 10] = [
    (Refusal::Memory, None, "fault 4 Memory"),
    (Refusal::IdleActor, Some(8), "fault 6 IdleActor line 8"),
    (Refusal::ActorBusy, Some(8), "fault 7 ActorBusy line 8"),
    (Refusal::NotHere, Some(8), "fault 8 NotHere line 8"),
    (Refusal::NoSuchActor, Some(8), "fault 9 NoSuchActor line 8"),
    (
        Refusal::NotHere,
        Some(1_000_006),
        "fault 8 NotHere line 1000006",
    ),
    (
        Refusal::Text(8, TextCause::Form),
        None,
        "fault 10 Text line 8 Form",
    ),
    (
        Refusal::Text(1_000_006, TextCause::Extra),
        None,
        "fault 10 Text line 1000006 Extra",
    ),
    (Refusal::Read, None, "fault 11 Read"),
    (Refusal::Write, None, "fault 12 Write"),
];

#[test]
fn writes_a_line_for_each_fault(rt: HostRuntime) -> Result<(), Fail> {
    for (refusal, line, want) in &FAULTS {
        let fault = Fault {
            refusal: *refusal,
            line: *line,
        };
        let text = format!(in rt.alloc(); "{fault}")?;
        same(&rt, text.as_str(), *want, "");
    }
    Ok(())
}
