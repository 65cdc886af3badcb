//! Recipes that are refused, each one that is well but for a line.
use crate::tests::trials::Engine;
use crate::tests::written::{tells_a_fault, text_fault};
use engine_faults::Fault;
use history::{Refusal, TextCause};
use std::test::Fail;

const WELL: &str = "msq schedule 3
queue two-lock
bits 24
nodes 3
limit 100
actors 2
begin 1 enq 5
until 1 A4
begin 2 enq 6
until 2 A3
repeat 2
steps 2 1
end
finish 1
end
";

const TEXTS: [(&str, &str, u64, TextCause); 25] = [
    ("msq schedule 3", "msq schedule 1", 1, TextCause::Form),
    ("msq schedule 3", "msq schedule\r 3", 1, TextCause::Form),
    ("msq schedule 3", "#\nmsq schedule 3", 1, TextCause::Form),
    ("bits 24", "bits 15", 3, TextCause::Range),
    ("bits 24\n", "# 24\nlimit 100\n", 4, TextCause::Form),
    ("bits 24\nnodes 3", "nodes 16777215", 3, TextCause::Range),
    ("bits 24\nnodes 3", "nodes 3\nbits 24", 4, TextCause::Form),
    ("nodes 3", "nodes 16777215", 4, TextCause::Range),
    ("actors 2", "actors 2\nevents 8", 7, TextCause::Form),
    ("until 1 A4", "until 1 A8", 8, TextCause::Form),
    ("until 1 A4", "until 0 A4", 8, TextCause::Range),
    ("until 1 A4", "until 1 # A4", 8, TextCause::Form),
    ("until 1 A4", "until 1 A4\r # no end", 8, TextCause::Form),
    ("until 1 A4", "until 1A4", 8, TextCause::Form),
    ("until 1 A4", "un\ttil 1 A4", 8, TextCause::Form),
    ("finish 1", "finish 1 A4", 14, TextCause::Form),
    ("finish 1", "finish 65536", 14, TextCause::Range),
    ("repeat 2", "repeat 0", 11, TextCause::Range),
    ("repeat 2", "repeat 999997", 12, TextCause::Range),
    ("steps 2 1", "repeat 2", 12, TextCause::Form),
    ("steps 2 1", "repeat 0", 12, TextCause::Form),
    ("finish 1\nend\n", "finish 1\n", 15, TextCause::End),
    ("finish 1\nend\n", "finish 1\nend", 15, TextCause::End),
    (
        "finish 1\nend\n",
        "finish 1\nend\nend\n",
        16,
        TextCause::Extra,
    ),
    (
        "finish 1\nend\n",
        "finish 1\nend\n# more\n",
        16,
        TextCause::Extra,
    ),
];

const ACTS: [(&str, &str, u64, Refusal); 10] = [
    ("begin 1 enq 5", "begin 3 enq 5", 7, Refusal::NoSuchActor),
    ("begin 2 enq 6", "begin 1 enq 6", 9, Refusal::ActorBusy),
    ("until 1 A4", "until 3 A4", 8, Refusal::NoSuchActor),
    ("until 1 A4", "until 2 A4", 8, Refusal::IdleActor),
    ("until 1 A4", "until 1 B1", 8, Refusal::NotHere),
    ("steps 2 1", "# again\nfinish 3", 13, Refusal::NoSuchActor),
    ("finish 1", "finish 3", 14, Refusal::NoSuchActor),
    ("steps 2 1", "finish 1", 12, Refusal::IdleActor),
    // Actor 2 waits for the lock that actor 1 holds.
    ("steps 2 1", "finish 2", 12, Refusal::ActorBusy),
    ("steps 2 1", "until 2 A4", 12, Refusal::NotHere),
];

#[test]
fn tells_the_first_faulty_line(rt: HostRuntime) -> Result<(), Fail> {
    for (old, new, line, cause) in &TEXTS {
        let due = text_fault(*line, *cause);
        tells_a_fault(&rt, Engine::Expand, WELL, (*old, *new), due)?;
    }
    Ok(())
}

#[test]
fn tells_the_first_act_that_is_refused(rt: HostRuntime) -> Result<(), Fail> {
    for (old, new, line, refusal) in &ACTS {
        let due = Fault {
            refusal: *refusal,
            line: Some(*line),
        };
        tells_a_fault(&rt, Engine::Expand, WELL, (*old, *new), due)?;
    }
    Ok(())
}
