//! What a page has between the parts of its frame.
ghost use Rattle.std.specs.Prelude.{◌≡◌, ◌++◌, ◌≤◌, IfErr, IfOk, OnOk, length};
ghost use Rattle.page_engine.specs.Followed as followed;
ghost use Rattle.page_engine.specs.Given.{CanBeMade, IsContentOf};

use crate::engine::Frame;
use crate::followed::follow;
use crate::given::{Given, Stop};
use crate::kept::KeptText;
use crate::shown::keep_shown;
use history::Refusal;
use std::alloc::Global;
use text_io::LineBuffer;

// The words of what an event may be refused.
fn refusal_words(refusal: Refusal) -> &'static [u8]
    ensures words { result.now ≡ followed.refusal_words refusal }
    ensures short { length result.now ≤ 16 }
{
    match refusal {
        Refusal::IdleActor => b"6 IdleActor",
        Refusal::ActorBusy => b"7 ActorBusy",
        Refusal::NotHere => b"8 NotHere",
        _ => b"9 NoSuchActor",
    }
}

// The line of an event that is refused.
fn fault_line(refusal: Refusal, number: u64) -> LineBuffer
    ensures { result ≡ followed.fault_line refusal number }
{
    let mut line = LineBuffer::new();
    line.push(b"fault ");
    line.push(refusal_words(refusal));
    line.push(b" line ");
    line.push_number(number);
    line.push(b"\n");
    line
}

/// Keeps the line of what is refused, if anything is.
fn keep_fault(stop: Option<Stop>, kept: &mut KeptText) -> Result<(), Refusal>
    ensures kept { OnOk result (kept.new.bytes.items ≡ kept.old.bytes.items ++ followed.fault_text stop) }
    ensures only_memory { IfErr result (λ refusal. refusal ≡ Refusal.Memory) }
{
    match stop {
        None => Ok(()),
        Some(stop) => kept.put(fault_line(stop.refusal, stop.line).as_slice()),
    }
}

/// What a page has between the first and the last part of its frame.
pub(crate) fn content_of(
    alloc: Global,
    frame: &Frame<'_>,
    given: &Given,
) -> Result<KeptText, Refusal>
    requires { CanBeMade given.now }
    ensures ok { IfOk result (λ kept. IsContentOf frame.now given.now kept.bytes.items) }
    ensures only_memory { IfErr result (λ refusal. refusal ≡ Refusal.Memory) }
{
    let mut kept = KeptText::new(alloc);
    keep_shown(&given.text, &mut kept)?;
    kept.put(frame.between.as_bytes())?;
    follow(alloc, &given.schedule, &given.extent, &mut kept)?;
    keep_fault(given.stop, &mut kept)?;
    Ok(kept)
}
