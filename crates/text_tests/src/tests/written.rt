//! What any engine answers of a text, and what it has written then.
ghost use Rattle.std.specs.Prelude.{◌<◌};

use crate::tests::comparisons::same;
use crate::tests::trials::Engine;
use engine_faults::{Ending, Fault};
use history::{Refusal, TextCause};
use std::alloc::Global;
use std::process::Abort;
use std::test::Fail;
use text_io::{Script, Trouble};

/// What an engine answers of a text that comes and goes in pieces of this size, and what it has written.
pub(crate) fn answered(
    alloc: Global,
    engine: Engine,
    text: &str,
    piece: usize,
) -> Result<(Result<Ending, Fault>, String), Fail>
    requires { 0 < piece }
{
    let mut reader = Script::reader(alloc, text.as_bytes(), piece)?;
    let mut writer = Script::writer(alloc, 3000, piece)?;
    let answer = engine.answer(alloc, &mut reader, &mut writer);
    let written = std::str::from_utf8(writer.written()).ok().ok_or("no text")?;
    Ok((answer, String::from_str(alloc, written)?))
}

/// A text with this in place of that.
pub(crate) fn changed(alloc: Global, text: &str, old: &str, new: &str) -> Result<String, Fail> {
    let (before, after) = text.split_once(old).ok_or("the line")?;
    Ok(format!(in alloc; "{before}{new}{after}")?)
}

/// An engine tells the first faulty line of a text with this in place of that, and writes nothing.
pub(crate) fn tells_a_fault(
    rt: &(impl AllocGlobal + Abort),
    engine: Engine,
    text: &str,
    change: (&str, &str),
    fault: Fault,
) -> Result<(), Fail> {
    let (old, new) = change;
    let faulty = changed(rt.alloc(), text, old, new)?;
    let (answer, written) = answered(rt.alloc(), engine, faulty.as_str(), 100)?;
    same(rt, answer, Err(fault), new);
    same(rt, written.as_str(), "", new);
    Ok(())
}

/// The fault of a line of a text.
pub(crate) fn text_fault(line: u64, cause: TextCause) -> Fault {
    Fault::from(Refusal::Text(line, cause))
}

// What an engine answers, through these devices, and how many bytes it has written.
fn told(
    alloc: Global,
    engine: Engine,
    reader: Script,
    writer: Script,
) -> (Result<Ending, Fault>, usize) {
    let mut reader = reader;
    let mut writer = writer;
    let answer = engine.answer(alloc, &mut reader, &mut writer);
    (answer, writer.written().len())
}

/// An engine tells a writer whose second call fails, and one that is full.
pub(crate) fn tells_a_writer_that_fails(
    rt: &(impl AllocGlobal + Abort),
    engine: Engine,
    text: &str,
) -> Result<(), Fail> {
    let failing = Script::writer(rt.alloc(), 2000, 100)?.with(Trouble::Failure, 2);
    let full = Script::writer(rt.alloc(), 30, 100)?;
    for (writer, taken) in [(failing, 100), (full, 30)] {
        let reader = Script::reader(rt.alloc(), text.as_bytes(), 100)?;
        let due = (Err(Fault::from(Refusal::Write)), taken);
        same(rt, told(rt.alloc(), engine, reader, writer), due, taken);
    }
    Ok(())
}
