//! An engine that is handed a text, and what it answers and writes.
ghost use Rattle.std.specs.Prelude.{◌<◌};

use crate::tests::comparisons::same;
use engine_faults::{Ending, Fault, end_of};
use expand_engine::{expand_text, run_recipe, trace_recipe};
use history::{Refusal, TextCause};
use place_engine::{check_text, place_holding, place_text};
use placing::Placed;
use run_engine::{run_text, trace_text};
use show_engine::{View, show_found, show_history, show_recipe, show_text};
use std::alloc::Global;
use std::fmt::Display;
use std::process::Abort;
use std::test::Fail;
use text_io::{Script, Trouble};

/// The engine of a command.
#[derive(Clone, Copy)]
pub enum Engine {
    Run,
    Check,
    Place,
    /// Places with the lines of a reason's operations.
    Why,
    /// The same of a queue that holds `one` and `two` at the start.
    Holding,
    Trace,
    /// Expands a recipe.
    Expand,
    /// Runs, traces or shows a recipe.
    RunRecipe,
    TraceRecipe,
    ShowRecipe(View<'static>),
    /// Shows a schedule's run.
    Show(View<'static>),
    /// Shows a history.
    Timeline(View<'static>),
    /// Shows what is found of a history or a recording.
    Reason(View<'static>),
}

impl Engine {
    /// How it ends.
    pub(crate) fn answer(
        self,
        alloc: Global,
        reader: &mut Script,
        writer: &mut Script,
    ) -> Result<Ending, Fault> {
        match self {
            Engine::Run => run_text(alloc, reader, writer)?,
            Engine::Trace => trace_text(alloc, reader, writer)?,
            Engine::Expand => expand_text(alloc, reader, writer)?,
            Engine::RunRecipe => run_recipe(alloc, reader, writer)?,
            Engine::TraceRecipe => trace_recipe(alloc, reader, writer)?,
            Engine::ShowRecipe(view) => show_recipe(alloc, reader, writer, view)?,
            Engine::Show(view) => show_text(alloc, reader, writer, view)?,
            Engine::Timeline(view) => show_history(alloc, reader, writer, view)?,
            Engine::Reason(view) => show_found(alloc, reader, writer, view, 1_000_000)?,
            Engine::Check => return Ok(Ending::from(check_text(alloc, reader, writer)?)),
            Engine::Place => {
                return Ok(ending_of(&place_text(alloc, reader, writer, 1_000_000, false)?.found));
            }
            Engine::Why => {
                return Ok(ending_of(&place_text(alloc, reader, writer, 1_000_000, true)?.found));
            }
            Engine::Holding => {
                let held: [&[u8]; 2] = [b"one", b"two"];
                let told = place_holding(alloc, reader, writer, 1_000_000, true, &held)?;
                return Ok(ending_of(&told.found));
            }
        }
        Ok(Ending::Well)
    }
}

fn ending_of(found: &Placed) -> Ending {
    match found {
        Placed::History(_) => Ending::Well,
        Placed::Impossible(_) => Ending::No,
        Placed::Open(_) => Ending::Open,
    }
}

/// What the program does with a text: its status, what it writes, and the line at a fault.
pub type Done<'a> = (u8, &'a str, &'a str);

/// The program does this with a text that comes in pieces of this size, and goes in such ones.
pub(crate) fn does(
    rt: &impl Abort,
    alloc: Global,
    engine: Engine,
    text: &[u8],
    piece: usize,
    want: Done,
    tried: &str,
) -> Result<(), Fail>
    requires { 0 < piece }
{
    let mut reader = Script::reader(alloc, text, piece)?;
    let mut writer = Script::writer(alloc, 3000, piece)?;
    let mut complaints = Script::writer(alloc, 100, piece)?;
    let outcome = engine.answer(alloc, &mut reader, &mut writer);
    let status = end_of(outcome, &mut complaints);
    let (wanted, written, complained) = want;
    same(
        rt,
        (status, writer.written(), complaints.written()),
        (wanted, written.as_bytes(), complained.as_bytes()),
        format_args!("by {piece}: {tried}"),
    );
    Ok(())
}

/// The program writes this, whatever the pieces that the text comes and goes in.
pub(crate) fn does_by_any_piece(
    rt: &impl Abort,
    alloc: Global,
    engine: Engine,
    text: &str,
    status: u8,
    want: &str,
) -> Result<(), Fail> {
    for piece in [1, 7, 4096] {
        does(
            rt,
            alloc,
            engine,
            text.as_bytes(),
            piece,
            (status, want, ""),
            text,
        )?;
    }
    Ok(())
}

/// The engine answers this, and this is written.
pub(crate) fn answers(
    rt: &impl Abort,
    alloc: Global,
    engine: Engine,
    reader: Script,
    writer: Script,
    want: (Result<Ending, Refusal>, &[u8]),
    tried: impl Display + Drop,
) {
    let mut reader = reader;
    let mut writer = writer;
    let answer = engine.answer(alloc, &mut reader, &mut writer);
    let (outcome, written) = want;
    same(
        rt,
        (answer, writer.written()),
        (outcome.map_err(Fault::from), written),
        tried,
    );
}

/// The engine tells the end of the text that is truncated before any of its bytes, and writes nothing.
pub(crate) fn tells_each_end(
    rt: &impl Abort,
    alloc: Global,
    engine: Engine,
    text: &[u8],
) -> Result<(), Fail> {
    let mut line = 1u64;
    for (place, byte) in text.iter().enumerate() {
        let reader = Script::reader(alloc, &text[..place], 4096)?;
        let writer = Script::writer(alloc, 1000, 4096)?;
        let want = Err(Refusal::Text(line, TextCause::End));
        let tried = format_args!("before byte {place}");
        answers(rt, alloc, engine, reader, writer, (want, b""), tried);
        if *byte == b'\n' {
            line = line.saturating_add(1);
        }
    }
    Ok(())
}

/// The engine writes nothing where any of the calls that read the text fails.
pub(crate) fn writes_nothing(
    rt: &impl Abort,
    alloc: Global,
    engine: Engine,
    text: &str,
) -> Result<(), Fail> {
    let calls = text.len().div_ceil(7) as u64;
    for call in 1..calls.saturating_add(2) {
        let reader = Script::reader(alloc, text.as_bytes(), 7)?;
        let reader = reader.with(Trouble::Failure, call);
        let writer = Script::writer(alloc, 1000, 7)?;
        let want = Err(Refusal::Read);
        let tried = format_args!("at call {call}: {text}");
        answers(rt, alloc, engine, reader, writer, (want, b""), tried);
    }
    Ok(())
}

/// The engine writes a prefix of this where any of the calls that write it fails, or takes nothing.
pub(crate) fn writes_a_prefix(
    rt: &impl Abort,
    alloc: Global,
    engine: Engine,
    text: &str,
    whole: &[u8],
) -> Result<(), Fail> {
    for trouble in [Trouble::Failure, Trouble::Standstill] {
        let mut call = 0u64;
        for taken in (0..whole.len()).step_by(7) {
            call = call.saturating_add(1);
            let reader = Script::reader(alloc, text.as_bytes(), 4096)?;
            let writer = Script::writer(alloc, 1000, 7)?;
            let writer = writer.with(trouble, call);
            let want = (Err(Refusal::Write), &whole[..taken]);
            let tried = format_args!("at call {call}: {text}");
            answers(rt, alloc, engine, reader, writer, want, tried);
        }
    }
    Ok(())
}
