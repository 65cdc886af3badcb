//! Commands with options, which are handed on to the engines.
ghost use Rattle.std.specs.Prelude.{◌≡◌, ◌↔◌, [], Err, IfOk, IfSome, OnOk, false, true, if◌then◌else◌, map, option_map};
ghost use Rattle.std.specs.Io.KnownBytes.{Keeps};
ghost use Rattle.show_engine.specs.Colouring.{plain_state, state_of};
ghost use Rattle.show_engine.specs.Plain.{plain};
ghost use Rattle.job_engine.specs.Crews.{IsCrewQueue};
ghost use Rattle.job_engine.specs.Queues.{queue_in};
ghost use Rattle.job_engine.specs.Works.{IsBadSize};
ghost use Rattle.page_engine.specs.Histories.{WritesHistoryPage};
ghost use Rattle.page_engine.specs.Pages.{WritesPage};
ghost use Rattle.page_engine.specs.Recipes.{WritesRecipePage};
ghost use Rattle.recording_text.specs.RecordingReading.{bytes_of};
ghost use Rattle.recording_text.specs.HeldTexts.{AreHeld};
ghost use Rattle.place_engine.specs.Places.{TellsPlaces};
ghost use Rattle.msq.specs.Options.{Draws, PlacesBy, has_colours, held_texts};

use command_line::{Colours, Crew, Placing, ShowOptions};
use engine_faults::Fault;
use history::Refusal;
use job_engine::{JobQueue, work_text};
use page_engine::{Frame, history_page, page_recipe, page_text};
use place_engine::{Told, place_holding, place_text};
use show_engine::{
    Coloured, Drawing, Meaning, View, show_found, show_history, show_recipe, show_text,
};
use std::alloc::Global;
use std::sync::Wait;
use std::thread::Threads;
use text_io::{Sink, Source};

/// How many bytes the states of a search for an order take at most, of which a page or a picture tells: as many as where the words of
/// `place` don't say it.
const PAGE_ROOM: u64 = 1_073_741_824;

/// What pages have around what they show.
#[derive(Clone, Copy)]
pub(crate) struct Frames<'a> {
    /// Around the trace of a run.
    pub(crate) run: Frame<'a>,
    /// Around a history and what is found of it.
    pub(crate) history: Frame<'a>,
}

/// The meanings that are told behind a picture.
fn legend_by<'a>(options: ShowOptions, meanings: &'a [Meaning<'a>]) -> &'a [Meaning<'a>]
    ensures { result.now ≡ (if options.has_legend then meanings.now else []) }
{
    if options.has_legend { meanings } else { &[] }
}

/// Draws the schedule, or the recipe, or the history, or what is found of a recorded history, that a source gives, by the options of `show`, with
/// these meanings of lines where they ask for a legend; or writes the page of a schedule, a recipe or a history, in its frame.
pub(crate) fn show_by<'a, S: Source, W: Sink>(
    alloc: Global,
    options: ShowOptions,
    frames: &Frames<'_>,
    meanings: &'a [Meaning<'a>],
    is_recipe: bool,
    reader: &mut S,
    writer: &mut W,
) -> Result<(), Fault>
    //= program/show_options: At Ok `show_by`, which `msq show` calls, has drawn what its options ask for: the picture of a
    //=   schedule, or of a recipe that it takes the text for, the timeline of a history, or what is found of a recorded history, of just that width, those steps and
    //=   that actor, with a legend or without one; or the page around the schedule's or the recipe's text and its trace, or around
    //=   the history and what is found of it.
    ensures drawn { OnOk result (Draws options frames.now meanings.now is_recipe
        (S.state reader.old).left (W.state writer.old) (W.state writer.new)) }
{
    let view = View {
        width: options.width,
        from: options.from,
        to: options.to,
        actor: options.actor,
        legend: legend_by(options, meanings),
    };
    if options.is_page {
        return page_by(alloc, options, frames, is_recipe, reader, writer);
    }
    if options.draws_reason {
        show_found(alloc, reader, writer, view, PAGE_ROOM)?;
        return Ok(());
    }
    if options.is_history {
        show_history(alloc, reader, writer, view)?;
        return Ok(());
    }
    if is_recipe {
        return show_recipe(alloc, reader, writer, view);
    }
    show_text(alloc, reader, writer, view)
}

/// Writes the page of the schedule, or of the recipe, or of the history, that a source gives, in its frame.
fn page_by<S: Source, W: Sink>(
    alloc: Global,
    options: ShowOptions,
    frames: &Frames<'_>,
    is_recipe: bool,
    reader: &mut S,
    writer: &mut W,
) -> Result<(), Fault>
    ensures run { options.is_history ≡ false → is_recipe ≡ false → OnOk result (WritesPage frames.now.run
        (S.state reader.old).left (W.state writer.old) (W.state writer.new)) }
    ensures recipe { options.is_history ≡ false → is_recipe ≡ true → OnOk result
        (WritesRecipePage frames.now.run (S.state reader.old).left (W.state writer.old)
        (W.state writer.new)) }
    ensures history { options.is_history ≡ true → OnOk result (WritesHistoryPage frames.now.history
        (S.state reader.old).left PAGE_ROOM (W.state writer.old) (W.state writer.new)) }
{
    if options.is_history {
        history_page(alloc, reader, writer, &frames.history, PAGE_ROOM)?;
        return Ok(());
    }
    if is_recipe {
        return page_recipe(alloc, reader, writer, &frames.run);
    }
    page_text(alloc, reader, writer, &frames.run)
}

/// Finds points for the history that a source gives, or a reason why there are none, by the options of `place`; where the queue
/// holds texts at the start, for the recording.
pub(crate) fn place_by<S: Source, W: Sink>(
    alloc: Global,
    options: Placing,
    held: Option<&[&[u8]]>,
    reader: &mut S,
    writer: &mut W,
) -> Result<Told, Refusal>
    requires { IfSome held (λ held. AreHeld (map bytes_of held.now)) }
    //= program/place_options: At Ok `place_by`, which `msq place` calls, has searched within the room that its options ask for, if
    //=   its answer is open, and has written the lines of a reason's operations exactly where they ask for these. What the queue
    //=   holds at the start is what it is given.
    ensures { IfOk result (λ told. PlacesBy (held_texts held.entry) (S.state reader.old).left
        options.room options.tells_why (W.state writer.old) (W.state writer.new) told.found) }
{
    let room = u64::from(options.room);
    match held {
        Some(held) => place_holding(alloc, reader, writer, room, options.tells_why, held),
        None => place_text(alloc, reader, writer, room, options.tells_why),
    }
}

/// Whether what is drawn has colours; usual is where it may have some. A page has none.
pub(crate) fn wants_colours(options: ShowOptions, is_usual: bool) -> bool
    //= program/colours: `wants_colours` answers no for a page; else yes for `--color always`, no for `--color never`, and
    //=   without either whether colours are usual, as it is told.
    ensures { result ≡ has_colours options is_usual }
{
    match options.colours {
        _ if options.is_page => false,
        Colours::Auto => is_usual,
        Colours::Always => true,
        Colours::Never => false,
    }
}

/// What is drawn by the options of `show`.
fn drawing_by(options: ShowOptions) -> Drawing {
    match (options.draws_reason, options.is_history) {
        (true, _) => Drawing::Reason,
        (false, true) => Drawing::Timeline,
        (false, false) => Drawing::Picture,
    }
}

/// Has a sink hand on the last of what was drawn, and answers what became of it.
fn finished<W: Sink>(drawn: Result<(), Fault>, sink: &mut Coloured<W>) -> Result<(), Fault>
    ensures same { OnOk result (result ≡ drawn) }
    ensures kept { OnOk result (Keeps (state_of W.state sink.old).contents
        (option_map plain (W.state sink.new.inner).contents)) }
{
    // Nothing was drawn, or the sink gave up.
    if let Err(fault) = drawn
        && fault.line.is_none()
    {
        return drawn;
    }
    sink.finish()?;
    drawn
}

/// Draws with colours: a sink takes what `show_by` would write, with colours between the bytes. The sink comes back.
pub(crate) fn show_coloured<'a, S: Source, W: Sink>(
    alloc: Global,
    options: ShowOptions,
    frames: &Frames<'_>,
    meanings: &'a [Meaning<'a>],
    is_recipe: bool,
    reader: &mut S,
    writer: W,
) -> (Result<(), Fault>, W)
    //= program/plain: At Ok what `show_coloured` has written is, without the codes of colours, some drawing
    //=   that `show_by` may write.
    ensures drawn { OnOk result.0 (Draws options frames.now meanings.now is_recipe
        (S.state reader.old).left (plain_state (W.state writer)) (plain_state (W.state result.1))) }
{
    let mut coloured = Coloured::new(writer, drawing_by(options));
    let drawn = show_by(
        alloc,
        options,
        frames,
        meanings,
        is_recipe,
        reader,
        &mut coloured,
    );
    let outcome = finished(drawn, &mut coloured);
    (outcome, coloured.into_inner())
}

/// Does the jobs that a source gives, by the options of `work`, and answers their queue.
pub(crate) fn work_by<T: Threads + Wait + Sync, S: Source, W: Sink>(
    rt: &T,
    alloc: Global,
    options: Crew,
    reader: &mut S,
    writer: &mut W,
) -> Result<JobQueue, Refusal>
    //= program/work_options (over, sized): `work_by`, which `msq work` calls, takes workers, queue and nodes as its options
    //=   ask for: at Ok the queue that its engine answers was made for these, and it is refused `BadSize` exactly where
    //=   they are out of range.
    ensures over { IfOk result
        (λ done. IsCrewQueue options.kind options.nodes options.workers (queue_in done)) }
    ensures sized { (result ≡ Err Refusal.BadSize) ↔ IsBadSize options.workers options.nodes }
{
    work_text(
        rt,
        alloc,
        reader,
        writer,
        options.workers,
        options.kind,
        options.nodes,
    )
}
