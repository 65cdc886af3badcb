//! What a page is written of: a text, as it was given, and the schedule that it stands for.
ghost use Rattle.std.specs.Prelude.{◌≡◌, ◌≢◌, IfErr, IfOk};
ghost use Rattle.engine_faults.specs.Faults.{IsRunRefusal};
ghost use Rattle.run_engine.specs.Extents.{IsExtentOf};
ghost use Rattle.run_engine.specs.Runs.{TellsFaultyLine};
ghost use Rattle.schedule_text.specs.Texts.{IsInRange, schedule_lines, schedule_text, version_due};
ghost use Rattle.text_io.specs.Prefixes.{IsRefusedBy};
ghost use Rattle.text_io.specs.Readings.{EndsReadingFor, WereAll};
ghost use Rattle.page_engine.specs.Given.{IsOne, ended_at};

use crate::followed::extent_of;
use engine_faults::Fault;
use history::Refusal;
use run_engine::{RunExtent, refuse_at};
use schedule_text::{Schedule, parse};
use std::alloc::Global;
use text_io::{Parser, Source, parse_source};

/// An event or an act that is refused, and the line in which it stands.
#[derive(Clone, Copy)]
pub(crate) struct Stop {
    pub(crate) refusal: Refusal,
    pub(crate) line: u64,
}

/// What a page is written of.
#[derive(Drop)]
pub(crate) struct Given {
    /// The text itself.
    pub(crate) text: Vec<u8>,
    /// The schedule that it stands for.
    pub(crate) schedule: Schedule,
    /// How far the events of that can be made.
    pub(crate) extent: RunExtent,
    /// What is refused, and where, if anything is.
    pub(crate) stop: Option<Stop>,
}

/// Where a run stops, by how it ends. Without a line memory alone is refused.
pub(crate) fn stop_in(ended: Result<(), Fault>) -> Result<Option<Stop>, Refusal>
    ensures ok { IfOk result (λ stop. ended ≡ ended_at stop) }
    ensures err { IfErr result (λ refusal. refusal ≡ Refusal.Memory) }
{
    match ended {
        Ok(()) => Ok(None),
        Err(fault) => match fault.line {
            Some(line) => Ok(Some(Stop {
                refusal: fault.refusal,
                line,
            })),
            None => Err(Refusal::Memory),
        },
    }
}

/// How a run ends that stops there.
pub(crate) fn ended(stop: Option<Stop>) -> Result<(), Fault>
    ensures { result ≡ ended_at stop }
{
    match stop {
        None => Ok(()),
        Some(stop) => Err(Fault {
            refusal: stop.refusal,
            line: Some(stop.line),
        }),
    }
}

/// A copy of a text.
fn copied(alloc: Global, text: &[u8]) -> Result<Vec<u8>, Refusal>
    ensures ok { IfOk result (λ copy. copy.items ≡ text.now) }
    ensures err { IfErr result (λ refusal. refusal ≡ Refusal.Memory) }
{
    match Vec::from_slice(alloc, text) {
        Ok(copy) => Ok(copy),
        Err(_) => Err(Refusal::Memory),
    }
}

/// What is given by the text of a schedule.
fn schedule_given(alloc: Global, text: &[u8]) -> Result<Given, Refusal>
    ensures text { IfOk result (λ given. text.now ≡ given.text.items) }
    ensures one { IfOk result IsOne }
    ensures err { IfErr result (IsRefusedBy schedule_lines version_due text.now) }
{
    let schedule = parse(alloc, text)?;
    let extent = extent_of(alloc, &schedule)?;
    let stop = stop_in(refuse_at(&schedule, &extent))?;
    let text = copied(alloc, text)?;
    Ok(Given {
        text,
        schedule,
        extent,
        stop,
    })
}

/// Texts of schedules, which are kept.
struct GivenSchedules;

impl Parser for GivenSchedules {
    ghost use Rattle.schedule_text.specs.Texts.{Due, Said, schedule_lines, version_due};
    ghost use Rattle.page_engine.specs.Given.{IsOne};

    type Parsed = Given;

    ghost State = { Due };

    ghost Said = { Said };

    ghost grammar = { schedule_lines };

    ghost first = { version_due };

    ghost text_of = { λ given. given.text.items };

    ghost in_range = { IsOne };

    fn parse(alloc: Global, text: &[u8]) -> Result<Given, Refusal> {
        schedule_given(alloc, text)
    }
}

/// The text that a source gives, and the schedule whose text it is.
///
/// It is refused, in this order, by `Memory`, as soon as a growth is refused; `Read`, where a call of the reader fails; `Text`, where the
/// bytes are no schedule. It takes memory; whether it waits is up to the reader.
pub(crate) fn given_in<R: Source>(alloc: Global, reader: &mut R) -> Result<Given, Refusal>
    ensures read { IfOk result (λ given. WereAll (R.state reader.old).left given.text.items) }
    ensures one { IfOk result IsOne }
    ensures text { IfErr result (TellsFaultyLine (R.state reader.old).left) }
    ensures unwritten { IfErr result (λ refusal. refusal ≢ Refusal.Write) }
    ensures refusal { IfErr result IsRunRefusal }
    ensures reader { EndsReadingFor result (R.state reader.old) (R.state reader.new) }
{
    Ok(parse_source::<GivenSchedules, R>(alloc, reader)?)
}
