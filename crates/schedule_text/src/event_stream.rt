//! The events of a schedule whose text a source gives.
ghost use Rattle.std.specs.Prelude.{◌≡◌, ℕ, [], Option, IfOk, IfErr, None, Ok, Err};
ghost use Rattle.text_io.specs.Devices.{SourceState};
ghost use Rattle.schedule_text.specs.EventStreams.{IsNext, IsRefused, IsStarted};
ghost use Rattle.schedule_text.specs.SourceLines.{IsStopped};
ghost use Rattle.schedule_text.specs.Streams.{stream};
ghost use Rattle.schedule_text.specs.Texts.{Due, version_due};

use crate::ahead::Ahead;
use crate::readers::Header;
use crate::schedules::Event;
use crate::source_lines::{due_from, header_from};
use history::Refusal;
use std::marker::Model;
use text_io::{Source, TextCause};

/// What further calls of an `EventStream` answer.
#[derive(Clone, Copy, Debug, PartialEq, Eq)]
pub enum Stage {
    /// What comes next.
    Going,
    /// That there is no further event.
    Ended,
    /// This refusal.
    Refused(Refusal),
}

/// A schedule that is read event by event, from a source that each call is handed.
///
/// At most 4,096 bytes that were read ahead and at most 64 bytes of a line are held, in arrays. It
/// takes no memory.
#[derive(Drop)]
pub struct EventStream {
    ahead: Ahead,
    header: Header,
    /// How many events are left.
    left: u64,
    stage: Stage,
}

impl Model for EventStream {
    ghost use Rattle.std.specs.Prelude.{◌≤◌};
    ghost use Rattle.schedule_text.specs.EventStreams.{EventStream};

    ghost Value = { EventStream };

    ghost view = { λ s. record { ahead = s.ahead; header = s.header; left = s.left; stage = s.stage } };

    ghost invariant = { λ s. (s.left ≤ s.header.events) × (s.header.events ≤ 1000000) };
}

// The refusal to be answered: at a text's fault the source is read to its end, where it wasn't yet, and
// where that fails `Read` stands in place of the fault.
fn told<R: Source>(ahead: &mut Ahead, reader: &mut R, refusal: Refusal) -> Refusal
    ensures { (before : ℕ) (due : Due) (first : SourceState)
        → IsStopped before due first (stream ahead.old (R.state reader.old)) refusal
        → IsRefused before due first (stream ahead.new (R.state reader.new)) result }
{
    match refusal {
        Refusal::Text(_, TextCause::End) => refusal,
        Refusal::Text(_, _) => match ahead.drain(reader) {
            Ok(()) => refusal,
            Err(read) => read,
        },
        _ => refusal,
    }
}

impl EventStream {
    /// Reads the lines of the header, six or seven.
    ///
    /// It is refused with `Text` where the text isn't a schedule's by then: with the number of its
    /// first faulty line, from 1, and what is wrong with it. The source is read to its end before
    /// that is answered. It is refused with `Read` where a call of the source fails, also where one
    /// fails behind a fault. It takes no memory; whether it waits is up to the source.
    pub fn start<R: Source>(reader: &mut R) -> Result<EventStream, Refusal>
        //= texts/events (ok, err): A schedule's header and then its events are told as the source's lines say them, in
        //=   range; none only where all were told and the source ended. Else a call of the source failed, or none did
        //=   and the first fault of what was read to its end is told. After a refusal or the end further calls answer
        //=   the same and leave the source.
        ensures ok { IfOk result (λ events. IsStarted events
            (stream [] (R.state reader.old)) (stream events.ahead (R.state reader.new))) }
        ensures err { IfErr result (IsRefused 0 version_due (R.state reader.old)
            (R.state reader.new)) }
    {
        let mut ahead = Ahead::new();
        match header_from(&mut ahead, reader) {
            Ok(header) => Ok(EventStream {
                ahead,
                left: header.events,
                header,
                stage: Stage::Going,
            }),
            Err(refusal) => Err(told(&mut ahead, reader, refusal)),
        }
    }

    /// What the header says.
    pub fn header(&self) -> &Header
        ensures { result.now ≡ self.now.header }
    {
        &self.header
    }

    /// The next event; none where all were given and nothing follows.
    ///
    /// It is refused as `start` is, with `Text` also where bytes follow the last event. After a
    /// refusal each further call answers the same one, and after the end each answers that there is
    /// none: such a call leaves the source as it is. It takes no memory; whether it waits is up to
    /// the source.
    pub fn next<R: Source>(&mut self, reader: &mut R) -> Result<Option<Event>, Refusal>
        //= texts/events (next, ended, refused)
        ensures next { self.old.stage ≡ Stage.Going → IsNext self.old self.new
            (stream self.old.ahead (R.state reader.old))
            (stream self.new.ahead (R.state reader.new)) result }
        ensures ended { self.old.stage ≡ Stage.Ended
            → (result ≡ Ok None) × (self.new ≡ self.old) × (reader.new ≡ reader.old) }
        ensures refused { (refusal : Refusal) → self.old.stage ≡ Stage.Refused refusal
            → (result ≡ Err refusal) × (self.new ≡ self.old) × (reader.new ≡ reader.old) }
    {
        match self.stage {
            Stage::Going => self.go_on(reader),
            Stage::Ended => Ok(None),
            Stage::Refused(refusal) => Err(refusal),
        }
    }

    // What the source gives next.
    fn go_on<R: Source>(&mut self, reader: &mut R) -> Result<Option<Event>, Refusal>
        requires { self.old.stage ≡ Stage.Going }
        ensures { IsNext self.old self.new
            (stream self.old.ahead (R.state reader.old))
            (stream self.new.ahead (R.state reader.new)) result }
    {
        let version = self.header.version;
        let before = version.header_lines() + (self.header.events - self.left);
        match due_from(&mut self.ahead, reader, version, before, self.left) {
            Ok(Some(event)) => {
                self.left -= 1;
                Ok(Some(event))
            }
            Ok(None) => {
                self.stage = Stage::Ended;
                Ok(None)
            }
            Err(refusal) => {
                let refusal = told(&mut self.ahead, reader, refusal);
                self.stage = Stage::Refused(refusal);
                Err(refusal)
            }
        }
    }
}
