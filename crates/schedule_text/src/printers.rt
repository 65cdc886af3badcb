//! The text of a schedule.
ghost use Rattle.std.specs.Prelude.{◌≡◌, ◌+◌, ◌≤◌, ◌++◌, ◌∷◌, [], length};
ghost use Rattle.std.specs.List.{flat_map};
ghost use Rattle.text_io.specs.Blocks.{Writes};
ghost use Rattle.text_io.specs.Grammars.{lines_of};
ghost use Rattle.text_io.specs.Lines.{spaced};
ghost use Rattle.text_io.specs.Numerals.{numeral};
ghost use Rattle.schedule_text.specs.Readers.{sizes_in};
ghost use Rattle.schedule_text.specs.Texts.{version as says_version, queue, number, bits_said, schedule_lines, kind_name, version_name, call_words};
ghost use Rattle.schedule_text.specs.Texts.{event_words, event_text, header_text, schedule_text};

use crate::fields::Field;
use crate::readers::Sizes;
use crate::schedules::{Event, Schedule, Version};
use history::{Op, Refusal};
use line_table::Kind;
use text_io::{Block, LINE_ROOM, LineBuffer, Sink};

/// Writes the text of a schedule, of the version that it has: the header lines, then a line for each
/// event, in their order.
///
/// It takes no memory; whether it waits is up to the writer. It is refused by `Write` where a call of
/// the writer fails or takes nothing; a prefix of the text is written then. `parse` takes the text
/// back where each number is in its range.
pub fn print<W: Sink>(schedule: &Schedule, writer: &mut W) -> Result<(), Refusal>
    //= texts/print
    ensures { Writes (W.state writer.old) (W.state writer.new) (schedule_text schedule.now) result }
{
    print_lines(header_lines(schedule), &schedule.events, writer)
}

// Writes the header lines, and then a line for each event.
fn print_lines<W: Sink>(header: LineBuffer, events: &[Event], writer: &mut W) -> Result<(), Refusal>
    ensures { Writes (W.state writer.old) (W.state writer.new)
        (header ++ flat_map event_text events.now) result }
{
    let mut block = Block::new();
    block.put(writer, header.as_slice())?;
    for event in events {
        block.put(writer, event_line(*event).as_slice())?;
    }
    block.finish(writer)
}

fn header_lines(schedule: &Schedule) -> LineBuffer
    ensures { result ≡ header_text schedule.now }
{
    let mut lines = LineBuffer::new();
    push_opening(&mut lines, schedule.version, schedule.kind);
    push_bits(&mut lines, schedule.version, schedule.bits);
    let sizes = Sizes {
        nodes: schedule.nodes,
        limit: schedule.limit,
        actors: schedule.actors,
        events: schedule.events.len() as u64,
    };
    push_sizes(&mut lines, sizes);
    lines
}

fn push_opening(lines: &mut LineBuffer, version: Version, kind: Kind)
    requires { length lines.old + 40 ≤ LINE_ROOM }
    ensures text { lines.new ≡ lines.old
        ++ lines_of schedule_lines (says_version version ∷ queue kind ∷ []) }
    ensures short { length lines.new ≤ length lines.old + 40 }
{
    lines.push(b"msq schedule ");
    lines.push(name_of_version(version));
    lines.push(b"\nqueue ");
    lines.push(name_of_kind(kind));
    lines.push(b"\n");
}

// The line of how many bits hold a node, where the version has it.
fn push_bits(lines: &mut LineBuffer, version: Version, bits: u32)
    requires { length lines.old + 30 ≤ LINE_ROOM }
    ensures text { lines.new ≡ lines.old ++ lines_of schedule_lines (bits_said version bits) }
    ensures short { length lines.new ≤ length lines.old + 30 }
{
    match version {
        Version::One => {}
        Version::Two => push_field(lines, Field::Bits, u64::from(bits)),
    }
}

fn push_sizes(lines: &mut LineBuffer, sizes: Sizes)
    requires { length lines.old + 120 ≤ LINE_ROOM }
    ensures { lines.new ≡ lines.old ++ lines_of schedule_lines (sizes_in sizes) }
{
    push_field(lines, Field::Nodes, u64::from(sizes.nodes));
    push_field(lines, Field::Limit, sizes.limit);
    push_field(lines, Field::Actors, u64::from(sizes.actors));
    push_field(lines, Field::Events, sizes.events);
}

// The line of a number of the header.
fn push_field(lines: &mut LineBuffer, field: Field, value: u64)
    requires { length lines.old + 30 ≤ LINE_ROOM }
    ensures text { lines.new ≡ lines.old ++ lines_of schedule_lines (number field value ∷ []) }
    ensures short { length lines.new ≤ length lines.old + 30 }
{
    lines.push(field.name());
    lines.push(b" ");
    push_numeral(lines, value);
    lines.push(b"\n");
}

fn name_of_version(version: Version) -> &'static [u8]
    ensures text { result.now ≡ version_name version }
    ensures short { length result.now ≤ 1 }
{
    match version {
        Version::One => b"1",
        Version::Two => b"2",
    }
}

/// The name of a queue. Takes no memory and doesn't wait.
pub fn name_of_kind(kind: Kind) -> &'static [u8]
    ensures text { result.now ≡ kind_name kind }
    ensures short { length result.now ≤ 11 }
{
    match kind {
        Kind::TwoLock => b"two-lock",
        Kind::NonBlocking => b"nonblocking",
    }
}

#[tactic(auto, unfolding(crate::specs::Texts::event_text))]
fn event_line(event: Event) -> LineBuffer
    ensures { result ≡ event_text event }
{
    let mut line = LineBuffer::new();
    push_event(&mut line, event);
    line.push(b"\n");
    line
}

fn push_event(line: &mut LineBuffer, event: Event)
    requires { length line.old + 60 ≤ LINE_ROOM }
    ensures text { line.new ≡ line.old ++ spaced (event_words event) }
    ensures short { length line.new ≤ length line.old + 60 }
{
    match event {
        Event::Begin(actor, call) => {
            push_actor(line, b"begin ", actor);
            line.push(b" ");
            push_call(line, call);
        }
        Event::Step(actor, at) => {
            push_actor(line, b"step ", actor);
            line.push(b" ");
            line.push(at.name().as_bytes());
        }
        Event::Steps(actor, count) => {
            push_actor(line, b"steps ", actor);
            line.push(b" ");
            push_numeral(line, u64::from(count));
        }
        Event::Give(actor) => push_actor(line, b"give ", actor),
    }
}

fn push_actor(line: &mut LineBuffer, words: &[u8], actor: u16)
    requires { length line.old + length words.now + 20 ≤ LINE_ROOM }
    ensures text { line.new ≡ line.old ++ words.now ++ numeral actor }
    ensures short { length line.new ≤ length line.old + length words.now + 20 }
{
    line.push(words);
    push_numeral(line, u64::from(actor));
}

fn push_call(line: &mut LineBuffer, call: Op)
    requires { length line.old + 24 ≤ LINE_ROOM }
    ensures text { line.new ≡ line.old ++ spaced (call_words call) }
    ensures short { length line.new ≤ length line.old + 24 }
{
    match call {
        Op::Enq(body) => {
            line.push(b"enq ");
            push_numeral(line, body.number());
        }
        Op::Deq => line.push(b"deq"),
        Op::Shut => line.push(b"shut"),
    }
}

fn push_numeral(line: &mut LineBuffer, number: u64)
    requires { length line.old + 20 ≤ LINE_ROOM }
    ensures digits { line.new ≡ line.old ++ numeral number }
    ensures short { length line.new ≤ length line.old + 20 }
{
    line.push_number(number);
}
