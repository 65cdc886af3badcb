//! What an actor's step did, as a short text.
ghost use Rattle.std.specs.Prelude.{◌≡◌, ◌+◌, ◌≤◌, ◌++◌, codes, length, decimal};
ghost use Rattle.history_text.specs.HistoryText.{call_text};
ghost use Rattle.step_machine.specs.Accesses.{word_named};
ghost use Rattle.run_engine.specs.Stands.{at_text};
ghost use Rattle.show_engine.specs.Cells.{access_text, answer_text, cell_text, change_text, gives_text, held_text, lost_text, mark_text, name_text, named_reply, place_text};

use history::{Op, Refusal, Reply};
use history_text::{push_call, push_reply};
use line_table::Line;
use run_engine::push_at;
use step_machine::{Contents, Stepped, WordName};
use text_io::{LINE_ROOM, LineBuffer};

/// Puts the name of a word at the end of a line.
fn push_place(line: &mut LineBuffer, word: WordName)
    requires { length line.old + 26 ≤ LINE_ROOM }
    ensures text { line.new ≡ line.old ++ place_text (word_named word) }
    ensures short { length line.new ≤ length line.old + 26 }
{
    match word {
        WordName::Fresh => line.push(b"Fresh"),
        WordName::Free => line.push(b"Free"),
        WordName::Head => line.push(b"Head"),
        WordName::Tail => line.push(b"Tail"),
        WordName::TailLock => line.push(b"T_lock"),
        WordName::HeadLock => line.push(b"H_lock"),
        WordName::Next(node) => {
            line.push_number(u64::from(node));
            line.push(b".next");
        }
        WordName::Value(node) => {
            line.push_number(u64::from(node));
            line.push(b".value");
        }
    }
}

/// Two numbers in brackets.
fn pair(open: &[u8], first: u64, second: u64, close: &[u8]) -> LineBuffer
    requires { length open.now + length close.now ≤ 2 }
    ensures text { result ≡ open.now ++ decimal first ++ codes "," ++ decimal second ++ close.now }
    ensures short { length result ≤ 43 }
{
    let mut line = LineBuffer::new();
    line.push(open);
    line.push_number(first);
    line.push(b",");
    line.push_number(second);
    line.push(close);
    line
}

/// What a word holds, as a text.
fn held(contents: Contents) -> LineBuffer
    ensures text { result ≡ held_text contents }
    ensures short { length result ≤ 43 }
{
    match contents {
        Contents::Number(number) => {
            let mut line = LineBuffer::new();
            line.push_number(number);
            line
        }
        Contents::Reference(node, count) => pair(b"<", u64::from(node), count, b">"),
        Contents::Closed(count) => {
            let mut line = LineBuffer::new();
            line.push(b"<shut,");
            line.push_number(count);
            line.push(b">");
            line
        }
        Contents::Value(value) => pair(b"(", u64::from(value.from), value.body.number(), b")"),
    }
}

/// Puts at the end of a line what an exchange that is lost expected, if it is one.
fn push_lost(line: &mut LineBuffer, expected: Option<Contents>)
    requires { length line.old + 54 ≤ LINE_ROOM }
    ensures text { line.new ≡ line.old ++ lost_text expected }
    ensures short { length line.new ≤ length line.old + 54 }
{
    if let Some(contents) = expected {
        line.push(b" lost, not ");
        line.push(held(contents).as_slice());
    }
}

/// Puts what became of a word at the end of a line, by what it held and what it holds, and what an exchange expected.
fn push_change(line: &mut LineBuffer, expected: Option<Contents>, found: &[u8], now: &[u8])
    requires room { length line.old + 98 ≤ LINE_ROOM }
    requires fits { length now.now ≤ 43 }
    ensures text { line.new ≡ line.old ++ change_text expected found.now now.now }
    ensures short { length line.new ≤ length line.old + 98 }
{
    if found != now {
        line.push(b" := ");
        line.push(now);
    } else {
        line.push(b" ");
        line.push(now);
        push_lost(line, expected);
    }
}

/// An access of a word: what it expected, if it is a compare-exchange, what it found, and what the word holds now.
#[derive(Clone, Copy)]
pub(crate) struct Access {
    pub(crate) word: WordName,
    pub(crate) expected: Option<Contents>,
    pub(crate) found: Contents,
    pub(crate) now: Contents,
}

/// Puts an access at a line.
fn push_access(line: &mut LineBuffer, at: Line, access: Access)
    requires { length line.old + 128 ≤ LINE_ROOM }
    ensures text { line.new ≡ line.old
        ++ access_text at (word_named access.word) access.expected access.found access.now }
    ensures short { length line.new ≤ length line.old + 128 }
{
    line.push(at.name().as_bytes());
    line.push(b" ");
    push_place(line, access.word);
    push_change(
        line,
        access.expected,
        held(access.found).as_slice(),
        held(access.now).as_slice(),
    );
}

/// Where an actor stands whose next step touches this word: before which line, and what the word holds.
pub(crate) fn stand_cell(at: Option<Line>, word: WordName, holds: Contents) -> LineBuffer
    ensures { result ≡ codes " at " ++ at_text at ++ codes " " ++ place_text (word_named word)
        ++ codes " " ++ held_text holds }
{
    let mut line = LineBuffer::new();
    line.push(b" at ");
    push_at(&mut line, at);
    line.push(b" ");
    push_place(&mut line, word);
    line.push(b" ");
    line.push(held(holds).as_slice());
    line
}

/// A line with the mark before a step.
fn marked(is_marked: bool) -> LineBuffer
    ensures text { result ≡ mark_text is_marked }
    ensures short { length result ≡ 1 }
{
    let mut line = LineBuffer::new();
    line.push(if is_marked { b"*" } else { b" " });
    line
}

/// Puts the name of a refusal that a queue answers at the end of a line.
fn push_name(line: &mut LineBuffer, reply: &Reply)
    requires { length line.old + 10 ≤ LINE_ROOM }
    ensures text { line.new ≡ line.old ++ name_text reply.now }
    ensures short { length line.new ≤ length line.old + 10 }
{
    if let Reply::Refused(refusal) = reply {
        match refusal {
            Refusal::NoNode => line.push(b" (NoNode)"),
            Refusal::WornOut(_) => line.push(b" (WornOut)"),
            Refusal::Busy => line.push(b" (Busy)"),
            Refusal::Closed => line.push(b" (Closed)"),
            _ => {}
        }
    }
}

/// Puts a reply at the end of a line, or a dash where there is none, with the name of a refusal.
pub(crate) fn push_named(line: &mut LineBuffer, reply: &Option<Reply>)
    requires { length line.old + 57 ≤ LINE_ROOM }
    ensures text { line.new ≡ line.old ++ named_reply reply.now }
    ensures short { length line.new ≤ length line.old + 57 }
{
    push_reply(line, *reply);
    if let Some(reply) = reply {
        push_name(line, reply);
    }
}

/// Puts the reply of a call that ended at the end of a line.
fn push_answer(line: &mut LineBuffer, told: &Stepped)
    requires { length line.old + 61 ≤ LINE_ROOM }
    ensures text { line.new ≡ line.old ++ answer_text told.now }
    ensures short { length line.new ≤ length line.old + 61 }
{
    if let Stepped::Ended(_, reply) = *told {
        line.push(b" -> ");
        push_named(line, &Some(reply));
    }
}

/// What a begin is shown as.
pub(crate) fn begin_cell(op: &Op) -> LineBuffer
    ensures { result ≡ codes " " ++ call_text op.now }
{
    let mut cell = LineBuffer::new();
    cell.push(b" ");
    push_call(&mut cell, *op);
    cell
}

/// What a step is shown as, by its access.
pub(crate) fn step_cell(is_marked: bool, told: &Stepped, access: Access) -> LineBuffer
    ensures { result ≡ cell_text is_marked told.now
        (λ l. access_text l (word_named access.word) access.expected access.found access.now) }
{
    let mut cell = marked(is_marked);
    match *told {
        Stepped::Began => {}
        Stepped::Went(at) | Stepped::Ended(at, _) => push_access(&mut cell, at, access),
    }
    push_answer(&mut cell, told);
    cell
}

/// What a giving up is shown as.
pub(crate) fn give_cell(is_marked: bool, told: &Stepped) -> LineBuffer
    ensures { result ≡ cell_text is_marked told.now gives_text }
{
    let mut cell = marked(is_marked);
    match *told {
        Stepped::Began => {}
        Stepped::Went(at) | Stepped::Ended(at, _) => {
            cell.push(at.name().as_bytes());
            cell.push(b" gives");
        }
    }
    push_answer(&mut cell, told);
    cell
}
