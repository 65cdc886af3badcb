//! The text of a history.
ghost use Rattle.std.specs.Prelude.{◌≡◌, ◌+◌, ◌≤◌, ◌++◌, length};
ghost use Rattle.text_io.specs.Blocks.{Writes};
ghost use Rattle.history_text.specs.HistoryText.{call_text, step_text, refusal_text, reply_text};
ghost use Rattle.history_text.specs.HistoryText.{operation_text, header_text, history_text};

use history::{Op, Refusal, Reply, Stamped, WornWord};
use text_io::{Block, LINE_ROOM, LineBuffer, Sink};

/// Writes the text of a history: a line with the number of its operations, then a line for each, in
/// the order of the list.
///
/// It takes no memory. It is refused by `Write` where a call of the writer fails or takes nothing; a
/// prefix of the text is written then. A reader takes the text back where each actor is 1 or more,
/// each step is, and each refusal is one that a queue answers.
pub fn print_history<W: Sink>(history: &[Stamped], writer: &mut W) -> Result<(), Refusal>
    //= texts/print: The texts of any list of operations and of a schedule are printed exactly.
    ensures { Writes (W.state writer.old) (W.state writer.new) (history_text history.now) result }
{
    let mut block = Block::new();
    block.put(writer, header_line(history.len() as u64).as_slice())?;
    for operation in history {
        block.put(writer, operation_line(operation).as_slice())?;
    }
    block.finish(writer)
}

#[tactic(auto, unfolding(crate::specs::HistoryText::header_text))]
fn header_line(count: u64) -> LineBuffer
    ensures { result ≡ header_text count }
{
    let mut line = LineBuffer::new();
    line.push(b"history ");
    line.push_number(count);
    line.push(b"\n");
    line
}

#[tactic(auto, unfolding(crate::specs::HistoryText::operation_text))]
fn operation_line(operation: &Stamped) -> LineBuffer
    ensures { result ≡ operation_text operation.now }
{
    let mut line = LineBuffer::new();
    line.push_number(u64::from(operation.actor));
    line.push(b" ");
    push_call(&mut line, operation.op);
    line.push(b" first ");
    line.push_number(operation.first);
    line.push(b" last ");
    push_step(&mut line, operation.last);
    line.push(b" at ");
    push_step(&mut line, operation.at);
    line.push(b" reply ");
    push_reply(&mut line, operation.reply);
    line.push(b"\n");
    line
}

/// Puts a call at the end of a line: `enq` and its body, `deq`, or `shut`. It takes no memory.
pub fn push_call(line: &mut LineBuffer, op: Op)
    requires { length line.old + 24 ≤ LINE_ROOM }
    ensures text { line.new ≡ line.old ++ call_text op }
    ensures short { length line.new ≤ length line.old + 24 }
{
    match op {
        Op::Enq(body) => {
            line.push(b"enq ");
            line.push_number(body.number());
        }
        Op::Deq => line.push(b"deq"),
        Op::Shut => line.push(b"shut"),
    }
}

fn push_step(line: &mut LineBuffer, step: Option<u64>)
    requires { length line.old + 20 ≤ LINE_ROOM }
    ensures text { line.new ≡ line.old ++ step_text step }
    ensures short { length line.new ≤ length line.old + 20 }
{
    match step {
        Some(step) => line.push_number(step),
        None => line.push(b"-"),
    }
}

/// Puts a reply at the end of a line, or a dash where there is none: a value with its pusher and its
/// body, a refusal with its number and a worn word's name. It takes no memory.
pub fn push_reply(line: &mut LineBuffer, reply: Option<Reply>)
    requires { length line.old + 47 ≤ LINE_ROOM }
    ensures text { line.new ≡ line.old ++ reply_text reply }
    ensures short { length line.new ≤ length line.old + 47 }
{
    match reply {
        None => line.push(b"-"),
        Some(Reply::Done) => line.push(b"done"),
        Some(Reply::Value(value)) => {
            line.push(b"value ");
            line.push_number(u64::from(value.from));
            line.push(b" ");
            line.push_number(value.body.number());
        }
        Some(Reply::Empty) => line.push(b"empty"),
        Some(Reply::Refused(refusal)) => {
            line.push(b"refused ");
            line.push(refusal_words(refusal));
        }
    }
}

fn refusal_words(refusal: Refusal) -> &'static [u8]
    ensures text { result.now ≡ refusal_text refusal }
    ensures short { length result.now ≤ 6 }
{
    match refusal {
        Refusal::NoNode => b"1",
        Refusal::WornOut(WornWord::Free) => b"2 Free",
        Refusal::WornOut(WornWord::Next) => b"2 Next",
        Refusal::WornOut(WornWord::Tail) => b"2 Tail",
        Refusal::WornOut(WornWord::Head) => b"2 Head",
        Refusal::Busy => b"3",
        Refusal::Memory => b"4",
        Refusal::BadSize => b"5",
        Refusal::IdleActor => b"6",
        Refusal::ActorBusy => b"7",
        Refusal::NotHere => b"8",
        Refusal::NoSuchActor => b"9",
        Refusal::Text(_, _) => b"10",
        Refusal::Read => b"11",
        Refusal::Write => b"12",
        Refusal::Stranger => b"13",
        Refusal::Double => b"14",
        Refusal::Lost => b"15",
        Refusal::Closed => b"16",
    }
}
