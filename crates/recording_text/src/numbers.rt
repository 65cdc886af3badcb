//! Texts as numbers, by the order in which they first occur.
ghost use Rattle.std.specs.Prelude.{◌≡◌, ◌≤◌, IfErr, IfOk, OnOk, length, option_map};
ghost use Rattle.recording_text.specs.Numbers.{number_in, op_by, reply_by, stamped_by, with_text, with_texts};
ghost use Rattle.recording_text.specs.Recordings.{text_of_call, text_of_told, texts_in};
ghost use Rattle.recording_text.specs.RecordingReading.{said_of, said_call, said_told, known_by};

use crate::lines::{ReadCall, ReadOperation};
use crate::replies::ReadReply;
use history::{Body, Op, Refusal, Reply, Stamped, Taken};
use indexmap::IndexSet;

/// The actor of each operation: the names of those who called are no part of a history.
const ACTOR: u16 = 1;

/// The operation with its texts as numbers, among the texts that are known; new ones become known, behind the others.
pub fn numbered<'a>(
    known: &mut IndexSet<&'a [u8]>,
    read: ReadOperation<'a>,
) -> Result<Stamped, Refusal>
    requires { length (known_by known.old) ≤ 3000000 }
    ensures ok { IfOk result (λ o. o ≡ stamped_by (known_by known.new) (said_of read.entry)) }
    ensures learnt { OnOk result (known_by known.new
        ≡ with_texts (known_by known.old) (texts_in (said_of read.entry))) }
    ensures err { IfErr result (λ refusal. refusal ≡ Refusal.Memory) }
{
    let op = numbered_call(known, read.call)?;
    let reply = numbered_reply(known, read.reply)?;
    Ok(Stamped {
        actor: ACTOR,
        op,
        first: read.first,
        last: read.last,
        at: None,
        reply,
    })
}

fn numbered_call<'a>(known: &mut IndexSet<&'a [u8]>, call: ReadCall<'a>) -> Result<Op, Refusal>
    requires { length (known_by known.old) ≤ 3000001 }
    ensures ok { IfOk result (λ op. op ≡ op_by (known_by known.new) (said_call call.entry)) }
    ensures learnt { OnOk result (known_by known.new
        ≡ with_texts (known_by known.old) (text_of_call (said_call call.entry))) }
    ensures err { IfErr result (λ refusal. refusal ≡ Refusal.Memory) }
{
    Ok(match call {
        ReadCall::Push(text) => Op::Enq(number_of(known, text)?),
        ReadCall::Pop => Op::Deq,
        ReadCall::Shut => Op::Shut,
    })
}

fn numbered_reply<'a>(
    known: &mut IndexSet<&'a [u8]>,
    reply: Option<ReadReply<'a>>,
) -> Result<Option<Reply>, Refusal>
    requires { length (known_by known.old) ≤ 3000001 }
    ensures ok { IfOk result (λ told.
        told ≡ option_map (reply_by (known_by known.new)) (said_told reply.entry)) }
    ensures learnt { OnOk result (known_by known.new
        ≡ with_texts (known_by known.old) (text_of_told (said_told reply.entry))) }
    ensures err { IfErr result (λ refusal. refusal ≡ Refusal.Memory) }
{
    let Some(reply) = reply else {
        return Ok(None);
    };
    Ok(Some(match reply {
        ReadReply::Done => Reply::Done,
        ReadReply::Value(text) => Reply::Value(Taken {
            from: ACTOR,
            body: number_of(known, text)?,
        }),
        ReadReply::Empty => Reply::Empty,
        ReadReply::Refused => Reply::Refused(Refusal::NoNode),
        ReadReply::Closed => Reply::Refused(Refusal::Closed),
    }))
}

/// The number of a text, from 1.
fn number_of<'a>(known: &mut IndexSet<&'a [u8]>, text: &'a [u8]) -> Result<Body, Refusal>
    requires { length (known_by known.old) ≤ 3000001 }
    ensures ok { IfOk result (λ body. body ≡ number_in (known_by known.new) text.now) }
    ensures learnt { OnOk result (known_by known.new ≡ with_text (known_by known.old) text.now) }
    ensures err { IfErr result (λ refusal. refusal ≡ Refusal.Memory) }
{
    let Ok((index, _)) = known.insert_full(text) else {
        return Err(Refusal::Memory);
    };
    let Some(body) = Body::new(index as u64 + 1) else {
        unreachable!()
    };
    Ok(body)
}
