//! Operations, as a history is to show them: constants, with bodies as numbers below 2^32.
use history::{Body, Op, Refusal, Reply, Stamped, Taken};
use step_machine::Contents;

/// A call, with the number of its body.
#[derive(Clone, Copy, Debug)]
pub enum Call {
    Enq(u32),
    Deq,
    Shut,
}

/// What a call is answered; a value with the actor that pushed it and its body.
#[derive(Clone, Copy, Debug)]
pub enum Answer {
    Done,
    Value(u16, u32),
    Empty,
    Refused(Refusal),
}

/// An operation of an actor that is complete: its first and its last number, and the one at which it took
/// effect; and what it answered.
#[derive(Clone, Copy, Debug)]
pub struct Complete(pub u16, pub Call, pub (u64, u64, u64), pub Answer);

/// A word of a world.
#[derive(Clone, Copy, Debug)]
pub enum Word {
    /// A number that is no reference.
    Number(u64),
    /// A reference, with 16, with 24 and with 32 bits for the node.
    Reference(u64, u64, u64),
}

/// What a word holds, by its parts.
#[derive(Clone, Copy, Debug)]
pub enum Content {
    /// A number that is no reference.
    Number(u64),
    /// The node and the count of a reference.
    Reference(u32, u64),
    /// The count of a closed end.
    Closed(u64),
    /// The actor that pushed a value, and its body.
    Value(u16, u32),
}

/// What a world tells of a word that holds this.
pub fn contents(content: Content) -> Contents {
    match content {
        Content::Number(number) => Contents::Number(number),
        Content::Reference(node, count) => Contents::Reference(node, count),
        Content::Closed(count) => Contents::Closed(count),
        Content::Value(from, number) => Contents::Value(taken(from, number)),
    }
}

/// The word as it is with so many bits for a node, which are 16, 24 or 32.
pub fn word_in<const B: u32>(word: Word) -> u64 {
    match (word, B) {
        (Word::Number(number), _) => number,
        (Word::Reference(least, _, _), 16) => least,
        (Word::Reference(_, usual, _), 24) => usual,
        (Word::Reference(_, _, most), _) => most,
    }
}

/// The number of a closed end, with 16, 24 or 32 bits for a node.
pub fn closed_end<const B: u32>() -> u32 {
    match B {
        16 => 65_535,
        24 => 16_777_215,
        _ => 4_294_967_295,
    }
}

fn body(number: u32) -> Body {
    match Body::new(u64::from(number)) {
        Some(body) => body,
        None => unreachable!(),
    }
}

/// The operation of a queue that is this call.
pub fn op(call: Call) -> Op {
    match call {
        Call::Enq(number) => Op::Enq(body(number)),
        Call::Deq => Op::Deq,
        Call::Shut => Op::Shut,
    }
}

/// A value, with the actor that pushed it.
pub fn taken(from: u16, number: u32) -> Taken {
    Taken {
        from,
        body: body(number),
    }
}

/// The reply of a queue that is this answer.
pub fn reply(answer: Answer) -> Reply {
    match answer {
        Answer::Done => Reply::Done,
        Answer::Value(from, number) => Reply::Value(taken(from, number)),
        Answer::Empty => Reply::Empty,
        Answer::Refused(refusal) => Reply::Refused(refusal),
    }
}

/// The operation as it stands in a history.
pub fn stamped(shown: Complete) -> Stamped {
    let Complete(actor, call, (first, last, at), answer) = shown;
    Stamped {
        actor,
        op: op(call),
        first,
        last: Some(last),
        at: Some(at),
        reply: Some(reply(answer)),
    }
}
