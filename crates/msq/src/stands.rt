//! Where an actor stands whose event or act is refused, in words.
use crate::notes::Notes;
use crate::starts::{first_word, is_recipe, spoken};
use expand_engine::trace_recipe;
use history::Refusal;
use run_engine::trace_text;
use std::alloc::Global;
use std::io;
use std::rt::Runtime;
use text_io::{LineBuffer, ReaderSource, Sink, line_at, split_once};

/// How many of the last bytes of a trace are kept at least: those of where 65,535 actors stand are fewer.
const MOST_TOLD: usize = 4_194_304;

/// The last bytes that were written.
#[derive(Drop)]
struct Tail {
    alloc: Global,
    bytes: Vec<u8>,
}

impl Tail {
    /// Keeps these too, and drops the oldest ones where they are many. Where memory is refused, it starts anew.
    fn keep(&mut self, more: &[u8]) {
        if self.bytes.extend_from_slice(more).is_err() {
            self.bytes.clear();
        }
        let count = self.bytes.len();
        if count / 2 > MOST_TOLD {
            match Vec::from_slice(self.alloc, &self.bytes[count - MOST_TOLD..]) {
                Ok(last) => self.bytes = last,
                Err(_) => self.bytes.clear(),
            }
        }
    }

    /// What follows these words in the last line that begins with them.
    fn told(&self, actor: &[u8], word: &[u8]) -> Option<&[u8]> {
        let mut found = None;
        let mut rest = self.bytes.as_slice();
        for _ in 0..self.bytes.len() {
            let Some((line, later)) = line_at(rest) else {
                break;
            };
            if let Some((first, behind)) = split_once(line, b' ')
                && first == actor
                && let Some((second, told)) = split_once(behind, b' ')
                && second == word
            {
                found = Some(told);
            }
            rest = later;
        }
        found
    }

    /// The last reply that is told.
    fn last_reply(&self) -> Option<&[u8]> {
        let mut found = None;
        let mut rest = self.bytes.as_slice();
        for _ in 0..self.bytes.len() {
            let Some((line, later)) = line_at(rest) else {
                break;
            };
            let mut words = line;
            for _ in 0..line.len() {
                if words.is_empty() {
                    break;
                }
                let (word, behind) = first_word(words);
                if word == b"reply".as_slice() {
                    found = Some(behind);
                }
                words = behind;
            }
            rest = later;
        }
        found
    }
}

impl Sink for Tail {
    ghost use Rattle.std.specs.Prelude.{None, false};

    ghost state = { λ tail. record { contents = None; failures = 0; is_full = false } };

    fn write(&mut self, bytes: &[u8]) -> io::Result<usize> {
        self.keep(bytes);
        Ok(bytes.len())
    }
}

/// The end of the trace of a text, up to what is refused.
fn trace_of(alloc: Global, text: &[u8]) -> Tail {
    let mut tail = Tail {
        alloc,
        bytes: Vec::new(alloc),
    };
    let mut reader = ReaderSource::new(io::Cursor::new(text));
    // What it is refused is known.
    let _ = if is_recipe(text) {
        trace_recipe(alloc, &mut reader, &mut tail)
    } else {
        trace_text(alloc, &mut reader, &mut tail)
    };
    tail
}

/// Puts pieces behind bytes; whether there is memory for them.
fn put_all(bytes: &mut Vec<u8>, pieces: &[&[u8]]) -> bool {
    for piece in pieces {
        if bytes.extend_from_slice(*piece).is_err() {
            return false;
        }
    }
    true
}

/// The lines of a text before this one, with as many events as there are up to this one; none where memory is refused, or a repeat
/// goes on there.
fn lines_before(alloc: Global, text: &[u8], line: u64) -> Option<Vec<u8>> {
    let mut lines = Vec::new(alloc);
    let mut rest = text;
    let mut number = 1_u64;
    let mut is_repeated = false;
    for _ in 1..line {
        let Some((said, later)) = line_at(rest) else {
            break;
        };
        let (first, _) = first_word(spoken(said));
        let is_put = if first == b"events".as_slice() {
            let mut count = LineBuffer::new();
            count.push_number(line.saturating_sub(number));
            put_all(&mut lines, &[b"events ", count.as_slice(), b"\n"])
        } else {
            put_all(&mut lines, &[said, b"\n"])
        };
        if !is_put {
            return None;
        }
        is_repeated = first == b"repeat".as_slice() || is_repeated && first != b"end".as_slice();
        rest = later;
        number = number.saturating_add(1);
    }
    if is_repeated { None } else { Some(lines) }
}

/// The end of the trace of a text up to this line, with so many steps of an actor there, if it can be told.
fn trace_with(alloc: Global, text: &[u8], line: u64, actor: &[u8], steps: &[u8]) -> Option<Tail> {
    let mut cut = lines_before(alloc, text, line)?;
    let last: &[u8] = if is_recipe(text) { b"end\n" } else { b"" };
    if put_all(&mut cut, &[b"steps ", actor, b" ", steps, b"\n", last]) {
        Some(trace_of(alloc, &cut))
    } else {
        None
    }
}

/// The last line before this one that begins with these two words: its number, and what it says behind them.
fn last_line<'a>(
    text: &'a [u8],
    before: u64,
    verb: &[u8],
    actor: &[u8],
) -> Option<(u64, &'a [u8])> {
    let mut found = None;
    let mut rest = text;
    let mut number = 1_u64;
    for _ in 1..before {
        let Some((line, later)) = line_at(rest) else {
            break;
        };
        let (first, behind) = first_word(spoken(line));
        let (second, told) = first_word(behind);
        if first == verb && second == actor {
            found = Some((number, told));
        }
        rest = later;
        number = number.saturating_add(1);
    }
    found
}

/// The first line that begins with this word: its number, and what it says behind that.
pub(crate) fn header_line<'a>(text: &'a [u8], name: &[u8]) -> Option<(u64, &'a [u8])> {
    let mut rest = text;
    let mut number = 1_u64;
    for _ in 0..text.len() {
        let Some((line, later)) = line_at(rest) else {
            break;
        };
        let (first, behind) = first_word(spoken(line));
        if first == name {
            return Some((number, behind));
        }
        rest = later;
        number = number.saturating_add(1);
    }
    None
}

/// Tells which actors there are.
fn tell_actors<R: Runtime>(rt: &R, text: &[u8], actor: &[u8]) -> io::Result<()> {
    match header_line(text, b"actors") {
        Some((number, count)) => eprint!(rt;
            "  found: actor {}; line {number} says 'actors {}'\n  due: an actor from 1 to {}\n",
            actor.escape_ascii(),
            count.escape_ascii(),
            count.escape_ascii()
        ),
        None => Ok(()),
    }
}

/// Tells where the actor stands whose event on this line is refused, and what would be right.
pub(crate) fn tell_stand<R: Runtime + AllocGlobal>(
    rt: &R,
    refusal: Refusal,
    notes: &Notes,
    line: u64,
) -> io::Result<()> {
    let Some(says) = notes.text.line(line) else {
        return Ok(());
    };
    let text = notes.text.as_slice();
    let (verb, behind) = first_word(spoken(says));
    let (actor, named) = first_word(behind);
    if refusal == Refusal::NoSuchActor {
        return tell_actors(rt, text, actor);
    }
    let tail = trace_of(rt.alloc(), text);
    let begun = last_line(text, line, b"begin", actor);
    let alone = tail.told(actor, b"alone");
    let ended = match (refusal, alone) {
        (Refusal::IdleActor, Some(steps)) => trace_with(rt.alloc(), text, line, actor, steps),
        _ => None,
    };
    let reply = match &ended {
        Some(tail) => tail.last_reply(),
        None => None,
    };
    match tail.told(actor, b"at") {
        Some(stand) => {
            let (at, touched) = first_word(stand);
            let (word, rest) = first_word(touched);
            let (node, rest) = node_of(word, rest);
            let (_, holds) = first_word(rest);
            let told = Stand {
                actor,
                verb,
                named,
                line: at,
                word,
                node,
                holds,
                alone,
                begun,
            };
            told.tell(rt, refusal, reply)
        }
        None => tell_idle(rt, refusal, actor, begun),
    }
}

/// The node of a word, where it is one of a node, and else the word; and what follows.
fn node_of<'a>(word: &'a [u8], rest: &'a [u8]) -> (&'a [u8], &'a [u8]) {
    if word == b"next".as_slice() || word == b"value".as_slice() {
        first_word(rest)
    } else {
        (word, rest)
    }
}

/// Tells that an actor has no call.
fn tell_idle<R: Runtime>(
    rt: &R,
    refusal: Refusal,
    actor: &[u8],
    begun: Option<(u64, &[u8])>,
) -> io::Result<()> {
    if refusal != Refusal::IdleActor {
        return Ok(());
    }
    let actor = actor.escape_ascii();
    match begun {
        Some((number, call)) => eprint!(rt;
            "  found: actor {actor} has no call; its last one, {}, begun in line {number}, has ended\n",
            call.escape_ascii()
        ),
        None => eprint!(rt; "  found: actor {actor} has no call, and had none before\n"),
    }
}

/// What a trace tells of the actor of an event or an act that is refused, what that says, and the call that the actor has.
#[derive(Drop)]
struct Stand<'a> {
    actor: &'a [u8],
    verb: &'a [u8],
    named: &'a [u8],
    line: &'a [u8],
    word: &'a [u8],
    /// The node of the word, where it is one of a node.
    node: &'a [u8],
    holds: &'a [u8],
    /// How many steps alone end its call.
    alone: Option<&'a [u8]>,
    begun: Option<(u64, &'a [u8])>,
}

impl Stand<'_> {
    /// Tells what was found, and what would be right; of a call that ends within some steps, what it answers, where that is known.
    fn tell<R: Runtime>(&self, rt: &R, refusal: Refusal, reply: Option<&[u8]>) -> io::Result<()> {
        let actor = self.actor.escape_ascii();
        let line = self.line.escape_ascii();
        match refusal {
            Refusal::ActorBusy if self.verb == b"finish".as_slice() => self.tell_waiting(rt),
            Refusal::ActorBusy => {
                if let Some((number, call)) = self.begun {
                    let call = call.escape_ascii();
                    eprint!(rt;
                        "  found: actor {actor} has a call, {call}, since line {number}, and stands at {line}\n"
                    )?;
                }
                eprint!(rt; "  due: let its call end first, in a recipe by 'finish {actor}'\n")
            }
            Refusal::IdleActor => {
                let (alone, named) = (
                    self.alone.unwrap_or(b"-".as_slice()),
                    self.named.escape_ascii(),
                );
                let alone = alone.escape_ascii();
                eprint!(rt;
                    "  found: the call of actor {actor} ends after {alone} of these {named} steps"
                )?;
                if let Some(reply) = reply {
                    eprint!(rt; ", with {}", reply.escape_ascii())?;
                }
                eprint!(rt; "\n  due: 'steps {actor} {alone}', or 'finish {actor}' in a recipe\n")
            }
            _ => self.tell_elsewhere(rt),
        }
    }

    /// Tells that its call doesn't end.
    fn tell_waiting<R: Runtime>(&self, rt: &R) -> io::Result<()> {
        let (actor, line) = (self.actor.escape_ascii(), self.line.escape_ascii());
        let (word, holder) = (self.word.escape_ascii(), self.holds.escape_ascii());
        eprint!(rt;
            "  found: actor {actor} stands at {line} and waits for {word}, which actor {holder} holds; alone it never ends\n"
        )?;
        eprint!(rt; "  due: let actor {holder} step on first, or 'give {actor}'\n")
    }

    /// Tells that it stands before another line.
    fn tell_elsewhere<R: Runtime>(&self, rt: &R) -> io::Result<()> {
        let (actor, line) = (self.actor.escape_ascii(), self.line.escape_ascii());
        eprint!(rt;
            "  found: actor {actor} stands at {line}, and {}",
            self.word.escape_ascii()
        )?;
        if self.node != self.word {
            eprint!(rt; " of node {}", self.node.escape_ascii())?;
        }
        match split_once(self.holds, b' ') {
            Some((first, second)) => eprint!(rt;
                " holds <{},{}>\n",
                first.escape_ascii(),
                second.escape_ascii()
            )?,
            None => eprint!(rt; " holds {}\n", self.holds.escape_ascii())?,
        }
        let named = self.named.escape_ascii();
        match self.verb {
            b"step" => eprint!(rt;
                "  due: 'step {actor} {line}', or 'until {actor} {named}' in a recipe\n"
            ),
            b"until" => eprint!(rt; "  due: a line to which the actor comes in this call\n"),
            _ => eprint!(rt; "  due: let it step on to the start of a turn\n"),
        }
    }
}
