//! Parses the text that a source gives, and keeps no more of it than its first faulty line wants.
ghost use Rattle.std.specs.Prelude.{◌≡◌, IfOk, IfErr, IfSome};
ghost use Rattle.text_io.specs.Prefixes.{IsLastingFault, IsRefusedReading};
ghost use Rattle.text_io.specs.Readings.{EndsReadingFor, WereAll};

use crate::devices::Source;
use crate::input::{BLOCK, block_of, read_rest, read_to};
use crate::parsers::Parser;
use history::{Refusal, TextCause};
use std::alloc::Global;

/// How many times as long as a prefix that is parsed the next one is. The first is a block.
const GROWTH: usize = 32;

/// The first faulty line that each text has which begins so, if one does, and what is wrong with it.
///
/// A line that has no line feed yet is none.
fn lasting_fault<P: Parser>(
    alloc: Global,
    prefix: &[u8],
) -> Result<Option<(u64, TextCause)>, Refusal>
    ensures fault { IfOk result (λ found. IfSome found
        (λ fault. IsLastingFault P.grammar P.first prefix.now fault.0 fault.1)) }
    ensures only_memory { IfErr result (λ refusal. refusal ≡ Refusal.Memory) }
{
    let Err(refusal) = P::parse(alloc, prefix) else {
        return Ok(None);
    };
    let Refusal::Text(number, cause) = refusal else {
        return Err(refusal);
    };
    if cause == TextCause::End {
        return Ok(None);
    }
    Ok(Some((number, cause)))
}

/// The value whose text a source gives, to its end.
///
/// It is refused, in this order, by `Memory`, as soon as a growth is refused; `Read`, where a call of the source fails;
/// `Text`, where the bytes are no such text: the number of the first faulty line, from 1, and what is wrong with it. A text
/// with a faulty line is read to its end, and of what follows that line no more is kept than 64 KiB or some 32 times what
/// stands before. So a text of more than 64 KiB is also parsed in prefixes, which together are at most 32/31 as long as it.
/// Takes memory; whether it waits is up to the source.
pub fn parse_source<P: Parser, R: Source>(
    alloc: Global,
    reader: &mut R,
) -> Result<P::Parsed, Refusal>
    ensures text { IfOk result (λ parsed. WereAll (R.state reader.old).left (P.text_of parsed)) }
    ensures range { IfOk result P.in_range }
    ensures err { IfErr result (IsRefusedReading P.grammar P.first (R.state reader.old).left) }
    ensures reader { EndsReadingFor result (R.state reader.old) (R.state reader.new) }
{
    let mut text = Vec::new(alloc);
    let mut block = block_of(alloc, BLOCK)?;
    let mut most = BLOCK;
    while !read_to(reader, &mut block, &mut text, most)? {
        if let Some((number, cause)) = lasting_fault::<P>(alloc, &text)? {
            drop(text);
            read_rest(reader, &mut block)?;
            return Err(Refusal::Text(number, cause));
        }
        most = most.saturating_mul(GROWTH);
    }
    P::parse(alloc, &text)
}
