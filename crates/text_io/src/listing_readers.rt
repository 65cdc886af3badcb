//! The reader of every listing.
ghost use Rattle.std.specs.Prelude.{◌≡◌, ◌++◌, ◌≤◌, ◌^◌, IfOk, IfErr, OnOk, map};
ghost use Rattle.text_io.specs.Lines.{HasNo, line};
ghost use Rattle.text_io.specs.Listings.{listing_text, IsListing};
ghost use Rattle.text_io.specs.ListingItems.{IsAfterFirst, AddsItem, IsItemRefusal};
ghost use Rattle.text_io.specs.ListingRefusals.{IsRefusalIn};

use crate::formats::{ItemError, ListingFormat};
use crate::line_splits::line_at;
use history::{Refusal, TextCause};
use std::alloc::Global;

/// What a text of this format says: its first line, and the lines behind it in their order.
///
/// It is refused with `Memory` where room for an item or for what it holds is refused, and with `Text`
/// exactly where the text is none of this format: with the number of its first faulty line, from 1, and
/// what is wrong with it. It goes over the text once, takes memory for the items read so far, and
/// doesn't wait.
pub fn parse_listing<F: ListingFormat>(
    alloc: Global,
    text: &[u8],
) -> Result<(F::Header, Vec<F::Item>), Refusal>
    //= texts/every_listing (text, range, err): In every format of a first line and as many lines as it announces, a
    //=   text is parsed exactly, where the readers of its two kinds of line answer exactly.
    ensures text { IfOk result (λ read.
        text.now ≡ listing_text F.listing (F.header_said read.0) (map F.item_said read.1.items)) }
    ensures range { IfOk result (λ read.
        IsListing F.listing (F.header_said read.0) (map F.item_said read.1.items)) }
    ensures err { IfErr result (IsRefusalIn F.listing text.now) }
{
    let (header, mut rest) = first_line::<F>(text)?;
    let count = F::count(&header);
    let mut items = Vec::new(alloc);
    for place in 0..count {
        let (line, later) = due_line(2 + place, rest)?;
        keep::<F>(alloc, &mut items, &header, 2 + place, line)?;
        rest = later;
    }
    if rest.is_empty() {
        Ok((header, items))
    } else {
        Err(Refusal::Text(2 + count, TextCause::Extra))
    }
}

/// What the first line says, and what follows it.
fn first_line<F: ListingFormat>(text: &[u8]) -> Result<(F::Header, &[u8]), Refusal>
    ensures ok { IfOk result (λ found.
        IsAfterFirst F.listing text.now (F.header_said found.0) found.1.now) }
    ensures few { IfOk result (λ found. F.listing.count (F.header_said found.0) ≤ 2 ^ 32) }
    ensures err { IfErr result (IsRefusalIn F.listing text.now) }
{
    let (line, rest) = due_line(1, text)?;
    match F::parse_header(line) {
        Ok(header) => Ok((header, rest)),
        Err(cause) => Err(Refusal::Text(1, cause)),
    }
}

/// The line of this number, which is due, and what follows it; refused with `Text`, its number and `End` where there is no
/// further line feed. Takes no memory, and doesn't wait.
pub fn due_line(number: u64, text: &[u8]) -> Result<(&[u8], &[u8]), Refusal>
    ensures ok { IfOk result (λ found. HasNo 10 found.0.now
        × (text.now ≡ line found.0.now ++ found.1.now)) }
    ensures err { IfErr result (λ refusal. (refusal ≡ Refusal.Text number TextCause.End)
        × HasNo 10 text.now) }
{
    line_at(text).ok_or(Refusal::Text(number, TextCause::End))
}

/// Adds the item of a line, which has this number.
fn keep<F: ListingFormat>(
    alloc: Global,
    items: &mut Vec<F::Item>,
    header: &F::Header,
    number: u64,
    line: &[u8],
) -> Result<(), Refusal>
    ensures ok { OnOk result (AddsItem F.listing F.item_said (F.header_said header.now)
        items.old.items items.new.items line.now) }
    ensures err { IfErr result
        (IsItemRefusal F.listing (F.header_said header.now) number line.now) }
{
    match F::parse_item(alloc, header, line) {
        Ok(item) => match items.push(item) {
            Ok(()) => Ok(()),
            Err(_) => Err(Refusal::Memory),
        },
        Err(ItemError::Wrong(cause)) => Err(Refusal::Text(number, cause)),
        Err(ItemError::Memory) => Err(Refusal::Memory),
    }
}
