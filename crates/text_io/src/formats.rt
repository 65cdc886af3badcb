//! What a reader of listings has to know of one kind of them.
ghost use Rattle.std.specs.Prelude.{◌≡◌, ◌≤◌, ◌^◌, IfOk, IfErr};
ghost use Rattle.text_io.specs.Listings.{Listing, SaysHeader, SaysItem};
ghost use Rattle.text_io.specs.LineReadings.{IsWrong};
ghost use Rattle.text_io.specs.ListingItems.{StopsItem};

use history::TextCause;
use std::alloc::Global;

/// Why an item was not read from its line.
#[derive(Clone, Copy, Debug, PartialEq, Eq)]
pub enum ItemError {
    /// Room was refused.
    Memory,
    /// What is wrong with the line.
    Wrong(TextCause),
}

/// A format of listings: what their lines say, and how one line is read.
pub trait ListingFormat {
    /// What was read of a first line.
    type Header: Drop;

    /// What was read of a line behind it.
    type Item: Drop;

    // What a first line says.
    ghost HeaderSaid: { Type 0 };

    // What a line behind it says.
    ghost ItemSaid: { Type 0 };

    // The lines of such a text, and which of them are in range.
    ghost listing: { Listing HeaderSaid ItemSaid };

    // What the line said that this was read of.
    ghost header_said: { Self.Header → HeaderSaid };

    // The same of a line behind the first one.
    ghost item_said: { Self.Item → ItemSaid };

    /// Reads a first line, or tells what is wrong with it. It announces at most 2³² lines.
    fn parse_header(line: &[u8]) -> Result<Self::Header, TextCause>
        ensures says { IfOk result (λ h. SaysHeader listing line.now (header_said h)) }
        ensures range { IfOk result (λ h. listing.header_in_range (header_said h)) }
        ensures few { IfOk result (λ h. listing.count (header_said h) ≤ 2 ^ 32) }
        ensures err { IfErr result (IsWrong (SaysHeader listing line.now) listing.header_in_range) };

    /// How many lines a first line announces.
    fn count(header: &Self::Header) -> u64
        ensures { result ≡ listing.count (header_said header.now) };

    /// Reads a line behind the first one, or tells what is wrong with it, or that there was no room.
    fn parse_item(
        alloc: Global,
        header: &Self::Header,
        line: &[u8],
    ) -> Result<Self::Item, ItemError>
        ensures says { IfOk result (λ i. SaysItem listing line.now (item_said i)) }
        ensures range { IfOk result (λ i.
            listing.in_range (header_said header.now) (item_said i)) }
        ensures err { IfErr result (StopsItem listing (header_said header.now) line.now) };
}
