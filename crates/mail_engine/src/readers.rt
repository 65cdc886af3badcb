//! Mail from its text.
ghost use Rattle.std.specs.Prelude.{◌≡◌, IfOk, IfErr};
ghost use Rattle.mail_engine.specs.MailTexts.{said_letters, mail_text, IsMailInRange, IsFirstFaultOfMail};

use crate::letters::{Mail, Outgoing};
use crate::lines::{Counts, counts_of, letter_of, owned};
use history::Refusal;
use std::alloc::Global;
use text_io::{ItemError, ListingFormat, TextCause, parse_listing};

/// The format of mail.
struct MailFormat;

impl ListingFormat for MailFormat {
    ghost use Rattle.mail_engine.specs.MailTexts.{MailHeader, SaidLetter, said_letter, mail_listing};
    ghost use Rattle.mail_engine.specs.MailReading.{header_in};

    type Header = Counts;

    type Item = Outgoing;

    ghost HeaderSaid = { MailHeader };

    ghost ItemSaid = { SaidLetter };

    ghost listing = { mail_listing };

    ghost header_said = { header_in };

    ghost item_said = { said_letter };

    fn parse_header(line: &[u8]) -> Result<Counts, TextCause> {
        counts_of(line)
    }

    fn count(header: &Counts) -> u64 {
        header.letters
    }

    fn parse_item(alloc: Global, header: &Counts, line: &[u8]) -> Result<Outgoing, ItemError> {
        match letter_of(line, header.senders) {
            Ok(read) => owned(alloc, read),
            Err(cause) => Err(ItemError::Wrong(cause)),
        }
    }
}

/// The mail that a text is: how many senders there are, and the letters in the order of its lines.
///
/// It is refused with `Memory` where room for a letter or its text is refused, and with `Text` exactly
/// where the text is none of mail: with the number of its first faulty line, from 1, and what is wrong
/// with it. It goes over the text once, takes memory for the letters read so far, and doesn't wait.
pub fn parse_mail(alloc: Global, text: &[u8]) -> Result<Mail, Refusal>
    //= texts/parse (text, range, err)
    ensures text { IfOk result (λ mail.
        text.now ≡ mail_text mail.senders (said_letters mail.letters.items)) }
    ensures range { IfOk result (λ mail.
        IsMailInRange mail.senders (said_letters mail.letters.items)) }
    ensures err { IfErr result (IsFirstFaultOfMail text.now) }
{
    let (counts, letters) = parse_listing::<MailFormat>(alloc, text)?;
    Ok(Mail {
        senders: counts.senders,
        letters,
    })
}
