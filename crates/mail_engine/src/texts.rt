//! Texts of mail, as they are parsed.
use crate::letters::Mail;
use crate::readers::parse_mail;
use history::Refusal;
use std::alloc::Global;
use text_io::Parser;

/// Texts of mail.
pub struct MailTexts;

impl Parser for MailTexts {
    ghost use Rattle.text_io.specs.Listings.{First, ListingDue, ListingLine, listing_grammar};
    ghost use Rattle.mail_engine.specs.MailTexts.{IsMailInRange, MailHeader, SaidLetter, mail_listing, mail_text, said_letters};

    type Parsed = Mail;

    ghost State = { ListingDue MailHeader };

    ghost Said = { ListingLine MailHeader SaidLetter };

    ghost grammar = { listing_grammar mail_listing };

    ghost first = { First };

    ghost text_of = { λ mail. mail_text mail.senders (said_letters mail.letters.items) };

    ghost in_range = { λ mail. IsMailInRange mail.senders (said_letters mail.letters.items) };

    fn parse(alloc: Global, text: &[u8]) -> Result<Mail, Refusal> {
        parse_mail(alloc, text)
    }
}
