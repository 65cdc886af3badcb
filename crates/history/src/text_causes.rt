//! What is wrong with a line.
use std::fmt;

/// What is wrong with the first faulty line of a text.
#[derive(Clone, Copy, Debug, PartialEq, Eq)]
pub enum TextCause {
    /// A line is due, and the text has no further line feed.
    End,
    /// The line isn't in the form that is due there.
    Form,
    /// The line has its form, and a number or a length in it is out of its range.
    Range,
    /// All lines that are due are there, and bytes follow.
    Extra,
}

impl fmt::Display for TextCause {
    ghost use Rattle.std.specs.Prelude.{Some};
    ghost use Rattle.history.specs.TextCauses.{cause_text};

    ghost output = { λ cause. Some (cause_text cause) };

    fn fmt<W: fmt::Write>(&self, f: &mut fmt::Formatter<W>) -> fmt::Result {
        f.write_str(match self {
            TextCause::End => "End",
            TextCause::Form => "Form",
            TextCause::Range => "Range",
            TextCause::Extra => "Extra",
        })
    }
}
