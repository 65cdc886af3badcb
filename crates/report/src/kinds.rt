//! Kinds of operations, by what they were answered.
ghost use Rattle.std.specs.Prelude.{◌≡◌};
ghost use Rattle.report.specs.Kinds.{kind_of};

use crate::count_rows::Named;
use history::Reply;

/// What became of an operation.
#[derive(Clone, Copy, Debug, PartialEq, Eq, Hash)]
pub enum Kind {
    /// It pushed its body.
    Done,
    /// It took a value.
    Value,
    /// It found the queue empty.
    Empty,
    /// It was refused.
    Refused,
    /// It has no reply.
    Unfinished,
}

// The kind of an operation with this reply.
pub(crate) fn kind_of_reply(reply: Option<Reply>) -> Kind
    ensures { result ≡ kind_of reply }
{
    match reply {
        None => Kind::Unfinished,
        Some(Reply::Done) => Kind::Done,
        Some(Reply::Value(_)) => Kind::Value,
        Some(Reply::Empty) => Kind::Empty,
        Some(Reply::Refused(_)) => Kind::Refused,
    }
}

impl Named for Kind {
    ghost use Rattle.report.specs.Kinds.{kind_text};

    ghost name_text = { kind_text };

    fn name(self) -> &'static [u8] {
        match self {
            Kind::Done => b"done",
            Kind::Value => b"value",
            Kind::Empty => b"empty",
            Kind::Refused => b"refused",
            Kind::Unfinished => b"unfinished",
        }
    }
}
