//! Why a call of the library is refused, and its code.
ghost use Rattle.std.specs.Prelude.{◌≡◌};
ghost use Rattle.msq_c.specs.Codes as codes;
ghost use Rattle.msq_c.specs.Codes.{code_of, done_code};

use history::{Refusal, WornWord};

/// The code of a pop that found the queue empty.
pub(crate) const EMPTY: u32 = 32;

/// The code of a length that can't be told.
pub(crate) const UNCOUNTED: u32 = 42;

/// Why a call is refused.
#[derive(Clone, Copy, Debug)]
pub enum Trouble {
    /// The queue refused it.
    Refused(Refusal),
    /// A number is out of its range.
    BadSize,
    /// A handle is empty.
    NoHandle,
    /// The seat may not do this.
    NoRole,
    /// A handle to be filled is full, or another one has a share of the queue that is to be closed.
    InUse,
    /// Another one got a share of the queue while it was closed.
    Raced,
}

// The code of a word that is worn out: push again at that of a node's own next, and no more at the others.
fn worn_code(word: WornWord) -> u32
    ensures { result ≡ codes.worn_code word }
{
    match word {
        WornWord::Free => 2,
        WornWord::Next => 37,
        WornWord::Tail => 38,
        WornWord::Head => 39,
    }
}

// The code of a refusal.
fn refusal_code(refusal: Refusal) -> u32
    ensures { result ≡ codes.refusal_code refusal }
{
    match refusal {
        Refusal::NoNode => 1,
        Refusal::WornOut(word) => worn_code(word),
        Refusal::Busy => 3,
        Refusal::Memory => 4,
        Refusal::BadSize => 5,
        Refusal::IdleActor => 6,
        Refusal::ActorBusy => 7,
        Refusal::NotHere => 8,
        Refusal::NoSuchActor => 9,
        Refusal::Text(_, _) => 10,
        Refusal::Read => 11,
        Refusal::Write => 12,
        Refusal::Stranger => 13,
        Refusal::Double => 14,
        Refusal::Lost => 15,
        Refusal::Closed => 16,
    }
}

impl Trouble {
    /// Its code.
    pub(crate) fn code(self) -> u32
        ensures { result ≡ code_of self }
    {
        match self {
            Trouble::Refused(refusal) => refusal_code(refusal),
            Trouble::BadSize => 5,
            Trouble::NoHandle => 33,
            Trouble::NoRole => 34,
            Trouble::InUse => 35,
            Trouble::Raced => 36,
        }
    }
}

/// The code of an answer: 0 at Ok.
pub(crate) fn code(answer: Result<(), Trouble>) -> u32
    ensures { result ≡ done_code answer }
{
    match answer {
        Ok(()) => 0,
        Err(refusal) => refusal.code(),
    }
}
