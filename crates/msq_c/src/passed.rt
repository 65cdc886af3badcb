//! What C passes of a call's value, and gets of it.
ghost use Rattle.std.specs.Prelude.{◌≡◌, IfSome, IfNone};
ghost use Rattle.msq_c.specs.Passed.{Passing, of_numbers, of_words, word_of};

use crate::words::MsqWords;
use history::Body;

/// What C passes of a call's value, and gets of it.
pub trait Passed<A>: Sized {
    // Which value it is, and what it is after a call.
    ghost passes: { Passing A Self };

    /// The value that this is, where it is one.
    fn value(&self) -> Option<A>
        ensures some { IfSome result (passes.is self.now) }
        ensures none { IfNone result (passes.none self.now) };

    /// What a call leaves that has this value.
    fn put(&mut self, value: &Option<A>)
        ensures { self.new ≡ passes.left value.now self.old };

    /// The word of a call with this value, as C holds it.
    fn kept(value: &Option<A>) -> u64
        ensures { result ≡ passes.kept value.now };
}

// The word of a call with this value, or 0 where it has none.
fn word_in(value: &Option<Body>) -> u64
    ensures { result ≡ word_of value.now }
{
    match value {
        Some(body) => body.number(),
        None => 0,
    }
}

/// A number is a word below 2^48.
impl Passed<Body> for u64 {
    ghost passes = { of_numbers };

    fn value(&self) -> Option<Body> {
        Body::new(*self)
    }

    fn put(&mut self, value: &Option<Body>) {
        *self = word_in(value);
    }

    fn kept(value: &Option<Body>) -> u64 {
        word_in(value)
    }
}

/// Three words are themselves, and lie in the caller's memory.
impl Passed<MsqWords> for MsqWords {
    ghost passes = { of_words };

    fn value(&self) -> Option<MsqWords> {
        Some(*self)
    }

    fn put(&mut self, value: &Option<MsqWords>) {
        if let Some(found) = value {
            *self = *found;
        }
    }

    fn kept(_value: &Option<MsqWords>) -> u64 {
        0
    }
}
