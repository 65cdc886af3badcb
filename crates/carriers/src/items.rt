//! Values of a queue, and those that a push hands back.
ghost use Rattle.std.specs.Prelude.{◌≡◌};
ghost use Rattle.carriers.specs.DeedsOfNumbers.{item_taken};

use history::{Body, Refusal, Taken};

/// A value of a queue, and the number of the seat that pushed it.
// The value stands first: where padding stood before it, LLVM moved both in parts that overlap.
#[derive(Debug, PartialEq, Eq, Drop)]
pub struct ItemOf<T> {
    pub value: T,
    pub from: u16,
}

impl ItemOf<Body> {
    /// The same, as a value of a queue of numbers. Takes no memory and doesn't wait.
    pub fn into_taken(self) -> Taken
        //= carriers/bodies
        ensures { self ≡ item_taken result }
    {
        Taken {
            from: self.from,
            body: self.value,
        }
    }
}

/// A value that wasn't pushed, and why.
#[derive(Debug, PartialEq, Eq, Drop)]
pub struct Unpushed<T> {
    pub refusal: Refusal,
    pub value: T,
}

/// Why the value wasn't pushed; the value is dropped. Takes no memory.
impl<T: Drop> From<Unpushed<T>> for Refusal {
    ghost from_gives = { λ unpushed refusal. refusal ≡ unpushed.refusal };

    fn from(unpushed: Unpushed<T>) -> Refusal {
        unpushed.refusal
    }
}
