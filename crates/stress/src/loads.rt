//! What goes through a queue: each value tells who pushed it, and as the how many-th.
use history::Body;
use std::alloc::Global;

/// By so much a sender's number is above its values' numbers.
const FROM: u64 = 1_099_511_627_776;

/// A value of a sender.
pub trait Load: Send + Drop + Sized {
    /// The value of this number of this sender; none where memory is refused.
    fn made(alloc: Global, from: u64, number: u64) -> Option<Self>;

    /// The sender and the number, as one; none where the value is no such.
    fn told(&self) -> Option<u64>;
}

/// A sender and a number, as one.
fn one_of(from: u64, number: u64) -> u64 {
    from.wrapping_mul(FROM).wrapping_add(number)
}

/// The sender and the number of what was told.
pub fn both_of(told: u64) -> (u64, u64) {
    (told / FROM, told % FROM)
}

impl Load for u64 {
    fn made(_alloc: Global, from: u64, number: u64) -> Option<u64> {
        Some(one_of(from, number))
    }

    fn told(&self) -> Option<u64> {
        Some(*self)
    }
}

impl Load for Body {
    fn made(_alloc: Global, from: u64, number: u64) -> Option<Body> {
        Body::new(one_of(from, number))
    }

    fn told(&self) -> Option<u64> {
        Some(self.number())
    }
}

/// Three words: the third one is the sum of the others.
#[derive(Clone, Copy)]
pub struct Words {
    from: u64,
    number: u64,
    sum: u64,
}

impl Load for Words {
    fn made(_alloc: Global, from: u64, number: u64) -> Option<Words> {
        Some(Words {
            from,
            number,
            sum: from.wrapping_add(number),
        })
    }

    fn told(&self) -> Option<u64> {
        if self.sum == self.from.wrapping_add(self.number) {
            Some(one_of(self.from, self.number))
        } else {
            None
        }
    }
}

impl Load for String {
    fn made(alloc: Global, from: u64, number: u64) -> Option<String> {
        let one = one_of(from, number);
        format!(in alloc; "{one}").ok()
    }

    fn told(&self) -> Option<u64> {
        self.as_str().parse().ok()
    }
}
