//! Values that stand for numbers: so one run is made with values of any type.
use history::{Body, Refusal};
use std::alloc::Global;

/// A value that tells its number.
pub trait Numbered: Drop + Send + Sized {
    /// The number of a value; of one that has no size 0.
    fn number(&self) -> u64;
}

/// A value that is made of its number.
pub trait Value: Numbered {
    /// The value of this number.
    fn made(alloc: Global, number: u64) -> Result<Self, Refusal>;
}

impl Numbered for Body {
    fn number(&self) -> u64 {
        Body::number(self)
    }
}

impl Value for Body {
    fn made(_alloc: Global, number: u64) -> Result<Body, Refusal> {
        Body::new(number).ok_or(Refusal::BadSize)
    }
}

impl Numbered for u64 {
    fn number(&self) -> u64 {
        *self
    }
}

impl Value for u64 {
    fn made(_alloc: Global, number: u64) -> Result<u64, Refusal> {
        Ok(number)
    }
}

impl Numbered for () {
    fn number(&self) -> u64 {
        0
    }
}

impl Value for () {
    fn made(_alloc: Global, _number: u64) -> Result<(), Refusal> {
        Ok(())
    }
}

/// A large value.
pub type Row = [u64; 64];

impl<const K: usize> Numbered for [u64; K] {
    // The number in each place; else one that no row is made of.
    fn number(&self) -> u64 {
        match self.first() {
            Some(first) if self.iter().all(|one| *one == *first) => *first,
            _ => u64::MAX,
        }
    }
}

impl<const K: usize> Value for [u64; K] {
    fn made(_alloc: Global, number: u64) -> Result<[u64; K], Refusal> {
        Ok([number; K])
    }
}

impl Numbered for String {
    // The empty text stands for 0.
    fn number(&self) -> u64 {
        if self.as_str() == "" {
            return 0;
        }
        self.parse().unwrap_or(u64::MAX)
    }
}

impl Value for String {
    fn made(alloc: Global, number: u64) -> Result<String, Refusal> {
        if number == 0 {
            return Ok(String::new(alloc));
        }
        format!(in alloc; "{number}").map_err(|_| Refusal::Memory)
    }
}

impl Numbered for Box<u64, Global> {
    fn number(&self) -> u64 {
        **self
    }
}

impl Value for Box<u64, Global> {
    fn made(alloc: Global, number: u64) -> Result<Box<u64, Global>, Refusal> {
        Box::new(alloc, number).map_err(|_| Refusal::Memory)
    }
}
