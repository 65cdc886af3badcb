//! Gates: one that is always open, one that holds the first job until the second is done, and one that keeps a log.
use crate::tests::holds::hold;
use dispatcher::Gate;
use std::sync::atomic::{AtomicBool, AtomicU64, Ordering};

/// A gate that does nothing.
#[derive(Drop)]
pub struct Open;

impl Gate for Open {
    ghost begun = { λ gate number. Unit {0} };

    ghost done = { λ gate number. Unit {0} };

    fn before(&self, _number: u64) {}

    fn after(&self, _number: u64) {}
}

/// A gate that holds job 1 until job 2 is done.
#[derive(Drop)]
pub struct SecondFirst {
    second_done: AtomicU64,
    opened: AtomicBool,
}

impl SecondFirst {
    pub fn new() -> SecondFirst {
        SecondFirst {
            second_done: AtomicU64::new(0),
            opened: AtomicBool::new(false),
        }
    }

    /// Whether job 1 went on because job 2 was done.
    pub fn opened(&self) -> bool {
        self.opened.load(Ordering::SeqCst)
    }
}

impl Gate for SecondFirst {
    ghost begun = { λ gate number. Unit {0} };

    ghost done = { λ gate number. Unit {0} };

    fn before(&self, number: u64) {
        if number == 1 && hold(&self.second_done, 1) {
            self.opened.store(true, Ordering::SeqCst);
        }
    }

    fn after(&self, number: u64) {
        if number == 2 {
            self.second_done.store(1, Ordering::SeqCst);
        }
    }
}

/// A gate that keeps its calls as the digits of a number: 2n - 1 before job n, and 2n after it.
#[derive(Drop)]
pub struct Logged {
    log: AtomicU64,
}

impl Logged {
    pub fn new() -> Logged {
        Logged {
            log: AtomicU64::new(0),
        }
    }

    /// The digits so far.
    pub fn digits(&self) -> u64 {
        self.log.load(Ordering::SeqCst)
    }

    // Puts a digit at the end. One thread at a time.
    fn put(&self, digit: u64) {
        let log = self.digits().wrapping_mul(10).wrapping_add(digit);
        self.log.store(log, Ordering::SeqCst);
    }
}

impl Gate for Logged {
    ghost begun = { λ gate number. Unit {0} };

    ghost done = { λ gate number. Unit {0} };

    fn before(&self, number: u64) {
        self.put(number.wrapping_mul(2).wrapping_sub(1));
    }

    fn after(&self, number: u64) {
        self.put(number.wrapping_mul(2));
    }
}
