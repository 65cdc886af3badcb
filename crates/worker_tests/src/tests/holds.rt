//! Threads that wait for others, for so many turns at most.
use std::sync::atomic::{AtomicU64, Ordering};
use std::thread;

/// How often who is held looks whether it may go on.
const MOST_TURNS: u32 = 1_000_000;

/// How long others have to come to sleep, or to their end: so often they are let go on.
const LATE_TURNS: u32 = 20_000;

/// Turns until a count is so great; false where it never is.
pub fn hold(count: &AtomicU64, least: u64) -> bool {
    for _ in 0..MOST_TURNS {
        if count.load(Ordering::SeqCst) >= least {
            return true;
        }
        thread::yield_now();
    }
    false
}

/// Lets other threads come to sleep, or to their end.
pub fn hold_long() {
    for _ in 0..LATE_TURNS {
        thread::yield_now();
    }
}
