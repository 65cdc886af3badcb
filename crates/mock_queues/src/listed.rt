//! A plan that is a list: which calls are due, each with its turns and with what it is refused.
use crate::planned::Plan;
use history::{Refusal, WornWord};
use std::sync::atomic::{AtomicUsize, Ordering};

/// Calls in the order in which they are due, pushes, pops or shuts: the turns of each, and what it is refused; none where it
/// is to be handed on. A call that isn't due, or has other turns, is refused `WornOut(Tail)`.
#[derive(Drop)]
pub struct Listed<'a> {
    calls: &'a [(u32, Option<Refusal>)],
    made: AtomicUsize,
}

impl<'a> Listed<'a> {
    /// These calls are due. Takes no memory.
    pub fn new(calls: &'a [(u32, Option<Refusal>)]) -> Listed<'a> {
        Listed {
            calls,
            made: AtomicUsize::new(0),
        }
    }

    // What the next call is refused, which has so many turns.
    fn next_refusal(&self, turns: u32) -> Option<Refusal> {
        match self.calls.get(self.made.fetch_add(1, Ordering::SeqCst)) {
            Some((due, refusal)) if *due == turns => *refusal,
            _ => Some(Refusal::WornOut(WornWord::Tail)),
        }
    }
}

impl<'a> Plan for Listed<'a> {
    fn push_refusal(&self, turns: u32) -> Option<Refusal> {
        self.next_refusal(turns)
    }

    fn pop_refusal(&self, turns: u32) -> Option<Refusal> {
        self.next_refusal(turns)
    }

    fn shut_refusal(&self, turns: u32) -> Option<Refusal> {
        self.next_refusal(turns)
    }

    fn finds_empty(&self) {}
}
