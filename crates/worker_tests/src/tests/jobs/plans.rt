//! Plans of trouble for a queue.
use crate::tests::holds::{hold, hold_long};
use history::{Refusal, WornWord};
use mock_queues::Plan;
use std::sync::atomic::{AtomicU64, Ordering};

/// Which calls of a queue are refused or held, counted over all threads.
#[derive(Clone, Copy, Debug)]
pub enum Rule {
    /// So many first pushes, pops and shuts are refused `Busy`.
    Busy(u64),
    /// Each push after so many is refused `WornOut`.
    GoodPushes(u64),
    /// Each push after so many is refused `WornOut`, and so is each shut.
    WornTail(u64),
    /// Pops are held until there were so many pushes. Behind so many that took a value, so many are refused `WornOut`.
    WornPops { pushes: u64, good: u64, worn: u64 },
    /// Each push is held until so many pops found none.
    Empties(u64),
    /// Pushes are held until a pop found none. That pop is held until there was a shut, and so long that the flag is set
    /// where shuts are refused `WornOut`.
    LateShut { worn: bool },
    /// Pops are held until there was a shut.
    ShutFirst,
}

/// A rule, and how many calls there were.
#[derive(Drop)]
pub struct Trouble<'a> {
    rule: Rule,
    pushes: AtomicU64,
    /// Those that may take a value: they took one, or aren't answered.
    pops: AtomicU64,
    shuts: AtomicU64,
    worn: AtomicU64,
    empties: AtomicU64,
    /// Those that found the queue shut and empty.
    ends: &'a AtomicU64,
}

impl<'a> Trouble<'a> {
    /// A plan by this rule, with no calls yet. It counts the pops that find the queue shut and empty.
    pub fn new(rule: Rule, ends: &'a AtomicU64) -> Trouble<'a> {
        Trouble {
            rule,
            pushes: AtomicU64::new(0),
            pops: AtomicU64::new(0),
            shuts: AtomicU64::new(0),
            worn: AtomicU64::new(0),
            empties: AtomicU64::new(0),
            ends,
        }
    }

    // What a pop is refused where so many may take a value, and behind them so many are refused.
    fn worn_pop(&self, good: u64, worn: u64) -> Option<Refusal> {
        let before = self.pops.load(Ordering::SeqCst);
        if before >= good {
            return (self.worn.fetch_add(1, Ordering::SeqCst) < worn).then_some(Refusal::WornOut(
                WornWord::Head,
            ));
        }
        let counted = self
            .pops
            .compare_exchange(before, before + 1, Ordering::SeqCst, Ordering::SeqCst);
        counted.err().map(|_| Refusal::Busy)
    }
}

impl<'a> Plan for Trouble<'a> {
    fn push_refusal(&self, _turns: u32) -> Option<Refusal> {
        let before = self.pushes.fetch_add(1, Ordering::SeqCst);
        match self.rule {
            Rule::Busy(most) if before < most => return Some(Refusal::Busy),
            Rule::Empties(least) => {
                hold(&self.empties, least);
            }
            Rule::LateShut { .. } => {
                hold(&self.empties, 1);
            }
            _ => {}
        }
        match self.rule {
            Rule::GoodPushes(most) if before >= most => Some(Refusal::WornOut(WornWord::Free)),
            Rule::WornTail(most) if before >= most => Some(Refusal::WornOut(WornWord::Tail)),
            _ => None,
        }
    }

    fn pop_refusal(&self, _turns: u32) -> Option<Refusal> {
        match self.rule {
            Rule::Busy(most) => {
                let before = self.pops.fetch_add(1, Ordering::SeqCst);
                (before < most).then_some(Refusal::Busy)
            }
            Rule::WornPops { pushes, good, worn } => {
                hold(&self.pushes, pushes);
                self.worn_pop(good, worn)
            }
            Rule::ShutFirst => {
                hold(&self.shuts, 1);
                None
            }
            _ => None,
        }
    }

    fn shut_refusal(&self, _turns: u32) -> Option<Refusal> {
        let before = self.shuts.fetch_add(1, Ordering::SeqCst);
        match self.rule {
            Rule::Busy(most) if before < most => Some(Refusal::Busy),
            Rule::WornTail(_) | Rule::LateShut { worn: true } => {
                Some(Refusal::WornOut(WornWord::Tail))
            }
            _ => None,
        }
    }

    fn finds_trouble(&self, refusal: Refusal) {
        self.pops.fetch_sub(1, Ordering::SeqCst);
        if refusal == Refusal::Closed {
            self.ends.fetch_add(1, Ordering::SeqCst);
        }
    }

    fn finds_empty(&self) {
        self.pops.fetch_sub(1, Ordering::SeqCst);
        if self.empties.fetch_add(1, Ordering::SeqCst) > 0 {
            return;
        }
        if let Rule::LateShut { .. } = self.rule {
            // The submitter has so long to set the flag, once its shut is refused.
            hold(&self.shuts, 1);
            hold_long();
        }
    }
}
