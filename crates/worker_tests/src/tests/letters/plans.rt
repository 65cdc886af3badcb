//! Plans of trouble for a queue.
use crate::tests::holds::{hold, hold_long};
use history::{Refusal, WornWord};
use mock_queues::Plan;
use std::sync::atomic::{AtomicU64, Ordering};

/// The first push is handed on, the second one is refused `WornOut(Tail)`, and each later one `WornOut(Free)`.
#[derive(Drop)]
pub struct Trouble {
    pushes: AtomicU64,
    /// Whether the first push is held until there is a second one.
    holds: bool,
    /// Whether each pop is refused `WornOut(Head)`.
    worn_pops: bool,
}

impl Trouble {
    /// A plan with no calls yet.
    pub fn new(holds: bool, worn_pops: bool) -> Trouble {
        Trouble {
            pushes: AtomicU64::new(0),
            holds,
            worn_pops,
        }
    }
}

impl Plan for Trouble {
    fn push_refusal(&self, _turns: u32) -> Option<Refusal> {
        match self.pushes.fetch_add(1, Ordering::SeqCst) {
            0 => {
                if self.holds {
                    hold(&self.pushes, 2);
                }
                None
            }
            1 => Some(Refusal::WornOut(WornWord::Tail)),
            _ => Some(Refusal::WornOut(WornWord::Free)),
        }
    }

    fn pop_refusal(&self, _turns: u32) -> Option<Refusal> {
        if self.worn_pops {
            Some(Refusal::WornOut(WornWord::Head))
        } else {
            None
        }
    }

    fn finds_empty(&self) {}
}

/// Pushes are held until a pop found none. That pop is held so long that the push is made, and its sender ends.
#[derive(Drop)]
pub struct Late {
    empty: AtomicU64,
}

impl Late {
    /// A plan with no calls yet.
    pub fn new() -> Late {
        Late {
            empty: AtomicU64::new(0),
        }
    }
}

impl Plan for Late {
    fn push_refusal(&self, _turns: u32) -> Option<Refusal> {
        hold(&self.empty, 1);
        None
    }

    fn pop_refusal(&self, _turns: u32) -> Option<Refusal> {
        None
    }

    fn finds_empty(&self) {
        if self.empty.fetch_add(1, Ordering::SeqCst) == 0 {
            hold_long();
        }
    }
}

/// The first push is handed on, and each later one is held for long and then refused `WornOut(Tail)`, as each shut is.
#[derive(Drop)]
pub struct WornTail {
    pushes: AtomicU64,
}

impl WornTail {
    /// A plan with no calls yet.
    pub fn new() -> WornTail {
        WornTail {
            pushes: AtomicU64::new(0),
        }
    }
}

impl Plan for WornTail {
    fn push_refusal(&self, _turns: u32) -> Option<Refusal> {
        if self.pushes.fetch_add(1, Ordering::SeqCst) == 0 {
            None
        } else {
            hold_long();
            Some(Refusal::WornOut(WornWord::Tail))
        }
    }

    fn pop_refusal(&self, _turns: u32) -> Option<Refusal> {
        None
    }

    fn shut_refusal(&self, _turns: u32) -> Option<Refusal> {
        Some(Refusal::WornOut(WornWord::Tail))
    }

    fn finds_empty(&self) {}
}

/// Each pop is held for long and then refused `WornOut(Head)`.
#[derive(Drop)]
pub struct WornHead;

impl Plan for WornHead {
    fn push_refusal(&self, _turns: u32) -> Option<Refusal> {
        None
    }

    fn pop_refusal(&self, _turns: u32) -> Option<Refusal> {
        hold_long();
        Some(Refusal::WornOut(WornWord::Head))
    }

    fn finds_empty(&self) {}
}
