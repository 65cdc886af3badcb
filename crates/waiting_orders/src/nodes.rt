//! States of a search for orders in which pushes wait.
ghost use Rattle.std.specs.Prelude.{◌≡◌, ◌≤◌, ◌++◌, true, false, None, IfOk};
ghost use Rattle.std.specs.List.{AllByRecursion};
ghost use Rattle.std.specs.Hash as fed;
ghost use Rattle.std.specs.Cmp.Rules.{comparing, hashing};
ghost use Rattle.std.proofs.Common.{rules};
ghost use Rattle.waiting_orders.specs.Lines as lines;
ghost use Rattle.waiting_orders.specs.Nodes as next;
ghost use Rattle.waiting_orders.specs.Nodes.{view, views};
ghost use Rattle.waiting_orders.specs.Orders.{AreBehind};
ghost use Rattle.waiting_orders.specs.Reached.{Leads, size};
ghost use Rattle.waiting_orders.specs.Waiting.{IsCall, IsUntold};

use crate::boards::Board;
use crate::lines::Rest;
use history::Stamped;
use std::alloc::{AllocError, Global};
use std::hash::{Hash, Hasher};

/// What is left of a history, whether the queue is shut, the number of the last operation placed, and behind which of the
/// states that were tried it was made.
#[derive(Drop)]
pub(crate) struct Node {
    pub(crate) others: Rest,
    pub(crate) pushes: Rest,
    pub(crate) is_shut: bool,
    pub(crate) time: u64,
    pub(crate) parent: usize,
}

// States are the same, whatever led to them.
impl PartialEq for Node {
    ghost eq = { next.is_same };

    ghost laws = { Prim.search (comparing, rules) depth 9 };

    fn eq(&self, other: &Node) -> bool {
        self.is_shut == other.is_shut
            && self.time == other.time
            && self.others.from == other.others.from
            && self.pushes.from == other.pushes.from
            && self.others.kept == other.others.kept
            && self.pushes.kept == other.pushes.kept
    }
}

impl Eq for Node {
    ghost laws = { Prim.search (comparing, rules) depth 9 };
}

impl Hash for Node {
    ghost hash_input = { λ n. fed.bool n.is_shut ++ fed.u64 n.time ++ fed.usize n.others.from
        ++ fed.usize n.pushes.from ++ fed.slice fed.usize n.others.kept.items
        ++ fed.slice fed.usize n.pushes.kept.items };

    ghost respects_eq = { Prim.search (hashing, rules) depth 9 };

    fn hash<H: Hasher>(&self, state: &mut H) {
        self.is_shut.hash(state);
        self.time.hash(state);
        self.others.from.hash(state);
        self.pushes.from.hash(state);
        self.others.kept.hash(state);
        self.pushes.kept.hash(state);
    }
}

impl Node {
    /// Nothing is placed.
    pub(crate) fn start(alloc: Global) -> Node
        ensures { view result ≡ next.start }
    {
        Node {
            others: Rest::all_from(alloc, 0),
            pushes: Rest::all_from(alloc, 0),
            is_shut: false,
            time: 0,
            parent: 0,
        }
    }

    /// Whether nothing is placed.
    pub(crate) fn is_start(&self) -> bool
        ensures yes { result ≡ true → view self.now ≡ next.start }
        ensures no { result ≡ false → ¬ (view self.now ≡ next.start) }
    {
        !self.is_shut && self.time == 0 && self.others.is_all() && self.pushes.is_all()
    }

    /// Whether nothing that ended is left, but for pushes.
    #[tactic(auto, using(crate::proofs::Coming::untold_where, crate::proofs::Stepping::ends_true))]
    pub(crate) fn is_end(&self, others: &[Stamped]) -> bool
        requires { lines.IsRising others.now }
        ensures ended { AllByRecursion (λ o. o.last ≡ None)
            (lines.left_of others.now (view self.now).others) → result ≡ true }
        ensures untold { result ≡ true
            → AllByRecursion IsCall (lines.left_of others.now (view self.now).others)
            → AllByRecursion IsUntold (lines.left_of others.now (view self.now).others) }
    {
        self.others.limit(others).is_none()
    }

    /// How many bytes the state takes, about.
    pub(crate) fn bytes(&self) -> u64
        ensures least { 1 ≤ result }
        ensures most { result ≤ size (view self.now) }
    {
        (self.others.kept.len() as u64)
            .saturating_add(self.pushes.kept.len() as u64)
            .saturating_mul(8)
            .saturating_add(160)
    }

    /// The states to which one step leads.
    pub(crate) fn successors(&self, alloc: Global, board: &Board) -> Result<Vec<Node>, AllocError>
        requires { next.AreRising board.now }
        ensures all { IfOk result (λ new. next.HasSteps board.now (view self.now) (views new.items)) }
        ensures each { IfOk result (λ new. AllByRecursion (Leads board.now.others.items
            board.now.pushes.items (view self.now)) (views new.items)) }
        ensures behind { IfOk result (λ new. AreBehind board.now (view self.now) (views new.items)) }
    {
        let new = self.steps_over(alloc, &board.others, &board.pushes)?;
        Ok(new)
    }
}
