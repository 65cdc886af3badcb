//! The search: states are tried, the last ones made first, until an end is found, none is left, or they take too much.
ghost use Rattle.std.specs.Prelude.{◌≡◌, ◌≤◌, ◌+◌, ◌++◌, ◌∷◌, [], true, false, None, Some, length, IfOk, IfSome, OnOk, All};
ghost use Rattle.waiting_orders.specs.declared.searching.Found.TheVariants.{Nothing, Room};
ghost use Rattle.waiting_orders.specs.Waiting.{IsCall, IsOfQueue};
ghost use Rattle.waiting_orders.specs.Indexed.{IsOrder, places_of};
ghost use Rattle.waiting_orders.specs.Nodes.{view, views, start, turned, AreRising, IsIn, Searched};
ghost use Rattle.waiting_orders.specs.Reached.{TakesRoom, size};
ghost use Rattle.waiting_orders.specs.Search.{IsSearched, IsOrderOn, WhereOrder};
ghost use Rattle.waiting_orders.specs.Search.{IsCounted, IsCountedSearch, IsPut, IsFull, WerePut, HasNoRoom};
ghost use Rattle.waiting_orders.specs.Walked.{IsRooted, AddsNode, AddsBehind};

use crate::boards::Board;
use crate::nodes::Node;
use crate::orders::order;
use history::Stamped;
use indexmap::IndexSet;
use std::alloc::{AllocError, Global};

/// What comes of a search.
#[derive(Drop)]
pub enum Found {
    /// The operations can be placed to the end: their places in the history, in the order in which they have their effects.
    /// All that were told a reply are among them, each once, and pending ones where they are needed.
    Order(Vec<usize>),
    /// No state is left to try.
    Nothing,
    /// The states that were made take as many bytes as they may.
    Room,
}

// States that were tried, and those that wait for it, each of them once.
#[derive(Drop)]
struct Search {
    done: IndexSet<Node>,
    ahead: IndexSet<Node>,
    /// How many bytes these states take.
    bytes: u64,
}

/// Whether the operations of a recorded history can be placed one after another, pushes where their values are taken, by
/// states that take fewer bytes than `room`.
///
/// The call takes memory and time for each state. It doesn't wait.
#[tactic(auto, using(crate::proofs::Counting::counted_ahead, crate::proofs::Rooted::rooted_ahead, crate::proofs::Trying::seen_ahead))]
pub fn searched(alloc: Global, history: &[Stamped], room: u64) -> Result<Found, AllocError>
    //= judge/nothing: Where a search has no state left to try, the recorded history is not one of a queue.
    ensures none { IfOk result (λ found. found ≡ Nothing → ¬ IsOfQueue history.now) }
    //= judge/found: Where a search finds an order, the recorded history is one of a queue by it, if its operations are calls:
    //=   each ended exactly where it was told a reply, and not before it began.
    ensures order { IfOk result (λ found. WhereOrder found (λ order.
        All IsCall history.now → IsOfQueue history.now × IsOrder history.now order)) }
    //= judge/room: A search ends for want of room only where states that are reached from the start, each listed once,
    //=   take as many bytes as the room or more, of which a state takes 160, and 8 for each operation that it keeps. A step
    //=   leaves out one operation that is no waiting push, and with it a push that is taken or those that a shut leaves
    //=   out.
    ensures room { IfOk result (λ found. found ≡ Room → TakesRoom history.now room) }
{
    let board = Board::of(alloc, history)?;
    let mut search = Search::new(alloc)?;
    if room <= search.bytes {
        return Ok(Found::Room);
    }
    while let Some(node) = search.ahead.pop() {
        match search.try_one(alloc, &board, room, node)? {
            Some(found) => return Ok(found),
            None => {}
        }
    }
    Ok(Found::Nothing)
}

impl Search {
    fn new(alloc: Global) -> Result<Search, AllocError>
        ensures { IfOk result (λ search.
            (views search.done.keys ≡ [])
            × (views search.ahead.keys ≡ start ∷ [])
            × (search.bytes ≤ size start)) }
    {
        let node = Node::start(alloc);
        let bytes = node.bytes();
        let mut ahead = IndexSet::new(alloc);
        ahead.insert(node)?;
        Ok(Search {
            done: IndexSet::new(alloc),
            ahead,
            bytes,
        })
    }

    // Tries a state that was the last of those that wait for it.
    fn try_one(
        &mut self,
        alloc: Global,
        board: &Board,
        room: u64,
        node: Node,
    ) -> Result<Option<Found>, AllocError>
        requires rising { AreRising board.now }
        requires counted { IsCounted board.now (views self.old.done.keys)
            (views self.old.ahead.keys ++ view node ∷ []) self.old.bytes }
        requires rooted { IsRooted board.now self.old.done.keys (self.old.ahead.keys ++ node ∷ []) }
        ensures kept { Searched board.now (views self.old.done.keys)
            (views self.old.ahead.keys ++ view node ∷ [])
            → IfOk result (λ found. found ≡ None → IsSearched board.now self.new) }
        ensures counted { IfOk result (λ found. found ≡ None → IsCountedSearch board.now self.new) }
        ensures rooted { IfOk result (λ found. found ≡ None
            → IsRooted board.now self.new.done.keys self.new.ahead.keys) }
        ensures order { IfOk result (λ found. IfSome found (λ found.
            WhereOrder found (IsOrderOn board.now))) }
        ensures told { IfOk result (λ found. found ≡ Some Room → HasNoRoom board.now room) }
        ensures left { IfOk result (λ found. ¬ (found ≡ Some Nothing)) }
        ensures room { IfOk result (λ found. found ≡ None → self.old.bytes ≤ room
            → self.new.bytes ≤ room) }
        ensures fewer { IfOk result (λ found. found ≡ None
            → length self.new.ahead.keys + self.old.bytes
            ≤ length self.old.ahead.keys + self.new.bytes) }
    {
        if node.is_end(&board.others) {
            let order = order(alloc, board, self.done.as_slice(), &node)?;
            let places = places(alloc, &order)?;
            return Ok(Some(Found::Order(places)));
        }
        let new = node.successors(alloc, board)?;
        self.put(node)?;
        if self.put_ahead(room, new)? {
            Ok(None)
        } else {
            Ok(Some(Found::Room))
        }
    }

    // Puts a state to those that were tried, of which it is none.
    fn put(&mut self, node: Node) -> Result<(), AllocError>
        requires { ¬ IsIn (view node) (views self.old.done.keys) }
        ensures { OnOk result (
            (views self.new.done.keys ≡ views self.old.done.keys ++ view node ∷ [])
            × (self.new.ahead ≡ self.old.ahead)
            × (self.new.bytes ≡ self.old.bytes)
            × (self.new.done.keys ≡ self.old.done.keys ++ node ∷ [])) }
    {
        self.done.insert(node)?;
        Ok(())
    }

    // Puts states to those that wait, the last ones first, but for those that are known, as long as there is room.
    fn put_ahead(&mut self, room: u64, new: Vec<Node>) -> Result<bool, AllocError>
        ensures same { OnOk result (self.new.done ≡ self.old.done) }
        ensures all { IfOk result (λ fits. fits ≡ true → WerePut room (views self.old.done.keys)
            (views self.old.ahead.keys) self.old.bytes (turned (views new.items))
            (views self.new.ahead.keys) self.new.bytes) }
        ensures behind { IfOk result (λ fits. fits ≡ true → AddsBehind self.old.done.keys
            (views new.items) self.old.ahead.keys self.new.ahead.keys) }
        ensures full { IfOk result (λ fits. fits ≡ false → IsFull room (views self.old.done.keys)
            (views self.old.ahead.keys) self.old.bytes (turned (views new.items))) }
    {
        let parent = self.done.len().saturating_sub(1);
        let mut new = new;
        while let Some(node) = new.pop() {
            let mut node = node;
            node.parent = parent;
            if !self.put_last(room, node)? {
                return Ok(false);
            }
        }
        Ok(true)
    }

    // Puts a state to those that wait, if it isn't known, and there is room for it.
    fn put_last(&mut self, room: u64, node: Node) -> Result<bool, AllocError>
        ensures same { OnOk result (self.new.done ≡ self.old.done) }
        ensures put { IfOk result (λ fits. fits ≡ true → IsPut room (views self.old.done.keys)
            (views self.old.ahead.keys) self.old.bytes (view node) (views self.new.ahead.keys)
            self.new.bytes) }
        ensures stands { IfOk result (λ fits. fits ≡ true
            → AddsNode self.old.ahead.keys node self.new.ahead.keys) }
        ensures new { IfOk result (λ fits. fits ≡ false → ¬ IsIn (view node)
            (views self.old.done.keys ++ views self.old.ahead.keys)) }
        ensures full { IfOk result (λ fits. fits ≡ false
            → room ≤ self.old.bytes + size (view node)) }
    {
        if self.is_known(&node) {
            return Ok(true);
        }
        let bytes = node.bytes();
        if room.saturating_sub(self.bytes) <= bytes {
            return Ok(false);
        }
        self.bytes = self.bytes.saturating_add(bytes);
        self.ahead.insert(node)?;
        Ok(true)
    }

    // Whether a state is one of those that were tried, or that wait for it.
    fn is_known(&self, node: &Node) -> bool
        ensures known { result ≡ true → IsIn (view node.now)
            (views self.now.done.keys ++ views self.now.ahead.keys) }
        ensures new { result ≡ false → ¬ IsIn (view node.now)
            (views self.now.done.keys ++ views self.now.ahead.keys) }
    {
        self.done.contains(node) || self.ahead.contains(node)
    }
}

// The places of operations in a history whose operations have them as their points.
fn places(alloc: Global, operations: &[Stamped]) -> Result<Vec<usize>, AllocError>
    ensures { IfOk result (λ places. places.items ≡ places_of operations.now) }
{
    let mut places = Vec::new(alloc);
    for operation in operations {
        places.push(operation.at.unwrap_or(0) as usize)?;
    }
    Ok(places)
}
