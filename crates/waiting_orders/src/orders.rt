//! The order that a walk to an end of the search gives: each push as late as it may be, but before its value is taken.
ghost use Rattle.std.specs.Prelude.{◌≡◌, ◌<◌, ◌≤◌, ◌+◌, ◌-◌, ◌++◌, ℕ, [], None, false, not, is_some, IfOk, OnOk, List, drop, slice_get};
ghost use Rattle.std.specs.List.{AllByRecursion, filter};
ghost use Rattle.std.specs.List.Sorted.{IsPermutation};
ghost use Rattle.history.specs.declared.operations.Stamped as stamped;
ghost use Rattle.waiting_orders.specs.Lines.{IsRising, left_of, view_left};
ghost use Rattle.waiting_orders.specs.Listed as listed;
ghost use Rattle.waiting_orders.specs.Listed.{IsOrderOf};
ghost use Rattle.waiting_orders.specs.Listing.{Puts, TakesOne, leasts};
ghost use Rattle.waiting_orders.specs.Nodes.{AreCalls, IsBoard, view};
ghost use Rattle.waiting_orders.specs.Waiting.{IsUntold};
ghost use Rattle.waiting_orders.specs.Walked.{AreRooted, IsFrom};

use crate::boards::{Board, by_first};
use crate::lines::{Rest, lowered_at, operation_at, place_at};
use crate::nodes::Node;
use crate::operations::{is_open_at, leaves};
use crate::walks::{Went, walk_to};
use history::{Op, Reply, Stamped};
use std::alloc::{AllocError, Global};

/// The operations of an order of a history, one after another, where `end` is an end, and behind states that were tried.
pub(crate) fn order(
    alloc: Global,
    board: &Board,
    done: &[Node],
    end: &Node,
) -> Result<Vec<Stamped>, AllocError>
    requires done { AreRooted board.now [] done.now }
    requires end { IsFrom board.now done.now end.now }
    ensures { IfOk result (λ order. AreCalls board.now
        → AllByRecursion IsUntold (left_of board.now.others.items (view end.now).others)
        → (ops : List stamped.Stamped) → IsBoard ops board.now → IsOrderOf ops order.items) }
{
    let walk = walk_to(alloc, board, done, end)?;
    let staying = staying(alloc, &board.pushes, &end.pushes)?;
    let pushes = with_taken(alloc, &walk, &staying)?;
    let asides = asides(alloc, &walk)?;
    let list = listed(alloc, &walk, &pushes)?;
    let order = merged(alloc, &asides, &list)?;
    Ok(order)
}

// The pushes that stay in the queue, by their first numbers: those that ended of what is left.
fn staying(alloc: Global, pushes: &[Stamped], left: &Rest) -> Result<Vec<Stamped>, AllocError>
    ensures rising { IfOk result (λ staying. IsRising staying.items) }
    ensures same { IfOk result (λ staying. IsPermutation
        (filter (λ p. is_some p.last) (left_of pushes.now (view_left left.now))) staying.items) }
{
    let places = left.spelled(alloc, pushes.len())?;
    let mut staying = Vec::new(alloc);
    for at in 0..places.len() {
        push_ended(&mut staying, pushes, place_at(&places, at))?;
    }
    let sorted = by_first(staying)?;
    Ok(sorted)
}

// Pushes the operation at a place, if there is one that ended.
fn push_ended(
    ended: &mut Vec<Stamped>,
    operations: &[Stamped],
    place: Option<usize>,
) -> Result<(), AllocError>
    ensures { OnOk result (ended.new.items ≡ ended.old.items
        ++ listed.ended_at operations.now place) }
{
    if let Some(place) = place {
        if let Some(operation) = operation_at(operations, place) {
            if operation.last.is_some() {
                ended.push(operation)?;
            }
        }
    }
    Ok(())
}

// The pushes whose values are taken, one after another, and then others.
fn with_taken(alloc: Global, walk: &[Went], staying: &[Stamped]) -> Result<Vec<Stamped>, AllocError>
    ensures { IfOk result (λ pushes. pushes.items ≡ listed.taken_of walk.now ++ staying.now) }
{
    let mut pushes = Vec::new(alloc);
    for went in walk {
        if let Some(push) = went.push {
            pushes.push(push)?;
        }
    }
    for push in staying {
        pushes.push(*push)?;
    }
    Ok(pushes)
}

// What is set aside, by first numbers.
fn asides(alloc: Global, walk: &[Went]) -> Result<Vec<Stamped>, AllocError>
    ensures rising { IfOk result (λ asides. IsRising asides.items) }
    ensures same { IfOk result (λ asides. IsPermutation (listed.asides_of walk.now) asides.items) }
{
    let mut asides = Vec::new(alloc);
    for went in walk {
        if is_aside(&went.other) {
            asides.push(went.other)?;
        }
    }
    let sorted = by_first(asides)?;
    Ok(sorted)
}

// Whether an operation was refused for something else than a shut.
fn is_aside(operation: &Stamped) -> bool
    ensures { result ≡ listed.is_aside operation.now.reply }
{
    match operation.reply {
        Some(Reply::Refused(refusal)) => leaves(refusal),
        None | Some(Reply::Done) | Some(Reply::Value(_)) | Some(Reply::Empty) => false,
    }
}

// Whether an operation shuts the queue.
fn shuts(operation: &Stamped) -> bool
    ensures { result ≡ listed.shuts operation.now.op operation.now.reply }
{
    match operation.op {
        Op::Enq(_) | Op::Deq => false,
        Op::Shut => match operation.reply {
            None | Some(Reply::Done) => true,
            Some(Reply::Value(_)) | Some(Reply::Empty) | Some(Reply::Refused(_)) => false,
        },
    }
}

// The order of what goes, but for what is set aside, and of the pushes.
fn listed(alloc: Global, walk: &[Went], pushes: &[Stamped]) -> Result<Vec<Stamped>, AllocError>
    ensures { IfOk result (λ order. order.items ≡ listed.order_of walk.now 0 pushes.now) }
{
    let limits = limits(alloc, pushes)?;
    let mut order = Listing::new(alloc);
    for went in walk {
        order.put(pushes, &limits, went)?;
    }
    order.put_all(pushes)?;
    Ok(order.operations)
}

// An order with what was set aside.
fn merged(alloc: Global, asides: &[Stamped], list: &[Stamped]) -> Result<Vec<Stamped>, AllocError>
    ensures { IfOk result (λ order. order.items ≡ listed.merged asides.now list.now) }
{
    let limits = limits(alloc, asides)?;
    let mut order = Listing::new(alloc);
    for at in 0..list.len() {
        order.put_behind(asides, &limits, list, at)?;
    }
    order.put_all(asides)?;
    Ok(order.operations)
}

// Of each of some operations and those behind it the least last number.
fn limits(alloc: Global, operations: &[Stamped]) -> Result<Vec<Option<u64>>, AllocError>
    ensures { IfOk result (λ limits. limits.items ≡ leasts operations.now) }
{
    let mut limits = Vec::new(alloc);
    let mut limit = None;
    let mut place = operations.len();
    while place > 0 {
        place -= 1;
        limit = lowered_at(operations, place, limit);
        limits.push(limit)?;
    }
    limits.reverse();
    Ok(limits)
}

// Whether one of the operations from a place on ended before a number.
fn is_due(limits: &[Option<u64>], place: usize, time: u64) -> bool
    ensures { (operations : List stamped.Stamped) → limits.now ≡ leasts operations
        → result ≡ not (listed.all_open time (drop place operations)) }
{
    match limit_at(limits, place) {
        Some(limit) => !is_open_at(time, limit),
        None => false,
    }
}

fn limit_at(limits: &[Option<u64>], place: usize) -> Option<Option<u64>>
    ensures { result ≡ slice_get limits.now place }
{
    limits.get(place).copied()
}

// An order as far as it is put together, of what goes and of pushes.
#[derive(Drop)]
struct Listing {
    operations: Vec<Stamped>,
    /// The place of the next push.
    next: usize,
    /// How many pushes have their values taken.
    taken: usize,
}

impl Listing {
    fn new(alloc: Global) -> Listing
        ensures { (result.operations.items ≡ []) × (result.next ≡ 0) × (result.taken ≡ 0) }
    {
        Listing {
            operations: Vec::new(alloc),
            next: 0,
            taken: 0,
        }
    }

    // Puts in the next push, if there is one.
    fn put_next(&mut self, pushes: &[Stamped]) -> Result<(), AllocError>
        ensures { OnOk result (Puts pushes.now (listed.front_of (drop self.old.next pushes.now))
            (listed.back_of (drop self.old.next pushes.now)) self.old self.new) }
    {
        match operation_at(pushes, self.next) {
            Some(push) => {
                self.operations.push(push)?;
                self.next += 1;
                Ok(())
            }
            None => Ok(()),
        }
    }

    // Puts in the next pushes that have to be before a number.
    fn put_due(
        &mut self,
        pushes: &[Stamped],
        limits: &[Option<u64>],
        time: u64,
    ) -> Result<(), AllocError>
        requires { limits.now ≡ leasts pushes.now }
        ensures { OnOk result (Puts pushes.now
            (listed.due_front time (drop self.old.next pushes.now))
            (listed.due_later time (drop self.old.next pushes.now)) self.old self.new) }
    {
        while is_due(limits, self.next, time) {
            self.put_next(pushes)?;
        }
        Ok(())
    }

    // Puts in all pushes.
    fn put_all(&mut self, pushes: &[Stamped]) -> Result<(), AllocError>
        ensures { OnOk result
            (Puts pushes.now (drop self.old.next pushes.now) [] self.old self.new) }
    {
        while self.next < pushes.len() {
            self.put_next(pushes)?;
        }
        Ok(())
    }

    // Puts in what went.
    fn put(
        &mut self,
        pushes: &[Stamped],
        limits: &[Option<u64>],
        went: &Went,
    ) -> Result<(), AllocError>
        requires limits { limits.now ≡ leasts pushes.now }
        requires fewer { self.old.taken ≤ self.old.next }
        ensures fewer { OnOk result (self.new.taken ≤ self.new.next) }
        ensures put { OnOk result ((more : ℕ → List stamped.Stamped → List stamped.Stamped) →
            self.new.operations.items ++ more (self.new.next - self.new.taken)
            (drop self.new.next pushes.now)
            ≡ self.old.operations.items ++ listed.put_by (listed.is_aside went.now.other.reply)
            went.now.push (listed.shuts went.now.other.op went.now.other.reply) went.now.other
            went.now.time (self.old.next - self.old.taken) (drop self.old.next pushes.now) more) }
    {
        if is_aside(&went.other) {
            return Ok(());
        }
        match went.push {
            Some(_) => {
                self.put_take(pushes, limits, went)?;
                Ok(())
            }
            None => {
                self.put_other(pushes, &went.other)?;
                Ok(())
            }
        }
    }

    // Puts in what takes no value: a shut behind all pushes.
    fn put_other(&mut self, pushes: &[Stamped], other: &Stamped) -> Result<(), AllocError>
        requires { self.old.taken ≤ self.old.next }
        ensures fewer { OnOk result (self.new.taken ≤ self.new.next) }
        ensures put { OnOk result ((more : ℕ → List stamped.Stamped → List stamped.Stamped) →
            self.new.operations.items ++ more (self.new.next - self.new.taken)
            (drop self.new.next pushes.now)
            ≡ self.old.operations.items ++ listed.put_by false None (listed.shuts other.now.op
            other.now.reply) other.now 0 (self.old.next - self.old.taken)
            (drop self.old.next pushes.now) more) }
    {
        if shuts(other) {
            self.put_all(pushes)?;
            self.operations.push(*other)?;
            return Ok(());
        }
        self.operations.push(*other)?;
        Ok(())
    }

    // Puts in a pop that takes a value, behind its push.
    fn put_take(
        &mut self,
        pushes: &[Stamped],
        limits: &[Option<u64>],
        went: &Went,
    ) -> Result<(), AllocError>
        requires limits { limits.now ≡ leasts pushes.now }
        requires fewer { self.old.taken ≤ self.old.next }
        ensures fewer { OnOk result (self.new.taken ≤ self.new.next) }
        ensures put { OnOk result ((more : ℕ → List stamped.Stamped → List stamped.Stamped) →
            self.new.operations.items ++ more (self.new.next - self.new.taken)
            (drop self.new.next pushes.now)
            ≡ self.old.operations.items ++ listed.put_take went.now.other went.now.time
            (self.old.next - self.old.taken) (drop self.old.next pushes.now) more) }
    {
        self.put_push(pushes)?;
        self.put_due(pushes, limits, went.time)?;
        self.operations.push(went.other)?;
        self.take();
        Ok(())
    }

    // Puts in the next push, where no value is in the queue.
    fn put_push(&mut self, pushes: &[Stamped]) -> Result<(), AllocError>
        requires { self.old.taken ≤ self.old.next }
        ensures none { self.old.taken ≡ self.old.next → OnOk result (Puts pushes.now
            (listed.front_of (drop self.old.next pushes.now))
            (listed.back_of (drop self.old.next pushes.now)) self.old self.new) }
        ensures held { self.old.taken < self.old.next → OnOk result (self.new ≡ self.old) }
    {
        if self.taken == self.next {
            self.put_next(pushes)?;
        }
        Ok(())
    }

    // Takes a value that is in the queue, if one is.
    fn take(&mut self)
        ensures same { (self.new.operations ≡ self.old.operations) × (self.new.next ≡ self.old.next) }
        ensures taken { TakesOne self.old.next self.old.taken self.new.taken }
    {
        if self.taken < self.next {
            self.taken += 1;
        }
    }

    // Puts in the operation at a place, if there is that place, behind what has to be before it began.
    fn put_behind(
        &mut self,
        asides: &[Stamped],
        limits: &[Option<u64>],
        list: &[Stamped],
        at: usize,
    ) -> Result<(), AllocError>
        requires { limits.now ≡ leasts asides.now }
        ensures { OnOk result (
            self.new.operations.items ++ listed.merged (drop self.new.next asides.now)
            (drop (at + 1) list.now)
            ≡ self.old.operations.items ++ listed.merged (drop self.old.next asides.now)
            (drop at list.now)) }
    {
        match operation_at(list, at) {
            Some(operation) => {
                self.put_due(asides, limits, operation.first)?;
                self.operations.push(operation)?;
                Ok(())
            }
            None => Ok(()),
        }
    }
}
