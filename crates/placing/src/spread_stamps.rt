//! A recorded history with points, and with its stamps spread where those given leave no room for these.
ghost use Rattle.std.specs.Prelude.{◌≡◌, ◌≤◌, ◌<◌, ◌*◌, IfSome, IsSome, IfOk, OnOk, Some, All, map, length, slice_get};
ghost use Rattle.std.specs.List.{Contains, AllZip};
ghost use Rattle.std.specs.List.Sorted.{IsStrictlyIncreasing};
ghost use Rattle.placing.specs.SpreadStamps.{IsFirstOf, IsLastOf, IsSpreadFrom, IsPointed, IsSpread, IsOfNumbers, AddsStamps, SpreadsAll, HasRoom};
ghost use Rattle.placing.specs.Orders.{IsBehindFirst};

use history::Stamped;
use std::alloc::{AllocError, Global};

/// How stamps are spread: of the numbers used, in their order, each becomes `width` numbers in a row, the first from 1 on.
#[derive(Drop)]
pub(crate) struct Spread {
    numbers: Vec<u64>,
    width: u64,
}

impl Spread {
    // How the stamps of a history are spread, so that all its operations have room at each number.
    pub(crate) fn of(alloc: Global, history: &[Stamped]) -> Result<Spread, AllocError>
        ensures all { IfOk result (λ spread. SpreadsAll history.now spread.numbers.items spread.width) }
        ensures room { length history.now ≤ 2147483648
            → IfOk result (λ spread. HasRoom spread.numbers.items spread.width) }
        ensures wide { length history.now ≤ 2147483648
            → IfOk result (λ spread. length history.now < spread.width) }
    {
        let mut numbers = used(alloc, history)?;
        numbers.sort_unstable();
        numbers.dedup();
        Ok(Spread {
            numbers,
            width: (history.len() as u64).saturating_add(1),
        })
    }

    // How many of the numbers used are smaller; none where this one isn't used.
    fn rank(&self, number: u64) -> Option<u64>
        requires { IsStrictlyIncreasing self.now.numbers.items }
        ensures there { IfSome result (λ rank. slice_get self.now.numbers.items rank ≡ Some number) }
        ensures some { Contains self.now.numbers.items number → IsSome result }
    {
        match self.numbers.binary_search(&number) {
            Ok(rank) => Some(rank as u64),
            Err(_) => None,
        }
    }

    // The first of the numbers that a number becomes; none where it isn't used, or that isn't below 2^64.
    fn first(&self, number: u64) -> Option<u64>
        requires rises { IsStrictlyIncreasing self.now.numbers.items }
        requires wide { 1 ≤ self.now.width }
        ensures first { IfSome result (IsFirstOf self.now.numbers.items self.now.width number) }
        ensures some { HasRoom self.now.numbers.items self.now.width
            → Contains self.now.numbers.items number → IsSome result }
    {
        let before = self.rank(number)?.checked_mul(self.width)?;
        let first = before.checked_add(1)?;
        Some(first)
    }

    // The number so many behind the first that a number becomes; none where it isn't used, or that isn't below 2^64.
    pub(crate) fn behind_first(&self, number: u64, behind: u64) -> Option<u64>
        requires rises { IsStrictlyIncreasing self.now.numbers.items }
        requires wide { 1 ≤ self.now.width }
        ensures at { IfSome result (IsBehindFirst self.now.numbers.items self.now.width number behind) }
        ensures some { HasRoom self.now.numbers.items self.now.width → behind < self.now.width
            → Contains self.now.numbers.items number → IsSome result }
    {
        let first = self.first(number)?;
        let at = first.checked_add(behind)?;
        Some(at)
    }

    // The last of the numbers that a number becomes; none where it isn't used, or that isn't below 2^64.
    fn last(&self, number: u64) -> Option<u64>
        requires { IsStrictlyIncreasing self.now.numbers.items }
        ensures last { IfSome result (IsLastOf self.now.numbers.items self.now.width number) }
        ensures some { HasRoom self.now.numbers.items self.now.width
            → Contains self.now.numbers.items number → IsSome result }
    {
        let before = self.rank(number)?.checked_mul(self.width)?;
        let last = before.checked_add(self.width)?;
        Some(last)
    }

    // An operation at a point, with spread stamps.
    fn operation(&self, operation: &Stamped, at: Option<u64>) -> Option<Stamped>
        requires rises { IsStrictlyIncreasing self.now.numbers.items }
        requires wide { 1 ≤ self.now.width }
        ensures new { IfSome result (IsSpreadFrom self.now.numbers.items self.now.width operation.now) }
        ensures at { IfSome result (λ new. new.at ≡ at) }
        ensures some { HasRoom self.now.numbers.items self.now.width
            → IsOfNumbers self.now.numbers.items operation.now → IsSome result }
    {
        let last = match operation.last {
            Some(last) => Some(self.last(last)?),
            None => None,
        };
        Some(Stamped {
            actor: operation.actor,
            op: operation.op,
            first: self.first(operation.first)?,
            last,
            at,
            reply: operation.reply,
        })
    }

    // A history with these points, in the order of its operations, and with spread stamps.
    pub(crate) fn history(
        &self,
        alloc: Global,
        history: &[Stamped],
        points: &[Option<u64>],
    ) -> Result<Option<Vec<Stamped>>, AllocError>
        requires all { SpreadsAll history.now self.now.numbers.items self.now.width }
        requires long { length points.now ≡ length history.now }
        ensures spread { IfOk result (λ spread. IfSome spread (λ new.
            AllZip (IsSpreadFrom self.now.numbers.items self.now.width) history.now new.items)) }
        ensures points { IfOk result (λ spread. IfSome spread (λ new.
            map (λ o. o.at) new.items ≡ points.now)) }
        ensures some { HasRoom self.now.numbers.items self.now.width → IfOk result IsSome }
    {
        let mut spread = Vec::new(alloc);
        for (index, operation) in history.iter().enumerate() {
            let at = points.get(index).copied().flatten();
            match self.operation(operation, at) {
                Some(new) => spread.push(new)?,
                None => return Ok(None),
            }
        }
        Ok(Some(spread))
    }
}

// The numbers that a history has as stamps.
fn used(alloc: Global, history: &[Stamped]) -> Result<Vec<u64>, AllocError>
    ensures each { IfOk result (λ numbers. All (IsOfNumbers numbers.items) history.now) }
    ensures few { IfOk result (λ numbers. length numbers.items ≤ 2 * length history.now) }
{
    let mut numbers = Vec::new(alloc);
    for operation in history {
        push_stamps(&mut numbers, operation)?;
    }
    Ok(numbers)
}

fn push_stamps(numbers: &mut Vec<u64>, operation: &Stamped) -> Result<(), AllocError>
    ensures { OnOk result (AddsStamps numbers.old.items numbers.new.items operation.now) }
{
    numbers.push(operation.first)?;
    if let Some(last) = operation.last {
        numbers.push(last)?;
    }
    Ok(())
}

// A history with these points, in the order of its operations, and with the stamps given.
pub(crate) fn pointed(
    alloc: Global,
    history: &[Stamped],
    points: &[Option<u64>],
) -> Result<Vec<Stamped>, AllocError>
    ensures { IfOk result (λ new. IsSpread history.now new.items) }
{
    let mut pointed = Vec::new(alloc);
    for (index, operation) in history.iter().enumerate() {
        let at = points.get(index).copied().flatten();
        pointed.push(at_point(operation, at))?;
    }
    Ok(pointed)
}

fn at_point(operation: &Stamped, at: Option<u64>) -> Stamped
    ensures { IsPointed operation.now result }
{
    Stamped { at, ..*operation }
}
