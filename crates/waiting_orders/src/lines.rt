//! Operations by their first numbers, and what is left of them.
ghost use Rattle.std.specs.Prelude.{◌≡◌, ◌++◌, [], true, false, IfOk, OnOk, drop, slice_get};
ghost use Rattle.std.specs.List.{AllByRecursion};
ghost use Rattle.waiting_orders.specs.Waiting as rule;
ghost use Rattle.waiting_orders.specs.Lines as lines;
ghost use Rattle.waiting_orders.specs.Reached.{AreOutOf};

use crate::operations::{is_open_at, sooner};
use history::Stamped;
use std::alloc::{AllocError, Global};

/// What is left of some operations: those from a place on, and those that stand at some places before it.
#[derive(Drop)]
pub(crate) struct Rest {
    pub(crate) kept: Vec<usize>,
    pub(crate) from: usize,
}

/// An operation that is left, and what is left without it.
#[derive(Drop)]
pub(crate) struct Pick {
    pub(crate) operation: Stamped,
    pub(crate) rest: Rest,
}

impl Rest {
    /// All from a place on.
    pub(crate) fn all_from(alloc: Global, from: usize) -> Rest
        ensures { lines.view_left result ≡ record { kept = []; from = from } }
    {
        Rest {
            kept: Vec::new(alloc),
            from,
        }
    }

    /// Whether all are left.
    pub(crate) fn is_all(&self) -> bool
        ensures yes { result ≡ true → lines.view_left self.now ≡ record { kept = []; from = 0 } }
        ensures no { result ≡ false → ¬ (lines.view_left self.now ≡ record { kept = []; from = 0 }) }
    {
        self.kept.is_empty() && self.from == 0
    }

    /// The same again.
    pub(crate) fn copied(&self, alloc: Global) -> Result<Rest, AllocError>
        ensures { IfOk result (λ rest. lines.view_left rest ≡ lines.view_left self.now) }
    {
        let kept = copied(alloc, &self.kept)?;
        Ok(Rest {
            kept,
            from: self.from,
        })
    }

    // What is left without the one at a place of those kept.
    fn without_kept(&self, alloc: Global, place: usize) -> Result<Rest, AllocError>
        ensures { IfOk result (λ rest. lines.view_left rest
            ≡ lines.without_kept place (lines.view_left self.now)) }
    {
        let kept = without(alloc, &self.kept, place)?;
        Ok(Rest {
            kept,
            from: self.from,
        })
    }

    // What is left without the one at a place that isn't one of those kept.
    fn without_later(&self, alloc: Global, place: usize, next: usize) -> Result<Rest, AllocError>
        ensures { IfOk result (λ rest. lines.view_left rest
            ≡ record { kept = lines.spelled place (lines.view_left self.now); from = next }) }
    {
        let kept = self.spelled(alloc, place)?;
        Ok(Rest { kept, from: next })
    }

    /// The places of those kept, and those behind them up to a place.
    #[tactic(auto, using(crate::proofs::Places::gathered_none, crate::proofs::Places::gathered_next))]
    pub(crate) fn spelled(&self, alloc: Global, to: usize) -> Result<Vec<usize>, AllocError>
        ensures { IfOk result (λ places. places.items
            ≡ lines.spelled to (lines.view_left self.now)) }
    {
        let mut places = copied(alloc, &self.kept)?;
        if to <= self.from {
            return Ok(places);
        }
        for place in self.from..to {
            places.push(place)?;
        }
        Ok(places)
    }

    /// The least last number of what is left.
    #[tactic(auto, using(crate::proofs::Limits::limit_is))]
    pub(crate) fn limit(&self, operations: &[Stamped]) -> Option<u64>
        requires { lines.IsRising operations.now }
        ensures { lines.IsLimit (lines.left_of operations.now (lines.view_left self.now)) result }
    {
        sooner(self.kept_limit(operations), self.later_limit(operations))
    }

    fn kept_limit(&self, operations: &[Stamped]) -> Option<u64>
        ensures { lines.IsLimit (lines.picked operations.now self.now.kept.items) result }
    {
        let mut limit = None;
        for at in 0..self.kept.len() {
            limit = self.lowered_by_kept(operations, at, limit);
        }
        limit
    }

    // A limit, or the last number of the one kept at a place where that is sooner.
    fn lowered_by_kept(&self, operations: &[Stamped], at: usize, limit: Option<u64>) -> Option<u64>
        ensures { result ≡ lines.lowered limit
            (lines.stands operations.now (slice_get self.now.kept.items at)) }
    {
        match place_at(&self.kept, at) {
            Some(place) => lowered_at(operations, place, limit),
            None => limit,
        }
    }

    #[tactic(auto, using(crate::proofs::Limits::none_behind, crate::proofs::Limits::rising_drop))]
    fn later_limit(&self, operations: &[Stamped]) -> Option<u64>
        requires { lines.IsRising operations.now }
        ensures { lines.IsLimit (drop self.now.from operations.now) result }
    {
        if operations.len() < self.from {
            return None;
        }
        least_last(&operations[self.from..])
    }

    // The first place behind those kept at which an operation began past a number.
    fn until(&self, operations: &[Stamped], limit: Option<u64>) -> usize
        requires { lines.IsRising operations.now }
        ensures past { AllByRecursion (λ o. rule.is_open_at o.first limit ≡ false)
            (drop result operations.now) }
    {
        for place in self.from..operations.len() {
            if begins_past_at(operations, place, limit) {
                return place;
            }
        }
        operations.len()
    }

    /// Each that is left and began by a number, with what is left without it.
    pub(crate) fn picks(
        &self,
        alloc: Global,
        operations: &[Stamped],
        limit: Option<u64>,
    ) -> Result<Vec<Pick>, AllocError>
        requires { lines.IsRising operations.now }
        ensures all { IfOk result (λ picks. lines.ArePicks operations.now (lines.view_left self.now)
            limit (lines.view_picks picks.items)) }
        ensures each { IfOk result (λ picks. lines.AreOut operations.now (lines.view_left self.now)
            (lines.view_picks picks.items)) }
        ensures left { IfOk result (λ picks. AreOutOf operations.now (lines.view_left self.now)
            (lines.view_picks picks.items)) }
    {
        let mut picks = Vec::new(alloc);
        self.push_all_kept(&mut picks, alloc, operations)?;
        let until = self.until(operations, limit);
        self.push_all_later(&mut picks, alloc, operations, until)?;
        Ok(picks)
    }

    #[tactic(auto, using(crate::proofs::Places::gathered_next))]
    fn push_all_kept(
        &self,
        picks: &mut Vec<Pick>,
        alloc: Global,
        operations: &[Stamped],
    ) -> Result<(), AllocError>
        ensures { OnOk result (lines.view_picks picks.new.items ≡ lines.view_picks picks.old.items
            ++ lines.all_kept operations.now (lines.view_left self.now)) }
    {
        for at in 0..self.kept.len() {
            self.push_kept(picks, alloc, operations, at)?;
        }
        Ok(())
    }

    #[tactic(auto, using(crate::proofs::Places::gathered_none, crate::proofs::Places::gathered_next))]
    fn push_all_later(
        &self,
        picks: &mut Vec<Pick>,
        alloc: Global,
        operations: &[Stamped],
        until: usize,
    ) -> Result<(), AllocError>
        ensures { OnOk result (lines.view_picks picks.new.items ≡ lines.view_picks picks.old.items
            ++ lines.later_to operations.now (lines.view_left self.now) until) }
    {
        if until <= self.from {
            return Ok(());
        }
        for place in self.from..until {
            self.push_later(picks, alloc, operations, place, place + 1)?;
        }
        Ok(())
    }

    fn push_kept(
        &self,
        picks: &mut Vec<Pick>,
        alloc: Global,
        operations: &[Stamped],
        at: usize,
    ) -> Result<(), AllocError>
        ensures { OnOk result (lines.view_picks picks.new.items ≡ lines.view_picks picks.old.items
            ++ lines.kept_at operations.now (lines.view_left self.now) at) }
    {
        match place_at(&self.kept, at) {
            Some(place) => {
                let rest = self.without_kept(alloc, at)?;
                let operation = operation_at(operations, place);
                push_out(picks, operation, rest)
            }
            None => Ok(()),
        }
    }

    fn push_later(
        &self,
        picks: &mut Vec<Pick>,
        alloc: Global,
        operations: &[Stamped],
        place: usize,
        next: usize,
    ) -> Result<(), AllocError>
        ensures { OnOk result (lines.view_picks picks.new.items ≡ lines.view_picks picks.old.items
            ++ lines.out_of (slice_get operations.now place)
            (record { kept = lines.spelled place (lines.view_left self.now); from = next })) }
    {
        let rest = self.without_later(alloc, place, next)?;
        let operation = operation_at(operations, place);
        push_out(picks, operation, rest)
    }
}

// Pushes an operation that may be taken out, if there is one, and what is left without it.
fn push_out(picks: &mut Vec<Pick>, operation: Option<Stamped>, rest: Rest) -> Result<(), AllocError>
    ensures { OnOk result (lines.view_picks picks.new.items ≡ lines.view_picks picks.old.items
        ++ lines.out_of operation (lines.view_left rest)) }
{
    match operation {
        Some(operation) => {
            picks.push(Pick { operation, rest })?;
            Ok(())
        }
        None => Ok(()),
    }
}

/// The operation at a place, if there is one.
pub(crate) fn operation_at(operations: &[Stamped], place: usize) -> Option<Stamped>
    ensures { result ≡ slice_get operations.now place }
{
    operations.get(place).copied()
}

/// What stands at a place of these, if there is that place.
pub(crate) fn place_at(places: &[usize], at: usize) -> Option<usize>
    ensures { result ≡ slice_get places.now at }
{
    places.get(at).copied()
}

/// A limit, or the last number of the operation at a place where that is sooner.
pub(crate) fn lowered_at(operations: &[Stamped], place: usize, limit: Option<u64>) -> Option<u64>
    ensures { result ≡ lines.lowered limit (slice_get operations.now place) }
{
    match operation_at(operations, place) {
        Some(operation) => sooner(limit, operation.last),
        None => limit,
    }
}

/// Whether the operation at a place began behind a limit.
pub(crate) fn begins_past_at(operations: &[Stamped], place: usize, limit: Option<u64>) -> bool
    ensures { result ≡ lines.begins_past limit (slice_get operations.now place) }
{
    match operation_at(operations, place) {
        Some(operation) => !is_open_at(operation.first, limit),
        None => false,
    }
}

// The least last number of operations by rising first numbers: those that begin past it don't lower it.
fn least_last(operations: &[Stamped]) -> Option<u64>
    requires { lines.IsRising operations.now }
    ensures { lines.IsLimit operations.now result }
{
    let mut limit = None;
    for place in 0..operations.len() {
        if begins_past_at(operations, place, limit) {
            return limit;
        }
        limit = lowered_at(operations, place, limit);
    }
    limit
}

/// Some places again.
pub(crate) fn copied(alloc: Global, places: &[usize]) -> Result<Vec<usize>, AllocError>
    ensures { IfOk result (λ copied. copied.items ≡ places.now) }
{
    places.to_vec(alloc)
}

// Some places without the one that stands there.
#[tactic(auto, using(crate::proofs::Rests::remove_is, crate::proofs::Rests::without_none))]
fn without(alloc: Global, places: &[usize], at: usize) -> Result<Vec<usize>, AllocError>
    ensures { IfOk result (λ rest. rest.items ≡ lines.without at places.now) }
{
    let mut rest = copied(alloc, places)?;
    if at >= rest.len() {
        return Ok(rest);
    }
    rest.remove(at);
    Ok(rest)
}
