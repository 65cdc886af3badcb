//! What is known of the values of a recorded history: which are pushed more than once, and which a pop was told.
ghost use Rattle.std.specs.Prelude.{◌≡◌, not, IfOk, OnOk};
ghost use Rattle.placing.specs.Seen.{has, NotesPush, NotesTake, HasAllPushedAgain, HasAllTold};

use crate::operations::{pushed, told};
use history::{Stamped, Taken};
use std::alloc::{AllocError, Global};
use std::collections::BTreeSet;

/// Values of a history, each as its pusher and its body.
#[derive(Drop)]
pub(crate) struct Known {
    /// Those that have more than one push.
    again: BTreeSet<(u16, u64)>,
    /// Those that a pop was told.
    told: BTreeSet<(u16, u64)>,
}

impl Known {
    ghost use Rattle.placing.specs.Seen.{IsKnown};

    // What is known of the values of a history.
    pub(crate) fn of(alloc: Global, history: &[Stamped]) -> Result<Known, AllocError>
        ensures { IfOk result (IsKnown history.now) }
    {
        Ok(Known {
            again: pushed_again(alloc, history)?,
            told: told_in(alloc, history)?,
        })
    }

    pub(crate) fn is_pushed_once(&self, value: &Taken) -> bool
        ensures { result ≡ not (has self.now.again value.now) }
    {
        let body = value.body.number();
        !self.again.contains(&(value.from, body))
    }

    // Whether no pop was told a value.
    pub(crate) fn is_left(&self, value: &Taken) -> bool
        ensures { result ≡ not (has self.now.told value.now) }
    {
        let body = value.body.number();
        !self.told.contains(&(value.from, body))
    }
}

// The values that have more than one push that wasn't refused.
fn pushed_again(alloc: Global, history: &[Stamped]) -> Result<BTreeSet<(u16, u64)>, AllocError>
    ensures { IfOk result (HasAllPushedAgain history.now) }
{
    let mut seen = BTreeSet::new(alloc);
    let mut again = BTreeSet::new(alloc);
    for operation in history {
        note_push(&mut seen, &mut again, operation)?;
    }
    Ok(again)
}

// Puts the value that an operation pushes among those seen, or, where it is there already, among those seen again.
fn note_push(
    seen: &mut BTreeSet<(u16, u64)>,
    again: &mut BTreeSet<(u16, u64)>,
    operation: &Stamped,
) -> Result<(), AllocError>
    ensures { OnOk result (NotesPush seen.old seen.new again.old again.new operation.now) }
{
    let Some(value) = pushed(operation) else {
        return Ok(());
    };
    let body = value.body.number();
    let added = seen.insert((value.from, body))?;
    if added {
        return Ok(());
    }
    again.insert((value.from, body))?;
    Ok(())
}

// The values that a pop was told.
fn told_in(alloc: Global, history: &[Stamped]) -> Result<BTreeSet<(u16, u64)>, AllocError>
    ensures { IfOk result (HasAllTold history.now) }
{
    let mut values = BTreeSet::new(alloc);
    for operation in history {
        note_take(&mut values, operation)?;
    }
    Ok(values)
}

// Puts in the value that an operation was told.
fn note_take(values: &mut BTreeSet<(u16, u64)>, operation: &Stamped) -> Result<(), AllocError>
    ensures { OnOk result (NotesTake values.old values.new operation.now) }
{
    let Some(value) = told(operation.reply) else {
        return Ok(());
    };
    let body = value.body.number();
    values.insert((value.from, body))?;
    Ok(())
}
