//! Parts of a history, without values and calls of which it may be that the rest doesn't need them.
use crate::kinds::{ValueCall, sorted};
use crate::marks::cut;
use history::Stamped;
use std::alloc::{AllocError, Global};

/// What began by a number, and which of it is left out.
#[derive(Drop)]
pub(crate) struct Part {
    /// The operations that began by the number, those that ended later told nothing.
    operations: Vec<Stamped>,
    /// Where each stands in the history.
    indices: Vec<usize>,
    /// With which others each is left out: the number of its group, and 0 where it isn't.
    groups: Vec<usize>,
    /// Of each group, whether it is left out.
    out: Vec<bool>,
}

/// Some groups: from one on, so many.
#[derive(Clone, Copy)]
pub(crate) struct Groups {
    pub(crate) first: usize,
    pub(crate) size: usize,
}

impl Groups {
    fn has(self, group: usize) -> bool {
        self.first <= group && group - self.first < self.size
    }
}

impl Part {
    /// The part of a history that began by a number, with nothing left out.
    pub(crate) fn begun(
        alloc: Global,
        history: &[Stamped],
        until: u64,
    ) -> Result<Part, AllocError> {
        let mut part = Part {
            operations: Vec::new(alloc),
            indices: Vec::new(alloc),
            groups: Vec::new(alloc),
            out: Vec::new(alloc),
        };
        for (index, operation) in history.iter().enumerate() {
            if operation.first <= until {
                part.operations.push(cut(operation, until))?;
                part.indices.push(index)?;
                part.groups.push(0)?;
            }
        }
        part.out.push(false)?;
        Ok(part)
    }

    /// Puts the operations into groups: the pushes and takes of a value that a pop was told, each push of another one, and each call
    /// that was refused or found the queue empty; but none with the operation that stands at this place of the history.
    pub(crate) fn group(&mut self, alloc: Global, index: usize) -> Result<(), AllocError> {
        let sorted = sorted(alloc, &self.operations)?;
        let mut later: Option<ValueCall> = None;
        for call in sorted.calls.iter().rev() {
            // Takes come behind the pushes of their value.
            let is_shared = later.is_some_and(|later| later.is_of_value_of(call));
            if !is_shared {
                self.out.push(false)?;
            }
            self.put_last(call.index);
            later = if is_shared || call.is_take {
                Some(*call)
            } else {
                None
            };
        }
        for at in sorted.empties.iter().chain(sorted.refused.iter()) {
            self.out.push(false)?;
            self.put_last(*at);
        }
        self.keep(index);
        Ok(())
    }

    // Puts the operation at a place of the part into the last group.
    fn put_last(&mut self, at: usize) {
        let last = self.count();
        if let Some(group) = self.groups.get_mut(at) {
            *group = last;
        }
    }

    // Takes the operation that stands at a place of the history out of its group, with all others there.
    fn keep(&mut self, index: usize) {
        let mut kept = 0;
        for (at, group) in self.indices.iter().zip(self.groups.iter()) {
            if *at == index {
                kept = *group;
            }
        }
        for group in &mut self.groups {
            if *group == kept {
                *group = 0;
            }
        }
    }

    /// How many groups there are.
    pub(crate) fn count(&self) -> usize {
        self.out.len().saturating_sub(1)
    }

    // Whether the operations of a group are left out.
    fn is_out(&self, group: usize) -> bool {
        self.out.get(group).copied().unwrap_or(false)
    }

    /// Whether something of these groups isn't left out.
    pub(crate) fn has_of(&self, groups: Groups) -> bool {
        self.groups
            .iter()
            .any(|group| groups.has(*group) && !self.is_out(*group))
    }

    /// The operations that aren't left out, but for those of these groups.
    pub(crate) fn without(
        &self,
        alloc: Global,
        groups: Groups,
    ) -> Result<Vec<Stamped>, AllocError> {
        let mut left = Vec::new(alloc);
        for (operation, group) in self.operations.iter().zip(self.groups.iter()) {
            if !self.is_out(*group) && !groups.has(*group) {
                left.push(*operation)?;
            }
        }
        Ok(left)
    }

    /// Leaves these groups out.
    pub(crate) fn leave_out(&mut self, groups: Groups) {
        for (group, out) in self.out.iter_mut().enumerate() {
            if groups.has(group) {
                *out = true;
            }
        }
    }

    /// Whether the operation at a place of the part, from 0, isn't left out.
    pub(crate) fn has_at(&self, at: usize) -> bool {
        match self.groups.get(at) {
            Some(group) => !self.is_out(*group),
            None => true,
        }
    }
}
