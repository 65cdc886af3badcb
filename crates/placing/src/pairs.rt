//! Which take has which push.
use crate::answers::Reason;
use crate::kinds::{ValueCall, place_of};
use std::alloc::{AllocError, Global};

/// A push, and the take of its value where there is one, as indices.
#[derive(Clone, Copy)]
pub(crate) struct Pair {
    pub(crate) push: usize,
    pub(crate) take: Option<usize>,
}

/// Pushes with their takes.
#[derive(Drop)]
pub(crate) struct Pairs {
    /// Of the values that were pushed once.
    pub(crate) once: Vec<Pair>,
    /// Of the others: the first push to begin has the first take to end. That is a guess.
    pub(crate) guessed: Vec<Pair>,
}

/// What comes of pairing.
#[derive(Drop)]
pub(crate) enum Pairing {
    Pairs(Pairs),
    Sooner(Reason),
}

// The calls of one value.
#[derive(Drop)]
struct Group {
    pushes: Vec<ValueCall>,
    takes: Vec<ValueCall>,
}

/// Pairs the calls, which are in order.
pub(crate) fn paired(alloc: Global, calls: &[ValueCall]) -> Result<Pairing, AllocError> {
    let mut pairs = Pairs {
        once: Vec::new(alloc),
        guessed: Vec::new(alloc),
    };
    let mut group = Group {
        pushes: Vec::new(alloc),
        takes: Vec::new(alloc),
    };
    for call in calls {
        if !group.has_value_of(call) {
            group.settle(&mut pairs)?;
        }
        if call.is_take {
            group.takes.push(*call)?;
            if !group.has_push_for_last_take() {
                return Ok(Pairing::Sooner(group.sooner(alloc)?));
            }
        } else {
            group.pushes.push(*call)?;
        }
    }
    group.settle(&mut pairs)?;
    Ok(Pairing::Pairs(pairs))
}

impl Group {
    // Whether a call is of the group's value, or the group is empty.
    fn has_value_of(&self, call: &ValueCall) -> bool {
        match self.pushes.first() {
            Some(push) => push.is_of_value_of(call),
            None => true,
        }
    }

    // Whether the last take has a push of its own that began by its end.
    fn has_push_for_last_take(&self) -> bool {
        let push = self.pushes.get(self.takes.len().saturating_sub(1));
        match (push, self.takes.last()) {
            (Some(push), Some(take)) => push.time <= take.time,
            (None, Some(_)) => false,
            (_, None) => true,
        }
    }

    // That the last take is sooner than a push of its own.
    fn sooner(&self, alloc: Global) -> Result<Reason, AllocError> {
        let earlier = self.takes.len().saturating_sub(1);
        let mut others = Vec::new(alloc);
        for take in self.takes.iter().take(earlier) {
            others.push(place_of(take.index))?;
        }
        for push in self.pushes.iter().take(self.takes.len()) {
            others.push(place_of(push.index))?;
        }
        let place = match self.takes.last() {
            Some(take) => place_of(take.index),
            None => 0,
        };
        Ok(Reason::Sooner { place, others })
    }

    // Hands over the pairs of a value, and begins another.
    fn settle(&mut self, pairs: &mut Pairs) -> Result<(), AllocError> {
        let once = self.pushes.len() == 1;
        for (rank, push) in self.pushes.iter().enumerate() {
            let pair = Pair {
                push: push.index,
                take: self.takes.get(rank).map(|take| take.index),
            };
            if once {
                pairs.once.push(pair)?;
            } else {
                pairs.guessed.push(pair)?;
            }
        }
        self.pushes.clear();
        self.takes.clear();
        Ok(())
    }
}
