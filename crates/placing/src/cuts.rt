//! Times at which the queue may be empty.
use crate::shut_faults::first_shown;
use crate::times::{Carried, When};
use history::Stamped;
use std::alloc::{AllocError, Global};

/// Times at which no value has to be there, for the pops that were told so.
#[derive(Drop)]
pub(crate) struct Cuts {
    /// The times, each once and in order.
    pub(crate) times: Vec<u64>,
    /// Each pop and its time.
    pub(crate) pops: Vec<(usize, u64)>,
}

/// What comes of looking for such times.
#[derive(Drop)]
pub(crate) enum Cutting {
    Cuts(Cuts),
    /// This pop has none.
    Full(usize),
}

/// For each pop that was told that the queue is empty, the least of its times at which no value has to be there, and the queue
/// isn't shown to be shut.
pub(crate) fn cut(
    alloc: Global,
    history: &[Stamped],
    values: &[Carried],
    empties: &[usize],
) -> Result<Cutting, AllocError> {
    let blocks = blocks(alloc, values)?;
    let shown = first_shown(history).map_or(When::Never, |shown| When::At(shown.0));
    let mut cuts = Cuts {
        times: Vec::new(alloc),
        pops: Vec::new(alloc),
    };
    for index in empties {
        let Some(pop) = history.get(*index) else {
            continue;
        };
        let at = first_free(&blocks, pop.first);
        match at {
            When::At(time) if at <= When::end_of(pop).min(shown) => {
                cuts.pops.push((*index, time))?;
                cuts.times.push(time)?;
            }
            When::At(_) | When::Never => return Ok(Cutting::Full(*index)),
        }
    }
    cuts.times.sort_unstable();
    cuts.times.dedup();
    Ok(Cutting::Cuts(cuts))
}

// The times between which some value has to be there, in order, each block apart from the next.
fn blocks(alloc: Global, values: &[Carried]) -> Result<Vec<(When, When)>, AllocError> {
    let mut spans = Vec::new(alloc);
    for value in values {
        if value.pushed.last < value.taken.first {
            spans.push((value.pushed.last, value.taken.first))?;
        }
    }
    spans.sort_unstable();
    let mut blocks: Vec<(When, When)> = Vec::new(alloc);
    for span in &spans {
        let (first, last) = *span;
        match blocks.last_mut() {
            Some(block) if first < block.1 => block.1 = block.1.max(last),
            Some(_) | None => blocks.push((first, last))?,
        }
    }
    Ok(blocks)
}

// The first time from a number on that is within no block.
fn first_free(blocks: &[(When, When)], first: u64) -> When {
    let from = When::At(first);
    let begun = blocks.partition_point(|block| block.0 < from);
    match begun.checked_sub(1).and_then(|last| blocks.get(last)) {
        Some((_, end)) => from.max(*end),
        None => from,
    }
}

impl Cuts {
    /// How many cuts are before a time.
    pub(crate) fn before(&self, time: When) -> usize {
        self.times.partition_point(|cut| When::At(*cut) < time)
    }

    /// The last cut before a segment, and 0 before the first.
    pub(crate) fn begins(&self, segment: usize) -> u64 {
        match segment.checked_sub(1) {
            Some(cut) => self.times.get(cut).copied().unwrap_or(0),
            None => 0,
        }
    }
}
