//! Reasons, of values that have no order and of pops that have no time at which the queue may be empty.
use crate::answers::{Held, Reason, Span};
use crate::kinds::place_of;
use crate::shut_reasons::open_until;
use crate::times::{Carried, When};
use crate::value_order::Values;
use history::Stamped;
use std::alloc::{AllocError, Global};

/// That a value was taken while another one was there that was pushed before it.
pub(crate) fn out_of_order(
    alloc: Global,
    values: &Values,
    pending: &[(u64, usize)],
    earlier: usize,
    later: usize,
) -> Result<Option<Reason>, AllocError> {
    let Some(taken) = values.all.get(later) else {
        return Ok(None);
    };
    let (Some(take), When::At(time)) = (taken.take, taken.taken.last) else {
        return Ok(None);
    };
    let begun = pending.partition_point(|pop| pop.0 <= time);
    match held(alloc, values, earlier, begun)? {
        Some(held) => Ok(Some(Reason::Order {
            place: place_of(take),
            push: place_of(taken.push),
            held,
        })),
        None => Ok(None),
    }
}

// What is there throughout: a value that a pop was told, or as many of those left as to be one more than these pops.
fn held(
    alloc: Global,
    values: &Values,
    index: usize,
    pops: usize,
) -> Result<Option<Held>, AllocError> {
    if index >= values.told {
        return Ok(Some(Held::Left(left(alloc, values, pops)?)));
    }
    match values.all.get(index) {
        Some(
            Carried {
                push,
                take: Some(take),
                ..
            },
        ) => Ok(Some(Held::Value {
            push: place_of(*push),
            take: place_of(*take),
        })),
        Some(_) | None => Ok(None),
    }
}

// The places of the first pushes to end of those left, one more than so many.
fn left(alloc: Global, values: &Values, pops: usize) -> Result<Vec<u64>, AllocError> {
    let mut places = Vec::new(alloc);
    for value in values
        .all
        .iter()
        .skip(values.told)
        .take(pops.saturating_add(1))
    {
        places.push(place_of(value.push))?;
    }
    places.sort_unstable();
    Ok(places)
}

/// That a pop was told that the queue is empty, while a value was there at each of its times at which it may not be shut.
pub(crate) fn full(
    alloc: Global,
    history: &[Stamped],
    values: &Values,
    pending: &[(u64, usize)],
    index: usize,
) -> Result<Option<Reason>, AllocError> {
    let Some(pop) = history.get(index) else {
        return Ok(None);
    };
    let Some(last) = pop.last else {
        return Ok(None);
    };
    let last = open_until(history, last);
    let mut spans = Vec::new(alloc);
    for there in &chain(alloc, &values.all, When::At(pop.first), When::At(last))? {
        match span(alloc, values, pending, there, last)? {
            Some(span) => spans.push(span)?,
            None => return Ok(None),
        }
    }
    let place = place_of(index);
    Ok(Some(Reason::Full { place, spans }))
}

// That a value is there, from when its push ends until its take begins.
#[derive(Clone, Copy, PartialEq, Eq, PartialOrd, Ord)]
struct There {
    from: When,
    until: When,
    index: usize,
}

// Values that are there one after another, each from before the one before it goes, from a time to another.
fn chain(
    alloc: Global,
    values: &[Carried],
    first: When,
    last: When,
) -> Result<Vec<There>, AllocError> {
    let mut chain = Vec::new(alloc);
    let mut next = first;
    let mut best: Option<There> = None;
    for there in &all_there(alloc, values)? {
        if next <= there.from {
            if let Some(longest) = best {
                chain.push(longest)?;
                next = longest.until;
                best = None;
            }
        }
        if last < next {
            return Ok(chain);
        }
        best = match best {
            Some(longest) if there.until <= longest.until => Some(longest),
            Some(_) | None => Some(*there),
        };
    }
    if let Some(longest) = best {
        chain.push(longest)?;
    }
    Ok(chain)
}

// The values that are there for a time, by the beginning of that.
fn all_there(alloc: Global, values: &[Carried]) -> Result<Vec<There>, AllocError> {
    let mut all = Vec::new(alloc);
    for (index, value) in values.iter().enumerate() {
        if value.pushed.last < value.taken.first {
            all.push(There {
                from: value.pushed.last,
                until: value.taken.first,
                index,
            })?;
        }
    }
    all.sort_unstable();
    Ok(all)
}

// The numbers at which a value is there, none of them after the last one.
fn span(
    alloc: Global,
    values: &Values,
    pending: &[(u64, usize)],
    there: &There,
    last: u64,
) -> Result<Option<Span>, AllocError> {
    let When::At(ended) = there.from else {
        return Ok(None);
    };
    let last = match there.until {
        When::At(begins) => begins.saturating_sub(1).min(last),
        When::Never => last,
    };
    let begun = pending.partition_point(|pop| pop.0 <= last);
    match held(alloc, values, there.index, begun)? {
        Some(held) => Ok(Some(Span {
            first: ended.saturating_add(1),
            last,
            held,
        })),
        None => Ok(None),
    }
}
