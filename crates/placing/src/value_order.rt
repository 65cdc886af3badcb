//! The order of the values: that in which they are pushed and in which they are taken.
use crate::pairs::Pair;
use crate::times::{Carried, When, Window};
use history::Stamped;
use std::alloc::{AllocError, Global};

/// The values of a history: first those that a pop was told, and then those left whose push ended, as it ended.
#[derive(Drop)]
pub(crate) struct Values {
    pub(crate) all: Vec<Carried>,
    /// How many a pop was told.
    pub(crate) told: usize,
}

/// An order of values, or two that have none.
#[derive(Drop)]
pub(crate) enum Ordered {
    /// Indices of the values.
    All(Vec<usize>),
    /// The first was to be pushed before the second, and is taken after it.
    Clash { earlier: usize, later: usize },
}

/// The values of these pairs, with their times. A pending pop is taken to take a value that is left.
pub(crate) fn values_of(
    alloc: Global,
    history: &[Stamped],
    pairs: &[Pair],
    pending: &[(u64, usize)],
) -> Result<Values, AllocError> {
    let mut all = Vec::new(alloc);
    let mut left = Vec::new(alloc);
    for pair in pairs {
        let Some(push) = history.get(pair.push) else {
            continue;
        };
        match (pair.take.and_then(|take| history.get(take)), push.last) {
            (Some(take), _) => all.push(told(pair, push, take))?,
            (None, Some(last)) => left.push((last, push.first, pair.push))?,
            (None, None) => {}
        }
    }
    let told = all.len();
    left.sort_unstable();
    for (rank, (last, _, index)) in left.iter().enumerate() {
        if let Some(push) = history.get(*index) {
            all.push(is_left(push, *index, *last, pending.get(rank).copied()))?;
        }
    }
    Ok(Values { all, told })
}

// A value that a pop was told.
fn told(pair: &Pair, push: &Stamped, take: &Stamped) -> Carried {
    Carried {
        push: pair.push,
        take: pair.take,
        pushed: Window {
            first: When::At(push.first),
            last: When::end_of(push),
        },
        taken: Window {
            first: When::At(take.first.max(push.first)),
            last: When::end_of(take),
        },
    }
}

// A value that no pop was told: a pending one takes it, or none.
fn is_left(push: &Stamped, index: usize, last: u64, pop: Option<(u64, usize)>) -> Carried {
    let (first, take) = match pop {
        Some((first, take)) => (When::At(first.max(push.first)), Some(take)),
        None => (When::Never, None),
    };
    Carried {
        push: index,
        take,
        pushed: Window {
            first: When::At(push.first),
            last: When::At(last),
        },
        taken: Window {
            first,
            last: When::Never,
        },
    }
}

/// An order of the values that keeps the times of their pushes and of their takes. Of those left, one goes next whose
/// push is the first to end, or one whose take is; where neither may, there is no order.
pub(crate) fn order_of(alloc: Global, values: &[Carried]) -> Result<Ordered, AllocError> {
    let mut by_push = Vec::new(alloc);
    let mut by_take = Vec::new(alloc);
    for (index, value) in values.iter().enumerate() {
        by_push.push((value.pushed.last, value.pushed.first, index))?;
        by_take.push((value.taken.last, value.taken.first, index))?;
    }
    by_push.sort_unstable();
    by_take.sort_unstable();
    let mut gone = vec![in alloc; false; values.len()]?;
    let mut order = Vec::new(alloc);
    let mut pushed = 0;
    let mut taken = 0;
    for _ in values {
        pushed = first_left(&by_push, pushed, &gone);
        taken = first_left(&by_take, taken, &gone);
        match next_of(values, by_push.get(pushed), by_take.get(taken)) {
            Next::Value(index) => {
                order.push(index)?;
                if let Some(gone) = gone.get_mut(index) {
                    *gone = true;
                }
            }
            Next::Clash { earlier, later } => return Ok(Ordered::Clash { earlier, later }),
            Next::End => break,
        }
    }
    Ok(Ordered::All(order))
}

// Where the first value stands that isn't gone, from an index on.
fn first_left(values: &[(When, When, usize)], from: usize, gone: &[bool]) -> usize {
    for at in from..values.len() {
        let (_, _, index) = values[at];
        if !gone.get(index).copied().unwrap_or(true) {
            return at;
        }
    }
    values.len()
}

// Which value goes next.
enum Next {
    Value(usize),
    Clash { earlier: usize, later: usize },
    End,
}

fn next_of(
    values: &[Carried],
    by_push: Option<&(When, When, usize)>,
    by_take: Option<&(When, When, usize)>,
) -> Next {
    let (Some((_, _, earlier)), Some((_, _, later))) = (by_push, by_take) else {
        return Next::End;
    };
    let (Some(push), Some(take)) = (values.get(*earlier), values.get(*later)) else {
        return Next::End;
    };
    if push.taken.first <= take.taken.last {
        Next::Value(*earlier)
    } else if take.pushed.first <= push.pushed.last {
        Next::Value(*later)
    } else {
        Next::Clash {
            earlier: *earlier,
            later: *later,
        }
    }
}
