//! Times of calls, and when a value may be pushed and taken.
use history::Stamped;

/// A time, or never.
#[derive(Clone, Copy, PartialEq, Eq, PartialOrd, Ord)]
pub(crate) enum When {
    At(u64),
    Never,
}

impl When {
    pub(crate) fn end_of(operation: &Stamped) -> When {
        match operation.last {
            Some(last) => When::At(last),
            None => When::Never,
        }
    }

    /// The time before this one.
    pub(crate) fn before(self) -> When {
        match self {
            When::At(time) => When::At(time.saturating_sub(1)),
            When::Never => When::Never,
        }
    }
}

/// From when to when something may have its effect.
#[derive(Clone, Copy)]
pub(crate) struct Window {
    pub(crate) first: When,
    pub(crate) last: When,
}

/// A value of a history: who pushes it and who takes it, as indices of the list, and when.
#[derive(Clone, Copy)]
pub(crate) struct Carried {
    pub(crate) push: usize,
    pub(crate) take: Option<usize>,
    pub(crate) pushed: Window,
    pub(crate) taken: Window,
}
