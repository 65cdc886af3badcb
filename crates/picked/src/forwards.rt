//! Calls of the queue within, and a new one.

// A call of the queue within, whichever its kind.
macro_rules! of_kind {
    ($whole:ident, $queue:ident => $call:expr) => {
        match $whole {
            Self::NonBlocking($queue) => $call,
            Self::TwoLock($queue) => $call,
        }
    };
}

// A call of the queue within, whichever its split.
macro_rules! of_split {
    ($whole:ident, $queue:ident => $call:expr) => {
        match $whole {
            Self::Bits16($queue) => $call,
            Self::Bits20($queue) => $call,
            Self::Bits24($queue) => $call,
            Self::Bits28($queue) => $call,
            Self::Bits32($queue) => $call,
        }
    };
}

// A new queue of the split for so many nodes, and its seats: `made` is a call that makes the one within.
macro_rules! new_of_split {
    (in $variant:ident, $made:expr) => {{
        let (queue, seats) = $made?;
        Ok((Self::$variant(queue), seats))
    }};
    ($nodes:expr, $made:expr) => {
        match bits_for($nodes) {
            16 => new_of_split!(in Bits16, $made),
            20 => new_of_split!(in Bits20, $made),
            24 => new_of_split!(in Bits24, $made),
            28 => new_of_split!(in Bits28, $made),
            _ => new_of_split!(in Bits32, $made),
        }
    };
}

// A call of the queue within one of two kinds by the seat within, both of which are of one kind.
macro_rules! of_either {
    ($whole:ident, $seat:ident, $queue:ident => $call:expr) => {
        match ($whole, $seat) {
            (EitherQueue::First($queue), EitherSeat::First($seat)) => $call,
            (EitherQueue::Second($queue), EitherSeat::Second($seat)) => $call,
            _ => unreachable!(),
        }
    };
}

pub(crate) use new_of_split;
pub(crate) use of_either;
pub(crate) use of_kind;
pub(crate) use of_split;
