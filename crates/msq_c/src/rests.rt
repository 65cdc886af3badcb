//! What is left of a queue, as C gets it.
ghost use Rattle.std.specs.Prelude.{◌≡◌};
ghost use Rattle.history.specs.Rests.{left_of};
ghost use Rattle.msq_c.specs.Values.{count_told, AreWritten};

use crate::values::MsqValue;
use history::Rest;

/// What was done with a queue, and how many values were left.
#[repr(C)]
#[derive(Clone, Copy)]
pub struct MsqRest {
    pub left: u64,
    pub taken: u64,
    pub whole: bool,
    pub was_shut: bool,
}

// Writes the values left, from the front, as many as there is room for; how many were left.
fn write(rest: Rest, values: &mut [MsqValue]) -> usize
    ensures values { AreWritten (left_of rest) values.old values.new }
    ensures left { result ≡ count_told (left_of rest) }
{
    let mut left = 0usize;
    for taken in rest {
        if left < values.len() {
            values[left] = MsqValue::of(taken);
        }
        left = left.saturating_add(1);
    }
    left
}

impl MsqRest {
    ghost use Rattle.msq_c.specs.Rests.{IsRest};

    /// What is left of a queue, whose values are written from the front, as many as there is room for.
    pub(crate) fn written(rest: Rest, values: &mut [MsqValue]) -> MsqRest
        ensures rest { IsRest rest result }
        ensures values { AreWritten (left_of rest) values.old values.new }
    {
        let (taken, whole, was_shut) = (rest.taken(), rest.whole(), rest.was_shut());
        MsqRest {
            left: write(rest, values) as u64,
            taken,
            whole,
            was_shut,
        }
    }
}
