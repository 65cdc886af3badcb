//! What is left of a queue of words, as C gets it.
ghost use Rattle.std.specs.Prelude.{◌≡◌};
ghost use Rattle.carriers.specs.Rests.{left_in};
ghost use Rattle.msq_c.specs.Values.{count_told, AreLaid};
ghost use Rattle.msq_c.specs.WordRests.{IsRest};

use crate::rests::MsqRest;
use crate::words::Item;
use carriers::RestOf;

// Writes the values left, from the front, as many as there is room for; how many were left.
fn write<T: Drop, I: Item<T> + Drop>(rest: RestOf<T>, values: &mut [I]) -> usize
    ensures values { AreLaid I.told (left_in rest) values.old values.new }
    ensures left { result ≡ count_told (left_in rest) }
{
    let mut left = 0usize;
    for front in rest {
        if left < values.len() {
            values[left] = I::of(front);
        }
        left = left.saturating_add(1);
    }
    left
}

/// What is left of a queue, whose values are written from the front, as many as there is room for.
pub(crate) fn written<T: Drop, I: Item<T> + Drop>(rest: RestOf<T>, values: &mut [I]) -> MsqRest
    ensures rest { IsRest rest result }
    ensures values { AreLaid I.told (left_in rest) values.old values.new }
{
    let (taken, whole, was_shut) = (rest.taken(), rest.whole(), rest.was_shut());
    MsqRest {
        left: write(rest, values) as u64,
        taken,
        whole,
        was_shut,
    }
}
