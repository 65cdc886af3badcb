//! Where the words of an arena lie in its table.
ghost use Rattle.std.specs.Prelude.{◌≡◌, ◌+◌, ◌^◌, ◌<◌};
ghost use Rattle.node_arena.specs.Places as places;

/// Where the word of an index lies in the table.
///
/// Fresh and Free, Head and its lock, and Tail and its lock lie 16 words apart, so that threads that write one of these
/// pairs leave the cache lines of the others alone. The words of the nodes follow, packed.
#[inline(always)]
pub(crate) fn place(index: usize) -> usize
    requires { index + 42 < 2 ^ 64 }
    ensures { result ≡ places.place index }
{
    match index {
        0 => 0,
        1 => 1,
        2 => 16,
        3 => 32,
        4 => 33,
        5 => 17,
        _ => index + 42,
    }
}
