//! What the words of an arena hold.
ghost use Rattle.std.specs.Prelude.{◌≡◌, ◌+◌, ◌*◌, ◌^◌, ◌<◌};
ghost use Rattle.counted_ref.specs.Ref.{IsSplit, reserved_node, count_bits};
ghost use Rattle.node_arena.specs.Machine as machine;

use counted_ref::{CountedRefOf, shut_node};
use line_steps::Setup;

/// The reference that names another node, with its count raised. Takes no memory and doesn't wait.
pub fn raised<const B: u32>(setup: Setup, from: CountedRefOf<B>, to: u32) -> CountedRefOf<B>
    requires split { IsSplit B }
    requires bits { setup.bits ≡ B }
    requires to { to < reserved_node setup.bits }
    requires count { from.count < setup.limit }
    requires limit { setup.limit < 2 ^ count_bits setup.bits }
    ensures { result ≡ machine.raised setup from.entry to }
{
    let _ = setup;
    CountedRefOf::new(to, from.count() + 1)
}

/// The same where the number may be that of a closed end: the reference then stays as it is. Takes no memory and doesn't
/// wait.
pub fn raised_unless_shut<const B: u32>(
    setup: Setup,
    from: CountedRefOf<B>,
    to: u32,
) -> CountedRefOf<B>
    requires split { IsSplit B }
    requires bits { setup.bits ≡ B }
    requires to { to < 2 ^ setup.bits }
    requires count { from.count < setup.limit }
    requires limit { setup.limit < 2 ^ count_bits setup.bits }
    ensures { result ≡ machine.raised setup from.entry to }
{
    if to == shut_node(B) {
        from
    } else {
        raised(setup, from, to)
    }
}

/// The closed end with the count of a reference raised. Takes no memory and doesn't wait.
pub fn raised_end<const B: u32>(setup: Setup, from: CountedRefOf<B>) -> CountedRefOf<B>
    requires split { IsSplit B }
    requires bits { setup.bits ≡ B }
    requires count { from.count < setup.limit }
    requires limit { setup.limit < 2 ^ count_bits setup.bits }
    ensures { result ≡ machine.raised_end setup from.entry }
{
    let _ = setup;
    CountedRefOf::shut(from.count() + 1)
}

/// The word of the value of this seat and body. Takes no memory and doesn't wait.
pub fn word_of(from: u16, body: u64) -> u64
    requires { body < 2 ^ 48 }
    ensures { result ≡ from * 2 ^ 48 + body }
{
    u64::from(from) * 281_474_976_710_656 + body
}
