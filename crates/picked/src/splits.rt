//! The split for so many nodes.
ghost use Rattle.std.specs.Prelude.{◌≡◌, ◌<◌, ◌≤◌};
ghost use Rattle.std.specs.List.{All};
ghost use Rattle.counted_ref.specs.Ref.{reserved_node};
ghost use Rattle.picked.specs.Splits.{bits_for as the_bits_for, picked_bits};

use counted_ref::most_node;

/// How many bits a queue of so many nodes has for the number of a node: the least of 16, 20, 24, 28 and 32 that is enough,
/// and 32 above 2^32 - 2, for which none is. Takes no memory and doesn't wait.
///
/// ```rust
/// assert!(bits_for(65_534) == 16);
/// ```
pub const fn bits_for(nodes: u32) -> u32
    //= library/split (bits, enough, least): A queue of a picked split has, for the number of a node, the least of 16, 20,
    //=   24, 28 and 32 bits that so many nodes can be numbered by.
    ensures bits { result ≡ the_bits_for nodes }
    ensures enough { nodes < reserved_node 32 → nodes < reserved_node result }
    ensures least { All (λ bits. nodes < reserved_node bits → result ≤ bits) picked_bits }
{
    if nodes <= most_node(16) {
        16
    } else if nodes <= most_node(20) {
        20
    } else if nodes <= most_node(24) {
        24
    } else if nodes <= most_node(28) {
        28
    } else {
        32
    }
}
