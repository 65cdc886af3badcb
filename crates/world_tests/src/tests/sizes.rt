//! The greatest sizes of worlds.
ghost use Rattle.counted_ref.specs.Ref.{IsSplit};

use super::comparisons::same;
use super::trials::{Sizes, world_of};
use history::Refusal;
use line_table::Kind;
use std::alloc::Global;
use std::process::Abort;
use std::test::Fail;

fn is_accepted<const B: u32>(
    rt: &impl Abort,
    alloc: Global,
    nodes: u32,
    limit: u64,
) -> Result<(), Refusal>
    requires split { IsSplit B }
{
    let sizes = Sizes {
        kind: Kind::TwoLock,
        nodes,
        limit,
        actors: 65_535,
    };
    let world = world_of::<B>(alloc, sizes)?;
    same(rt, (world.setup().bits, world.fresh()), (B, 1), nodes);
    Ok(())
}

#[test]
fn the_greatest_sizes_are_accepted(rt: HostRuntime) -> Result<(), Fail> {
    is_accepted::<16>(&rt, rt.alloc(), 65_534, 281_474_976_710_655)?;
    is_accepted::<24>(&rt, rt.alloc(), 16_777_214, 1_099_511_627_775)?;
    is_accepted::<32>(&rt, rt.alloc(), 4_294_967_294, 4_294_967_295)?;
    Ok(())
}
