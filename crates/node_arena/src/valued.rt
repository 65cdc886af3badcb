//! A new arena that carries values, as an `Arena` doesn't.
ghost use Rattle.std.specs.Prelude.{◌≡◌, true, IfOk, IfErr, OnOk};
ghost use Rattle.counted_ref.specs.Ref.{IsSplit};
ghost use Rattle.node_arena.specs.Plans.{IsPlanned};
ghost use Rattle.node_arena.specs.NewArenas.{IsMade, NewRefused};
ghost use Rattle.node_arena.specs.NewArenas as making;

use crate::arena::ArenaOf;
use crate::new_arenas::{planned, words_at_start};
use crate::new_seats::deal_all;
use crate::plans::Plan;
use crate::roles::Role;
use crate::seats::Seat;
use atomic_table::Table;
use history::Refusal;
use line_table::Kind;
use std::alloc::{AllocError, Global};

fn built_with_slots<const B: u32, T>(
    alloc: Global,
    plan: Plan,
) -> Result<(ArenaOf<B, T>, Vec<Seat<T>>), AllocError>
    requires planned { IsPlanned plan }
    requires values { plan.carries ≡ true }
    requires bits { plan.setup.bits ≡ B }
    ensures { IfOk result (λ r. IsMade plan r.0 r.1.items) }
{
    let nodes = plan.setup.size;
    let words = words_at_start(alloc, nodes, nodes)?;
    let room = Vec::with_capacity(alloc, plan.roles.len())?;
    let (table, mut keeper) = Table::vacant(alloc, words.as_slice(), nodes as usize, &plan)?;
    let seats = deal_all(&table, &mut keeper, &plan, room);
    Ok((ArenaOf { table, plan }, seats))
}

impl<const B: u32, T> ArenaOf<B, T> {
    /// An arena that carries values, with so many nodes and slots, 2 to `most_node(B)`, the greatest count `limit`, 1 to
    /// `most_count(B)`, and a seat for each role, 1 to 65,535 of them, in their order.
    ///
    /// Refusals: `BadSize` where one of them is out of its range, else `Memory`. Takes memory for three words and a slot a
    /// node, the seats and their roles, and doesn't wait.
    pub fn with_slots(
        alloc: Global,
        kind: Kind,
        nodes: u32,
        limit: u64,
        roles: &[Role],
    ) -> Result<(ArenaOf<B, T>, Vec<Seat<T>>), Refusal>
        requires split { IsSplit B }
        //= atomics/slots (ok, sized, refused): A new arena that carries values is as a new arena of numbers, with a slot
        //=   a node, and no seat has one. Sized.
        ensures ok { IfOk result
            (λ r. IsMade (making.value_plan B kind nodes limit roles.now) r.0 r.1.items) }
        ensures sized { OnOk result (IsPlanned (making.value_plan B kind nodes limit roles.now)) }
        ensures refused { IfErr result (NewRefused (making.value_plan B kind nodes limit roles.now)) }
    {
        let plan = planned::<B>(alloc, kind, nodes, limit, roles, true)?;
        let Ok(made) = built_with_slots(alloc, plan) else {
            return Err(Refusal::Memory);
        };
        Ok(made)
    }
}
