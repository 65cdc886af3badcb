//! A new arena.
ghost use Rattle.std.specs.Prelude.{◌*◌, ◌^◌, ◌≡◌, ◌<◌, false, IfOk, IfErr, OnOk};
ghost use Rattle.counted_ref.specs.Ref.{IsSplit};
ghost use Rattle.line_steps.specs.declared.actors.Setup.{Setup as Setups};
ghost use Rattle.node_arena.specs.Plans.{IsPlanned};
ghost use Rattle.node_arena.specs.NewArenas.{LieFirst, IsMade, NewRefused};
ghost use Rattle.node_arena.specs.NewArenas as making;

use crate::arena::ArenaOf;
use crate::new_seats::deal_all;
use crate::places::place;
use crate::plans::Plan;
use crate::roles::Role;
use crate::seats::Seat;
use atomic_table::Table;
use counted_ref::{most_count, most_node};
use history::{MOST_ACTOR, Refusal};
use line_table::Kind;
use std::alloc::{AllocError, Global};
use step_machine::Setup;

// The words at the start: one node was used, and Head and Tail name it; and so many flags, all down.
pub(crate) fn words_at_start(alloc: Global, nodes: u32, flags: u32) -> Result<Vec<u64>, AllocError>
    requires nodes { nodes < 2 ^ 32 }
    requires flags { flags < 2 ^ 32 }
    ensures { IfOk result (λ v. LieFirst nodes flags v.items) }
{
    let mut words = vec![in alloc; 0u64; 48 + 2 * nodes as usize + flags as usize]?;
    words[place(0)] = 1;
    words[place(2)] = 1;
    words[place(3)] = 1;
    Ok(words)
}

// The plan of a new arena, where its sizes are in their ranges.
pub(crate) fn planned<const B: u32>(
    alloc: Global,
    kind: Kind,
    nodes: u32,
    limit: u64,
    roles: &[Role],
    carries: bool,
) -> Result<Plan, Refusal>
    requires split { IsSplit B }
    ensures ok { IfOk result (λ z. z ≡ making.planned B kind nodes limit roles.now carries) }
    ensures sized { OnOk result (IsPlanned (making.planned B kind nodes limit roles.now carries)) }
    ensures refused { IfErr result (NewRefused (making.planned B kind nodes limit roles.now carries)) }
{
    if nodes < 2 || nodes > most_node(B) {
        return Err(Refusal::BadSize);
    }
    if limit < 1 || limit > most_count(B) {
        return Err(Refusal::BadSize);
    }
    if roles.is_empty() || roles.len() as u64 > MOST_ACTOR {
        return Err(Refusal::BadSize);
    }
    let Ok(roles) = roles.to_vec(alloc) else {
        return Err(Refusal::Memory);
    };
    let setup = Setup {
        kind,
        bits: B,
        size: nodes,
        limit,
    };
    Ok(Plan {
        setup,
        roles,
        carries,
    })
}

fn built<const B: u32>(alloc: Global, plan: Plan) -> Result<(ArenaOf<B>, Vec<Seat>), AllocError>
    requires planned { IsPlanned plan }
    requires numbers { plan.carries ≡ false }
    requires bits { plan.setup.bits ≡ B }
    ensures { IfOk result (λ r. IsMade plan r.0 r.1.items) }
{
    let words = words_at_start(alloc, plan.setup.size, 0)?;
    let room = Vec::with_capacity(alloc, plan.roles.len())?;
    let (table, mut keeper) = Table::of_words(alloc, words.as_slice(), &plan)?;
    let seats = deal_all(&table, &mut keeper, &plan, room);
    Ok((ArenaOf { table, plan }, seats))
}

impl<const B: u32> ArenaOf<B> {
    /// An arena with so many nodes, 2 to `most_node(B)`, the greatest count `limit`, 1 to `most_count(B)`, and a seat for
    /// each role, 1 to 65,535 of them, in their order.
    ///
    /// Refusals: `BadSize` where one of them is out of its range, else `Memory`. Takes memory for two words a node, the
    /// seats and their roles, and doesn't wait.
    pub fn new(
        alloc: Global,
        kind: Kind,
        nodes: u32,
        limit: u64,
        roles: &[Role],
    ) -> Result<(ArenaOf<B>, Vec<Seat>), Refusal>
        requires split { IsSplit B }
        //= atomics/rule: By what `atomic_table` states of a table, the arena's *rule* holds between any two atomic steps
        //=   of any threads. By it no two seats have one number, no entry is of a seat whose role doesn't permit it, of
        //=   values that are carried each lies in the slot that its number names, and the flag of each other slot is up
        //=   only where that is out with a seat (`HoldsFor`).
        //= atomics/opening (ok, sized, refused): A new arena has the kind, nodes and greatest count asked for, and a
        //=   seat for each role, numbered from 1, ready, with an empty pocket, keeping no nodes. Sized.
        ensures ok { IfOk result (λ r. IsMade (making.plan B kind nodes limit roles.now) r.0 r.1.items) }
        ensures sized { OnOk result (IsPlanned (making.plan B kind nodes limit roles.now)) }
        ensures refused { IfErr result (NewRefused (making.plan B kind nodes limit roles.now)) }
    {
        let plan = planned::<B>(alloc, kind, nodes, limit, roles, false)?;
        let Ok(made) = built(alloc, plan) else {
            return Err(Refusal::Memory);
        };
        Ok(made)
    }
}
