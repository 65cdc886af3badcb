//! Seats are split off the arena's own token.
ghost use Rattle.std.specs.Prelude.{◌≡◌, ◌+◌, ◌-◌, ◌≤◌, Some, [], length, slice_get, vec_capacity};
ghost use Rattle.node_arena.specs.Plans.{Layout, IsTable};
ghost use Rattle.node_arena.specs.NewArenas.{IsKeeper, IsDealt, AreDealt};

use crate::plans::Plan;
use crate::roles::Role;
use crate::seats::Seat;
use crate::views::{Deal, SeatToken, WordTable};
use step_machine::Held;

// The seat of a number.
fn deal<T>(
    table: &WordTable<T>,
    keeper: &mut SeatToken<T>,
    plan: &Plan,
    number: u16,
    role: Role,
) -> Seat<T>
    requires table { IsTable plan.now table.now.shared.key table.now.shared.table_id }
    requires keeper { IsKeeper table.now.shared.table_id keeper.old number }
    requires number { 1 ≤ number }
    requires role { slice_get plan.now.roles (number - 1) ≡ Some role }
    ensures keeper { IsKeeper table.now.shared.table_id keeper.new (number + 1) }
    ensures seat { IsDealt plan.now table.now.shared.table_id number result }
{
    let _ = plan;
    let shared = &table.shared;
    let token = shared.split_seat::<Deal>(keeper);
    Seat {
        token,
        number,
        role,
        full: false,
        held: Held { node: 0, mark: 0 },
        failed: 0,
        pushes: 0,
        pops: 0,
        shut: false,
        keeps: false,
    }
}

/// A seat for each role, numbered from 1, put into an empty list that has room for them.
pub(crate) fn deal_all<T>(
    table: &WordTable<T>,
    keeper: &mut SeatToken<T>,
    plan: &Plan,
    mut seats: Vec<Seat<T>>,
) -> Vec<Seat<T>>
    requires table { IsTable plan.now table.now.shared.key table.now.shared.table_id }
    requires keeper { IsKeeper table.now.shared.table_id keeper.old 1 }
    requires room { length plan.now.roles ≤ vec_capacity seats }
    requires empty { seats.items ≡ [] }
    ensures count { length result.items ≡ length plan.now.roles }
    ensures seats { AreDealt plan.now table.now.shared.table_id result.items }
{
    let count = plan.roles.len();
    for i in 0..count {
        let seat = deal(table, keeper, plan, i as u16 + 1, plan.roles[i]);
        seats.push(seat).unwrap();
    }
    seats
}
