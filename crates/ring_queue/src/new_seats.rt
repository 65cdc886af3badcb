//! Seats are split off the ring's own token.
ghost use Rattle.std.specs.Prelude.{◌≡◌, ◌+◌, ◌-◌, ◌≤◌, [], Some, length, slice_get, vec_capacity};
ghost use Rattle.ring_queue.specs.Plans.{IsTable};
ghost use Rattle.ring_queue.specs.NewRings.{IsKeeper, IsFresh, AreFresh};

use crate::plans::Plan;
use crate::roles::Role;
use crate::seats::Seat;
use crate::views::{Deal, SeatToken, WordTable};

// How many slots apart the seats begin to look for one.
const APART: u64 = 64;

// The seat of a number.
fn deal<T>(
    table: &WordTable<T>,
    keeper: &mut SeatToken<T>,
    plan: &Plan,
    number: u16,
    role: Role,
) -> Seat<T>
    requires table { IsTable plan.now table.now.shared.key table.now.shared.table_id }
    requires keeper { IsKeeper plan.now table.now.shared.table_id keeper.old number }
    requires number { 1 ≤ number }
    requires role { slice_get plan.now.roles (number - 1) ≡ Some role }
    ensures keeper { IsKeeper plan.now table.now.shared.table_id keeper.new (number + 1) }
    ensures seat { IsFresh plan.now table.now.shared.table_id number result }
{
    let token = table.shared.split_seat::<Deal>(keeper);
    Seat {
        token,
        number,
        role,
        head: plan.slots,
        tail: plan.slots,
        near: u64::from(number) * APART,
    }
}

/// A seat for each role, numbered from 1, put into an empty list that has room for them.
pub(crate) fn deal_all<T>(
    table: &WordTable<T>,
    keeper: &mut SeatToken<T>,
    plan: &Plan,
    mut seats: Vec<Seat<T>>,
) -> Vec<Seat<T>>
    requires table { IsTable plan.now table.now.shared.key table.now.shared.table_id }
    requires keeper { IsKeeper plan.now table.now.shared.table_id keeper.old 1 }
    requires room { length plan.now.roles ≤ vec_capacity seats }
    requires empty { seats.items ≡ [] }
    ensures count { length result.items ≡ length plan.now.roles }
    ensures seats { AreFresh plan.now table.now.shared.table_id result.items }
{
    let count = plan.roles.len();
    for i in 0..count {
        let seat = deal(table, keeper, plan, i as u16 + 1, plan.roles[i]);
        seats.push(seat).unwrap();
    }
    seats
}
