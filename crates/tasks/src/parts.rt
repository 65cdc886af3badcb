//! What workers bring back, each part by itself.
ghost use Rattle.std.specs.Prelude.{◌≡◌, ◌++◌, length, map, IfOk};
ghost use Rattle.tasks.specs.Parts.{seat_in, done_in, end_in, HasRoom, IsNew};

use crate::turns::{End, Worked};
use history::Refusal;
use std::alloc::Global;

/// The seats of workers, what each did, and how each ended.
#[derive(Drop)]
pub(crate) struct Parts<S, D> {
    pub(crate) seats: Vec<S>,
    pub(crate) dones: Vec<D>,
    pub(crate) ends: Vec<End>,
}

/// Room for what so many workers bring back.
pub(crate) fn parts_for<S: Drop, D: Drop>(
    alloc: Global,
    workers: usize,
) -> Result<Parts<S, D>, Refusal>
    ensures { IfOk result (IsNew workers) }
{
    let mut seats = Vec::new(alloc);
    let mut dones = Vec::new(alloc);
    let mut ends = Vec::new(alloc);
    let short = seats.reserve(workers).is_err()
        || dones.reserve(workers).is_err()
        || ends.reserve(workers).is_err();
    if short {
        return Err(Refusal::Memory);
    }
    Ok(Parts { seats, dones, ends })
}

/// Puts what these workers brought back behind the rest, each part by itself.
pub(crate) fn part<S: Drop, D: Drop>(workers: Vec<Worked<S, D>>, parts: &mut Parts<S, D>)
    requires { HasRoom (length workers.items) parts.old }
    ensures seats { parts.new.seats.items ≡ parts.old.seats.items ++ map seat_in workers.items }
    ensures dones { parts.new.dones.items ≡ parts.old.dones.items ++ map done_in workers.items }
    ensures ends { parts.new.ends.items ≡ parts.old.ends.items ++ map end_in workers.items }
{
    for worker in workers {
        let Worked { seat, done, end } = worker;
        parts.seats.push_reserved(seat);
        parts.dones.push_reserved(done);
        parts.ends.push_reserved(end);
    }
}
