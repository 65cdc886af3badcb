//! Threads that take nodes of one arena and give them back.
ghost use Rattle.std.specs.Prelude.{◌≡◌, false, None, IsSome, IsTrue, IfSome};
ghost use Rattle.std.specs.List.{All};
ghost use Rattle.node_arena.specs.Seats.{IsReady, pocket_of, carries_of};
ghost use Rattle.stress.specs.Fresh.{IsFresh};

use free_list::{give_back, take};
use history::Refusal;
use line_table::Kind;
use node_arena::{Arena, Role, Seat};
use std::alloc::Global;
use std::thread;
use std::thread::Threads;

/// How often a call that was refused Busy is made again.
const TRIES: u32 = 1_000_000;

/// An arena for the non-blocking queue, with a seat for each of these roles.
pub fn seats_of(alloc: Global, nodes: u32, limit: u64, roles: &[Role]) -> Option<(Arena, Vec<Seat>)>
    ensures fresh { IfSome result (λ r. All (IsFresh r.0) r.1.items) }
    ensures numbers { IfSome result (λ r. carries_of r.0 ≡ false) }
{
    match Arena::new(alloc, Kind::NonBlocking, nodes, limit, roles) {
        Ok(made) => Some(made),
        Err(_) => None,
    }
}

// Takes a node, again where it is Busy; whether it got one.
fn takes(arena: &Arena, seat: &mut Seat) -> bool
    requires { IsFresh arena.now seat.old }
    ensures ready { IsReady arena.now seat.new }
    ensures full { IsTrue result → IsSome (pocket_of seat.new) }
{
    for _ in 0..TRIES {
        match take(arena, seat, 8) {
            Ok(_) => return true,
            Err(Refusal::Busy) => {}
            Err(_) => return false,
        }
    }
    false
}

// Gives the node back, again where it is Busy; whether it is back.
fn gives(arena: &Arena, seat: &mut Seat) -> bool
    requires ready { IsReady arena.now seat.old }
    requires full { IsSome (pocket_of seat.old) }
    ensures ready { IsReady arena.now seat.new }
    ensures empty { IsTrue result → pocket_of seat.new ≡ None }
{
    for _ in 0..TRIES {
        if let Ok(()) = give_back(arena, seat, 8) {
            return true;
        }
    }
    false
}

// So many rounds; the seat comes back where each of them succeeded.
fn rounds(arena: &Arena, mut seat: Seat, pairs: u32) -> Option<Seat>
    requires { IsFresh arena.now seat }
    ensures { IfSome result (IsFresh arena.now) }
{
    for _ in 0..pairs {
        if !takes(arena, &mut seat) {
            return None;
        }
        if !gives(arena, &mut seat) {
            return None;
        }
    }
    Some(seat)
}

/// The rounds of a thread for each of these seats; the seats where all of them succeeded.
pub fn all_rounds<R: Threads + Sync>(
    rt: &R,
    alloc: Global,
    arena: &Arena,
    seats: Vec<Seat>,
    pairs: u32,
) -> Option<Vec<Seat>>
    requires { All (IsFresh arena.now) seats.items }
{
    let found = thread::map_vec(
        rt,
        seats,
        &|seat: Seat| -> Option<Seat>
            requires { IsFresh arena.now seat }
        { rounds(arena, seat, pairs) },
    );
    let mut back = Vec::new(alloc);
    for seat in found.ok()? {
        back.push(seat?).ok()?;
    }
    Some(back)
}
