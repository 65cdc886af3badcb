//! A push and a pop of a value over the slots of an arena, as a queue of values makes them, for seats that may make them.
use arena_queue::Algorithm;
use free_list::{give_back, take};
use history::{Body, Refusal, Taken};
use line_table::Kind;
use node_arena::{ArenaOf, Held, LeftValues, MOST_COUNT, Role, Seat};
use nonblocking::NonBlockingAlgorithm;
use std::alloc::Global;

/// How many turns each part of a call has.
const TURNS: u32 = 3;

/// An arena of the non-blocking queue, with 24 bits for a node.
pub type Values<T> = ArenaOf<24, T>;

/// An arena with so many slots, with seats that push and pop.
pub fn values<T>(
    alloc: Global,
    slots: u32,
    roles: &[Role],
) -> Result<(Values<T>, Vec<Seat<T>>), Refusal> {
    ArenaOf::with_slots(alloc, Kind::NonBlocking, slots, MOST_COUNT, roles)
}

// The node in the seat's pocket, or one that it takes.
fn node<T>(arena: &Values<T>, seat: &mut Seat<T>) -> Result<Held, Refusal> {
    match seat.pocket() {
        Some(held) => Ok(held),
        None => take(arena, seat, TURNS),
    }
}

// A slot with the value in it; or the value comes back.
fn slot<T>(
    arena: &Values<T>,
    seat: &mut Seat<T>,
    node: u32,
    value: T,
) -> Result<Body, (Refusal, T)> {
    let got = match arena.get_slot(seat, node, TURNS) {
        Ok(got) => got,
        Err(refusal) => return Err((refusal, value)),
    };
    let Some(body) = Body::new(got.slot as u64) else {
        return Err((Refusal::BadSize, value));
    };
    arena.put_value(seat, got.slot, value);
    Ok(body)
}

/// Pushes a value; or it comes back.
pub fn push<T>(arena: &Values<T>, seat: &mut Seat<T>, value: T) -> Result<(), (Refusal, T)> {
    let held = match node(arena, seat) {
        Ok(held) => held,
        Err(refusal) => return Err((refusal, value)),
    };
    let body = slot(arena, seat, held.node, value)?;
    match <NonBlockingAlgorithm as Algorithm<24>>::push_with_node(
        arena, seat, held, body, 0, TURNS,
    ) {
        Ok(()) => Ok(()),
        Err(refusal) => {
            let index = body.number() as usize;
            let value = arena.take_value(seat, index);
            arena.free_slot(seat, index);
            Err((refusal, value))
        }
    }
}

// The number at the front.
fn draw<T>(arena: &Values<T>, seat: &mut Seat<T>) -> Result<Option<Taken>, Refusal> {
    if seat.pocket().is_some() {
        give_back(arena, seat, TURNS)?;
    }
    <NonBlockingAlgorithm as Algorithm<24>>::pop_without_node(arena, seat, 0, TURNS)
}

/// Takes the value at the front, whose slot stays out with the seat: the number of the slot, and the value.
pub fn pop_without_its_slot<T>(
    arena: &Values<T>,
    seat: &mut Seat<T>,
) -> Result<Option<(usize, T)>, Refusal> {
    let Some(taken) = draw(arena, seat)? else {
        return Ok(None);
    };
    let index = taken.body.number() as usize;
    Ok(Some((index, arena.take_value(seat, index))))
}

/// Takes the value at the front.
pub fn pop<T>(arena: &Values<T>, seat: &mut Seat<T>) -> Result<Option<T>, Refusal> {
    let Some((index, value)) = pop_without_its_slot(arena, seat)? else {
        return Ok(None);
    };
    arena.free_slot(seat, index);
    Ok(Some(value))
}

/// Takes the number at the front, whose value stays in its slot, out with the seat.
pub fn pop_and_hold<T>(arena: &Values<T>, seat: &mut Seat<T>) -> Result<bool, Refusal> {
    Ok(draw(arena, seat)?.is_some())
}

/// Ends an arena and some of its seats.
pub fn close<T>(
    alloc: Global,
    arena: Values<T>,
    seats: Vec<Seat<T>>,
) -> Result<LeftValues<T>, (Values<T>, Vec<Seat<T>>)> {
    match arena.rooms(alloc) {
        Ok((numbers, slots)) => {
            let (left, _) = arena.close_values(numbers, slots, seats);
            Ok(left)
        }
        Err(_) => Err((arena, seats)),
    }
}

/// The last of the seats.
pub fn last<T>(seats: &mut Vec<Seat<T>>) -> Result<Seat<T>, Refusal> {
    seats.pop().ok_or(Refusal::BadSize)
}

/// Only these seats.
pub fn only<T, const N: usize>(alloc: Global, some: [Seat<T>; N]) -> Result<Vec<Seat<T>>, Refusal> {
    let Ok(mut seats) = Vec::with_capacity(alloc, N) else {
        return Err(Refusal::Memory);
    };
    for seat in some {
        if seats.push(seat).is_err() {
            return Err(Refusal::Memory);
        }
    }
    Ok(seats)
}
