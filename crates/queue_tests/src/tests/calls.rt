//! Calls with their answers, which one thread makes by several seats.
use super::comparisons::same;
use super::values::{Numbered, Value};
use carriers::Carrier;
use history::Refusal;
use std::alloc::Global;
use std::ops::Range;
use std::process::Abort;
use std::test::Fail;

/// How many turns each call has where it isn't said.
pub const TURNS: u32 = 3;

/// A call, with what it answers.
#[derive(Clone, Copy, Debug, PartialEq, Eq)]
pub enum Told {
    /// A push of this number is done.
    Push(u64),
    /// It is refused, and the value comes back.
    Back(u64, Refusal),
    /// A pop takes the value of this seat with this number.
    Pop(u16, u64),
    /// It finds the queue empty.
    Empty,
    /// It is refused.
    NoPop(Refusal),
    /// A shut is done.
    Shut,
    /// It is refused.
    NoShut(Refusal),
}

/// What the call of this name answers, which the seat makes if it may. Else it is refused `BadSize`, which no
/// queue does.
pub fn told<C: Carrier<Item: Value>>(
    alloc: Global,
    queue: &C,
    seat: &mut C::Seat,
    call: Told,
    turns: u32,
) -> Result<Told, Refusal> {
    let (may_push, may_pop) = (queue.may_push(seat), queue.may_pop(seat));
    Ok(match call {
        Told::Push(number) | Told::Back(number, _) => {
            let value = C::Item::made(alloc, number)?;
            if !may_push {
                return Ok(Told::Back(value.number(), Refusal::BadSize));
            }
            match queue.try_push(seat, value, turns) {
                Ok(()) => Told::Push(C::Item::made(alloc, number)?.number()),
                Err(unpushed) => Told::Back(unpushed.value.number(), unpushed.refusal),
            }
        }
        Told::Pop(..) | Told::Empty | Told::NoPop(_) if !may_pop => Told::NoPop(Refusal::BadSize),
        Told::Pop(..) | Told::Empty | Told::NoPop(_) => match queue.try_pop(seat, turns) {
            Ok(Some(item)) => Told::Pop(item.from, item.value.number()),
            Ok(None) => Told::Empty,
            Err(refusal) => Told::NoPop(refusal),
        },
        Told::Shut | Told::NoShut(_) if !may_push => Told::NoShut(Refusal::BadSize),
        Told::Shut | Told::NoShut(_) => match queue.try_shut(seat, turns) {
            Ok(()) => Told::Shut,
            Err(refusal) => Told::NoShut(refusal),
        },
    })
}

// The same call with the number that a value of this type tells.
fn wanted<V: Value>(alloc: Global, call: Told) -> Result<Told, Refusal> {
    Ok(match call {
        Told::Push(number) => Told::Push(V::made(alloc, number)?.number()),
        Told::Back(number, refusal) => Told::Back(V::made(alloc, number)?.number(), refusal),
        Told::Pop(from, number) => Told::Pop(from, V::made(alloc, number)?.number()),
        call => call,
    })
}

/// Makes these calls, each by the seat of this number and in so many turns; each answers as it says.
pub fn go_in<C: Carrier<Item: Value>>(
    rt: &(impl AllocGlobal + Abort),
    queue: &C,
    seats: &mut [C::Seat],
    turns: u32,
    calls: &[(usize, Told)],
) -> Result<(), Fail> {
    for (number, call) in calls {
        let found = told(rt.alloc(), queue, &mut seats[*number - 1], *call, turns)?;
        let wanted = wanted::<C::Item>(rt.alloc(), *call)?;
        same(rt, found, wanted, (*number, *call));
    }
    Ok(())
}

/// Pushes and pops each of these numbers, by seat 1 and in so many turns a call.
pub fn go_through<C: Carrier<Item: Value>>(
    rt: &(impl AllocGlobal + Abort),
    queue: &C,
    seats: &mut [C::Seat],
    turns: u32,
    numbers: Range<u64>,
) -> Result<(), Fail> {
    for number in numbers {
        let calls = [(1, Told::Push(number)), (1, Told::Pop(1, number))];
        go_in(rt, queue, seats, turns, &calls)?;
    }
    Ok(())
}

/// Makes these calls in a few turns each.
pub fn go<C: Carrier<Item: Value>>(
    rt: &(impl AllocGlobal + Abort),
    queue: &C,
    seats: &mut [C::Seat],
    calls: &[(usize, Told)],
) -> Result<(), Fail> {
    go_in(rt, queue, seats, TURNS, calls)
}
