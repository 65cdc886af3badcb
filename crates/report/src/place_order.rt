//! Operations by rising place.
ghost use Rattle.std.specs.Prelude.{◌≡◌, filter, map, is_some, IfOk, IfErr};
ghost use Rattle.history.specs.History.{by_point};
ghost use Rattle.history.specs.Tables.{shown, numbered};

use history::{Refusal, Stamped};
use std::alloc::Global;

// The operations that have a place, each with its number, by rising place; equal ones in the order of the list.
pub(crate) fn by_place<'a>(
    alloc: Global,
    history: &'a [Stamped],
) -> Result<Vec<(u64, &'a Stamped)>, Refusal>
    ensures ok { IfOk result (λ placed. map shown placed.items ≡ map numbered (by_point history.now)) }
    ensures only_memory { IfErr result (λ refusal. refusal ≡ Refusal.Memory) }
{
    let mut placed = placed_of(alloc, history)?;
    match placed.sort_by_key(|(at, _)| *at) {
        Ok(()) => Ok(placed),
        Err(_) => Err(Refusal::Memory),
    }
}

// The operations that have a place, each with its number, in the order of the list.
fn placed_of<'a>(alloc: Global, history: &'a [Stamped]) -> Result<Vec<(u64, &'a Stamped)>, Refusal>
    ensures ok { IfOk result (λ placed.
        map shown placed.items ≡ map numbered (filter (λ o. is_some o.at) history.now)) }
    ensures only_memory { IfErr result (λ refusal. refusal ≡ Refusal.Memory) }
{
    let mut placed = Vec::new(alloc);
    for operation in history {
        if let Some(at) = operation.at {
            let Ok(()) = placed.push((at, operation)) else {
                return Err(Refusal::Memory);
            };
        }
    }
    Ok(placed)
}
