//! The numbers at which operations take effect.
ghost use Rattle.std.specs.Prelude.{◌≡◌, IfOk, IfErr};
ghost use Rattle.std.specs.List.Sorted.{IsNonDecreasing};
ghost use Rattle.history.specs.declared.refusals.Refusal.TheVariants.{Memory};
ghost use Rattle.show_engine.specs.Pictures.{points_of};
ghost use Rattle.show_engine.specs.PicturesWritten.{AreEffects, is_among};

use history::{Refusal, Stamped};
use std::alloc::Global;

/// The numbers at which operations take effect, in the order of the operations.
fn points_of(alloc: Global, operations: &[Stamped]) -> Result<Vec<u64>, Refusal>
    ensures ok { IfOk result (λ points. points.items ≡ points_of operations.now) }
    ensures memory { IfErr result (λ refusal. refusal ≡ Memory) }
{
    let mut points = Vec::new(alloc);
    for operation in operations {
        if let Some(at) = operation.at {
            let Ok(()) = points.push(at) else {
                return Err(Refusal::Memory);
            };
        }
    }
    Ok(points)
}

/// The numbers at which operations take effect, by rising number.
pub(crate) fn effects_of(alloc: Global, operations: &[Stamped]) -> Result<Vec<u64>, Refusal>
    ensures ok { IfOk result (λ effects. AreEffects operations.now effects.items) }
    ensures memory { IfErr result (λ refusal. refusal ≡ Memory) }
{
    let mut points = points_of(alloc, operations)?;
    points.sort_unstable();
    Ok(points)
}

/// Whether a number is one of these, which rise.
pub(crate) fn is_among(numbers: &[u64], number: u64) -> bool
    requires { IsNonDecreasing numbers.now }
    ensures { result ≡ is_among numbers.now number }
{
    numbers.binary_search(&number).is_ok()
}
