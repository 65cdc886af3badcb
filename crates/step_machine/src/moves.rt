//! One move of a world, as a value.
ghost use Rattle.std.specs.Prelude.{◌≡◌, ◌^◌, ◌<◌, Some, OnOk, OnErr, IfOk, IfErr};
ghost use Rattle.step_machine.specs.declared.actors.Move.TheVariants.{Give};
ghost use Rattle.step_machine.specs.Machine.{next};
ghost use Rattle.step_machine.specs.Calls.{MoveRefused, move_answer};

use crate::actors::{Move, Stepped};
use crate::world::WorldOf;
use history::Refusal;

/// Makes the move that it is handed, and says what it did: for a begin `Began`, for a step `Went` or `Ended`, for a giving up
/// `Ended` with the line given up at.
///
/// Refusals are those of `World::begin`, `World::step` and `World::give`; a refused move leaves the world as it was. Only a
/// begin takes memory.
///
/// ```rust
/// let told = step_in(&mut world, Move::Begin(1, Op::Deq))?;
/// assert!(told == Stepped::Began);
/// ```
pub fn step_in<const B: u32>(world: &mut WorldOf<B>, one: Move) -> Result<Stepped, Refusal>
    //= worlds/moves (ok, told): The calls of a move make the machine's moves. A step answers its line, and the reply if
    //=   the call ended; a give its reply; a move handed in what it did.
    //= worlds/refusals (ok, numbered, refused): A refusal but `Memory` comes exactly with its cause; these causes
    //=   exclude the move and, in the call's order, each other. `Memory` comes only to a begin that could be made.
    ensures ok { OnOk result (next world.old one ≡ Some world.new) }
    ensures numbered { OnOk result (world.new.steps < 2 ^ 64) }
    ensures told { IfOk result (λ s. move_answer world.old one ≡ Some s) }
    //= worlds/unchanged: A refused move leaves the world as it was.
    ensures err { OnErr result (world.new ≡ world.old) }
    ensures refused { IfErr result (MoveRefused world.old one) }
{
    match one {
        Move::Begin(actor, op) => {
            world.begin(actor, op)?;
            Ok(Stepped::Began)
        }
        Move::Step(actor) => world.step(actor),
        Move::Give(actor) => give_in(world, actor),
    }
}

/// Gives up an actor's call, and says at which line.
fn give_in<const B: u32>(world: &mut WorldOf<B>, actor: u16) -> Result<Stepped, Refusal>
    ensures ok { OnOk result (next world.old (Give actor) ≡ Some world.new) }
    ensures numbered { OnOk result (world.new.steps < 2 ^ 64) }
    ensures told { IfOk result (λ s. move_answer world.old (Give actor) ≡ Some s) }
    ensures err { OnErr result (world.new ≡ world.old) }
    ensures refused { IfErr result (MoveRefused world.old (Give actor)) }
{
    let at = world.line_before(actor);
    let reply = world.give(actor)?;
    match at {
        Some(line) => Ok(Stepped::Ended(line, reply)),
        None => unreachable!(),
    }
}
