//! One move of a run, and its row.
ghost use Rattle.std.specs.Prelude.{◌≡◌, ◌+◌, ◌<◌, ◌≤◌, ◌^◌, Some, IsSome, IfErr, IfOk, OnOk, if◌then◌else◌, []};
ghost use Rattle.std.specs.List.Sorted.{IsNonDecreasing};
ghost use Rattle.history.specs.declared.refusals.Refusal.TheVariants.{Memory};
ghost use Rattle.step_machine.specs.Machine.{mover, next};
ghost use Rattle.step_machine.specs.declared.actors.Move.TheVariants.{Begin, Give, Step};
ghost use Rattle.step_machine.specs.Calls.{move_answer};
ghost use Rattle.show_engine.specs.Chains.{side_text, state_text};
ghost use Rattle.show_engine.specs.Frames.{IsFitting};
ghost use Rattle.show_engine.specs.Pictures.{drawn_text, told_row};
ghost use Rattle.show_engine.specs.Rows.{number_text, row_text};
ghost use Rattle.show_engine.specs.PicturesWritten.{is_among};

use crate::cells::{Access, begin_cell, give_cell, step_cell};
use crate::chains::{side_line, state_line};
use crate::effects::is_among;
use crate::frames::Frame;
use crate::rows::{number_start, row};
use history::Refusal;
use step_machine::{Move, Stepped, WorldOf, step_in};
use text_io::LineBuffer;

/// Who makes a move.
pub(crate) fn mover(one: &Move) -> u16
    ensures { result ≡ mover one.now }
{
    match *one {
        Move::Begin(actor, _) | Move::Step(actor) | Move::Give(actor) => actor,
    }
}

/// Takes a step that can be taken, and answers what it did.
fn told_step<const B: u32>(world: &mut WorldOf<B>, actor: u16) -> Stepped
    requires can { IsSome (next world.old (Step actor)) }
    requires left { world.old.steps + 1 < 2 ^ 64 }
    ensures ok { next world.old (Step actor) ≡ Some world.new }
    ensures steps { world.new.steps ≡ world.old.steps + 1 }
    ensures told { move_answer world.old (Step actor) ≡ Some result }
{
    let Ok(told) = step_in(world, Move::Step(actor)) else {
        unreachable!()
    };
    told
}

/// Gives up a call that can be given up, and answers what that did.
fn told_give<const B: u32>(world: &mut WorldOf<B>, actor: u16) -> Stepped
    requires can { IsSome (next world.old (Give actor)) }
    requires left { world.old.steps + 1 < 2 ^ 64 }
    ensures ok { next world.old (Give actor) ≡ Some world.new }
    ensures steps { world.new.steps ≡ world.old.steps + 1 }
    ensures told { move_answer world.old (Give actor) ≡ Some result }
{
    let Ok(told) = step_in(world, Move::Give(actor)) else {
        unreachable!()
    };
    told
}

/// The row of the move that led to a world, by what its actor did and what was told before it.
fn numbered_row<const B: u32>(
    world: &WorldOf<B>,
    frame: Frame,
    actor: u16,
    cell: &LineBuffer,
    before: &LineBuffer,
) -> LineBuffer
    requires { IsFitting frame }
    ensures { result ≡ row_text frame actor (number_text world.now.steps) cell.now
        (side_text frame world.now.steps before.now (state_text B world.now.shared)) }
{
    let number = world.steps();
    let start = number_start(number);
    let side = side_line(frame, number, before, state_line(world));
    row(
        frame,
        actor,
        start.as_slice(),
        cell.as_slice(),
        side.as_slice(),
    )
}

/// Takes a step that can be taken, and answers its row.
fn step_row<const B: u32>(
    world: &mut WorldOf<B>,
    frame: Frame,
    effects: &[u64],
    actor: u16,
) -> LineBuffer
    requires can { IsSome (next world.old (Step actor)) }
    requires left { world.old.steps + 1 < 2 ^ 64 }
    requires fits { IsFitting frame }
    requires rising { IsNonDecreasing effects.now }
    ensures ok { next world.old (Step actor) ≡ Some world.new }
    ensures steps { world.new.steps ≡ world.old.steps + 1 }
    ensures text { result ≡ told_row frame (is_among effects.now) B world.old world.new (Step actor)
        (move_answer world.old (Step actor)) }
{
    let Some(word) = world.touches(actor) else {
        unreachable!()
    };
    let expected = world.expects(actor);
    let found = world.holds(word);
    let before = state_line(world);
    let told = told_step(world, actor);
    let is_marked = is_among(effects, world.steps());
    let access = Access {
        word,
        expected,
        found,
        now: world.holds(word),
    };
    let cell = step_cell(is_marked, &told, access);
    numbered_row(world, frame, actor, &cell, &before)
}

/// Gives up a call that can be given up, and answers the row of that.
fn give_row<const B: u32>(
    world: &mut WorldOf<B>,
    frame: Frame,
    effects: &[u64],
    actor: u16,
) -> LineBuffer
    requires can { IsSome (next world.old (Give actor)) }
    requires left { world.old.steps + 1 < 2 ^ 64 }
    requires fits { IsFitting frame }
    requires rising { IsNonDecreasing effects.now }
    ensures ok { next world.old (Give actor) ≡ Some world.new }
    ensures steps { world.new.steps ≡ world.old.steps + 1 }
    ensures text { result ≡ told_row frame (is_among effects.now) B world.old world.new (Give actor)
        (move_answer world.old (Give actor)) }
{
    let before = state_line(world);
    let told = told_give(world, actor);
    let cell = give_cell(is_among(effects, world.steps()), &told);
    numbered_row(world, frame, actor, &cell, &before)
}

/// Makes a move that can be made, and answers its row. It is refused by `Memory` alone.
fn shown_move<const B: u32>(
    world: &mut WorldOf<B>,
    frame: Frame,
    effects: &[u64],
    one: Move,
) -> Result<LineBuffer, Refusal>
    requires can { IsSome (next world.old one) }
    requires left { world.old.steps + 1 < 2 ^ 64 }
    requires fits { IsFitting frame }
    requires rising { IsNonDecreasing effects.now }
    ensures ok { OnOk result (next world.old one ≡ Some world.new) }
    ensures steps { OnOk result (world.new.steps ≤ world.old.steps + 1) }
    ensures text { IfOk result (λ line. line
        ≡ told_row frame (is_among effects.now) B world.old world.new one (move_answer world.old one)) }
    ensures memory { IfErr result (λ refusal. refusal ≡ Memory) }
{
    match one {
        Move::Begin(actor, op) => {
            let cell = begin_cell(&op);
            world.begin(actor, op)?;
            Ok(row(frame, actor, b"", cell.as_slice(), b""))
        }
        Move::Step(actor) => Ok(step_row(world, frame, effects, actor)),
        Move::Give(actor) => Ok(give_row(world, frame, effects, actor)),
    }
}

/// Makes a move that can be made, and shows nothing of it. It is refused by `Memory` alone.
fn hidden_move<const B: u32>(world: &mut WorldOf<B>, one: Move) -> Result<(), Refusal>
    requires can { IsSome (next world.old one) }
    requires left { world.old.steps + 1 < 2 ^ 64 }
    ensures ok { OnOk result (next world.old one ≡ Some world.new) }
    ensures steps { OnOk result (world.new.steps ≤ world.old.steps + 1) }
    ensures memory { IfErr result (λ refusal. refusal ≡ Memory) }
{
    match one {
        Move::Begin(actor, op) => world.begin(actor, op),
        Move::Step(actor) => {
            told_step(world, actor);
            Ok(())
        }
        Move::Give(actor) => {
            told_give(world, actor);
            Ok(())
        }
    }
}

/// Makes a move that can be made, and answers what a picture has of it. It is refused by `Memory` alone.
pub(crate) fn draw_move<const B: u32>(
    world: &mut WorldOf<B>,
    frame: Frame,
    effects: &[u64],
    one: Move,
) -> Result<LineBuffer, Refusal>
    requires can { IsSome (next world.old one) }
    requires left { world.old.steps + 1 < 2 ^ 64 }
    requires fits { IsFitting frame }
    requires rising { IsNonDecreasing effects.now }
    ensures ok { OnOk result (next world.old one ≡ Some world.new) }
    ensures steps { OnOk result (world.new.steps ≤ world.old.steps + 1) }
    ensures text { IfOk result (λ line. line
        ≡ drawn_text frame (is_among effects.now) B world.old world.new one) }
    ensures memory { IfErr result (λ refusal. refusal ≡ Memory) }
{
    if frame.shows(world.steps() + 1, mover(&one)) {
        return shown_move(world, frame, effects, one);
    }
    hidden_move(world, one)?;
    Ok(LineBuffer::new())
}
