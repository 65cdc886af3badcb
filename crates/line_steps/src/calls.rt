//! How a call begins, and how it is given up.
ghost use Rattle.std.specs.Prelude.{◌≡◌, Some, None, IfSome, IsNone, true};
ghost use Rattle.line_steps.specs.Lines as lines;
ghost use Rattle.line_steps.specs.Calls as calling;
ghost use Rattle.line_steps.specs.Outcomes.{settled};

use crate::actors::{ActorOf, Told};
use crate::outcomes::{dequeues, ends, settle, shuts, with_node};
use history::{Op, Refusal, Reply, Taken};
use line_table::{Kind, Line};

/// The node in a full pocket comes into the hand, and the call begins at this line.
fn from_pocket<const B: u32>(line: Line, actor: &mut ActorOf<B>)
    ensures { actor.new ≡ calling.from_pocket line actor.old.pocket actor.old }
{
    if let Some(held) = actor.pocket {
        actor.fills_hand(held.node, held.mark);
        actor.line = Some(line);
        actor.pocket = None;
    }
}

/// An actor begins a call: `me` is its number, from 1 on. The node in its pocket comes into its hand, but for a shut, which
/// leaves it there.
///
/// Takes no memory.
pub fn begin<const B: u32>(kind: Kind, me: u16, op: Op, actor: &mut ActorOf<B>)
    //= steps/begin_and_give (actor, call): A begin and a give make of an actor what docs/LINES.md says of them; a
    //=   give answers none exactly where no turn begins at the line, and then changes nothing.
    ensures actor { actor.new ≡ calling.begun kind me op actor.old }
    ensures call { calling.is_call op ≡ true }
{
    actor.due = None;
    actor.entry = None;
    match op {
        Op::Enq(body) => {
            let _in_range = body.number();
            actor.op = Op::Enq(body);
            actor.line = Some(Line::N1);
            actor.val = Taken { from: me, body };
            from_pocket(with_node(kind), actor);
        }
        Op::Deq => {
            actor.op = Op::Deq;
            actor.line = Some(dequeues(kind));
            from_pocket(Line::F1, actor);
        }
        Op::Shut => {
            actor.op = Op::Shut;
            actor.line = Some(shuts(kind));
        }
    }
}

/// What becomes of an actor that gives up before a line at the step number `now`; none, and the actor stays, where no turn
/// begins there.
///
/// Takes no memory.
pub fn give_up<const B: u32>(now: u64, actor: &mut ActorOf<B>, line: Line) -> Option<Told>
    //= steps/begin_and_give (some, none, same)
    ensures some { IfSome result (λ t. lines.gives_up now actor.old line ≡ Some (settled actor.new t)) }
    ensures none { IsNone result → lines.gives_up now actor.old line ≡ None }
    ensures same { IsNone result → actor.new ≡ actor.old }
{
    match line {
        Line::N1 | Line::D2 | Line::B1 | Line::S1 | Line::S6 => {}
        Line::E5 | Line::A3 | Line::F1 => actor.to_pocket(),
        _ => return None,
    }
    let reply = match line {
        Line::F1 => actor.due.unwrap_or(Reply::Refused(Refusal::Busy)),
        _ => Reply::Refused(Refusal::Busy),
    };
    let said = ends(reply, actor);
    Some(settle(now, actor, said))
}
