//! What a step leaves in the lists of a world: its actor, and its operation.
ghost use Rattle.std.specs.Prelude.{◌≡◌, ◌+◌, ◌-◌, ◌<◌, ◌≤◌, Some, None, IfOk, IfSome, IsNone, replicate, if◌then◌else◌, slice_set, slice_get, nat_eq, length, vec_len, vec_capacity};
ghost use Rattle.counted_ref.specs.Ref.{IsSplit};
ghost use Rattle.line_steps.specs.Outcomes.{settled};
ghost use Rattle.line_steps.specs.Ready.{IsCounted, RegistersFit, ReadsFit};
ghost use Rattle.line_steps.specs.Rooms.{aside_after};
ghost use Rattle.step_machine.specs.Machine as machine;
ghost use Rattle.step_machine.specs.Machine.{new_operation, entry_or};
ghost use Rattle.step_machine.specs.Views.{HasEntry, actor_in, actors_after, listed, operations_after, reply_in, TookStep};

use counted_ref::CountedRefOf;
use history::{Op, Reply, Stamped};
use line_steps::{ActorOf, MemoryOf, Setup, Told, nobody_value, put_down, stepped};
use line_table::Line;
use std::alloc::{AllocError, Global};

/// A call under way: whose it is, what it does, and where its operation stands.
#[derive(Clone, Copy, Debug, PartialEq, Eq)]
pub struct Call {
    pub actor: u16,
    pub op: Op,
    pub entry: Option<usize>,
}

/// An actor that never had a call.
#[tactic(auto, using(counted_ref::proofs::Words::span_least, counted_ref::proofs::Words::count_span_least))]
pub fn idle<const B: u32>() -> ActorOf<B>
    requires { IsSplit B }
    ensures { result ≡ machine.idle }
{
    let null = CountedRefOf::new(0, 0);
    ActorOf {
        line: None,
        op: Op::Deq,
        f: 0,
        top: null,
        node: 0,
        mark: 0,
        tail: null,
        head: null,
        next: null,
        val: nobody_value(),
        empty_at: 0,
        due: None,
        holds: false,
        pocket: None,
        entry: None,
    }
}

/// Actors that never had a call.
pub fn idle_actors<const B: u32>(
    alloc: Global,
    actors: usize,
) -> Result<Vec<ActorOf<B>>, AllocError>
    requires { IsSplit B }
    ensures { IfOk result (λ v. v.items ≡ replicate actors machine.idle) }
{
    // The call is named here too, since the checker finds the modules of `Op` by the names that a body writes.
    let idle = ActorOf {
        op: Op::Deq,
        ..idle()
    };
    vec![in alloc; idle; actors]
}

/// The actor of a number; none for 0 and above the number of actors.
#[inline(always)]
pub fn actor_at<const B: u32>(actors: &Vec<ActorOf<B>>, me: u16) -> Option<&ActorOf<B>>
    ensures there { IfSome result (λ a. actor_in actors.now.items me ≡ Some a.now) }
    ensures none { IsNone result → actor_in actors.now.items me ≡ None }
{
    if me == 0 {
        return None;
    }
    actors.get(me as usize - 1)
}

pub fn put_actor<const B: u32>(actors: &mut Vec<ActorOf<B>>, me: u16, actor: ActorOf<B>)
    ensures items { actors.new.items ≡ slice_set actors.old.items (me - 1) actor.entry }
{
    if let Some(place) = actors.get_mut(me.saturating_sub(1) as usize) {
        *place = actor;
    }
}

/// Where the operation of a call stands in the list, to which a call's first step adds it.
#[inline(always)]
fn list_operation(operations: &mut Vec<Stamped>, call: Call, now: u64) -> usize
    requires { HasEntry call.entry (vec_len operations.old) (vec_capacity operations.old) }
    ensures place { result ≡ entry_or call.entry (length operations.old.items) }
    ensures there { result < length operations.new.items }
    ensures items { operations.new.items ≡
        listed call.entry (new_operation call.actor call.op now) operations.old.items }
    ensures room { vec_capacity operations.old ≤ vec_capacity operations.new }
{
    match call.entry {
        Some(place) => place,
        None => {
            let place = operations.len();
            // The call and its reply are named here, since the checker finds the modules of their types by the names that a body
            // writes.
            let op: Op = call.op;
            let reply: Option<Reply> = None;
            let _ = operations.push(Stamped {
                actor: call.actor,
                op,
                first: now,
                last: None,
                at: None,
                reply,
            });
            place
        }
    }
}

/// What an outcome leaves of its actor, its operation and the nodes set aside.
pub fn commit<const B: u32>(
    memory: &mut MemoryOf<B>,
    actors: &mut Vec<ActorOf<B>>,
    operations: &mut Vec<Stamped>,
    call: Call,
    now: u64,
    actor: ActorOf<B>,
    told: Told,
)
    requires entry { HasEntry call.entry (vec_len operations.old) (vec_capacity operations.old) }
    requires aside { IfSome told.aside (λ n. n - 1 < memory.old.room) }
    ensures memory { memory.new ≡ record memory.old { aside = aside_after memory.old.aside told.aside } }
    ensures actors { actors.new.items ≡
        actors_after call.actor call.entry (length operations.old.items) (settled actor.entry told) actors.old.items }
    ensures operations { operations.new.items ≡
        operations_after call.actor call.op call.entry now (settled actor.entry told) operations.old.items }
    ensures room { vec_capacity operations.old ≤ vec_capacity operations.new }
{
    let me = call.actor;
    let place = list_operation(operations, call, now);
    let Some(operation) = operations.get_mut(place) else {
        unreachable!()
    };
    let _ = put_down(memory, now, operation, told);
    let entry = Some(place);
    put_actor(actors, me, ActorOf { entry, ..actor });
}

/// Takes a step of an actor at a line, and puts down what it leaves: its registers, its operation and the node set aside.
/// Answers where the operation stands, which has the reply, where the call ends.
///
/// It is a call of its own, so that what a step answers takes no room beside the rows of all lines.
#[inline(never)]
pub fn take_step<const B: u32>(
    memory: &mut MemoryOf<B>,
    a: &mut ActorOf<B>,
    operations: &mut Vec<Stamped>,
    setup: Setup,
    now: u64,
    me: u16,
    line: Line,
) -> usize
    requires bits { setup.bits ≡ B }
    requires counted { IsCounted setup }
    requires ready { RegistersFit setup memory.old.room a.old }
    requires reads { ReadsFit line memory.old.room a.old }
    requires entry { HasEntry a.old.entry (vec_len operations.old) (vec_capacity operations.old) }
    ensures took { TookStep setup now me line memory.old operations.old.items a.old
        memory.new operations.new.items a.new (reply_in (slice_get operations.new.items result)) }
    ensures there { result < length operations.new.items }
    ensures room { vec_capacity operations.old ≤ vec_capacity operations.new }
{
    let call = Call {
        actor: me,
        op: a.op,
        entry: a.entry,
    };
    let place = list_operation(operations, call, now);
    let Some(operation) = operations.get_mut(place) else {
        unreachable!()
    };
    let _ = stepped(memory, setup, now, me, a, operation, line);
    a.entry = Some(place);
    place
}
