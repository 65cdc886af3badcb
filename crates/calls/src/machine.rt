//! The machine: a new call, what a call touches next, where it stands after it saw something, and how it is given up.
ghost use Rattle.std.specs.Prelude.{◌≡◌};
ghost use Rattle.calls.specs.Machine.{started, access_of, advanced, given_up};

use crate::calls::{Access, Act, Call, Code, Phase, Seen, Task};
use crate::steps::{
    awaited, ended, gave, given, go, hand_on, heard_of_listeners, looked, looked_again, rang, rung,
};

/// A new call. One that tries never waits.
pub fn start(task: Task, tries: bool) -> Call
    //= calls/start: A new push or pop looks first, and a shut or an end of a side ends it at once; a try's time is
    //=   over from the first.
    ensures { result ≡ started task tries }
{
    Call {
        task,
        tries,
        phase: match task {
            Task::Push | Task::Pop => Phase::Looks,
            _ => Phase::Ends,
        },
        next: Phase::Finished,
        code: Code::Done,
        woken: false,
        last: tries,
        looks: 0,
        rings_values: false,
        rings_room: false,
        rings_all: false,
    }
}

/// What the call touches next.
pub fn access(call: &Call) -> Access
    //= calls/access: What a call touches next is what the [table of its
    //=   phases](../crates/calls/README.md#what-it-does) says.
    ensures { result ≡ access_of call.now }
{
    match call.phase {
        Phase::Looks | Phase::LooksAgain => Access::Look(awaited(call.task)),
        Phase::Listens => Access::Count(awaited(call.task)),
        Phase::Hears => Access::Hear(awaited(call.task)),
        Phase::Slept | Phase::Unlistens => Access::Uncount(awaited(call.task)),
        Phase::Gives => Access::Give(given(call.task)),
        Phase::GivesBack => Access::Give(awaited(call.task)),
        Phase::Ends => Access::End(call.task),
        Phase::Rings => Access::Listeners(rung(call)),
        Phase::Adds => Access::Ring(rung(call)),
        Phase::Finished => Access::Rest,
    }
}

/// Where a call stands after it saw this, and what is to be done before its next step. `past` is whether its time is.
pub fn advance(call: &mut Call, seen: Seen, past: bool) -> Act
    //= calls/advance (call, act): Where a call stands after it saw something, and what is then to be done, is what
    //=   that table says.
    ensures call { call.new ≡ (advanced call.old seen past).0 }
    ensures act { result ≡ (advanced call.old seen past).1 }
{
    match call.phase {
        Phase::Looks => looked(call, seen, past),
        Phase::Listens => go(call, Phase::Hears),
        Phase::Hears => go(call, Phase::LooksAgain),
        Phase::LooksAgain => looked_again(call, seen, past),
        Phase::Slept => {
            call.woken = true;
            call.last = past;
            go(call, Phase::Looks)
        }
        Phase::Unlistens => {
            let next = call.next;
            go(call, next)
        }
        Phase::Gives => gave(call, seen, past),
        Phase::GivesBack => go(call, Phase::Rings),
        Phase::Ends => ended(call, seen),
        Phase::Rings => heard_of_listeners(call, seen),
        Phase::Adds => rang(call),
        Phase::Finished => Act::Tell(call.code),
    }
}

/// Gives a call up that has nobody to wake: it only has to be stepped until it tells, which it does without sleeping.
pub fn give_up(call: &mut Call)
    //= calls/give_up: A call that is given up gives back the room that it took, and hands on what it may have been
    //=   woken for.
    ensures { call.new ≡ given_up call.old }
{
    let next = match call.phase {
        Phase::Hears | Phase::LooksAgain | Phase::Slept => Phase::Unlistens,
        Phase::Looks | Phase::Listens => Phase::Rings,
        Phase::Gives if call.task == Task::Push => Phase::GivesBack,
        _ => return,
    };
    hand_on(call, Code::Nothing);
    call.next = Phase::Rings;
    call.phase = next;
}
