//! What each phase of a call makes of what it saw.
ghost use Rattle.std.specs.Prelude.{◌≡◌};
ghost use Rattle.calls.specs.Machine.{awaited_by, given_by, rung_of, goes, tells, with_ring, handing_on, unlistens};
ghost use Rattle.calls.specs.Machine.{with_gift, rings_gift, with_both, without_ring, rest_of, leaves, leaves_counted, leaves_with_room};
ghost use Rattle.calls.specs.Machine.{after_look, after_second_look, after_gift, after_end, after_listeners, after_ring};

use crate::calls::{Act, Bell, Call, Code, Phase, Seen, Task};

/// How often a call looks before it listens.
const LOOKS: u8 = 16;

/// What a call waits for.
pub(crate) fn awaited(task: Task) -> Bell
    ensures { result ≡ awaited_by task }
{
    match task {
        Task::Push => Bell::Room,
        _ => Bell::Values,
    }
}

/// What it gives.
pub(crate) fn given(task: Task) -> Bell
    ensures { result ≡ given_by task }
{
    match task {
        Task::Push => Bell::Values,
        _ => Bell::Room,
    }
}

/// The bell that it rings next.
pub(crate) fn rung(call: &Call) -> Bell
    ensures { result ≡ rung_of call.now }
{
    if call.rings_values {
        Bell::Values
    } else {
        Bell::Room
    }
}

/// It goes on there.
pub(crate) fn go(call: &mut Call, phase: Phase) -> Act
    ensures call { call.new ≡ (goes call.old phase).0 }
    ensures act { result ≡ (goes call.old phase).1 }
{
    call.phase = phase;
    match phase {
        Phase::Finished => Act::Tell(call.code),
        _ => Act::GoOn,
    }
}

// It has this answer.
fn tell(call: &mut Call, code: Code) -> Act
    ensures call { call.new ≡ (tells call.old code).0 }
    ensures act { result ≡ (tells call.old code).1 }
{
    call.code = code;
    go(call, Phase::Finished)
}

// It rings this bell for one that sleeps, and then has this answer.
fn ring(call: &mut Call, bell: Bell, code: Code)
    ensures { call.new ≡ with_ring call.old bell code }
{
    call.code = code;
    match bell {
        Bell::Values => call.rings_values = true,
        Bell::Room => call.rings_room = true,
    }
}

// It has to ring for what it gave, and then is done.
fn owe_ring(call: &mut Call)
    ensures { call.new ≡ with_gift call.old }
{
    let bell = given(call.task);
    ring(call, bell, Code::Done);
}

// It rings for what it gave.
fn ring_gift(call: &mut Call) -> Act
    ensures call { call.new ≡ (rings_gift call.old).0 }
    ensures act { result ≡ (rings_gift call.old).1 }
{
    owe_ring(call);
    go(call, Phase::Rings)
}

// It rings both bells.
fn ring_both(call: &mut Call)
    ensures { call.new ≡ with_both call.old }
{
    call.rings_values = true;
    call.rings_room = true;
}

/// It leaves without what it waited for: it hands on what it may have been woken for, and tells all of a word that is worn out.
pub(crate) fn hand_on(call: &mut Call, code: Code)
    ensures { call.new ≡ handing_on call.old code }
{
    if code == Code::Worn {
        call.code = code;
        ring_both(call);
        call.rings_all = true;
    } else {
        let bell = awaited(call.task);
        ring(call, bell, code);
    }
}

// It is counted no more, and goes on there.
fn unlisten(call: &mut Call, next: Phase) -> Act
    ensures call { call.new ≡ (unlistens call.old next).0 }
    ensures act { result ≡ (unlistens call.old next).1 }
{
    call.next = next;
    go(call, Phase::Unlistens)
}

// A bell less is to be rung.
fn drop_ring(call: &mut Call)
    ensures { call.new ≡ without_ring call.old }
{
    if call.rings_values {
        call.rings_values = false;
    } else {
        call.rings_room = false;
    }
}

// Where it goes on if it has rung.
fn rest(call: &Call) -> Phase
    ensures { result ≡ rest_of call.now }
{
    if call.rings_values || call.rings_room {
        Phase::Rings
    } else {
        Phase::Finished
    }
}

// It leaves without what it waited for, and isn't counted.
fn leave(call: &mut Call, code: Code) -> Act
    ensures call { call.new ≡ (leaves call.old code).0 }
    ensures act { result ≡ (leaves call.old code).1 }
{
    if call.woken || code == Code::Worn {
        hand_on(call, code);
        go(call, Phase::Rings)
    } else {
        tell(call, code)
    }
}

// It leaves without what it waited for, and is counted.
fn leave_counted(call: &mut Call, why: Code) -> Act
    ensures call { call.new ≡ (leaves_counted call.old why).0 }
    ensures act { result ≡ (leaves_counted call.old why).1 }
{
    hand_on(call, why);
    unlisten(call, Phase::Rings)
}

// It leaves without having made use of the room that it took.
fn leave_with_room(call: &mut Call, cause: Code) -> Act
    ensures call { call.new ≡ (leaves_with_room call.old cause).0 }
    ensures act { result ≡ (leaves_with_room call.old cause).1 }
{
    hand_on(call, cause);
    go(call, Phase::GivesBack)
}

/// It looked before it listens.
pub(crate) fn looked(call: &mut Call, seen: Seen, past: bool) -> Act
    ensures call { call.new ≡ (after_look call.old seen past).0 }
    ensures act { result ≡ (after_look call.old seen past).1 }
{
    match seen {
        Seen::Got => ring_gift(call),
        Seen::Took => go(call, Phase::Gives),
        Seen::Nothing => {
            if call.last || past {
                return tell(call, Code::Nothing);
            }
            if !call.woken && call.looks < LOOKS {
                call.looks += 1;
                return Act::Yield;
            }
            go(call, Phase::Listens)
        }
        Seen::Busy => {
            if !past {
                return Act::Yield;
            }
            leave(call, Code::Busy)
        }
        Seen::Ended(code) => leave(call, code),
    }
}

/// It looked once more, and is counted.
pub(crate) fn looked_again(call: &mut Call, seen: Seen, past: bool) -> Act
    ensures call { call.new ≡ (after_second_look call.old seen past).0 }
    ensures act { result ≡ (after_second_look call.old seen past).1 }
{
    match seen {
        Seen::Got => {
            owe_ring(call);
            unlisten(call, Phase::Rings)
        }
        Seen::Took => unlisten(call, Phase::Gives),
        Seen::Nothing => {
            call.phase = Phase::Slept;
            Act::Sleep(awaited(call.task))
        }
        Seen::Busy => {
            if !past {
                return Act::Yield;
            }
            leave_counted(call, Code::Busy)
        }
        Seen::Ended(code) => leave_counted(call, code),
    }
}

/// It tried to give: a push may be refused, room never.
pub(crate) fn gave(call: &mut Call, seen: Seen, past: bool) -> Act
    ensures call { call.new ≡ (after_gift call.old.task call.old seen past).0 }
    ensures act { result ≡ (after_gift call.old.task call.old seen past).1 }
{
    match (call.task, seen) {
        (Task::Push, Seen::Busy) => {
            if !past {
                return Act::Yield;
            }
            leave_with_room(call, Code::Busy)
        }
        (Task::Push, Seen::Ended(code)) => leave_with_room(call, code),
        _ => ring_gift(call),
    }
}

/// It ended a side or the queue: `Got` if nobody is left there, or it is shut.
pub(crate) fn ended(call: &mut Call, seen: Seen) -> Act
    ensures call { call.new ≡ (after_end call.old seen).0 }
    ensures act { result ≡ (after_end call.old seen).1 }
{
    match (call.task, seen) {
        (_, Seen::Busy) => {
            if !call.tries {
                return Act::Yield;
            }
            return tell(call, Code::Busy);
        }
        (Task::DropSender, Seen::Got) => call.rings_values = true,
        (Task::DropReceiver, Seen::Got) => call.rings_room = true,
        (Task::Shut, _) => ring_both(call),
        _ => return tell(call, Code::Done),
    }
    call.rings_all = true;
    go(call, Phase::Rings)
}

/// It saw whether anybody listens.
pub(crate) fn heard_of_listeners(call: &mut Call, seen: Seen) -> Act
    ensures call { call.new ≡ (after_listeners call.old seen).0 }
    ensures act { result ≡ (after_listeners call.old seen).1 }
{
    match seen {
        Seen::Nothing => {
            drop_ring(call);
            let next = rest(call);
            go(call, next)
        }
        _ => go(call, Phase::Adds),
    }
}

/// It rang.
pub(crate) fn rang(call: &mut Call) -> Act
    ensures call { call.new ≡ (after_ring call.old).0 }
    ensures act { result ≡ (after_ring call.old).1 }
{
    let bell = rung(call);
    drop_ring(call);
    call.phase = rest(call);
    if call.rings_all {
        Act::WakeAll(bell)
    } else {
        Act::WakeOne(bell)
    }
}
