//! A law of the non-blocking queue on an actor that alone takes steps, over all worlds that any moves lead to. It is the
//! contract of a function that does nothing.
ghost use Rattle.step_machine.specs.NonBlocking.{OfNonBlockingWorlds};
ghost use Rattle.step_machine.specs.Solo.{EachEndsAlone};

/// An actor that begins a call, and then alone takes steps, ends it: an enqueue within 15 steps, a dequeue within 17.
/// What it is told may be a refusal, where a word is worn out or no node is left.
pub fn an_actor_alone_ends_its_call()
    //= both/alone: In the non-blocking queue an actor that begins a call and then alone takes steps ends an enqueue
    //=   within 15, a dequeue within 17, a shut within 8, while step numbers are left. Runs attain each number, a
    //=   shut's in `world_tests`.
    ensures { OfNonBlockingWorlds EachEndsAlone }
{}
