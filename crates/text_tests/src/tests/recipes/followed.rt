//! Recipes that are run, traced and shown: as the schedules that they stand for, and up to an act that is refused.
use crate::tests::comparisons::same;
use crate::tests::pictures::WHOLE;
use crate::tests::recipes::typed::{
    COMMENTED, COMMENTED_SCHEDULE, REPEATED, REPEATED_SCHEDULE, SHUT, SHUT_SCHEDULE, SPLIT,
    SPLIT_SCHEDULE,
};
use crate::tests::trials::{Engine, does_by_any_piece, writes_nothing};
use crate::tests::written::{
    answered, changed, tells_a_fault, tells_a_writer_that_fails, text_fault,
};
use engine_faults::Fault;
use history::{Refusal, TextCause};
use std::test::Fail;

const COMMENTED_HISTORY: &str = "history 2
1 enq 5 first 1 last 10 at 8 reply done
2 deq first 11 last 19 at 15 reply value 1 5
";

/// Actor 2 waits for the lock that actor 1 holds.
const WAITING: &str = "msq schedule 3
queue two-lock
bits 24
nodes 3
limit 100
actors 2
begin 1 enq 5
until 1 A4
begin 2 enq 6
# It prepares its node.
until 2 A3
finish 2
end
";

const WAITING_TRACE: &str = "msq trace 1
queue two-lock
bits 24
nodes 3
limit 100
actors 2
steps 11
1 1 N1 Fresh found 1 now 1
2 1 N2 Free found 0 0 now 0 0
3 1 N5 Fresh found 1 now 2
4 1 A1 value 2 found 0 0 now 1 5
5 1 A2 next 2 found 0 0 now 0 0
6 1 A3 T_lock found 0 now 1
7 2 N1 Fresh found 2 now 2
8 2 N2 Free found 0 0 now 0 0
9 2 N5 Fresh found 2 now 3
10 2 A1 value 3 found 0 0 now 2 6
11 2 A2 next 3 found 0 0 now 0 0
1 at A4 Tail holds 1 0
2 at A3 T_lock holds 1
2 alone -
";

const STANDS: &str = "1 at A4 Tail holds 1 0\n2 at A3 T_lock holds 1\n";

/// In place of the act on line 12 one that is refused there, and what is told behind the stands of both actors.
const ACTS: [(&str, Refusal, &str); 8] = [
    ("finish 2", Refusal::ActorBusy, "2 alone -\n"),
    ("finish 3", Refusal::NoSuchActor, ""),
    ("until 1 B1", Refusal::NotHere, "1 alone 4\n"),
    ("until 2 A4", Refusal::NotHere, "2 alone -\n"),
    ("until 3 A4", Refusal::NoSuchActor, ""),
    ("begin 1 deq", Refusal::ActorBusy, "1 alone 4\n"),
    ("step 2 A4", Refusal::NotHere, "2 alone -\n"),
    ("steps 1 5", Refusal::IdleActor, "1 alone 4\n"),
];

const ENGINES: [(Engine, Engine); 3] = [
    (Engine::Run, Engine::RunRecipe),
    (Engine::Trace, Engine::TraceRecipe),
    (Engine::Show(WHOLE), Engine::ShowRecipe(WHOLE)),
];

const RECIPES: [(&str, &str); 4] = [
    (COMMENTED, COMMENTED_SCHEDULE),
    (REPEATED, REPEATED_SCHEDULE),
    (SHUT, SHUT_SCHEDULE),
    (SPLIT, SPLIT_SCHEDULE),
];

#[test]
fn does_of_a_recipe_what_is_done_of_its_schedule(rt: HostRuntime) -> Result<(), Fail> {
    for (of_schedule, of_recipe) in &ENGINES {
        for (text, schedule) in &RECIPES {
            let (due, wanted) = answered(rt.alloc(), *of_schedule, *schedule, 100)?;
            let (answer, written) = answered(rt.alloc(), *of_recipe, *text, 100)?;
            same(&rt, answer, due, *text);
            same(&rt, written.as_str(), wanted.as_str(), *text);
        }
    }
    Ok(())
}

#[test]
fn writes_the_history_of_a_recipe(rt: HostRuntime) -> Result<(), Fail> {
    let engine = Engine::RunRecipe;
    does_by_any_piece(&rt, rt.alloc(), engine, COMMENTED, 0, COMMENTED_HISTORY)
}

#[test]
fn tells_where_actors_stand_as_an_act_is_refused(rt: HostRuntime) -> Result<(), Fail> {
    let (steps, _) = WAITING_TRACE.split_once(STANDS).ok_or("the stands")?;
    for (act, refusal, behind) in &ACTS {
        let text = changed(rt.alloc(), WAITING, "finish 2", *act)?;
        let due = Fault {
            refusal: *refusal,
            line: Some(12),
        };
        let wanted = format!(in rt.alloc(); "{steps}{STANDS}{behind}")?;
        let (answer, written) = answered(rt.alloc(), Engine::TraceRecipe, text.as_str(), 100)?;
        same(&rt, answer, Err(due), *act);
        same(&rt, written.as_str(), wanted.as_str(), *act);
        let (answer, written) = answered(rt.alloc(), Engine::RunRecipe, text.as_str(), 100)?;
        same(&rt, answer, Err(due), *act);
        same(&rt, written.as_str(), "", *act);
    }
    Ok(())
}

#[test]
fn traces_the_acts_before_a_refused_one(rt: HostRuntime) -> Result<(), Fail> {
    let (answer, written) = answered(rt.alloc(), Engine::TraceRecipe, WAITING, 100)?;
    let due = Fault {
        refusal: Refusal::ActorBusy,
        line: Some(12),
    };
    same(&rt, answer, Err(due), "finish 2");
    same(&rt, written.as_str(), WAITING_TRACE, "finish 2");
    Ok(())
}

#[test]
fn writes_nothing_of_a_faulty_recipe(rt: HostRuntime) -> Result<(), Fail> {
    for (_, engine) in &ENGINES {
        let due = text_fault(14, TextCause::Extra);
        tells_a_fault(
            &rt,
            *engine,
            WAITING,
            ("finish 2\n", "finish 2\nend\n"),
            due,
        )?;
        writes_nothing(&rt, rt.alloc(), *engine, COMMENTED)?;
    }
    Ok(())
}

#[test]
fn tells_a_writer_that_stops(rt: HostRuntime) -> Result<(), Fail> {
    tells_a_writer_that_fails(&rt, Engine::TraceRecipe, COMMENTED)
}
