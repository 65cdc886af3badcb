//! Pages of a run that was worked out by hand, by devices that move few bytes, and by such that fail.
ghost use Rattle.std.specs.Prelude.{◌<◌};

use crate::tests::comparisons::same;
use engine_faults::Fault;
use history::Refusal;
use page_engine::{Frame, page_recipe, page_text};
use std::alloc::Global;
use std::test::Fail;
use text_io::{Script, Trouble};

const SCHEDULE: &str = "msq schedule 1
queue two-lock
nodes 2
limit 100
actors 1
events 2
begin 1 deq
steps 1 4
";

const RECIPE: &str = "msq schedule 3
# 100% <b> &lt; é
queue two-lock
bits 24
nodes 2
limit 100
actors 1
begin 1 deq # until it ends
finish 1
end
";

// What a page has of the recipe before its run.
const GIVEN_RECIPE: &str = "<page>msq schedule 3
# 100%25 %3Cb> %26lt; %C3%A9
queue two-lock
bits 24
nodes 2
limit 100
actors 1
begin 1 deq # until it ends
finish 1
end
";

const PAGE: &str = "<page>msq schedule 1
queue two-lock
nodes 2
limit 100
actors 1
events 2
begin 1 deq
steps 1 4
<run>msq trace 1
queue two-lock
bits 24
nodes 2
limit 100
actors 1
steps 4
1 1 B1 H_lock found 0 now 1
2 1 B2 Head found 1 0 now 1 0
3 1 B3 next 1 found 0 0 now 0 0
4 1 B6 H_lock found 1 now 0 reply empty
</page>
";

// What the page has of a schedule whose last line asks for a step too many: the text, no step, where the actor stands, and the fault.
const STOPPED: &str = "<run>msq trace 1
queue two-lock
bits 24
nodes 2
limit 100
actors 1
steps 0
1 at B1 H_lock holds 0
1 alone 4
fault 6 IdleActor line 8
</page>
";

// What is answered of a text, of a recipe or a schedule, and what is written then, through a writer with trouble at one of its calls, if
// at one.
fn paged(
    alloc: Global,
    text: &str,
    piece: usize,
    trouble: Option<(Trouble, u64)>,
) -> Result<(Result<(), Fault>, String), Fail>
    requires { 0 < piece }
{
    let mut reader = Script::reader(alloc, text.as_bytes(), piece)?;
    let mut writer = Script::writer(alloc, 1000, piece)?;
    if let Some((trouble, call)) = trouble
        && call > 0
    {
        writer = writer.with(trouble, call);
    }
    let frame = Frame {
        before: "<page>",
        between: "<run>",
        after: "</page>\n",
    };
    let answer = if text.starts_with("msq schedule 3") {
        page_recipe(alloc, &mut reader, &mut writer, &frame)
    } else {
        page_text(alloc, &mut reader, &mut writer, &frame)
    };
    let written = std::str::from_utf8(writer.written()).ok().ok_or("no text")?;
    Ok((answer, String::from_str(alloc, written)?))
}

#[test]
fn a_page_is_its_frame_around_the_text_and_the_trace(rt: HostRuntime) -> Result<(), Fail> {
    for piece in [1, 7, 4096] {
        let (answer, written) = paged(rt.alloc(), SCHEDULE, piece, None)?;
        same(&rt, answer, Ok(()), piece);
        same(&rt, written.as_str(), PAGE, piece);
    }
    Ok(())
}

#[test]
fn a_prefix_is_written_where_a_writer_fails(rt: HostRuntime) -> Result<(), Fail> {
    for trouble in [Trouble::Failure, Trouble::Standstill] {
        for call in 1..30 {
            let (answer, written) = paged(rt.alloc(), SCHEDULE, 10, Some((trouble, call)))?;
            same(&rt, PAGE.starts_with(written.as_str()), true, call);
            let is_whole = written.as_str() == PAGE;
            same(&rt, answer.is_ok(), is_whole, call);
            if !is_whole {
                same(&rt, answer, Err(Fault::from(Refusal::Write)), call);
            }
        }
    }
    Ok(())
}

#[test]
fn a_page_ends_with_the_fault_where_an_event_is_refused(rt: HostRuntime) -> Result<(), Fail> {
    let (before, after) = SCHEDULE.split_once("steps 1 4").ok_or("the line")?;
    let text = format!(in rt.alloc(); "{before}steps 1 5{after}")?;
    let (answer, written) = paged(rt.alloc(), text.as_str(), 10, None)?;
    let due = Fault {
        refusal: Refusal::IdleActor,
        line: Some(8),
    };
    same(&rt, answer, Err(due), "answer");
    let page = format!(in rt.alloc(); "<page>{text}{STOPPED}")?;
    same(&rt, written.as_str(), page.as_str(), "written");
    Ok(())
}

#[test]
fn a_page_of_a_recipe_has_its_text_and_the_trace(rt: HostRuntime) -> Result<(), Fail> {
    let (_, run) = PAGE.split_once("<run>").ok_or("the run")?;
    let page = format!(in rt.alloc(); "{GIVEN_RECIPE}<run>{run}")?;
    for piece in [1, 7, 4096] {
        let (answer, written) = paged(rt.alloc(), RECIPE, piece, None)?;
        same(&rt, answer, Ok(()), piece);
        same(&rt, written.as_str(), page.as_str(), piece);
    }
    for call in 1..30 {
        let (answer, written) = paged(rt.alloc(), RECIPE, 10, Some((Trouble::Failure, call)))?;
        same(&rt, page.starts_with(written.as_str()), true, call);
        let is_whole = written.as_str() == page.as_str();
        same(&rt, answer.is_ok(), is_whole, call);
    }
    Ok(())
}

#[test]
fn a_page_of_a_recipe_ends_with_the_fault_of_the_act(rt: HostRuntime) -> Result<(), Fail> {
    let (before, after) = RECIPE.split_once("finish 1").ok_or("the line")?;
    let text = format!(in rt.alloc(); "{before}steps 1 5{after}")?;
    let (answer, written) = paged(rt.alloc(), text.as_str(), 10, None)?;
    let due = Fault {
        refusal: Refusal::IdleActor,
        line: Some(9),
    };
    same(&rt, answer, Err(due), "answer");
    let (given, _) = GIVEN_RECIPE.split_once("finish 1").ok_or("the act")?;
    let (run, _) = STOPPED.split_once("line 8").ok_or("the fault")?;
    let page = format!(in rt.alloc(); "{given}steps 1 5\nend\n{run}line 9\n</page>\n")?;
    same(&rt, written.as_str(), page.as_str(), "written");
    Ok(())
}
