//! The acts of a recipe, each as often as it is done.
ghost use Rattle.std.specs.Prelude.{◌≡◌, ◌++◌, ◌∷◌, [], None, IfOk, IfErr, OnOk};
ghost use Rattle.history.specs.declared.refusals.Refusal.TheVariants.{Memory};
ghost use Rattle.expand_engine.specs.UnrolledActs.{act_at, acts_done, open_after, open_of, opened_by, repeated, unrolled};

use crate::recipes::{Act, Said};
use history::{Op, Refusal};
use schedule_text::Event;
use std::alloc::Global;

/// The acts so far, and those of the repeat that is open, which is done so often; none is open where that isn't said.
#[derive(Drop)]
struct Unrolling {
    acts: Vec<Act>,
    body: Vec<Act>,
    times: Option<u64>,
}

// Adds an act at the end.
fn push_act(acts: &mut Vec<Act>, act: Act) -> Result<(), Refusal>
    ensures ok { OnOk result (acts.new.items ≡ acts.old.items ++ act ∷ []) }
    ensures err { IfErr result (λ refusal. refusal ≡ Memory) }
{
    // The check of the push stops unless the types of its parts are named here.
    let _: Option<Op> = None;
    let _: Option<Event> = None;
    let _: Option<Said> = None;
    match acts.push(act) {
        Ok(()) => Ok(()),
        Err(_) => Err(Refusal::Memory),
    }
}

// Adds acts at the end.
fn push_acts(acts: &mut Vec<Act>, more: &[Act]) -> Result<(), Refusal>
    ensures ok { OnOk result (acts.new.items ≡ acts.old.items ++ more.now) }
    ensures err { IfErr result (λ refusal. refusal ≡ Memory) }
{
    for act in more {
        push_act(acts, *act)?;
    }
    Ok(())
}

// Adds acts at the end, so often; where there are none, at once.
fn push_repeated(acts: &mut Vec<Act>, body: &[Act], times: u64) -> Result<(), Refusal>
    ensures ok { OnOk result (acts.new.items ≡ acts.old.items ++ repeated times body.now) }
    ensures err { IfErr result (λ refusal. refusal ≡ Memory) }
{
    if body.is_empty() {
        return Ok(());
    }
    for _ in 0..times {
        push_acts(acts, body)?;
    }
    Ok(())
}

// Adds the act of a line with this number, if it is one.
fn push_if_act(acts: &mut Vec<Act>, number: u64, said: Said) -> Result<(), Refusal>
    ensures ok { OnOk result (acts.new.items ≡ acts.old.items ++ act_at number said) }
    ensures err { IfErr result (λ refusal. refusal ≡ Memory) }
{
    if said.is_act() {
        return push_act(acts, Act { line: number, said });
    }
    Ok(())
}

// How often the repeat is done that a line opens, if it opens one.
fn times_in(said: &Said) -> Option<u64>
    ensures { open_of result [] ≡ opened_by said.now }
{
    match said {
        Said::Repeat(times) => Some(*times),
        _ => None,
    }
}

impl Unrolling {
    // Goes over the line with this number.
    fn go_over(&mut self, number: u64, said: Said) -> Result<(), Refusal>
        ensures acts { OnOk result (self.new.acts.items ≡ self.old.acts.items
            ++ acts_done number (open_of self.old.times self.old.body.items) said) }
        ensures held { OnOk result (open_of self.new.times self.new.body.items
            ≡ open_after number (open_of self.old.times self.old.body.items) said) }
        ensures err { IfErr result (λ refusal. refusal ≡ Memory) }
    {
        let Some(times) = self.times else {
            let times = times_in(&said);
            push_if_act(&mut self.acts, number, said)?;
            self.body.clear();
            self.times = times;
            return Ok(());
        };
        if said.is_end() {
            push_repeated(&mut self.acts, &self.body, times)?;
            self.times = None;
            return Ok(());
        }
        push_if_act(&mut self.body, number, said)
    }
}

/// The acts of a recipe's lines in their order, those of a repeat so often as it says.
///
/// It is refused with `Memory`, takes memory for the acts, and doesn't wait.
pub fn acts_of(alloc: Global, lines: &[Said]) -> Result<Vec<Act>, Refusal>
    //= recipes/acts (ok, err): The acts of a recipe are told in the order in which they are done, those of a repeat as
    //=   often as it says, each with the number of its line; it is refused only `Memory`.
    ensures ok { IfOk result (λ acts. acts.items ≡ unrolled 1 None lines.now) }
    ensures err { IfErr result (λ refusal. refusal ≡ Memory) }
{
    let mut all = Unrolling {
        acts: Vec::new(alloc),
        body: Vec::new(alloc),
        times: None,
    };
    for (index, said) in lines.iter().enumerate() {
        all.go_over(index as u64 + 1, *said)?;
    }
    let Unrolling {
        acts,
        body: _,
        times: _,
    } = all;
    Ok(acts)
}
