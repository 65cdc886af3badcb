//! What is due after a line, and the sizes so far.
ghost use Rattle.std.specs.Prelude.{◌≡◌, ◌+◌, ◌*◌, ◌≤◌};
ghost use Rattle.expand_engine.specs.Recipes.{HasWords, IsDueInRange, bits_in, due_after, due_after_bits, due_after_number, due_inside, due_outside, sizes_after, weight};

use crate::recipes::{Due, Said, Sizes};
use schedule_text::Field;

/// What is due after a line that says this.
pub fn due_after(due: Due, said: &Said) -> Due
    requires range { IsDueInRange due }
    requires words { HasWords said.now }
    ensures { result ≡ due_after due said.now }
{
    if said.says_nothing() {
        return due;
    }
    match due {
        Due::Version => Due::Queue,
        Due::Queue => Due::Number(24, Field::Bits),
        Due::Number(bits, field) => after_number(bits, field, said),
        Due::Act(steps) => after_act(steps, said),
        Due::Repeated(steps, times) => after_repeated(steps, times, said),
        Due::Nothing => Due::Nothing,
    }
}

fn after_number(bits: u32, field: Field, said: &Said) -> Due
    requires { HasWords said.now }
    ensures { result ≡ due_after_number bits field said.now }
{
    match field {
        Field::Bits => after_bits(bits, said),
        Field::Nodes => Due::Number(bits, Field::Limit),
        Field::Limit => Due::Number(bits, Field::Actors),
        Field::Actors | Field::Events => Due::Act(0),
    }
}

fn after_bits(bits: u32, said: &Said) -> Due
    requires { HasWords said.now }
    ensures { result ≡ due_after_bits bits said.now }
{
    match said {
        Said::Number(Field::Nodes, _) => Due::Number(bits, Field::Limit),
        _ => Due::Number(bits_after(bits, said), Field::Nodes),
    }
}

fn bits_after(bits: u32, said: &Said) -> u32
    requires { HasWords said.now }
    ensures { result ≡ bits_in bits said.now }
{
    match said {
        Said::Number(Field::Bits, value) => *value as u32,
        _ => bits,
    }
}

/// As how many steps the acts count behind this one, which is done so often.
pub(crate) fn spent(steps: u64, times: u64, said: &Said) -> u64
    requires few { steps ≤ 100000000 }
    requires times { times ≤ 1000000 }
    ensures { result ≡ steps + times * weight said.now }
{
    steps + times * said.weight()
}

fn after_act(steps: u64, said: &Said) -> Due
    requires { steps ≤ 100000000 }
    ensures { result ≡ due_outside steps said.now }
{
    match said {
        Said::Repeat(times) => Due::Repeated(steps, *times),
        Said::End => Due::Nothing,
        _ => Due::Act(spent(steps, 1, said)),
    }
}

fn after_repeated(steps: u64, times: u64, said: &Said) -> Due
    requires few { steps ≤ 100000000 }
    requires times { times ≤ 1000000 }
    ensures { result ≡ due_inside steps times said.now }
{
    match said {
        Said::End => Due::Act(steps),
        _ => Due::Repeated(spent(steps, times, said), times),
    }
}

/// The sizes after a line that says this.
pub fn sizes_after(sizes: Sizes, said: &Said) -> Sizes
    requires { HasWords said.now }
    ensures { result ≡ sizes_after sizes said.now }
{
    match said {
        Said::Queue(kind) => Sizes {
            kind: *kind,
            ..sizes
        },
        Said::Number(Field::Bits, value) => Sizes {
            bits: *value as u32,
            ..sizes
        },
        Said::Number(Field::Nodes, value) => Sizes {
            nodes: *value as u32,
            ..sizes
        },
        Said::Number(Field::Limit, value) => Sizes {
            limit: *value,
            ..sizes
        },
        Said::Number(Field::Actors, value) => Sizes {
            actors: *value as u16,
            ..sizes
        },
        _ => sizes,
    }
}
