//! The rows of the two-lock queue's enqueue and dequeue.
#![tactic(auto, unfolding(crate::specs::Steps::outcome_on))]

ghost use Rattle.std.specs.Prelude.{◌≤◌};
ghost use Rattle.line_steps.specs.Steps.{MayStep, Stepped};

use crate::actors::{ActorOf, Setup, Told};
use crate::memory::MemoryOf;
use crate::outcomes::{effect, goes, left_with_node, notes, raised, settle, unlocked};
use counted_ref::CountedRefOf;
use history::{Refusal, Reply, WornWord};
use line_table::{Line, line_table};

// The enqueue of the two-lock queue.

pub(crate) fn a1<const B: u32>(
    memory: &mut MemoryOf<B>,
    setup: Setup,
    now: u64,
    me: u16,
    a: &mut ActorOf<B>,
) -> Told
    requires { MayStep B setup memory.old.room a.old }
    ensures { Stepped setup now me Line.A1 memory.old a.old memory.new a.new result }
{
    line_table!(A1 (setup me a found) made (memory now a found))
}

pub(crate) fn a2<const B: u32>(
    memory: &mut MemoryOf<B>,
    setup: Setup,
    now: u64,
    me: u16,
    a: &mut ActorOf<B>,
) -> Told
    requires { MayStep B setup memory.old.room a.old }
    ensures { Stepped setup now me Line.A2 memory.old a.old memory.new a.new result }
{
    line_table!(A2 (setup me a found) made (memory now a found))
}

pub(crate) fn a3<const B: u32>(
    memory: &mut MemoryOf<B>,
    setup: Setup,
    now: u64,
    me: u16,
    a: &mut ActorOf<B>,
) -> Told
    requires { MayStep B setup memory.old.room a.old }
    ensures { Stepped setup now me Line.A3 memory.old a.old memory.new a.new result }
{
    line_table!(A3 (setup me a found) made (memory now a found))
}

pub(crate) fn a4<const B: u32>(
    memory: &mut MemoryOf<B>,
    setup: Setup,
    now: u64,
    me: u16,
    a: &mut ActorOf<B>,
) -> Told
    requires { MayStep B setup memory.old.room a.old }
    ensures { Stepped setup now me Line.A4 memory.old a.old memory.new a.new result }
{
    line_table!(A4 (setup me a found) made (memory now a found))
}

pub(crate) fn a5<const B: u32>(
    memory: &mut MemoryOf<B>,
    setup: Setup,
    now: u64,
    me: u16,
    a: &mut ActorOf<B>,
) -> Told
    requires { MayStep B setup memory.old.room a.old }
    ensures { Stepped setup now me Line.A5 memory.old a.old memory.new a.new result }
{
    line_table!(A5 (setup me a found) made (memory now a found))
}

pub(crate) fn a6<const B: u32>(
    memory: &mut MemoryOf<B>,
    setup: Setup,
    now: u64,
    me: u16,
    a: &mut ActorOf<B>,
) -> Told
    requires { MayStep B setup memory.old.room a.old }
    ensures { Stepped setup now me Line.A6 memory.old a.old memory.new a.new result }
{
    line_table!(A6 (setup me a found) made (memory now a found))
}

#[tactic(auto, unfolding(crate::specs::Steps::outcome_on), using(crate::proofs::Freeing::left_with_node_numbered))]
pub(crate) fn a7<const B: u32>(
    memory: &mut MemoryOf<B>,
    setup: Setup,
    now: u64,
    me: u16,
    a: &mut ActorOf<B>,
) -> Told
    requires { MayStep B setup memory.old.room a.old }
    ensures { Stepped setup now me Line.A7 memory.old a.old memory.new a.new result }
{
    line_table!(A7 (setup me a found) made (memory now a found))
}

// The dequeue of the two-lock queue.

pub(crate) fn b1<const B: u32>(
    memory: &mut MemoryOf<B>,
    setup: Setup,
    now: u64,
    me: u16,
    a: &mut ActorOf<B>,
) -> Told
    requires { MayStep B setup memory.old.room a.old }
    ensures { Stepped setup now me Line.B1 memory.old a.old memory.new a.new result }
{
    line_table!(B1 (setup me a found) made (memory now a found))
}

pub(crate) fn b2<const B: u32>(
    memory: &mut MemoryOf<B>,
    setup: Setup,
    now: u64,
    me: u16,
    a: &mut ActorOf<B>,
) -> Told
    requires { MayStep B setup memory.old.room a.old }
    ensures { Stepped setup now me Line.B2 memory.old a.old memory.new a.new result }
{
    line_table!(B2 (setup me a found) made (memory now a found))
}

pub(crate) fn b3<const B: u32>(
    memory: &mut MemoryOf<B>,
    setup: Setup,
    now: u64,
    me: u16,
    a: &mut ActorOf<B>,
) -> Told
    requires { MayStep B setup memory.old.room a.old }
    ensures { Stepped setup now me Line.B3 memory.old a.old memory.new a.new result }
{
    line_table!(B3 (setup me a found) made (memory now a found))
}

pub(crate) fn b4<const B: u32>(
    memory: &mut MemoryOf<B>,
    setup: Setup,
    now: u64,
    me: u16,
    a: &mut ActorOf<B>,
) -> Told
    requires ready { MayStep B setup memory.old.room a.old }
    requires node { a.old.next.node ≤ memory.old.room }
    ensures { Stepped setup now me Line.B4 memory.old a.old memory.new a.new result }
{
    line_table!(B4 (setup me a found) made (memory now a found))
}

pub(crate) fn b5<const B: u32>(
    memory: &mut MemoryOf<B>,
    setup: Setup,
    now: u64,
    me: u16,
    a: &mut ActorOf<B>,
) -> Told
    requires { MayStep B setup memory.old.room a.old }
    ensures { Stepped setup now me Line.B5 memory.old a.old memory.new a.new result }
{
    line_table!(B5 (setup me a found) made (memory now a found))
}

#[tactic(auto, unfolding(crate::specs::Steps::outcome_on), using(crate::proofs::Freeing::unlocked_numbered))]
pub(crate) fn b6<const B: u32>(
    memory: &mut MemoryOf<B>,
    setup: Setup,
    now: u64,
    me: u16,
    a: &mut ActorOf<B>,
) -> Told
    requires { MayStep B setup memory.old.room a.old }
    ensures { Stepped setup now me Line.B6 memory.old a.old memory.new a.new result }
{
    line_table!(B6 (setup me a found) made (memory now a found))
}
