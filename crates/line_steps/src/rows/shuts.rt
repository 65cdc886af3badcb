//! The rows of a shut, of the non-blocking queue and of the two-lock queue.
#![tactic(auto, unfolding(crate::specs::Steps::outcome_on))]

ghost use Rattle.line_steps.specs.Steps.{MayStep, Stepped};

use crate::actors::{ActorOf, Setup, Told};
use crate::memory::MemoryOf;
use crate::outcomes::{closed, effect, ends, goes, left, raised, raised_end, settle, worn};
use counted_ref::CountedRefOf;
use history::{Refusal, Reply, WornWord};
use line_table::{Line, line_table};

pub(crate) fn s1<const B: u32>(
    memory: &mut MemoryOf<B>,
    setup: Setup,
    now: u64,
    me: u16,
    a: &mut ActorOf<B>,
) -> Told
    requires { MayStep B setup memory.old.room a.old }
    ensures { Stepped setup now me Line.S1 memory.old a.old memory.new a.new result }
{
    line_table!(S1 (setup me a found) made (memory now a found))
}

pub(crate) fn s2<const B: u32>(
    memory: &mut MemoryOf<B>,
    setup: Setup,
    now: u64,
    me: u16,
    a: &mut ActorOf<B>,
) -> Told
    requires { MayStep B setup memory.old.room a.old }
    ensures { Stepped setup now me Line.S2 memory.old a.old memory.new a.new result }
{
    line_table!(S2 (setup me a found) made (memory now a found))
}

pub(crate) fn s3<const B: u32>(
    memory: &mut MemoryOf<B>,
    setup: Setup,
    now: u64,
    me: u16,
    a: &mut ActorOf<B>,
) -> Told
    requires { MayStep B setup memory.old.room a.old }
    ensures { Stepped setup now me Line.S3 memory.old a.old memory.new a.new result }
{
    line_table!(S3 (setup me a found) made (memory now a found))
}

pub(crate) fn s4<const B: u32>(
    memory: &mut MemoryOf<B>,
    setup: Setup,
    now: u64,
    me: u16,
    a: &mut ActorOf<B>,
) -> Told
    requires { MayStep B setup memory.old.room a.old }
    ensures { Stepped setup now me Line.S4 memory.old a.old memory.new a.new result }
{
    line_table!(S4 (setup me a found) made (memory now a found))
}

pub(crate) fn s5<const B: u32>(
    memory: &mut MemoryOf<B>,
    setup: Setup,
    now: u64,
    me: u16,
    a: &mut ActorOf<B>,
) -> Told
    requires { MayStep B setup memory.old.room a.old }
    ensures { Stepped setup now me Line.S5 memory.old a.old memory.new a.new result }
{
    line_table!(S5 (setup me a found) made (memory now a found))
}

pub(crate) fn s6<const B: u32>(
    memory: &mut MemoryOf<B>,
    setup: Setup,
    now: u64,
    me: u16,
    a: &mut ActorOf<B>,
) -> Told
    requires { MayStep B setup memory.old.room a.old }
    ensures { Stepped setup now me Line.S6 memory.old a.old memory.new a.new result }
{
    line_table!(S6 (setup me a found) made (memory now a found))
}

pub(crate) fn s7<const B: u32>(
    memory: &mut MemoryOf<B>,
    setup: Setup,
    now: u64,
    me: u16,
    a: &mut ActorOf<B>,
) -> Told
    requires { MayStep B setup memory.old.room a.old }
    ensures { Stepped setup now me Line.S7 memory.old a.old memory.new a.new result }
{
    line_table!(S7 (setup me a found) made (memory now a found))
}

pub(crate) fn s8<const B: u32>(
    memory: &mut MemoryOf<B>,
    setup: Setup,
    now: u64,
    me: u16,
    a: &mut ActorOf<B>,
) -> Told
    requires { MayStep B setup memory.old.room a.old }
    ensures { Stepped setup now me Line.S8 memory.old a.old memory.new a.new result }
{
    line_table!(S8 (setup me a found) made (memory now a found))
}

#[tactic(auto, unfolding(crate::specs::Steps::outcome_on), using(crate::proofs::Freeing::left_numbered))]
pub(crate) fn s9<const B: u32>(
    memory: &mut MemoryOf<B>,
    setup: Setup,
    now: u64,
    me: u16,
    a: &mut ActorOf<B>,
) -> Told
    requires { MayStep B setup memory.old.room a.old }
    ensures { Stepped setup now me Line.S9 memory.old a.old memory.new a.new result }
{
    line_table!(S9 (setup me a found) made (memory now a found))
}
