//! A function a line: what a step does at that line, which is the line's row of the table.
#![tactic(auto, unfolding(crate::specs::Steps::outcome_on))]

ghost use Rattle.std.specs.Prelude.{◌≤◌};
ghost use Rattle.line_steps.specs.Steps.{MayStep, Stepped};

use crate::actors::{ActorOf, Setup, Told};
use crate::memory::MemoryOf;
use crate::outcomes::{
    closed, closed_with_node, effect, ends, frees, frees_aside, goes, notes, raised, settle,
    with_node, worn, worn_aside, worn_with_node,
};
use counted_ref::CountedRefOf;
use history::{Refusal, Reply, WornWord};
use line_table::{Line, line_table};

// The access of a row, as one call of the memory.
macro_rules! access {
    ($memory:ident load Fresh) => { $memory.fresh() };
    ($memory:ident load Free) => { $memory.free() };
    ($memory:ident load Head) => { $memory.head() };
    ($memory:ident load Tail) => { $memory.tail() };
    ($memory:ident load Next($node:expr)) => { $memory.next_of($node) };
    ($memory:ident load Value($node:expr)) => { $memory.value_of($node) };
    ($memory:ident store Next($node:expr) ($new:expr)) => { $memory.store_next($node, $new) };
    ($memory:ident store Value($node:expr) ($new:expr)) => { $memory.store_value($node, $new) };
    ($memory:ident store Head ($new:expr)) => { $memory.store_head($new) };
    ($memory:ident store Tail ($new:expr)) => { $memory.store_tail($new) };
    ($memory:ident store TailLock ($new:expr)) => { $memory.store_tail_lock($new) };
    ($memory:ident store HeadLock ($new:expr)) => { $memory.store_head_lock($new) };
    ($memory:ident clear Next($node:expr)) => { $memory.clear_next($node) };
    ($memory:ident exchange Fresh ($old:expr, $new:expr)) => { $memory.exchange_fresh($old, $new) };
    ($memory:ident exchange Free ($old:expr, $new:expr)) => { $memory.exchange_free($old, $new) };
    ($memory:ident exchange Head ($old:expr, $new:expr)) => { $memory.exchange_head($old, $new) };
    ($memory:ident exchange Tail ($old:expr, $new:expr)) => { $memory.exchange_tail($old, $new) };
    ($memory:ident exchange TailLock ($old:expr, $new:expr)) => { $memory.exchange_tail_lock($old, $new) };
    ($memory:ident exchange HeadLock ($old:expr, $new:expr)) => { $memory.exchange_head_lock($old, $new) };
    ($memory:ident exchange Next($node:expr) ($old:expr, $new:expr)) => { $memory.exchange_next($node, $old, $new) };
}

// One row: its access, then what the actor does with what was found, and then the number of the step.
macro_rules! made {
    (($memory:ident $now:ident $a:ident $found:ident) $line:ident {$($access:tt)*} {$($then:tt)*}) => {{
        let $found = access!($memory $($access)*);
        let said = { $($then)* };
        settle($now, $a, said)
    }};
}

mod shuts;
mod two_lock;

pub(crate) use shuts::{s1, s2, s3, s4, s5, s6, s7, s8, s9};
pub(crate) use two_lock::{a1, a2, a3, a4, a5, a6, a7, b1, b2, b3, b4, b5, b6};

// A new node, in both queues.

pub(crate) fn n1<const B: u32>(
    memory: &mut MemoryOf<B>,
    setup: Setup,
    now: u64,
    me: u16,
    a: &mut ActorOf<B>,
) -> Told
    requires { MayStep B setup memory.old.room a.old }
    ensures { Stepped setup now me Line.N1 memory.old a.old memory.new a.new result }
{
    line_table!(N1 (setup me a found) made (memory now a found))
}

pub(crate) fn n2<const B: u32>(
    memory: &mut MemoryOf<B>,
    setup: Setup,
    now: u64,
    me: u16,
    a: &mut ActorOf<B>,
) -> Told
    requires { MayStep B setup memory.old.room a.old }
    ensures { Stepped setup now me Line.N2 memory.old a.old memory.new a.new result }
{
    line_table!(N2 (setup me a found) made (memory now a found))
}

pub(crate) fn n3<const B: u32>(
    memory: &mut MemoryOf<B>,
    setup: Setup,
    now: u64,
    me: u16,
    a: &mut ActorOf<B>,
) -> Told
    requires { MayStep B setup memory.old.room a.old }
    ensures { Stepped setup now me Line.N3 memory.old a.old memory.new a.new result }
{
    line_table!(N3 (setup me a found) made (memory now a found))
}

pub(crate) fn n4<const B: u32>(
    memory: &mut MemoryOf<B>,
    setup: Setup,
    now: u64,
    me: u16,
    a: &mut ActorOf<B>,
) -> Told
    requires { MayStep B setup memory.old.room a.old }
    ensures { Stepped setup now me Line.N4 memory.old a.old memory.new a.new result }
{
    line_table!(N4 (setup me a found) made (memory now a found))
}

pub(crate) fn n5<const B: u32>(
    memory: &mut MemoryOf<B>,
    setup: Setup,
    now: u64,
    me: u16,
    a: &mut ActorOf<B>,
) -> Told
    requires { MayStep B setup memory.old.room a.old }
    ensures { Stepped setup now me Line.N5 memory.old a.old memory.new a.new result }
{
    line_table!(N5 (setup me a found) made (memory now a found))
}

// A node goes to the free list, in both queues.

#[tactic(auto, unfolding(crate::specs::Steps::outcome_on), using(crate::proofs::Freeing::aside_numbered))]
pub(crate) fn f1<const B: u32>(
    memory: &mut MemoryOf<B>,
    setup: Setup,
    now: u64,
    me: u16,
    a: &mut ActorOf<B>,
) -> Told
    requires { MayStep B setup memory.old.room a.old }
    ensures { Stepped setup now me Line.F1 memory.old a.old memory.new a.new result }
{
    line_table!(F1 (setup me a found) made (memory now a found))
}

pub(crate) fn f2<const B: u32>(
    memory: &mut MemoryOf<B>,
    setup: Setup,
    now: u64,
    me: u16,
    a: &mut ActorOf<B>,
) -> Told
    requires { MayStep B setup memory.old.room a.old }
    ensures { Stepped setup now me Line.F2 memory.old a.old memory.new a.new result }
{
    line_table!(F2 (setup me a found) made (memory now a found))
}

#[tactic(auto, unfolding(crate::specs::Steps::outcome_on), using(crate::proofs::Freeing::freed_numbered))]
pub(crate) fn f3<const B: u32>(
    memory: &mut MemoryOf<B>,
    setup: Setup,
    now: u64,
    me: u16,
    a: &mut ActorOf<B>,
) -> Told
    requires { MayStep B setup memory.old.room a.old }
    ensures { Stepped setup now me Line.F3 memory.old a.old memory.new a.new result }
{
    line_table!(F3 (setup me a found) made (memory now a found))
}

// The enqueue of the non-blocking queue.

pub(crate) fn e2<const B: u32>(
    memory: &mut MemoryOf<B>,
    setup: Setup,
    now: u64,
    me: u16,
    a: &mut ActorOf<B>,
) -> Told
    requires { MayStep B setup memory.old.room a.old }
    ensures { Stepped setup now me Line.E2 memory.old a.old memory.new a.new result }
{
    line_table!(E2 (setup me a found) made (memory now a found))
}

pub(crate) fn e3<const B: u32>(
    memory: &mut MemoryOf<B>,
    setup: Setup,
    now: u64,
    me: u16,
    a: &mut ActorOf<B>,
) -> Told
    requires { MayStep B setup memory.old.room a.old }
    ensures { Stepped setup now me Line.E3 memory.old a.old memory.new a.new result }
{
    line_table!(E3 (setup me a found) made (memory now a found))
}

pub(crate) fn e5<const B: u32>(
    memory: &mut MemoryOf<B>,
    setup: Setup,
    now: u64,
    me: u16,
    a: &mut ActorOf<B>,
) -> Told
    requires { MayStep B setup memory.old.room a.old }
    ensures { Stepped setup now me Line.E5 memory.old a.old memory.new a.new result }
{
    line_table!(E5 (setup me a found) made (memory now a found))
}

pub(crate) fn e6<const B: u32>(
    memory: &mut MemoryOf<B>,
    setup: Setup,
    now: u64,
    me: u16,
    a: &mut ActorOf<B>,
) -> Told
    requires { MayStep B setup memory.old.room a.old }
    ensures { Stepped setup now me Line.E6 memory.old a.old memory.new a.new result }
{
    line_table!(E6 (setup me a found) made (memory now a found))
}

pub(crate) fn e7<const B: u32>(
    memory: &mut MemoryOf<B>,
    setup: Setup,
    now: u64,
    me: u16,
    a: &mut ActorOf<B>,
) -> Told
    requires { MayStep B setup memory.old.room a.old }
    ensures { Stepped setup now me Line.E7 memory.old a.old memory.new a.new result }
{
    line_table!(E7 (setup me a found) made (memory now a found))
}

pub(crate) fn e9<const B: u32>(
    memory: &mut MemoryOf<B>,
    setup: Setup,
    now: u64,
    me: u16,
    a: &mut ActorOf<B>,
) -> Told
    requires { MayStep B setup memory.old.room a.old }
    ensures { Stepped setup now me Line.E9 memory.old a.old memory.new a.new result }
{
    line_table!(E9 (setup me a found) made (memory now a found))
}

pub(crate) fn e13<const B: u32>(
    memory: &mut MemoryOf<B>,
    setup: Setup,
    now: u64,
    me: u16,
    a: &mut ActorOf<B>,
) -> Told
    requires { MayStep B setup memory.old.room a.old }
    ensures { Stepped setup now me Line.E13 memory.old a.old memory.new a.new result }
{
    line_table!(E13 (setup me a found) made (memory now a found))
}

pub(crate) fn e17<const B: u32>(
    memory: &mut MemoryOf<B>,
    setup: Setup,
    now: u64,
    me: u16,
    a: &mut ActorOf<B>,
) -> Told
    requires { MayStep B setup memory.old.room a.old }
    ensures { Stepped setup now me Line.E17 memory.old a.old memory.new a.new result }
{
    line_table!(E17 (setup me a found) made (memory now a found))
}

// The dequeue of the non-blocking queue.

pub(crate) fn d2<const B: u32>(
    memory: &mut MemoryOf<B>,
    setup: Setup,
    now: u64,
    me: u16,
    a: &mut ActorOf<B>,
) -> Told
    requires { MayStep B setup memory.old.room a.old }
    ensures { Stepped setup now me Line.D2 memory.old a.old memory.new a.new result }
{
    line_table!(D2 (setup me a found) made (memory now a found))
}

pub(crate) fn d3<const B: u32>(
    memory: &mut MemoryOf<B>,
    setup: Setup,
    now: u64,
    me: u16,
    a: &mut ActorOf<B>,
) -> Told
    requires { MayStep B setup memory.old.room a.old }
    ensures { Stepped setup now me Line.D3 memory.old a.old memory.new a.new result }
{
    line_table!(D3 (setup me a found) made (memory now a found))
}

pub(crate) fn d4<const B: u32>(
    memory: &mut MemoryOf<B>,
    setup: Setup,
    now: u64,
    me: u16,
    a: &mut ActorOf<B>,
) -> Told
    requires { MayStep B setup memory.old.room a.old }
    ensures { Stepped setup now me Line.D4 memory.old a.old memory.new a.new result }
{
    line_table!(D4 (setup me a found) made (memory now a found))
}

pub(crate) fn d5<const B: u32>(
    memory: &mut MemoryOf<B>,
    setup: Setup,
    now: u64,
    me: u16,
    a: &mut ActorOf<B>,
) -> Told
    requires { MayStep B setup memory.old.room a.old }
    ensures { Stepped setup now me Line.D5 memory.old a.old memory.new a.new result }
{
    line_table!(D5 (setup me a found) made (memory now a found))
}

pub(crate) fn d10<const B: u32>(
    memory: &mut MemoryOf<B>,
    setup: Setup,
    now: u64,
    me: u16,
    a: &mut ActorOf<B>,
) -> Told
    requires { MayStep B setup memory.old.room a.old }
    ensures { Stepped setup now me Line.D10 memory.old a.old memory.new a.new result }
{
    line_table!(D10 (setup me a found) made (memory now a found))
}

pub(crate) fn d12<const B: u32>(
    memory: &mut MemoryOf<B>,
    setup: Setup,
    now: u64,
    me: u16,
    a: &mut ActorOf<B>,
) -> Told
    requires ready { MayStep B setup memory.old.room a.old }
    requires node { a.old.next.node ≤ memory.old.room }
    ensures { Stepped setup now me Line.D12 memory.old a.old memory.new a.new result }
{
    line_table!(D12 (setup me a found) made (memory now a found))
}

pub(crate) fn d13<const B: u32>(
    memory: &mut MemoryOf<B>,
    setup: Setup,
    now: u64,
    me: u16,
    a: &mut ActorOf<B>,
) -> Told
    requires { MayStep B setup memory.old.room a.old }
    ensures { Stepped setup now me Line.D13 memory.old a.old memory.new a.new result }
{
    line_table!(D13 (setup me a found) made (memory now a found))
}
