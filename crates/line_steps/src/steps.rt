//! One step at a line, on the shared words, its actor and its operation: the function of the line's row.
ghost use Rattle.std.specs.Prelude.{◌≡◌, ◌-◌, ◌<◌, IfSome};
ghost use Rattle.line_steps.specs.Lines.{action};
ghost use Rattle.line_steps.specs.Outcomes.{with_outcome};
ghost use Rattle.line_steps.specs.Ready.{IsCounted, RegistersFit, ReadsFit};
ghost use Rattle.line_steps.specs.PutSteps.{PutStep, PutsDown};
ghost use Rattle.line_steps.specs.Steps.{memory_after, outcome_on};

use crate::actors::{ActorOf, Setup, Told};
use crate::memory::MemoryOf;
use crate::outcomes::put_down;
use crate::rows;
use history::{Reply, Stamped};
use line_table::Line;

// A match of a line with a call of each row's function. What a row told is put down where it was told, before the arms meet:
// most rows tell nothing, and then nothing is carried on.
macro_rules! rows_of {
    ($line:ident $given:tt ($memory:ident $now:ident $operation:ident) $($name:ident $row:ident)*) => {
        match $line {
            $(Line::$name => {
                let told = rows::$row $given;
                put_told($memory, $now, $operation, told)
            })*
        }
    };
}

// Puts down what a row told: a step at the line of that row is then taken, whichever line it is.
#[inline(always)]
#[tactic(auto, unfolding(crate::specs::PutSteps::PutStep))]
fn put_told<const B: u32>(memory: &mut MemoryOf<B>, now: u64, operation: &mut Stamped, told: Told)
    requires { IfSome told.aside (λ n. n - 1 < memory.old.room) }
    ensures { PutsDown now memory.old told operation.old memory.new operation.new }
{
    let _ = put_down(memory, now, operation, told);
}

// Makes the step of a line's row, and puts down what it told.
#[inline(always)]
fn put_at<const B: u32>(
    memory: &mut MemoryOf<B>,
    setup: Setup,
    now: u64,
    me: u16,
    a: &mut ActorOf<B>,
    operation: &mut Stamped,
    line: Line,
)
    requires bits { setup.bits ≡ B }
    requires counted { IsCounted setup }
    requires ready { RegistersFit setup memory.old.room a.old }
    requires reads { ReadsFit line memory.old.room a.old }
    ensures { PutStep setup now me line
        memory.old a.old operation.old memory.new a.new operation.new }
{
    rows_of!(line (memory, setup, now, me, a) (memory now operation)
        N1 n1 N2 n2 N3 n3 N4 n4 N5 n5
        F1 f1 F2 f2 F3 f3
        E2 e2 E3 e3 E5 e5 E6 e6 E7 e7 E9 e9 E13 e13 E17 e17
        D2 d2 D3 d3 D4 d4 D5 d5 D10 d10 D12 d12 D13 d13
        A1 a1 A2 a2 A3 a3 A4 a4 A5 a5 A6 a6 A7 a7
        B1 b1 B2 b2 B3 b3 B4 b4 B5 b5 B6 b6
        S1 s1 S2 s2 S3 s3 S4 s4 S5 s5 S6 s6 S7 s7 S8 s8 S9 s9
    )
}

/// One step at a line. Answers the reply, where the call ends.
///
/// `now` is the step's number and `me` the actor's, from 1 on. The setup's split is that of the
/// memory, and its sizes fit a reference's parts: `size` is at most the greatest node of the split and `limit` at most its
/// greatest count. The actor's registers name nodes for which there is room, their counts are at most `limit`, and `f` is at
/// most `size`. `operation` is told what becomes of it. Takes no memory.
#[tactic(auto, unfolding(crate::specs::PutSteps::PutStep))]
pub fn stepped<const B: u32>(
    memory: &mut MemoryOf<B>,
    setup: Setup,
    now: u64,
    me: u16,
    a: &mut ActorOf<B>,
    operation: &mut Stamped,
    line: Line,
) -> Option<Reply>
    requires bits { setup.bits ≡ B }
    requires counted { IsCounted setup }
    requires ready { RegistersFit setup memory.old.room a.old }
    requires reads { ReadsFit line memory.old.room a.old }
    //= steps/step (actor, operation, reply, memory): A step makes the access of its line's row, and of its actor what
    //=   the row says; its operation is told where it takes effect and its reply, which the step answers.
    ensures actor { a.new ≡ (outcome_on setup now me a.old line memory.old.words).actor }
    ensures operation { operation.new ≡
        with_outcome now (outcome_on setup now me a.old line memory.old.words) operation.old }
    ensures reply { result ≡ (outcome_on setup now me a.old line memory.old.words).reply }
    ensures memory { memory.new ≡
        memory_after (action setup me a.old line) (outcome_on setup now me a.old line memory.old.words) memory.old }
{
    put_at(memory, setup, now, me, a, operation, line);
    operation.reply
}
