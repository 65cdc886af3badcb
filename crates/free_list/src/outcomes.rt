//! What a line leads to, by the words of the table's third column.
ghost use Rattle.std.specs.Prelude.{◌≡◌};
ghost use Rattle.history.specs.declared.refusals.Refusal.TheVariants.{WornOut, Closed};
ghost use Rattle.node_arena.specs.Machine as machine;

use history::{Refusal, WornWord};
use line_table::{Kind, Line};

/// What a running call is told.
#[derive(Clone, Copy)]
pub enum Reply {
    /// The body was pushed, the queue was shut, or the node is free or set aside.
    Done,
    /// The value of this word.
    Value(u64),
    Empty,
    Refused(Refusal),
}

/// What a line leads to.
#[derive(Clone, Copy)]
pub enum RowOutcome<A: Copy> {
    /// The call goes on at a line, with these registers.
    Goes(Line, A),
    /// The call ends.
    Ends(Reply),
}

#[inline(always)]
pub fn goes<A: Copy>(line: Line, a: A) -> RowOutcome<A>
    ensures { result ≡ RowOutcome.Goes line a }
{
    RowOutcome::Goes(line, a)
}

#[inline(always)]
pub fn ends<A: Copy>(reply: Reply, _: A) -> RowOutcome<A>
    ensures { result ≡ RowOutcome.Ends reply }
{
    RowOutcome::Ends(reply)
}

/// A word is worn out.
#[inline(always)]
pub fn worn<A: Copy>(word: WornWord, a: A) -> RowOutcome<A>
    ensures { result ≡ RowOutcome.Ends (Reply.Refused (WornOut word)) }
{
    ends(Reply::Refused(Refusal::WornOut(word)), a)
}

/// The queue is shut.
#[inline(always)]
pub fn closed<A: Copy>(a: A) -> RowOutcome<A>
    ensures { result ≡ RowOutcome.Ends (Reply.Refused Closed) }
{
    ends(Reply::Refused(Refusal::Closed), a)
}

/// The node in hand is free or set aside: what frees a node is a call of its own.
#[inline(always)]
pub fn frees<A: Copy>(_: Kind, a: A) -> RowOutcome<A>
    ensures { result ≡ RowOutcome.Ends Reply.Done }
{
    ends(Reply::Done, a)
}

/// The line at which a push begins that has its node.
#[inline(always)]
pub fn with_node(kind: Kind) -> Line
    ensures { result ≡ machine.with_node kind }
{
    match kind {
        Kind::NonBlocking => Line::E2,
        Kind::TwoLock => Line::A1,
    }
}

/// The same.
#[inline(always)]
pub fn same<X: Copy>(x: X) -> X
    ensures { result ≡ x }
{
    x
}
