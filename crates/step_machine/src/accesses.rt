//! The shared words by their names, what each holds, which one a step at a line touches, and what the step expects there.
ghost use Rattle.std.specs.Prelude.{◌≡◌, ℕ};
ghost use Rattle.counted_ref.specs.Ref.{IsSplit};
ghost use Rattle.line_steps.specs.declared.actors.Setup.{Setup as SetupValue};
ghost use Rattle.line_steps.specs.Lines.{action};
ghost use Rattle.line_steps.specs.Memory.{word};
ghost use Rattle.step_machine.specs.Accesses.{expected_of, reference_told, word_named};

use counted_ref::CountedRefOf;
use history::Taken;
use line_steps::ActorOf;
use line_table::{Line, line_table};

/// The name of a shared word.
#[derive(Clone, Copy, Debug, PartialEq, Eq)]
pub enum WordName {
    /// How many nodes were ever used.
    Fresh,
    /// The first node of the free list.
    Free,
    /// The dummy, before the first value.
    Head,
    /// The last node, or one that lags it.
    Tail,
    /// The lock of Tail.
    TailLock,
    /// The lock of Head.
    HeadLock,
    /// The `next` of this node.
    Next(u32),
    /// The value of this node.
    Value(u32),
}

/// What a shared word holds.
#[derive(Clone, Copy, Debug, PartialEq, Eq)]
pub enum Contents {
    /// How many nodes were used, or which actor holds a lock, 0 where none does.
    Number(u64),
    /// The node and the count of a reference.
    Reference(u32, u64),
    /// The count of a closed end.
    Closed(u64),
    /// What a node keeps.
    Value(Taken),
}

// The name of the word of a row's access.
macro_rules! name_of_row {
    (() $line:ident { $access:ident Next($node:expr) $($new:tt)* } $then:tt) => { WordName::Next($node) };
    (() $line:ident { $access:ident Value($node:expr) $($new:tt)* } $then:tt) => { WordName::Value($node) };
    (() $line:ident { $access:ident $word:ident $($new:tt)* } $then:tt) => { WordName::$word };
}

// What the access of a row expects to find: the old content of a compare-exchange.
macro_rules! old_of_row {
    (() $line:ident { exchange Fresh ($old:expr, $new:expr) } $then:tt) => { Some(Contents::Number(u64::from($old))) };
    (() $line:ident { exchange TailLock ($old:expr, $new:expr) } $then:tt) => { Some(Contents::Number($old)) };
    (() $line:ident { exchange HeadLock ($old:expr, $new:expr) } $then:tt) => { Some(Contents::Number($old)) };
    (() $line:ident { exchange Next($node:expr) ($old:expr, $new:expr) } $then:tt) => { Some(told::<B>($old)) };
    (() $line:ident { exchange $word:ident ($old:expr, $new:expr) } $then:tt) => { Some(told::<B>($old)) };
    (() $line:ident $access:tt $then:tt) => { None };
}

// A match of a line with what a macro makes of each row.
macro_rules! match_of_rows {
    (($line:ident $given:tt $each:ident) $($name:ident)*) => {
        match $line {
            $(Line::$name => line_table!($name $given $each ()),)*
        }
    };
}

/// The word that a step of an actor at a line touches, which is that of the line's row.
pub(crate) fn word_at<const B: u32>(a: &ActorOf<B>, line: Line) -> WordName
    ensures { (setup : SetupValue) (me : ℕ) → word_named result ≡ word (action setup me a.now line) }
{
    line_table!(match_of_rows (line (setup me a found) name_of_row)
        [new_node free enqueue dequeue locked_enqueue locked_dequeue shut locked_shut])
}

/// What a step of an actor at a line expects to find: the old content of the row's compare-exchange; none where that is another access.
#[tactic(auto, using(counted_ref::proofs::Words::span_least, counted_ref::proofs::Words::count_span_least))]
pub(crate) fn expected_at<const B: u32>(a: &ActorOf<B>, line: Line) -> Option<Contents>
    requires { IsSplit B }
    ensures { (setup : SetupValue) (me : ℕ) → result ≡ expected_of B (action setup me a.now line) }
{
    line_table!(match_of_rows (line (setup me a found) old_of_row)
        [new_node free enqueue dequeue locked_enqueue locked_dequeue shut locked_shut])
}

/// A reference as it is told.
#[inline(always)]
pub(crate) fn told<const B: u32>(reference: CountedRefOf<B>) -> Contents
    ensures { result ≡ reference_told B reference.entry }
{
    if reference.is_shut() {
        Contents::Closed(reference.count())
    } else {
        Contents::Reference(reference.node(), reference.count())
    }
}
