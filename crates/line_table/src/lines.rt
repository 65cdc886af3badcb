//! The two queues, the lines that have a step, and the sections of their table.
ghost use Rattle.std.specs.Prelude.{◌≡◌, ◌≢◌, ◌↔◌, IsNone, IfSome};
ghost use Rattle.std.specs.List.{find};
ghost use Rattle.std.specs.Str.{bytes_eq};
ghost use Rattle.line_table.specs.declared.lines.Line.{Line};
ghost use Rattle.line_table.specs.Names.{name_of};
ghost use Rattle.line_table.specs.Sections.{section_of};

use crate::line_table;

/// Which queue a machine runs.
#[derive(Clone, Copy, Debug, PartialEq, Eq)]
pub enum Kind {
    /// The two-lock queue.
    TwoLock,
    /// The non-blocking queue.
    NonBlocking,
}

/// The lines of both queues that have a step.
#[derive(Clone, Copy, Debug, PartialEq, Eq)]
pub enum Line {
    N1,
    N2,
    N3,
    N4,
    N5,
    F1,
    F2,
    F3,
    E2,
    E3,
    E5,
    E6,
    E7,
    E9,
    E13,
    E17,
    D2,
    D3,
    D4,
    D5,
    D10,
    D12,
    D13,
    A1,
    A2,
    A3,
    A4,
    A5,
    A6,
    A7,
    B1,
    B2,
    B3,
    B4,
    B5,
    B6,
    S1,
    S2,
    S3,
    S4,
    S5,
    S6,
    S7,
    S8,
    S9,
}

/// The sections of the line table.
#[derive(Clone, Copy, Debug, PartialEq, Eq)]
pub enum Section {
    /// An enqueue gets a node, in both queues.
    NewNode,
    /// A node goes to the free list, in both queues.
    Free,
    /// The enqueue of the non-blocking queue.
    Enqueue,
    /// The dequeue of the non-blocking queue.
    Dequeue,
    /// The enqueue of the two-lock queue.
    LockedEnqueue,
    /// The dequeue of the two-lock queue.
    LockedDequeue,
    /// The shut of the non-blocking queue.
    Shut,
    /// The shut of the two-lock queue.
    LockedShut,
}

// An array of the lines.
macro_rules! listed {
    (() $($name:ident)*) => {
        [$(Line::$name),*]
    };
}

// A match of a line with an arm for each name.
macro_rules! names {
    (($line:expr) $($name:ident)*) => {
        match $line {
            $(Line::$name => stringify!($name),)*
        }
    };
}

// A match of a line with an arm for each section, gathered from the sections still to come.
macro_rules! sections {
    (@next $line:ident [$($arms:tt)*] []) => {
        match $line {
            $($arms)*
        }
    };
    (@next $line:ident $arms:tt [$section:ident $variant:ident $($rest:tt)*]) => {
        line_table!(sections ($line $arms $variant [$($rest)*]) [$section])
    };
    (($line:ident [$($arms:tt)*] $variant:ident $rest:tt) $($name:ident)*) => {
        sections!(@next $line [$($arms)* $(Line::$name)|* => Section::$variant,] $rest)
    };
}

impl Line {
    /// Every line, in the order of the table.
    pub const ALL: [Line; 45] =
        line_table!(listed () [new_node free enqueue dequeue locked_enqueue locked_dequeue shut locked_shut]);

    /// The name of the line. Takes no memory.
    pub fn name(self) -> &'static str
        //= references/line_names
        ensures { result.now ≡ name_of self }
    {
        line_table!(names (self) [new_node free enqueue dequeue locked_enqueue locked_dequeue shut locked_shut])
    }

    /// The section of the table in which the line stands. Takes no memory.
    pub fn section(self) -> Section
        ensures { result ≡ section_of self }
    {
        let line = self;
        sections!(@next line [] [
            new_node NewNode
            free Free
            enqueue Enqueue
            dequeue Dequeue
            locked_enqueue LockedEnqueue
            locked_dequeue LockedDequeue
            shut Shut
            locked_shut LockedShut
        ])
    }

    /// The line of this name, or none where no line has it. Takes no memory.
    pub fn of_name(name: &[u8]) -> Option<Line>
        //= references/line_names (exact, found, none)
        ensures exact { (line : Line) → (result ≡ Some line) ↔ (name.now ≡ name_of line) }
        ensures found { IfSome result (λ line. name.now ≡ name_of line) }
        ensures none { IsNone result → (line : Line) → name.now ≢ name_of line }
    {
        first_named(&Line::ALL, name)
    }
}

// The first of these lines that has this name.
fn first_named(lines: &[Line], name: &[u8]) -> Option<Line>
    ensures { result ≡ find (λ line. bytes_eq (name_of line) name.now) lines.now }
{
    lines
        .iter()
        .copied()
        .find(|line| line.name().as_bytes() == name)
}
