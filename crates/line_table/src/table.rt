//! The line table, written once, as rows of tokens that a body turns into what it needs.

/// Hands the row of a line, or the names of the lines of a section, to a macro.
///
/// `line_table!(N4 (setup me a found) each given)` becomes `each! { given N4 {access} {then} }`, the row of N4: the
/// line, its one access of one shared word, and what the actor does with what the access found. The two columns read
/// the identifiers handed in: `setup` (the kind, the number of nodes and the greatest count), `me` (the actor's number),
/// `a` (its registers, which the second column assigns) and `found` (what the access found). All other names are looked
/// up where the macro is used. A row knows no number of its step: `effect` says that the operation takes effect there,
/// and `notes` that it does if the queue turns out to be empty. The rows of S1 to S9 stand in `shut_rows!`.
///
/// `line_table!(each given [section ..])` becomes `each! { given N1 N2 .. }` with the lines of the sections named, in
/// their order. The sections are `new_node`, `free`, `enqueue`, `dequeue`, `locked_enqueue`, `locked_dequeue`, `shut` and
/// `locked_shut`.
#[macro_export]
macro_rules! line_table {
    // A new node, in both queues.
    (N1 ($setup:ident $me:ident $a:ident $found:ident) $each:ident $given:tt) => {
        $each! { $given N1 { load Fresh } {
            $a.f = $found;
            goes(Line::N2, $a)
        } }
    };
    (N2 ($setup:ident $me:ident $a:ident $found:ident) $each:ident $given:tt) => {
        $each! { $given N2 { load Free } {
            $a.top = $found;
            if $a.top.is_null() {
                if $a.f < $setup.size {
                    goes(Line::N5, $a)
                } else {
                    ends(Reply::Refused(Refusal::NoNode), $a)
                }
            } else if $a.top.count() == $setup.limit {
                worn(WornWord::Free, $a)
            } else {
                goes(Line::N3, $a)
            }
        } }
    };
    (N3 ($setup:ident $me:ident $a:ident $found:ident) $each:ident $given:tt) => {
        $each! { $given N3 { load Next($a.top.node()) } {
            $a.next = $found;
            goes(Line::N4, $a)
        } }
    };
    (N4 ($setup:ident $me:ident $a:ident $found:ident) $each:ident $given:tt) => {
        $each! { $given N4 { exchange Free ($a.top, raised($setup, $a.top, $a.next.node())) } {
            if $found.same($a.top) {
                let (node, mark) = ($a.top.node(), $a.next.count());
                $a.fills_hand(node, mark);
                goes(with_node($setup.kind), $a)
            } else {
                goes(Line::N1, $a)
            }
        } }
    };
    (N5 ($setup:ident $me:ident $a:ident $found:ident) $each:ident $given:tt) => {
        $each! { $given N5 { exchange Fresh ($a.f, $a.f + 1) } {
            if $found == $a.f {
                let node = $a.f + 1;
                $a.fills_hand(node, 0);
                goes(with_node($setup.kind), $a)
            } else {
                goes(Line::N1, $a)
            }
        } }
    };
    // A node goes to the free list, in both queues.
    (F1 ($setup:ident $me:ident $a:ident $found:ident) $each:ident $given:tt) => {
        $each! { $given F1 { load Free } {
            $a.top = $found;
            if $found.count() == $setup.limit {
                frees_aside($setup.kind, $a)
            } else {
                goes(Line::F2, $a)
            }
        } }
    };
    (F2 ($setup:ident $me:ident $a:ident $found:ident) $each:ident $given:tt) => {
        $each! { $given F2 { store Next($a.node) (CountedRefOf::new($a.top.node(), $a.mark)) } {
            goes(Line::F3, $a)
        } }
    };
    (F3 ($setup:ident $me:ident $a:ident $found:ident) $each:ident $given:tt) => {
        $each! { $given F3 { exchange Free ($a.top, raised($setup, $a.top, $a.node)) } {
            if $found.same($a.top) {
                frees($setup.kind, $a)
            } else {
                goes(Line::F1, $a)
            }
        } }
    };
    // The enqueue of the non-blocking queue.
    (E2 ($setup:ident $me:ident $a:ident $found:ident) $each:ident $given:tt) => {
        $each! { $given E2 { store Value($a.node) ($a.val) } {
            goes(Line::E3, $a)
        } }
    };
    (E3 ($setup:ident $me:ident $a:ident $found:ident) $each:ident $given:tt) => {
        $each! { $given E3 { clear Next($a.node) } {
            $a.mark = $found.count();
            if $a.mark == $setup.limit {
                worn_aside(WornWord::Next, $a)
            } else {
                goes(Line::E5, $a)
            }
        } }
    };
    (E5 ($setup:ident $me:ident $a:ident $found:ident) $each:ident $given:tt) => {
        $each! { $given E5 { load Tail } {
            $a.tail = $found;
            goes(Line::E6, $a)
        } }
    };
    (E6 ($setup:ident $me:ident $a:ident $found:ident) $each:ident $given:tt) => {
        $each! { $given E6 { load Next($a.tail.node()) } {
            $a.next = $found;
            goes(Line::E7, $a)
        } }
    };
    (E7 ($setup:ident $me:ident $a:ident $found:ident) $each:ident $given:tt) => {
        $each! { $given E7 { load Tail } {
            if $found.same($a.tail) {
                if $a.next.is_null() {
                    goes(Line::E9, $a)
                } else if $a.next.is_shut() {
                    closed_with_node($a)
                } else if $a.tail.count() == $setup.limit {
                    worn_with_node(WornWord::Tail, $a)
                } else {
                    goes(Line::E13, $a)
                }
            } else {
                goes(Line::E5, $a)
            }
        } }
    };
    (E9 ($setup:ident $me:ident $a:ident $found:ident) $each:ident $given:tt) => {
        $each! { $given E9 { exchange Next($a.tail.node()) ($a.next, raised($setup, $a.next, $a.node)) } {
            if $found.same($a.next) {
                $a.links();
                if $a.tail.count() == $setup.limit {
                    effect(ends(Reply::Done, $a))
                } else {
                    effect(goes(Line::E17, $a))
                }
            } else {
                goes(Line::E5, $a)
            }
        } }
    };
    (E13 ($setup:ident $me:ident $a:ident $found:ident) $each:ident $given:tt) => {
        $each! { $given E13 { exchange Tail ($a.tail, raised($setup, $a.tail, $a.next.node())) } {
            goes(Line::E5, $a)
        } }
    };
    (E17 ($setup:ident $me:ident $a:ident $found:ident) $each:ident $given:tt) => {
        $each! { $given E17 { exchange Tail ($a.tail, raised($setup, $a.tail, $a.node)) } {
            ends(Reply::Done, $a)
        } }
    };
    // The dequeue of the non-blocking queue.
    (D2 ($setup:ident $me:ident $a:ident $found:ident) $each:ident $given:tt) => {
        $each! { $given D2 { load Head } {
            $a.head = $found;
            goes(Line::D3, $a)
        } }
    };
    (D3 ($setup:ident $me:ident $a:ident $found:ident) $each:ident $given:tt) => {
        $each! { $given D3 { load Tail } {
            $a.tail = $found;
            goes(Line::D4, $a)
        } }
    };
    (D4 ($setup:ident $me:ident $a:ident $found:ident) $each:ident $given:tt) => {
        $each! { $given D4 { load Next($a.head.node()) } {
            $a.next = $found;
            notes(goes(Line::D5, $a))
        } }
    };
    (D5 ($setup:ident $me:ident $a:ident $found:ident) $each:ident $given:tt) => {
        $each! { $given D5 { load Head } {
            if $found.same($a.head) {
                if $a.head.node() == $a.tail.node() {
                    if $a.next.is_null() {
                        ends(Reply::Empty, $a)
                    } else if $a.next.is_shut() {
                        closed($a)
                    } else if $a.tail.count() == $setup.limit {
                        worn(WornWord::Tail, $a)
                    } else {
                        goes(Line::D10, $a)
                    }
                } else {
                    goes(Line::D12, $a)
                }
            } else {
                goes(Line::D2, $a)
            }
        } }
    };
    (D10 ($setup:ident $me:ident $a:ident $found:ident) $each:ident $given:tt) => {
        $each! { $given D10 { exchange Tail ($a.tail, raised($setup, $a.tail, $a.next.node())) } {
            goes(Line::D2, $a)
        } }
    };
    (D12 ($setup:ident $me:ident $a:ident $found:ident) $each:ident $given:tt) => {
        $each! { $given D12 { load Value($a.next.node()) } {
            $a.val = $found;
            if $a.head.count() == $setup.limit {
                worn(WornWord::Head, $a)
            } else {
                goes(Line::D13, $a)
            }
        } }
    };
    (D13 ($setup:ident $me:ident $a:ident $found:ident) $each:ident $given:tt) => {
        $each! { $given D13 { exchange Head ($a.head, raised($setup, $a.head, $a.next.node())) } {
            if $found.same($a.head) {
                $a.due = Some(Reply::Value($a.val));
                let (node, mark) = ($a.head.node(), $a.next.count());
                $a.fills_hand(node, mark);
                effect(goes(Line::F1, $a))
            } else {
                goes(Line::D2, $a)
            }
        } }
    };
    // The enqueue of the two-lock queue.
    (A1 ($setup:ident $me:ident $a:ident $found:ident) $each:ident $given:tt) => {
        $each! { $given A1 { store Value($a.node) ($a.val) } {
            goes(Line::A2, $a)
        } }
    };
    (A2 ($setup:ident $me:ident $a:ident $found:ident) $each:ident $given:tt) => {
        $each! { $given A2 { clear Next($a.node) } {
            goes(Line::A3, $a)
        } }
    };
    (A3 ($setup:ident $me:ident $a:ident $found:ident) $each:ident $given:tt) => {
        $each! { $given A3 { exchange TailLock (0, $me) } {
            if $found == 0 {
                goes(Line::A4, $a)
            } else {
                goes(Line::A3, $a)
            }
        } }
    };
    (A4 ($setup:ident $me:ident $a:ident $found:ident) $each:ident $given:tt) => {
        $each! { $given A4 { load Tail } {
            $a.tail = $found;
            goes(Line::A5, $a)
        } }
    };
    (A5 ($setup:ident $me:ident $a:ident $found:ident) $each:ident $given:tt) => {
        $each! { $given A5 { exchange Next($a.tail.node()) (CountedRefOf::new(0, 0), CountedRefOf::new($a.node, 0)) } {
            if $found.same(CountedRefOf::new(0, 0)) {
                $a.links();
                effect(goes(Line::A6, $a))
            } else {
                $a.due = Some(Reply::Refused(Refusal::Closed));
                goes(Line::A7, $a)
            }
        } }
    };
    (A6 ($setup:ident $me:ident $a:ident $found:ident) $each:ident $given:tt) => {
        $each! { $given A6 { store Tail (CountedRefOf::new($a.node, 0)) } {
            goes(Line::A7, $a)
        } }
    };
    (A7 ($setup:ident $me:ident $a:ident $found:ident) $each:ident $given:tt) => {
        $each! { $given A7 { store TailLock (0) } {
            left_with_node($a)
        } }
    };
    // The dequeue of the two-lock queue.
    (B1 ($setup:ident $me:ident $a:ident $found:ident) $each:ident $given:tt) => {
        $each! { $given B1 { exchange HeadLock (0, $me) } {
            if $found == 0 {
                goes(Line::B2, $a)
            } else {
                goes(Line::B1, $a)
            }
        } }
    };
    (B2 ($setup:ident $me:ident $a:ident $found:ident) $each:ident $given:tt) => {
        $each! { $given B2 { load Head } {
            $a.head = $found;
            goes(Line::B3, $a)
        } }
    };
    (B3 ($setup:ident $me:ident $a:ident $found:ident) $each:ident $given:tt) => {
        $each! { $given B3 { load Next($a.head.node()) } {
            $a.next = $found;
            if $found.is_null() {
                $a.due = Some(Reply::Empty);
                notes(goes(Line::B6, $a))
            } else if $found.is_shut() {
                $a.due = Some(Reply::Refused(Refusal::Closed));
                notes(goes(Line::B6, $a))
            } else {
                notes(goes(Line::B4, $a))
            }
        } }
    };
    (B4 ($setup:ident $me:ident $a:ident $found:ident) $each:ident $given:tt) => {
        $each! { $given B4 { load Value($a.next.node()) } {
            $a.val = $found;
            if $a.head.count() == $setup.limit {
                $a.due = Some(Reply::Refused(Refusal::WornOut(WornWord::Head)));
                goes(Line::B6, $a)
            } else {
                goes(Line::B5, $a)
            }
        } }
    };
    (B5 ($setup:ident $me:ident $a:ident $found:ident) $each:ident $given:tt) => {
        $each! { $given B5 { store Head (raised($setup, $a.head, $a.next.node())) } {
            $a.due = Some(Reply::Value($a.val));
            let (node, mark) = ($a.head.node(), $a.next.count());
            $a.fills_hand(node, mark);
            effect(goes(Line::B6, $a))
        } }
    };
    (B6 ($setup:ident $me:ident $a:ident $found:ident) $each:ident $given:tt) => {
        $each! { $given B6 { store HeadLock (0) } {
            unlocked($a)
        } }
    };
    // The shuts of both queues.
    ($line:ident ($setup:ident $me:ident $a:ident $found:ident) $each:ident $given:tt) => {
        $crate::shut_rows!($line ($setup $me $a $found) $each $given)
    };
    // The lines of sections.
    ($each:ident $given:tt [$($section:ident)*]) => {
        $crate::line_table!(@names $each $given [$($section)*] [])
    };
    (@names $each:ident $given:tt [] [$($line:ident)*]) => {
        $each! { $given $($line)* }
    };
    (@names $each:ident $given:tt [new_node $($section:ident)*] [$($line:ident)*]) => {
        $crate::line_table!(@names $each $given [$($section)*] [$($line)* N1 N2 N3 N4 N5])
    };
    (@names $each:ident $given:tt [free $($section:ident)*] [$($line:ident)*]) => {
        $crate::line_table!(@names $each $given [$($section)*] [$($line)* F1 F2 F3])
    };
    (@names $each:ident $given:tt [enqueue $($section:ident)*] [$($line:ident)*]) => {
        $crate::line_table!(@names $each $given [$($section)*] [$($line)* E2 E3 E5 E6 E7 E9 E13 E17])
    };
    (@names $each:ident $given:tt [dequeue $($section:ident)*] [$($line:ident)*]) => {
        $crate::line_table!(@names $each $given [$($section)*] [$($line)* D2 D3 D4 D5 D10 D12 D13])
    };
    (@names $each:ident $given:tt [locked_enqueue $($section:ident)*] [$($line:ident)*]) => {
        $crate::line_table!(@names $each $given [$($section)*] [$($line)* A1 A2 A3 A4 A5 A6 A7])
    };
    (@names $each:ident $given:tt [locked_dequeue $($section:ident)*] [$($line:ident)*]) => {
        $crate::line_table!(@names $each $given [$($section)*] [$($line)* B1 B2 B3 B4 B5 B6])
    };
    (@names $each:ident $given:tt [shut $($section:ident)*] [$($line:ident)*]) => {
        $crate::line_table!(@names $each $given [$($section)*] [$($line)* S1 S2 S3 S4 S5])
    };
    (@names $each:ident $given:tt [locked_shut $($section:ident)*] [$($line:ident)*]) => {
        $crate::line_table!(@names $each $given [$($section)*] [$($line)* S6 S7 S8 S9])
    };
}
