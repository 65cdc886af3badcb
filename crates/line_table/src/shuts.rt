//! The rows of a shut, which `line_table!` hands on.

/// The row of a line from S1 to S9, in the form of `line_table!`.
#[macro_export]
macro_rules! shut_rows {
    // The shut of the non-blocking queue.
    (S1 ($setup:ident $me:ident $a:ident $found:ident) $each:ident $given:tt) => {
        $each! { $given S1 { load Tail } {
            $a.tail = $found;
            goes(Line::S2, $a)
        } }
    };
    (S2 ($setup:ident $me:ident $a:ident $found:ident) $each:ident $given:tt) => {
        $each! { $given S2 { load Next($a.tail.node()) } {
            $a.next = $found;
            goes(Line::S3, $a)
        } }
    };
    (S3 ($setup:ident $me:ident $a:ident $found:ident) $each:ident $given:tt) => {
        $each! { $given S3 { load Tail } {
            if $found.same($a.tail) {
                if $a.next.is_null() {
                    goes(Line::S4, $a)
                } else if $a.next.is_shut() {
                    closed($a)
                } else if $a.tail.count() == $setup.limit {
                    worn(WornWord::Tail, $a)
                } else {
                    goes(Line::S5, $a)
                }
            } else {
                goes(Line::S1, $a)
            }
        } }
    };
    (S4 ($setup:ident $me:ident $a:ident $found:ident) $each:ident $given:tt) => {
        $each! { $given S4 { exchange Next($a.tail.node()) ($a.next, raised_end($setup, $a.next)) } {
            if $found.same($a.next) {
                effect(ends(Reply::Done, $a))
            } else {
                goes(Line::S1, $a)
            }
        } }
    };
    (S5 ($setup:ident $me:ident $a:ident $found:ident) $each:ident $given:tt) => {
        $each! { $given S5 { exchange Tail ($a.tail, raised($setup, $a.tail, $a.next.node())) } {
            goes(Line::S1, $a)
        } }
    };
    // The shut of the two-lock queue.
    (S6 ($setup:ident $me:ident $a:ident $found:ident) $each:ident $given:tt) => {
        $each! { $given S6 { exchange TailLock (0, $me) } {
            if $found == 0 {
                goes(Line::S7, $a)
            } else {
                goes(Line::S6, $a)
            }
        } }
    };
    (S7 ($setup:ident $me:ident $a:ident $found:ident) $each:ident $given:tt) => {
        $each! { $given S7 { load Tail } {
            $a.tail = $found;
            goes(Line::S8, $a)
        } }
    };
    (S8 ($setup:ident $me:ident $a:ident $found:ident) $each:ident $given:tt) => {
        $each! { $given S8 { exchange Next($a.tail.node()) (CountedRefOf::new(0, 0), CountedRefOf::shut(0)) } {
            if $found.same(CountedRefOf::new(0, 0)) {
                $a.due = Some(Reply::Done);
                effect(goes(Line::S9, $a))
            } else {
                $a.due = Some(Reply::Refused(Refusal::Closed));
                goes(Line::S9, $a)
            }
        } }
    };
    (S9 ($setup:ident $me:ident $a:ident $found:ident) $each:ident $given:tt) => {
        $each! { $given S9 { store TailLock (0) } {
            left($a)
        } }
    };
}
