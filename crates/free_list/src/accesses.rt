//! The rows of the line table on the words of an arena.

/// One row, as the body of a function: its access, and then its third column.
///
/// `line_table!(N4 (setup me a found) row (arena seat found))` is the row of N4 on the words of `arena`, by `seat`.
#[macro_export]
macro_rules! row {
    (($arena:ident $seat:ident $found:ident) $line:ident {$($access:tt)*} {$($then:tt)*}) => {{
        let $found = $crate::access!($arena $seat $line $($access)*);
        $($then)*
    }};
}

/// One row of a line at which a turn of a call begins, where `failed` turns of it failed before.
///
/// `line_table!(N1 (setup me a found) first_row (arena seat found failed))` is the row of N1.
#[macro_export]
macro_rules! first_row {
    (($arena:ident $seat:ident $found:ident $failed:ident) $line:ident {$($access:tt)*} {$($then:tt)*}) => {{
        let $found = $crate::first_access!($arena $seat $failed $line $($access)*);
        $($then)*
    }};
}

/// The access of a line at which a turn of a call begins, as one step call.
#[macro_export]
macro_rules! first_access {
    ($arena:ident $seat:ident $failed:ident N1 load Fresh) => {
        $crate::load($arena, $seat, Line::N1, $crate::Word::Fresh, $failed) as u32
    };
    ($arena:ident $seat:ident $failed:ident $line:ident exchange $word:ident ($old:expr, $new:expr)) => {
        $crate::exchange($arena, $seat, Line::$line, $crate::Word::$word, $old, u64::from($new), $failed)
    };
    ($arena:ident $seat:ident $failed:ident $line:ident load $word:ident) => {
        $arena.reference($crate::load($arena, $seat, Line::$line, $crate::Word::$word, $failed))
    };
}

/// The access of a line, as one step call. A reference is made of the word found where a row reads one.
#[macro_export]
macro_rules! access {
    // The line at which a push sets out that has its node.
    ($arena:ident $seat:ident $line:ident store Value($node:expr) ($new:expr)) => {
        $crate::store($arena, $seat, Line::$line, $crate::Word::Value($node), $new)
    };
    // The lines of a call that is under way.
    ($arena:ident $seat:ident $line:ident load Value($node:expr)) => {
        $crate::loaded($arena, $seat, Line::$line, $crate::Word::Value($node))
    };
    ($arena:ident $seat:ident $line:ident load $($word:tt)+) => {
        $arena.reference($crate::loaded($arena, $seat, Line::$line, $crate::Word::$($word)+))
    };
    ($arena:ident $seat:ident $line:ident store TailLock ($new:expr)) => {
        $crate::stored($arena, $seat, Line::$line, $crate::Word::TailLock, $new)
    };
    ($arena:ident $seat:ident $line:ident store HeadLock ($new:expr)) => {
        $crate::stored($arena, $seat, Line::$line, $crate::Word::HeadLock, $new)
    };
    ($arena:ident $seat:ident $line:ident store Next($node:expr) ($new:expr)) => {
        $crate::stored($arena, $seat, Line::$line, $crate::Word::Next($node), $arena.word($new))
    };
    ($arena:ident $seat:ident $line:ident store $word:ident ($new:expr)) => {
        $crate::stored($arena, $seat, Line::$line, $crate::Word::$word, $arena.word($new))
    };
    ($arena:ident $seat:ident A2 clear Next($node:expr)) => {
        $crate::cleared($arena, $seat, Line::A2, $crate::Word::Next($node))
    };
    ($arena:ident $seat:ident $line:ident clear Next($node:expr)) => {
        $arena.reference($crate::cleared($arena, $seat, Line::$line, $crate::Word::Next($node)))
    };
    ($arena:ident $seat:ident $line:ident exchange Fresh ($old:expr, $new:expr)) => {
        $crate::exchanged($arena, $seat, Line::$line, $crate::Word::Fresh, u64::from($old), u64::from($new)) as u32
    };
    ($arena:ident $seat:ident $line:ident exchange TailLock ($old:expr, $new:expr)) => {
        $crate::exchanged($arena, $seat, Line::$line, $crate::Word::TailLock, $old, u64::from($new))
    };
    ($arena:ident $seat:ident $line:ident exchange Tail ($old:expr, $new:expr)) => {
        $crate::exchanged($arena, $seat, Line::$line, $crate::Word::Tail, $arena.word($old), $arena.word($new))
    };
    ($arena:ident $seat:ident $line:ident exchange Next($node:expr) ($old:expr, $new:expr)) => {
        $arena.reference($crate::exchanged($arena, $seat, Line::$line, $crate::Word::Next($node), $arena.word($old), $arena.word($new)))
    };
    ($arena:ident $seat:ident $line:ident exchange $word:ident ($old:expr, $new:expr)) => {
        $arena.reference($crate::exchanged($arena, $seat, Line::$line, $crate::Word::$word, $arena.word($old), $arena.word($new)))
    };
}
