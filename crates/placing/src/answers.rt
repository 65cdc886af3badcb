//! What is answered of a recorded history: its linearization points, or why there are none.
use history::Stamped;

/// Values of which one is in the queue throughout a span of numbers, whatever the order. Operations are named by
/// their places in the list, from 1.
#[derive(Drop)]
pub enum Held {
    /// A value whose one push ended before the span, and a take of it that began after the span.
    Value { push: u64, take: u64 },
    /// Values that no pop was told. Their pushes, whose places rise, ended before the span, and are more than the
    /// pending pops that began by its end.
    Left(Vec<u64>),
}

/// Numbers from one to another, throughout which one of some values is in the queue.
#[derive(Drop)]
pub struct Span {
    pub first: u64,
    pub last: u64,
    pub held: Held,
}

/// Why a recorded history isn't one of a queue. Operations are named by their places in the list, from 1.
#[derive(Drop)]
pub enum Reason {
    /// It has a last step and no reply, or a reply and no last step.
    Shape { place: u64 },
    /// It ends before it begins.
    Span { place: u64 },
    /// It was told what such a call is never told.
    Reply { place: u64 },
    /// It took a value; by its end more takes of that have ended than pushes of it have begun. The others are such takes
    /// and pushes.
    Sooner { place: u64, others: Vec<u64> },
    /// It took a value, no push of which began before this one. Values pushed before that had to be taken first, and
    /// one of them is still there when it ends.
    Order { place: u64, push: u64, held: Held },
    /// It was told that the queue is empty. At each number from its first step to its last a value is there.
    Full { place: u64, spans: Vec<Span> },
    /// It was told done or empty, which a queue that is shut isn't, and began after the other one ended, which shut the
    /// queue or was told that it is shut. Or it took a value, and each push of that began so late.
    Late { place: u64, other: u64 },
    /// It is a shut that is done, and so is the other one.
    Twice { place: u64, other: u64 },
    /// It was told that the queue is shut. By its end no shut began that wasn't refused.
    Unshut { place: u64 },
    /// It is a pop that was told that the queue is shut, and so empty. A value is there until it ends, pushed before the
    /// shut, since no push has its effect behind that: whenever and however often it was pushed, a take of it began
    /// later; or values that no pop was told, whose pushes ended, are more than the pending pops that began by then.
    Undrained { place: u64, held: Held },
    /// It isn't a push that may have had its effect, and was told what it can't be told by its end: it and the others are
    /// operations of a history that isn't one of a queue.
    Stuck { place: u64, others: Vec<u64> },
}

/// Why it isn't known whether a recorded history is one of a queue.
#[derive(Clone, Copy, Debug, PartialEq, Eq)]
pub enum Unknown {
    /// The states of the search took more room than they may.
    Room,
    /// It is one of a queue, of more than 2,147,483,648 operations, for which no points were found.
    Unplaced,
}

/// What is found of a recorded history.
#[derive(Drop)]
pub enum Placed {
    /// It is one of a queue, and this is it with linearization points, and with other stamps where those given left no
    /// room for points in the order found.
    History(Vec<Stamped>),
    /// It isn't one of a queue.
    Impossible(Reason),
    /// Neither was found.
    Open(Unknown),
}
