//! What is told of tasks.

/// The answer of the task of this number.
#[derive(Debug, PartialEq, Eq, Drop)]
pub struct Done<A> {
    pub number: usize,
    pub answer: A,
}

/// What became of a task.
#[derive(Debug, PartialEq, Eq, Drop)]
pub enum Outcome<T, A> {
    /// It was run: this is its answer.
    Answered(A),
    /// It wasn't run: it is handed back.
    Left(T),
}
