//! What feeds a pool.
ghost use Rattle.std.specs.Prelude.{◌≡◌, ◌∷◌, [], ◌++◌, List, Result, None};
ghost use Rattle.tasks.specs.declared.answers.Done.{Done};
ghost use Rattle.tasks.specs.Feeds.{StandsAfter};

use crate::answers::Done;
use crate::runs::Task;

/// What gives a pool its tasks, one by one as the pool has room for them, and is told the result of each as it comes. Both are
/// called in the caller's thread, so a result may make further tasks.
pub trait Feed<T: Task>: Drop {
    // It stands so after it gave these tasks, in order, and was told these results.
    ghost stands: { Self → List T → List (Done (Result T.Output T.Error)) → Type 0 };

    // What it keeps in each of its calls: so what it began with is known of it at the end.
    ghost Kept: { Type 0 };

    ghost kept: { Self → Kept };

    // It has no task until another result is told.
    ghost idle: { Self → Type 0 };

    /// The next task; none where there is none until another result is told, and for good where none is to come.
    ///
    /// ```rust
    /// fn next(&mut self) -> Option<Page> {
    ///     self.found.pop()
    /// }
    /// ```
    fn next(&mut self) -> Option<T>
        //= tasks/feed (stands, kept, idle): What its type says of a feed, by the tasks that it gave and the results that it
        //=   was told, is so after each of its calls; these leave what it keeps, its `kept`, as it is. One that gives no
        //=   task is idle.
        ensures stands { (given : List T) (told : List (Done (Result T.Output T.Error)))
            → stands self.old given told → StandsAfter (stands self.new) given told result }
        ensures kept { kept self.new ≡ kept self.old }
        ensures idle { result ≡ None → idle self.new };

    /// Takes the result of a task: its number tells which, in the order in which they were given, from 0 on.
    ///
    /// ```rust
    /// fn tell(&mut self, done: Done<Result<Links, Broken>>) {
    ///     if let Ok(links) = done.answer {
    ///         self.found.extend(links);
    ///     }
    /// }
    /// ```
    fn tell(&mut self, done: Done<Result<T::Output, T::Error>>)
        //= tasks/feed (stands, kept)
        ensures stands { (given : List T) (told : List (Done (Result T.Output T.Error)))
            → stands self.old given told → stands self.new given (told ++ done ∷ []) }
        ensures kept { kept self.new ≡ kept self.old };
}
