//! What is called before and after each job.
ghost use Rattle.std.specs.Prelude.{ℕ};

/// What is called before and after each job, by the thread that does the job. Both calls return.
pub trait Gate {
    // It was told that the number of this job was taken from the queue.
    ghost begun: { Self → ℕ → Type 0 };

    // It was told that the result of this job is there.
    ghost done: { Self → ℕ → Type 0 };

    /// The number of this job was taken from the queue.
    fn before(&self, number: u64)
        ensures { begun self.now number };

    /// The result of this job is there.
    fn after(&self, number: u64)
        requires { begun self.now number }
        ensures { done self.now number };
}
