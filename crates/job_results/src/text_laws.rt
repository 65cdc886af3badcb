//! Laws of texts of jobs, each the contract of a function that does nothing.
ghost use Rattle.std.specs.Prelude.{◌≡◌, ◌≢◌, ℕ, List};
ghost use Rattle.history.specs.declared.text_causes.TextCause.{TextCause};
ghost use Rattle.job_results.specs.JobTexts.{SaidJob, jobs_text, AreJobsInRange, HasFirstFault};

/// A text is that of one list of jobs in range at most.
#[tactic(auto, using(crate::proofs::OneJobText::one_list_of_jobs))]
pub fn a_text_is_of_one_list_of_jobs()
    //= texts/one_reading
    ensures { (a b : List SaidJob) → AreJobsInRange a → AreJobsInRange b
        → jobs_text a ≡ jobs_text b → a ≡ b }
{}

/// The first faulty line of a text is one, and wrong for one cause; the text of jobs in range has none.
pub fn a_text_has_one_first_fault()
    //= texts/one_reading (one, none)
    ensures one { (text : List ℕ) (m n : ℕ) (c d : TextCause)
        → HasFirstFault text m c → HasFirstFault text n d → (m ≡ n) × (c ≡ d) }
    ensures none { (jobs : List SaidJob) (n : ℕ) (c : TextCause)
        → AreJobsInRange jobs → ¬ HasFirstFault (jobs_text jobs) n c }
{}

/// Every text is that of jobs in range or has a first faulty line: it can't be that it is neither.
#[tactic(auto, using(crate::proofs::OneJobText::not_neither_of_jobs))]
pub fn a_text_is_of_jobs_or_faulty()
    //= texts/one_reading
    ensures { (text : List ℕ)
        → ((jobs : List SaidJob) → AreJobsInRange jobs → text ≢ jobs_text jobs)
        → ¬ ((n : ℕ) (c : TextCause) → ¬ HasFirstFault text n c) }
{}
