//! Verdicts on histories.
ghost use Rattle.std.specs.Prelude.{◌≡◌};
ghost use Rattle.history.specs.declared.operations.Verdict.TheVariants.{Yes, No};
ghost use Rattle.history.specs.declared.operations.Cause.TheVariants.{Shape, Span, Shared, Reply};
ghost use Rattle.history.specs.History.{verdict};
ghost use Rattle.worked_runs.specs.Verdicts.{late_empty, shared_point, outside_span, wrong_empty, no_reply, no_last, no_point, early_point, unfinished};
ghost use Rattle.worked_runs.specs.Verdicts.{shut_then_drained, overtaken_push, overtaken_shut};
ghost use Rattle.worked_runs.specs.Verdicts.{pushed_after_shut, closed_too_early};

/// The verdict on each history: yes, or its first fault by its number in the list.
pub fn verdicts()
    //= judge/runs (*): The definitions compute to the runs that were worked out by hand.
    ensures late_empty { verdict late_empty ≡ No 1 Reply }
    ensures shared_point { verdict shared_point ≡ No 2 Shared }
    ensures outside_span { verdict outside_span ≡ No 1 Span }
    ensures wrong_empty { verdict wrong_empty ≡ No 2 Reply }
    ensures no_reply { verdict no_reply ≡ No 1 Shape }
    ensures no_last { verdict no_last ≡ No 1 Shape }
    ensures no_point { verdict no_point ≡ No 1 Shape }
    ensures early_point { verdict early_point ≡ No 1 Span }
    ensures unfinished { verdict unfinished ≡ Yes }
    ensures shut_then_drained { verdict shut_then_drained ≡ Yes }
    ensures overtaken_push { verdict overtaken_push ≡ Yes }
    ensures overtaken_shut { verdict overtaken_shut ≡ Yes }
    ensures pushed_after_shut { verdict pushed_after_shut ≡ No 2 Reply }
    ensures closed_too_early { verdict closed_too_early ≡ No 3 Reply }
{}
