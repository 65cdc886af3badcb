//! Runs of the two-lock queue.
ghost use Rattle.worked_runs.specs.Seen.{Shows, GoesThrough};
ghost use Rattle.worked_runs.specs.TwoLockRuns.{empty, first_run, lines_of_first_run, lock_held, lock_waited_for, tail_behind, stopped_holder, worn_head};

/// Each run's moves can be made, and lead to the history and the words written down for it.
pub fn two_lock_runs()
    //= judge/runs (*)
    ensures empty { Shows empty }
    ensures first_run { Shows first_run }
    ensures lines_of_first_run { GoesThrough first_run lines_of_first_run }
    ensures lock_held { Shows lock_held }
    ensures lock_waited_for { Shows lock_waited_for }
    ensures tail_behind { Shows tail_behind }
    ensures stopped_holder { Shows stopped_holder }
    ensures worn_head { Shows worn_head }
{}
