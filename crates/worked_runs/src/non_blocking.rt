//! Runs of the non-blocking queue.
ghost use Rattle.std.specs.Prelude.{[], ◌∷◌};
ghost use Rattle.history.specs.declared.operations.Op.TheVariants.{Deq};
ghost use Rattle.worked_runs.specs.Seen.{Shows, GoesThrough, IsStopped, begin, many, give};
ghost use Rattle.worked_runs.specs.NonBlockingRuns.{no_moves, push, lines_of_push, push_and_pop, lines_of_push_and_pop, reuse_cleared, reuse, lines_of_reuse};
ghost use Rattle.worked_runs.specs.NonBlockingRuns.{empty_queue, reused_node_before, reused_node_lost, reused_node, stale_head, swung_by_a_pop};
ghost use Rattle.worked_runs.specs.NonBlockingRuns.{lines_of_swung_by_a_pop, lagging_tail, old_empty, no_node, worn_free, swing_skipped, worn_tail, value_kept};
ghost use Rattle.worked_runs.specs.NonBlockingRuns.{worn_next, push_given_up, longest_push, longest_pop, worn_counts};

/// Each run's moves can be made, and lead to the history and the words written down for it.
pub fn non_blocking_runs()
    //= judge/runs (*)
    ensures no_moves { Shows no_moves }
    ensures push { Shows push }
    ensures lines_of_push { GoesThrough push lines_of_push }
    ensures push_and_pop { Shows push_and_pop }
    ensures lines_of_push_and_pop { GoesThrough push_and_pop lines_of_push_and_pop }
    ensures reuse_cleared { Shows reuse_cleared }
    ensures reuse { Shows reuse }
    ensures lines_of_reuse { GoesThrough reuse lines_of_reuse }
    ensures empty_queue { Shows empty_queue }
    ensures reused_node_before { Shows reused_node_before }
    ensures reused_node_lost { Shows reused_node_lost }
    ensures reused_node { Shows reused_node }
    ensures stale_head { Shows stale_head }
    ensures swung_by_a_pop { Shows swung_by_a_pop }
    ensures lines_of_swung_by_a_pop { GoesThrough swung_by_a_pop lines_of_swung_by_a_pop }
    ensures lagging_tail { Shows lagging_tail }
    ensures old_empty { Shows old_empty }
    ensures no_node { Shows no_node }
    ensures worn_free { Shows worn_free }
    ensures swing_skipped { Shows swing_skipped }
    ensures worn_tail { Shows worn_tail }
    ensures value_kept { Shows value_kept }
    ensures worn_next { Shows worn_next }
    ensures push_given_up { Shows push_given_up }
    //= both/alone (longest_push, longest_pop)
    ensures longest_push { Shows longest_push }
    ensures longest_pop { Shows longest_pop }
    ensures worn_counts { Shows worn_counts }
{}

/// Moves that can't be made after a run: a step of an idle actor, a begin of one that has a call, a giving up where no
/// turn begins, and a move of an actor that isn't there.
pub fn non_blocking_moves_refused()
    //= judge/runs (*)
    ensures idle { IsStopped push (many 1 1) }
    ensures busy { IsStopped reused_node_before (begin 1 Deq) }
    ensures not_here { IsStopped reused_node_before (give 1) }
    ensures nobody { IsStopped no_moves (begin 3 Deq) }
    ensures number_0 { IsStopped no_moves (begin 0 Deq) }
{}
