//! Laws of what the counts of a queue's words count, over all traced worlds; Head's count is the number of pops, by a law of
//! node_arena. Each is the contract of a function that does nothing.
ghost use Rattle.arena_queue.specs.Counts.{OfTraces, FreeCountsNodes, TailCountsPushes};
ghost use Rattle.arena_queue.specs.PushesLeft.{pushes_left, EachLasts};

/// Free's count is twice the number of the nodes that all seats took from the free list, and the number of those that are in
/// it.
pub fn free_counts_the_nodes_taken()
    //= atomics/counts: In each traced world Free's count is twice the number of nodes that the seats took
    //=   from the free list, by their paths, and the number of those in it; Tail's, in the non-blocking queue, is the
    //=   number of pushes in the history, or of all but the last one. (Head's is the number of pops.)
    ensures { OfTraces (FreeCountsNodes 2) }
{}

/// In the non-blocking queue Tail's count is the number of pushes in the history, or of all but the last one.
pub fn tail_counts_the_pushes()
    //= atomics/counts
    ensures { OfTraces (TailCountsPushes 1) }
{}

/// What the counts of Free, Tail and Head in a traced world leave up to the greatest one leaves so many pushes.
pub fn words_last_for_what_their_counts_leave()
    //= atomics/lasts: Where in a traced world the counts of Free, Tail and Head leave so much up to the greatest one, these
    //=   words last for at least so many pushes: the least of half of what Free's leaves above the number of nodes, of one
    //=   less than what Tail's leaves, and of what Head's leaves above the number of nodes. Neither Tail nor Head is worn out
    //=   in a world whose history goes on from there with fewer pushes, nor Free where fewer nodes more were taken from the
    //=   free list.
    ensures { EachLasts pushes_left }
{}
