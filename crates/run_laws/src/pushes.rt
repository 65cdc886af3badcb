//! Laws of what a push takes, over all moves from a traced world on, and of how many pushes are left. Each is the contract of a
//! function that does nothing.
ghost use Rattle.arena_queue.specs.PushesLeft.{pushes_left};
ghost use Rattle.run_laws.specs.Begun.{OfRuns, EachTakesNodes, TakeNodes, TakeEffect};
ghost use Rattle.run_laws.specs.PushesLeft.{EachLasts, MomentsLast, EachLeftLasts};
ghost use Rattle.run_laws.specs.Again.{FindsFreeUnworn, MeetsFreeUnworn, GiveBackEnds, GreatestIsTwiceAnd};
ghost use Rattle.history.specs.declared.refusals.Refusal.TheVariants.{NoNode};

/// A seat takes at most one node from the free list for each push that it begins.
pub fn each_push_takes_at_most_one_node()
    //= atomics/begun: By the moves that lead on from a traced world each seat takes at most 1 node from the free list for each
    //=   push that it begins among them, and 1 where it had begun one before that had no node yet; and so do all seats
    //=   together. As many pushes take effect at most as begin among them, and as had begun before and not taken effect yet.
    ensures { OfRuns (EachTakesNodes 1 1) }
{}

/// All seats together take at most one for each push that begins.
pub fn pushes_take_at_most_one_node_each()
    //= atomics/begun
    ensures { OfRuns (TakeNodes 1 1) }
{}

/// A push takes effect at most once.
pub fn a_push_takes_effect_at_most_once()
    //= atomics/begun
    ensures { OfRuns (TakeEffect 1 1) }
{}

/// What the counts of Free, Tail and Head in a traced world leave up to the greatest one leaves so many pushes that may begin.
pub fn words_last_while_few_pushes_begin()
    //= atomics/calls: Where the counts of Free, Tail and Head in a traced world leave so many pushes, none of these words is
    //=   worn out after moves among which fewer pushes begin, those included that had begun before and not taken effect yet.
    //=   So it is after what `left` tells, from the traced world on in which Free's count was so.
    ensures { EachLasts 1 pushes_left }
{}

/// The same between two moments of a seat, by the worlds that its run leads to: as at a look of it and at a later one.
pub fn words_last_between_two_moments<T>()
    //= atomics/calls
    ensures { MomentsLast 1 pushes_left T }
{}

/// What `left` tells of a queue are pushes that may begin, from the traced world on in which Free's count was so.
pub fn what_is_left_are_pushes_that_may_begin()
    //= atomics/calls
    ensures { EachLeftLasts 1 }
{}

/// At an odd greatest count no push is refused for want of a node for good: Free isn't worn out then, so right after the next node
/// is given back no push has that cause.
pub fn no_push_lacks_a_node_for_good<T>()
    //= atomics/again (worlds, calls, given, greatest): Where in a traced world of an odd greatest count a push has cause for
    //=   `NoNode`, Free isn't worn out; so in the one in which a refused call met that cause. In the world right after a step
    //=   that gives a node back to the free list no push has that cause. The greatest count of each split is odd.
    ensures worlds { FindsFreeUnworn 1 }
    ensures calls { MeetsFreeUnworn 1 T }
    ensures given { GiveBackEnds NoNode }
    ensures greatest { GreatestIsTwiceAnd 1 }
{}
