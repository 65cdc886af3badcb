//! Laws of what is answered of a recorded history, each the contract of a function that does nothing.
ghost use Rattle.std.specs.Prelude.{◌≡◌, ◌↔◌, ℕ, List, All};
ghost use Rattle.history.specs.declared.operations.Stamped.{Stamped};
ghost use Rattle.history.specs.declared.operations.Verdict.TheVariants.{Yes};
ghost use Rattle.history.specs.History.{verdict};
ghost use Rattle.placing.specs.declared.answers.Reason.{Reason};
ghost use Rattle.waiting_orders.specs.Waiting.{IsOfQueue};
ghost use Rattle.placing.specs.SpreadStamps.{IsSpread, KeepsEachOrder};
ghost use Rattle.placing.specs.Reasons.{IsReason};
ghost use Rattle.placing.specs.declared.marks.Marked.{Marked};
ghost use Rattle.placing.specs.Parts.{all_of, begun, part_of, MayBeOut};

/// Where a history with points is judged `Yes`, and is another one but for stamps spread alike, that one is one of a
/// queue.
pub fn placed_is_linearizable()
    //= judge/recordings: A recorded history is one of a queue (linearizable, of calls that ended exactly where told a
    //=   reply and not before they began) where one judged Yes differs from it in points alone, or also in stamps
    //=   spread alike.
    ensures { (ops new : List Stamped) → IsSpread ops new → verdict new ≡ Yes → IsOfQueue ops }
{}

/// Spread stamps are in the order of those that they were made of, equal exactly where these are, and an operation ended
/// before another one began exactly where it did. So the history with them is one of a queue exactly where the given one is.
pub fn spread_stamps_keep_their_order()
    //= judge/spread (order, object): First numbers that were spread are in the order of those given, equal exactly where
    //=   these are, and so are last ones; one operation ends before another begins exactly where it did. So the history
    //=   with them is one of a queue exactly where the given one is.
    ensures order { (ops new : List Stamped) → IsSpread ops new → KeepsEachOrder ops new }
    ensures object { (ops new : List Stamped) → IsSpread ops new → IsOfQueue ops ↔ IsOfQueue new }
{}

/// Where there is a reason, the history isn't one of a queue, whatever the order and whatever pending operations did.
pub fn a_reason_excludes()
    //= judge/reasons: A recorded history of which a reason holds is not one of a queue, whatever pending operations
    //=   did, and with operations on one number.
    ensures { (ops : List Stamped) (reason : Reason) → IsReason ops reason → ¬ IsOfQueue ops }
{}

/// A history that is one of a queue was one at each number, when what ended later had been told nothing; and each part of it is
/// one that leaves out what may be left out.
pub fn a_part_is_of_a_queue()
    //= judge/parts (begun, left_out): Where a recorded history is one of a queue, so is what began by a number, told nothing
    //=   where it ended later; and so is what is left of it without all pushes and pops of some values, without pushes of
    //=   values that no pop left was told, and without what was refused or found the queue empty.
    ensures begun { (ops : List Stamped) (time : ℕ) → IsOfQueue ops → IsOfQueue (begun time ops) }
    ensures left_out { (marks : List Marked) → All (MayBeOut (part_of marks)) marks
        → IsOfQueue (all_of marks) → IsOfQueue (part_of marks) }
{}
