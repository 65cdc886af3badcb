//! What an answer of a recording's history says of the recording, and its lines, as contracts of functions that do nothing.
ghost use Rattle.std.specs.Prelude.{◌≡◌, ◌↔◌, ◌<◌, ℕ, List, All, length};
ghost use Rattle.history.specs.declared.operations.Stamped.{Stamped};
ghost use Rattle.history.specs.declared.operations.Verdict.TheVariants.{Yes};
ghost use Rattle.history.specs.History.{verdict};
ghost use Rattle.placing.specs.declared.answers.Reason.{Reason};
ghost use Rattle.placing.specs.Reasons.{IsReason};
ghost use Rattle.waiting_orders.specs.Waiting.{IsOfQueue};
ghost use Rattle.placing.specs.SpreadStamps.{IsSpread};
ghost use Rattle.recording_text.specs.Recordings.{Recorded};
ghost use Rattle.recording_text.specs.Numbers.{history_of};
ghost use Rattle.recording_text.specs.RecordingLines.{recording_text, IsRecordingInRange};
ghost use Rattle.recording_text.specs.HeldTexts.{longer};
ghost use Rattle.place_engine.specs.Given.{header_of};
ghost use Rattle.place_engine.specs.FoundTexts.{place_of};
ghost use Rattle.place_engine.specs.GivenParts.{given_part};
ghost use Rattle.place_engine.specs.HeldTexts.{IsOfHoldingQueue, HasPointsFrom};
ghost use Rattle.place_engine.specs.OfTexts.{IsOfTextQueue};
ghost use Rattle.place_engine.specs.WhyTexts.{lines_in, lines_of_recording, places_of, IsPlaceIn};

/// A recording is one of a queue of texts exactly where the history that it stands for is one of a queue.
pub fn a_recording_is_of_a_queue_as_its_history_is()
    //= program/recorded: A recording is one of a queue of texts exactly where the history that it stands for is one of
    //=   a queue.
    ensures { (rs : List Recorded) → IsOfTextQueue rs ↔ IsOfQueue (history_of rs) }
{}

/// The lines of a recording are two and then those of its operations, in their order; and each operation of a reason that is so
/// is one of the list. So none of its lines is left out.
pub fn each_operation_of_a_reason_has_its_line()
    //= program/why_lines (lines, header, stands): Behind its first two lines a recording has those of its operations, in their
    //=   order, and each operation of a reason is one of the list: none of its lines is left out.
    ensures lines { (rs : List Recorded) → IsRecordingInRange rs
        → lines_in (recording_text rs) ≡ lines_of_recording rs }
    ensures header { (rs : List Recorded) → header_of (recording_text rs) ≡ 2 }
    ensures stands { (ops : List Stamped) (reason : Reason) → IsReason ops reason
        → All (IsPlaceIn ops) (places_of reason) }
{}

/// A recording is one of a queue that holds texts at the start exactly where its longer one, which pushes them first, is one of a
/// queue; a reason of that is of an operation of the recording, and none of what is held.
pub fn a_recording_is_of_a_holding_queue_as_its_longer_one_is()
    //= program/longer (queue, given, points): A recording in range is one of a queue that holds texts at the start exactly where the
    //=   longer one is one of a queue, and a reason of that is of one of the recording's own operations. By points of it that
    //=   `check` judges Yes, the recording has points within its own operations, by which the queue that holds the texts gives
    //=   the replies.
    ensures queue { (held : List (List ℕ)) (rs : List Recorded) → IsRecordingInRange rs
        → IsOfHoldingQueue held rs ↔ IsOfQueue (history_of (longer held rs)) }
    ensures given { (held : List (List ℕ)) (rs : List Recorded) (reason : Reason)
        → IsRecordingInRange rs → IsReason (history_of (longer held rs)) reason
        → length held < place_of reason }
    ensures points { (held : List (List ℕ)) (rs : List Recorded) (new : List Stamped)
        → 0 < length held → IsRecordingInRange rs → IsSpread (history_of (longer held rs)) new
        → verdict new ≡ Yes → HasPointsFrom held rs (given_part (length held) new) }
{}
