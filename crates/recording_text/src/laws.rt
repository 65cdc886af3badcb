//! Laws of recordings, each the contract of a function that does nothing.
ghost use Rattle.std.specs.Prelude.{◌≡◌, ◌≢◌, ◌↔◌, ℕ, List, Contains, map};
ghost use Rattle.history.specs.declared.text_causes.TextCause.{TextCause};
ghost use Rattle.history.specs.Linearizability.{IsLinearizable};
ghost use Rattle.recording_text.specs.Recordings.{Recorded, texts_of};
ghost use Rattle.recording_text.specs.Numbers.{known_in, number_in, history_of};
ghost use Rattle.recording_text.specs.RecordingLines.{recording_text, IsRecordingInRange, HasFirstFault};
ghost use Rattle.recording_text.specs.Shapes.{shape_of, numbers_of};
ghost use Rattle.recording_text.specs.HeldTexts.{holding, longer, IsLinearizableFrom};
ghost use Rattle.recording_text.specs.TextQueues.{IsLinearizableRecording};

/// A text is that of one recording in range at most.
#[tactic(auto, using(crate::proofs::OneReading::one_recording))]
pub fn a_text_is_of_one_recording()
    //= texts/one_reading
    ensures { (rs qs : List Recorded) → IsRecordingInRange rs → IsRecordingInRange qs
        → recording_text rs ≡ recording_text qs → rs ≡ qs }
{}

/// The first faulty line of a text is one, and wrong for one cause; the text of a recording in range has none.
pub fn a_text_has_one_first_fault()
    //= texts/one_reading (one, none)
    ensures one { (text : List ℕ) (m n : ℕ) (c d : TextCause)
        → HasFirstFault text m c → HasFirstFault text n d → (m ≡ n) × (c ≡ d) }
    ensures none { (rs : List Recorded) (n : ℕ) (c : TextCause)
        → IsRecordingInRange rs → ¬ HasFirstFault (recording_text rs) n c }
{}

/// Every text is that of a recording in range or has a first faulty line: it can't be that it is neither.
#[tactic(auto, using(crate::proofs::OneReading::not_neither_of_recording))]
pub fn a_text_is_a_recording_or_faulty()
    //= texts/one_reading
    ensures { (text : List ℕ)
        → ((rs : List Recorded) → IsRecordingInRange rs → text ≢ recording_text rs)
        → ¬ ((n : ℕ) (c : TextCause) → ¬ HasFirstFault text n c) }
{}

/// In the history that a recording stands for, two of its texts have one number exactly where they are the same.
#[tactic(auto, using(crate::proofs::Known::number_tells_text))]
pub fn a_number_is_of_one_text()
    //= texts/numbers_of_texts: In a recording's history two texts have one number exactly where they are the same.
    //=   Recordings with one history differ in names and texts alone, and their texts have the same numbers. A
    //=   recording is linearizable, of a queue of texts, exactly where its history is.
    ensures { (rs : List Recorded) (s t : List ℕ) → Contains (texts_of rs) s → Contains (texts_of rs) t
        → (number_in (known_in rs) s ≡ number_in (known_in rs) t) ↔ (s ≡ t) }
{}

/// Two recordings that stand for one history are the same but for names and texts, and their texts have the same numbers.
#[tactic(auto, using(crate::proofs::Shapes::shapes_one, crate::proofs::Shapes::numbers_one))]
pub fn a_history_tells_all_but_names()
    //= texts/numbers_of_texts (shapes, numbers)
    ensures shapes { (rs qs : List Recorded) → history_of rs ≡ history_of qs
        → map shape_of rs ≡ map shape_of qs }
    ensures numbers { (rs qs : List Recorded) → history_of rs ≡ history_of qs
        → numbers_of rs ≡ numbers_of qs }
{}

/// A recording is linearizable exactly where the history is that it stands for.
pub fn a_recording_is_linearizable_as_its_history_is()
    //= texts/numbers_of_texts
    ensures { (rs : List Recorded) → IsLinearizableRecording rs ↔ IsLinearizable (history_of rs) }
{}

/// A recording in range is linearizable from a queue that holds texts exactly where the longer one is that pushes them first.
pub fn a_recording_is_linearizable_as_its_longer_one_is()
    //= texts/holding
    ensures { (held : List (List ℕ)) (rs : List Recorded) → IsRecordingInRange rs
        → IsLinearizableFrom (holding held) rs ↔ IsLinearizableRecording (longer held rs) }
{}
