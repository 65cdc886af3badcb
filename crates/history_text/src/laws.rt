//! Laws of the texts of histories, each the contract of a function that does nothing.
ghost use Rattle.std.specs.Prelude.{◌≡◌, ◌≢◌, ℕ, List};
ghost use Rattle.history.specs.declared.text_causes.TextCause.{TextCause};
ghost use Rattle.history.specs.declared.operations.Stamped.{Stamped};
ghost use Rattle.history_text.specs.HistoryText.{history_text};
ghost use Rattle.history_text.specs.HistoryLines.{IsHistoryInRange, HasFirstFault};

/// A text is that of one history in range at most.
#[tactic(auto, using(crate::proofs::OneReading::one_history))]
pub fn a_text_is_of_one_history()
    //= texts/one_reading: Texts of histories, recordings, jobs and mail have one reading.
    ensures { (a b : List Stamped) → IsHistoryInRange a → IsHistoryInRange b
        → history_text a ≡ history_text b → a ≡ b }
{}

/// The first faulty line of a text is one, and wrong for one cause; the text of a history in range has none.
pub fn a_text_has_one_first_fault()
    //= texts/one_reading (one, none)
    ensures one { (text : List ℕ) (m n : ℕ) (c d : TextCause)
        → HasFirstFault text m c → HasFirstFault text n d → (m ≡ n) × (c ≡ d) }
    ensures none { (ops : List Stamped) (n : ℕ) (c : TextCause)
        → IsHistoryInRange ops → ¬ HasFirstFault (history_text ops) n c }
{}

/// Every text is that of a history in range or has a first faulty line: it can't be that it is neither.
#[tactic(auto, using(crate::proofs::OneReading::not_neither_of_history))]
pub fn a_text_is_a_history_or_faulty()
    //= texts/one_reading
    ensures { (text : List ℕ)
        → ((ops : List Stamped) → IsHistoryInRange ops → text ≢ history_text ops)
        → ¬ ((n : ℕ) (c : TextCause) → ¬ HasFirstFault text n c) }
{}
