//! Laws of the texts of schedules: functions that do nothing, whose contracts are the laws.
ghost use Rattle.std.specs.Prelude.{◌≡◌, ◌≢◌, ℕ, List};
ghost use Rattle.text_io.specs.Grammars.{IsFirstFault};
ghost use Rattle.history.specs.declared.text_causes.TextCause.{TextCause};
ghost use Rattle.schedule_text.specs.Schedules.{Schedule, IsBitsOf};
ghost use Rattle.schedule_text.specs.Texts.{version_due, schedule_lines, schedule_text, IsInRange};

/// No two schedules have one text, where 24 bits hold a node in those of version 1. Takes no memory.
#[tactic(auto, using(crate::proofs::OneText::one_text))]
pub fn a_text_is_one_schedules()
    //= texts/schedule_reading: Texts of schedules have one reading, those of version 1 with 24 bits for a node.
    ensures { (a b : Schedule) → IsBitsOf a.version a.bits → IsBitsOf b.version b.bits
        → schedule_text a ≡ schedule_text b → a ≡ b }
{}

/// The text of a schedule in range has no faulty line. Takes no memory.
pub fn the_text_of_a_schedule_has_no_fault()
    //= texts/schedule_reading
    ensures { (s : Schedule) (at : ℕ) (cause : TextCause) → IsInRange s
        → ¬ IsFirstFault schedule_lines version_due (schedule_text s) at cause }
{}

/// A text has one first faulty line at most, and one cause there. Takes no memory.
pub fn a_text_has_one_first_fault()
    //= texts/schedule_reading
    ensures { (text : List ℕ) (at by : ℕ) (c d : TextCause)
        → IsFirstFault schedule_lines version_due text at c
        → IsFirstFault schedule_lines version_due text by d → (at ≡ by) × (c ≡ d) }
{}

/// Every text is that of a schedule in range or has a first faulty line: it can't be that it is neither. Takes no
/// memory.
pub fn a_text_is_a_schedule_or_faulty()
    //= texts/schedule_reading
    ensures { (text : List ℕ)
        → ((s : Schedule) → IsInRange s → text ≢ schedule_text s)
        → ¬ ((at : ℕ) (cause : TextCause)
        → ¬ IsFirstFault schedule_lines version_due text at cause) }
{}
