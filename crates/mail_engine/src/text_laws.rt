//! Laws of texts of mail, each the contract of a function that does nothing.
ghost use Rattle.std.specs.Prelude.{◌≡◌, ◌≢◌, ℕ, List};
ghost use Rattle.history.specs.declared.text_causes.TextCause.{TextCause};
ghost use Rattle.mail_engine.specs.MailTexts.{SaidLetter, mail_text, IsMailInRange, HasFirstFault};

/// A text is that of one number of senders and one list of letters at most.
#[tactic(auto, using(crate::proofs::MailLines::one_mail))]
pub fn a_text_is_of_one_mail()
    //= texts/one_reading
    ensures { (s t : ℕ) (a b : List SaidLetter) → IsMailInRange s a → IsMailInRange t b
        → mail_text s a ≡ mail_text t b → (s ≡ t) × (a ≡ b) }
{}

/// The first faulty line of a text is one, and wrong for one cause; the text of mail in range has none.
pub fn a_text_has_one_first_fault()
    //= texts/one_reading (one, none)
    ensures one { (text : List ℕ) (m n : ℕ) (c d : TextCause)
        → HasFirstFault text m c → HasFirstFault text n d → (m ≡ n) × (c ≡ d) }
    ensures none { (senders : ℕ) (letters : List SaidLetter) (n : ℕ) (c : TextCause)
        → IsMailInRange senders letters → ¬ HasFirstFault (mail_text senders letters) n c }
{}

/// Every text is that of mail in range or has a first faulty line: it can't be that it is neither.
#[tactic(auto, using(crate::proofs::MailLines::not_neither_of_mail))]
pub fn a_text_is_of_mail_or_faulty()
    //= texts/one_reading
    ensures { (text : List ℕ)
        → ((senders : ℕ) (letters : List SaidLetter) → IsMailInRange senders letters
        → text ≢ mail_text senders letters)
        → ¬ ((n : ℕ) (c : TextCause) → ¬ HasFirstFault text n c) }
{}
