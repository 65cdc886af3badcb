//! Laws of numbers, words and grammars, each the contract of a function that does nothing.
ghost use Rattle.std.specs.Prelude.{◌≡◌, ◌↔◌, ℕ, List, ◌∷◌, All};
ghost use Rattle.text_io.specs.Grammars.{Grammar, IsFirstFault, IsSoundGrammar, IsText};
ghost use Rattle.text_io.specs.Lines.{HasNo, spaced, words_of};
ghost use Rattle.text_io.specs.Numerals.{numeral, IsPlain};
ghost use Rattle.history.specs.declared.text_causes.TextCause.{TextCause};

/// A word is a number exactly where it is one digit or more, the first of several not being 0, and it is then one
/// number.
pub fn numbers_are_plain_words()
    //= texts/numbers (plain, one): A number of any length (in range, out of it or none) and a line's words are told
    //=   exactly.
    ensures plain { (word : List ℕ) → IsPlain word ↔ ((n : ℕ) × (word ≡ numeral n)) }
    ensures one { (m n : ℕ) → numeral m ≡ numeral n → m ≡ n }
{}

/// The words of a line with one space between each two are the line, and each list of words without spaces is that of
/// its line.
pub fn words_are_parted_by_single_spaces()
    //= texts/numbers (line, words)
    ensures line { (says : List ℕ) → spaced (words_of says) ≡ says }
    ensures words { (word : List ℕ) (words : List (List ℕ)) → All (HasNo 32) (word ∷ words)
        → words_of (spaced (word ∷ words)) ≡ word ∷ words }
{}

/// A grammar of lines, for the laws below. They hold of each type that has one, and so of every grammar.
pub trait LineGrammar {
    // The states between its lines.
    ghost State: { Type 0 };

    // What its lines say.
    ghost Said: { Type 0 };

    // Whether a line is due, what it may say, which of this is in range, its words, and the state after it.
    ghost grammar: { Grammar State Said };
}

/// Where the words of a line tell what it says, and have no line feed, a text is the lines of one list at most.
pub fn a_text_is_of_one_list<G: LineGrammar>()
    //= texts/every_grammar: Where lines tell by their words what they say, and have no line feed, a text is the lines
    //=   of one list at most, or has one first fault; in every grammar none is neither.
    ensures { (s : G.State) (rs qs : List G.Said) (text : List ℕ) → IsSoundGrammar G.grammar
        → IsText G.grammar s rs text → IsText G.grammar s qs text → rs ≡ qs }
{}

/// There the first faulty line of a text is one, and wrong for one cause, and the lines of a list have none.
pub fn a_text_has_one_first_fault<G: LineGrammar>()
    //= texts/every_grammar (one, none)
    ensures one { (s : G.State) (text : List ℕ) (m n : ℕ) (c d : TextCause) → IsSoundGrammar G.grammar
        → IsFirstFault G.grammar s text m c → IsFirstFault G.grammar s text n d
        → (m ≡ n) × (c ≡ d) }
    ensures none { (s : G.State) (rs : List G.Said) (text : List ℕ) (n : ℕ) (c : TextCause)
        → IsSoundGrammar G.grammar → IsText G.grammar s rs text → ¬ IsFirstFault G.grammar s text n c }
{}

/// In every grammar at all, a text is the lines of a list or has a first faulty line: it can't be that it is neither.
pub fn a_text_is_read_or_faulty<G: LineGrammar>()
    //= texts/every_grammar
    ensures { (s : G.State) (text : List ℕ)
        → ((rs : List G.Said) → ¬ IsText G.grammar s rs text)
        → ¬ ((n : ℕ) (c : TextCause) → ¬ IsFirstFault G.grammar s text n c) }
{}
