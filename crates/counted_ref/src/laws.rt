//! Laws of counted references, each the contract of a function that does nothing.
ghost use Rattle.std.specs.Prelude.{ℕ, ◌≡◌, ◌≤◌, bit_and};
ghost use Rattle.counted_ref.specs.Ref.{Ref, IsSplit, IsRef, count_mask, ref, ref_word};

/// Two references in range that have the same word by a split are the same: in node and in count.
pub fn equal_words_are_of_equal_references()
    //= references/same: Two references are the same exactly where node and count are, and where their words are.
    ensures { (bits : ℕ) (a b : Ref) → IsSplit bits → IsRef bits a → IsRef bits b →
        ref_word bits a ≡ ref_word bits b → a ≡ b }
{}

/// A reference's word with its node bits cleared is the word of null with the same count.
pub fn cleared_node_bits_keep_the_count()
    //= references/cleared: Clearing the node bits of a word leaves null with the same count.
    ensures { (bits : ℕ) (r : Ref) → IsSplit bits → IsRef bits r →
        bit_and (ref_word bits r) (count_mask bits) ≡ ref_word bits (ref 0 r.count) }
{}
