//! Words of references.
ghost use Rattle.std.specs.Prelude.{◌≡◌};
ghost use Rattle.counted_ref.specs.Ref.{ref, shut_ref, ref_word};

/// The words of node 2 with count 1, and of the closed end with count 1, with 16, 24 and 32 bits for a node.
pub fn words_of_references()
    ensures node_16 { ref_word 16 (ref 2 1) ≡ 65538 }
    ensures node_24 { ref_word 24 (ref 2 1) ≡ 16777218 }
    ensures node_32 { ref_word 32 (ref 2 1) ≡ 4294967298 }
    ensures closed_16 { ref_word 16 (shut_ref 16 1) ≡ 131071 }
    ensures closed_24 { ref_word 24 (shut_ref 24 1) ≡ 33554431 }
    ensures closed_32 { ref_word 32 (shut_ref 32 1) ≡ 8589934591 }
{}
