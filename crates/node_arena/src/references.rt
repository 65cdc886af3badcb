//! An arena packs and unpacks references by its split, so that no call above it speaks of one.
ghost use Rattle.std.specs.Prelude.{◌≡◌};
ghost use Rattle.counted_ref.specs.Ref.{ref_of, ref_word, count_mask, null};

use crate::arena::ArenaOf;
use counted_ref::CountedRefOf;

impl<const B: u32, T> ArenaOf<B, T> {
    ghost use Rattle.node_arena.specs.Seats.{setup_of};

    /// The reference that a word holds. Takes no memory and doesn't wait.
    #[inline(always)]
    pub fn reference(&self, word: u64) -> CountedRefOf<B>
        ensures { result ≡ ref_of (setup_of self.now).bits word }
    {
        let _ = &self.plan;
        CountedRefOf::of_word(word)
    }

    /// The word of a reference. Takes no memory and doesn't wait.
    #[inline(always)]
    pub fn word(&self, of: CountedRefOf<B>) -> u64
        ensures { result ≡ ref_word (setup_of self.now).bits of.entry }
    {
        let _ = &self.plan;
        of.word()
    }

    /// The reference of no node, never counted. Takes no memory and doesn't wait.
    #[tactic(auto, using(counted_ref::proofs::Words::span_least, counted_ref::proofs::Words::count_span_least))]
    #[inline(always)]
    pub fn null(&self) -> CountedRefOf<B>
        ensures { result ≡ null }
    {
        let _ = &self.plan;
        CountedRefOf::new(0, 0)
    }

    /// The word whose bits are those of a count: a fetch_and with it leaves the count of a reference alone. Takes no memory
    /// and doesn't wait.
    #[tactic(auto, using(std::proofs::lemmas::Nat::Bits::ones_shl))]
    #[inline(always)]
    pub fn count_mask(&self) -> u64
        ensures { result ≡ count_mask (setup_of self.now).bits }
    {
        let _ = &self.plan;
        u64::MAX << B
    }
}
