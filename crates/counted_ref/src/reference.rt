//! The packed word, and the calls that make, read and raise it.
ghost use Rattle.std.specs.Prelude.{◌≡◌, ◌+◌, ◌^◌, ◌<◌, ◌≤◌, ◌↔◌, Some, IsNone, IfSome};
ghost use Rattle.counted_ref.specs.Ref.{IsSplit, IsRef, count_bits, reserved_node, ref, shut_ref, is_null, is_shut, same_ref, ref_word, ref_of};

use std::marker::Model;

/// The number of a closed end where so many bits hold the node, 16 to 32: all of them are set, and no
/// node has it. Takes no memory.
///
/// ```
/// assert_eq!(shut_node(16), 65_535);
/// ```
pub const fn shut_node(bits: u32) -> u32
    requires { IsSplit bits }
    //= references/greatest: A split's greatest node, number of a closed end and greatest count are 2^B - 2, 2^B - 1 and
    //=   2^(64-B) - 1.
    ensures { result ≡ reserved_node bits }
{
    ((1u64 << bits) - 1) as u32
}

/// The greatest number of a node where so many bits hold it, 16 to 32. Takes no memory.
///
/// ```
/// assert_eq!(most_node(16), 65_534);
/// ```
#[tactic(auto, using(crate::proofs::Words::span_least))]
pub const fn most_node(bits: u32) -> u32
    requires { IsSplit bits }
    //= references/greatest
    ensures { result + 1 ≡ reserved_node bits }
{
    shut_node(bits) - 1
}

/// The greatest count where so many bits hold the node, 16 to 32. Takes no memory.
///
/// ```
/// assert_eq!(most_count(32), 4_294_967_295);
/// ```
pub const fn most_count(bits: u32) -> u64
    requires { IsSplit bits }
    //= references/greatest
    ensures { result + 1 ≡ 2 ^ count_bits bits }
{
    (1 << (64 - bits)) - 1
}

/// The greatest number of a node where 24 bits hold it, 16,777,214.
pub const MOST_NODE: u32 = (1 << 24) - 2;

/// The greatest count where 24 bits hold the node, 1,099,511,627,775.
pub const MOST_COUNT: u64 = (1 << 40) - 1;

/// A counted reference: a node number in the low `B` bits of one word, and a count in the others. `B`
/// is 16 to 32: no call makes a reference of another split.
///
/// Node 0 is null, nodes are 1 to 2^B - 2, and 2^B - 1 is a closed end, behind which nothing is linked
/// any more. Counts are 0 to 2^(64-B) - 1. No call takes memory or waits.
#[derive(Clone, Copy, Debug, PartialEq, Eq)]
pub struct CountedRefOf<const B: u32> {
    word: u64,
}

/// A counted reference with 24 bits for the node, up to 16,777,214, and 40 for the count, up to
/// 1,099,511,627,775.
pub type CountedRef = CountedRefOf<24>;

impl<const B: u32> Model for CountedRefOf<B> {
    ghost use Rattle.std.specs.Prelude.{◌≡◌};
    ghost use Rattle.counted_ref.specs.Ref.{Ref, IsSplit, ref_word, ref_of};
    ghost use Rattle.counted_ref.specs.Splits.{word_back};

    ghost Value = { Ref };

    ghost view = { λ r. ref_of B r.word };

    ghost invariant = { λ r. IsSplit B };

    ghost inverse = { λ r. record { word = ref_word B r } };

    ghost inverse_ok = { λ a h. λ i. record { word = word_back B a.word i } };
}

impl<const B: u32> CountedRefOf<B> {
    /// The reference of this node with this count. The node is at most the `most_node` of the split, and
    /// the count at most its `most_count`. Takes no memory.
    ///
    /// ```
    /// let reference = CountedRef::new(2, 1);
    /// assert_eq!(reference.word(), 16_777_218);
    /// ```
    pub fn new(node: u32, count: u64) -> CountedRefOf<B>
        requires split { IsSplit B }
        requires node { node < reserved_node B }
        requires count { count < 2 ^ count_bits B }
        //= references/made: A counted reference has the node and the count that it was made with.
        ensures { result ≡ ref node count }
    {
        CountedRefOf::packed(node, count)
    }

    /// The closed end with this count, which is at most the `most_count` of the split. Takes no memory.
    ///
    /// ```
    /// assert_eq!(CountedRef::shut(1).word(), 33_554_431);
    /// ```
    pub fn shut(count: u64) -> CountedRefOf<B>
        requires split { IsSplit B }
        requires count { count < 2 ^ count_bits B }
        //= references/closed_end: A closed end has the count that it was made with; a reference is one exactly where
        //=   its node is 2^B - 1.
        ensures { result ≡ shut_ref B count }
    {
        CountedRefOf::packed(shut_node(B), count)
    }

    /// The word with this number in its node bits and this count above them.
    fn packed(node: u32, count: u64) -> CountedRefOf<B>
        requires split { IsSplit B }
        requires node { node < 2 ^ B }
        requires count { count < 2 ^ count_bits B }
        ensures { result ≡ ref node count }
    {
        CountedRefOf {
            word: (count << B) + u64::from(node),
        }
    }

    /// The number of the node, 0 to 2^B - 1; 0 is null, and 2^B - 1 a closed end. Takes no memory.
    ///
    /// ```
    /// assert_eq!(CountedRef::new(2, 1).node(), 2);
    /// ```
    pub fn node(&self) -> u32
        //= references/made (value, range)
        ensures value { result ≡ self.now.node }
        ensures range { result < 2 ^ B }
    {
        (self.word % (1 << B)) as u32
    }

    /// The count, 0 to 2^(64-B) - 1. Takes no memory.
    ///
    /// ```
    /// assert_eq!(CountedRef::new(2, 1).count(), 1);
    /// ```
    pub fn count(&self) -> u64
        //= references/made (value, range)
        ensures value { result ≡ self.now.count }
        ensures range { result < 2 ^ count_bits B }
    {
        self.word >> B
    }

    /// Whether the node is null, whatever the count. Takes no memory.
    ///
    /// ```
    /// assert!(CountedRef::new(0, 1).is_null());
    /// assert!(!CountedRef::new(1, 0).is_null());
    /// ```
    pub fn is_null(&self) -> bool
        //= references/null: A counted reference is null exactly where its node is 0.
        ensures { result ≡ is_null self.now }
    {
        self.node() == 0
    }

    /// Whether this is a closed end, whatever the count. Takes no memory.
    ///
    /// ```
    /// assert!(CountedRef::shut(1).is_shut());
    /// assert!(!CountedRef::new(16_777_214, 1).is_shut());
    /// ```
    pub fn is_shut(&self) -> bool
        //= references/closed_end
        ensures { result ≡ is_shut B self.now }
    {
        self.word % (1 << B) == (1 << B) - 1
    }

    /// The word: the count times 2^B, and the node. Takes no memory.
    ///
    /// ```
    /// assert_eq!(CountedRef::new(2, 1).word(), 16_777_218);
    /// ```
    pub fn word(&self) -> u64
        //= references/word (value, in_range): A reference's word is count times 2^B plus node, and each word is read
        //=   back as these.
        ensures value { result ≡ ref_word B self.now }
        ensures in_range { IsRef B self.now }
    {
        self.word
    }

    /// The reference of a word: some for every word. Takes no memory.
    ///
    /// ```
    /// assert!(CountedRef::from_word(16_777_218) == Some(CountedRef::new(2, 1)));
    /// assert!(CountedRef::from_word(16_777_215) == Some(CountedRef::shut(0)));
    /// ```
    pub fn from_word(word: u64) -> Option<CountedRefOf<B>>
        requires split { IsSplit B }
        //= references/word (value, same_word)
        ensures value { result ≡ Some (ref_of B word) }
        ensures same_word { ref_word B (ref_of B word) ≡ word }
    {
        Some(CountedRefOf { word })
    }

    /// The reference of a word, not in an option. Takes no memory.
    ///
    /// ```
    /// assert!(CountedRef::of_word(16_777_218) == CountedRef::new(2, 1));
    /// ```
    pub fn of_word(word: u64) -> CountedRefOf<B>
        requires split { IsSplit B }
        //= references/word (value, same_word)
        ensures value { result ≡ ref_of B word }
        ensures same_word { ref_word B result ≡ word }
    {
        CountedRefOf { word }
    }

    /// The reference of the node `to` with a count one higher; none exactly where the count is the
    /// limit. `to` is at most the `most_node` of the split, the limit at most its `most_count`, and the
    /// count at most the limit. Takes no memory.
    ///
    /// ```
    /// assert!(CountedRef::new(1, 0).raised(7, 1) == Some(CountedRef::new(7, 1)));
    /// assert!(CountedRef::new(2, 1).raised(7, 1).is_none());
    /// ```
    pub fn raised(&self, to: u32, limit: u64) -> Option<CountedRefOf<B>>
        requires to { to < reserved_node B }
        requires limit { limit < 2 ^ count_bits B }
        requires count { self.now.count ≤ limit }
        //= references/raised (none, value): A raised reference names the node given and has the next count; there is
        //=   none exactly at the limit.
        ensures none { IsNone result ↔ (self.now.count ≡ limit) }
        ensures value { IfSome result (λ r. r ≡ ref to (self.now.count + 1)) }
    {
        let count = self.word >> B;
        if count == limit {
            None
        } else {
            Some(CountedRefOf::new(to, count + 1))
        }
    }

    /// Whether both node and count are those of the other reference. Takes no memory.
    ///
    /// ```
    /// assert!(CountedRef::new(2, 1).same(CountedRef::new(2, 1)));
    /// assert!(!CountedRef::new(2, 1).same(CountedRef::new(2, 0)));
    /// ```
    pub fn same(&self, other: CountedRefOf<B>) -> bool
        //= references/same
        ensures { result ≡ same_ref self.now other.entry }
    {
        self.node() == other.node() && self.count() == other.count()
    }
}
