//! Words of a table, and what stands in one word.
ghost use Rattle.std.specs.Prelude.{◌≡◌, ◌+◌, ◌-◌, ◌*◌, ◌^◌, ◌<◌, ◌++◌, ◌∷◌, [], slice_set, slice_index_or, vec_len, vec_capacity};
ghost use Rattle.history.specs.Limits.{body_bits};
ghost use Rattle.line_steps.specs.Words as specs;

use history::{Body, Taken};

/// How many words stand before those of the nodes.
pub const FIRST_WORDS: usize = 6;

/// How many numbers the bits of a body can hold.
const BODY_SPAN: u64 = 1 << 48;

/// The word of a value: who pushed it in the high 16 bits, its body in the low 48.
pub fn value_word(value: Taken) -> u64
    ensures word { result ≡ specs.value_word value }
    ensures in_range { value.body < 2 ^ body_bits }
{
    u64::from(value.from) * BODY_SPAN + value.body.number()
}

/// The value of a word: who pushed it stands in the high 16 bits, its body in the low 48.
///
/// Takes no memory.
pub fn value_of(word: u64) -> Taken
    ensures { result ≡ specs.value_of word }
{
    Taken {
        from: (word / BODY_SPAN) as u16,
        body: Body::new(word % BODY_SPAN).unwrap(),
    }
}

/// Where the `next` of a node stands, the node's value behind it. The node 0 is taken for node 1.
pub fn next_place(node: u32) -> usize
    ensures { result ≡ 6 + 2 * (node - 1) }
{
    FIRST_WORDS + 2 * node.saturating_sub(1) as usize
}

/// The word at a place; 0 behind the end.
pub fn word_at(words: &Vec<u64>, place: usize) -> u64
    ensures { result ≡ slice_index_or words.now.items place 0 }
{
    match words.get(place) {
        Some(word) => *word,
        None => 0,
    }
}

/// Writes the word at a place; nothing behind the end.
pub fn set_word(words: &mut Vec<u64>, place: usize, word: u64)
    ensures { words.new.items ≡ slice_set words.old.items place word }
{
    if let Some(old) = words.get_mut(place) {
        *old = word;
    }
}

/// The two words of a blank node more, for which there is room.
pub fn push_blank(words: &mut Vec<u64>)
    requires { vec_len words.old + 1 < vec_capacity words.old }
    ensures { words.new.items ≡ words.old.items ++ 0 ∷ 0 ∷ [] }
{
    let _ = words.push(0);
    let _ = words.push(0);
}
