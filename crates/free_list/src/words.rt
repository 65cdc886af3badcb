//! The words of an arena, by name.
ghost use Rattle.std.specs.Prelude.{◌≡◌};
ghost use Rattle.node_arena.specs.Places as places;
ghost use Rattle.free_list.specs.Words.{index_of, HasPlace};

/// A word of an arena.
#[derive(Clone, Copy)]
pub enum Word {
    Fresh,
    Free,
    Head,
    Tail,
    TailLock,
    HeadLock,
    /// What follows a node.
    Next(u32),
    /// The value of a node.
    Value(u32),
}

impl Word {
    /// The index of the word among those of the arena. Takes no memory and doesn't wait.
    #[inline(always)]
    pub fn index(self) -> usize
        ensures { result ≡ index_of self }
    {
        match self {
            Word::Fresh => 0,
            Word::Free => 1,
            Word::Head => 2,
            Word::Tail => 3,
            Word::TailLock => 4,
            Word::HeadLock => 5,
            Word::Next(node) => 4 + 2 * node as usize,
            Word::Value(node) => 5 + 2 * node as usize,
        }
    }

    /// Where the word lies in the arena's table: a word of a node, which is 1 or a later one, is told from the first six by
    /// its name, so nothing is looked up. Takes no memory and doesn't wait.
    #[inline(always)]
    pub fn place(self) -> usize
        requires { HasPlace self }
        ensures { result ≡ places.place (index_of self) }
    {
        match self {
            Word::Fresh => 0,
            Word::Free => 1,
            Word::Head => 16,
            Word::Tail => 32,
            Word::TailLock => 33,
            Word::HeadLock => 17,
            Word::Next(node) => 46 + 2 * node as usize,
            Word::Value(node) => 47 + 2 * node as usize,
        }
    }
}
