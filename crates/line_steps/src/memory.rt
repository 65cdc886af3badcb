//! The shared words in plain memory, and one access of one word.
ghost use Rattle.std.specs.Prelude.{◌≡◌, ◌+◌, ◌-◌, ◌*◌, ◌<◌, ◌≤◌, ◌↔◌, ◌++◌, ◌∷◌, [], length, slice_set, slice_get, slice_index_or, false, Some, None, IsNone, IfOk, IfSome, OnErr, OnOk};
ghost use Rattle.line_steps.specs.Memory.{Fresh, Free, Head, Tail, Tail_lock, Head_lock, Next, Value_of, content, store, exchange, clear, nobody};
ghost use Rattle.line_steps.specs.Rooms.{first_words, aside_after, first_memory, accessed};
ghost use Rattle.line_steps.specs.Rooms as rooms;
ghost use Rattle.line_steps.specs.Words as specs;
ghost use Rattle.counted_ref.specs.Ref.{IsSplit};

use crate::words::{FIRST_WORDS, next_place, push_blank, set_word, value_of, value_word, word_at};
use counted_ref::CountedRefOf;
use history::{Body, Taken};
use std::alloc::{AllocError, Global};
use std::marker::Model;

// The places of the words before those of the nodes.
const FRESH: usize = 0;

const FREE: usize = 1;

const HEAD: usize = 2;

const TAIL: usize = 3;

const TAIL_LOCK: usize = 4;

const HEAD_LOCK: usize = 5;

/// The shared words in one table of numbers, and which nodes were set aside. Nodes that have no room yet are blank.
///
/// The table has Fresh, Free, Head, Tail, the lock of Tail and the lock of Head, and then `next` and value of each node.
/// Nodes are numbered from 1 on. `new` and `grow` take memory; no other call does, and none waits.
#[derive(Drop)]
pub struct MemoryOf<const B: u32> {
    size: u32,
    words: Vec<u64>,
    aside: Vec<bool>,
}

impl<const B: u32> Model for MemoryOf<B> {
    ghost use Rattle.line_steps.specs.Rooms.{Memory as Words};

    ghost Value = { Words };

    ghost use Rattle.line_steps.specs.Stored.{memory, StoredInvariant};

    ghost view = { memory B };

    ghost invariant = { StoredInvariant B };
}

/// The value of nobody, which a node holds before it is used. Takes no memory.
pub fn nobody_value() -> Taken
    ensures { result ≡ nobody }
{
    Taken {
        from: 0,
        body: Body::new(0).unwrap(),
    }
}

fn set_flag(aside: &mut Vec<bool>, node: Option<u32>)
    ensures { aside.new.items ≡ aside_after aside.old.items node }
{
    if let Some(node) = node {
        if let Some(flag) = aside.get_mut(node.saturating_sub(1) as usize) {
            *flag = true;
        }
    }
}

impl<const B: u32> MemoryOf<B> {
    /// The shared words of `size` nodes at the start, 1 or more, with room for node 1.
    ///
    /// Fails where memory is refused. Takes memory for one node.
    #[tactic(auto, using(counted_ref::proofs::Words::span_least, counted_ref::proofs::Words::count_span_least))]
    pub fn new(alloc: Global, size: u32) -> Result<MemoryOf<B>, AllocError>
        requires split { IsSplit B }
        requires some { 1 ≤ size }
        ensures { IfOk result (λ m. m ≡ first_memory size) }
    {
        let null = CountedRefOf::<B>::new(0, 0).word();
        let first = CountedRefOf::<B>::new(1, 0).word();
        Ok(MemoryOf {
            size,
            words: Vec::from_array(alloc, [1, null, first, first, 0, 0, 0, 0])?,
            aside: vec![in alloc; false; 1]?,
        })
    }

    /// How many nodes there are.
    fn nodes(&self) -> usize
        ensures { result ≡ length self.now.words.nodes }
    {
        self.size as usize
    }

    /// For how many nodes there is room.
    fn room(&self) -> usize
        ensures { result ≡ self.now.room }
    {
        self.aside.len()
    }

    /// Makes room for one node more, where there is room for fewer than `enough` and a node is left.
    ///
    /// Fails where memory is refused, and then changes nothing. Takes memory for one node.
    pub fn grow(&mut self, enough: usize) -> Result<(), AllocError>
        ensures ok { OnOk result (self.new ≡ rooms.grown enough self.old) }
        ensures err { OnErr result (self.new ≡ self.old) }
    {
        let room = self.room();
        if room < enough && room < self.nodes() {
            return self.add_node();
        }
        Ok(())
    }

    /// Makes room for one node more.
    fn add_node(&mut self) -> Result<(), AllocError>
        requires { self.old.room < length self.old.words.nodes }
        ensures ok { OnOk result (self.new ≡ record self.old { room = self.old.room + 1 }) }
        ensures err { OnErr result (self.new ≡ self.old) }
    {
        self.words.reserve(2)?;
        self.aside.push(false)?;
        push_blank(&mut self.words);
        Ok(())
    }

    /// Sets a node aside for good, where one is told. There is room for it.
    pub fn set_aside(&mut self, node: Option<u32>)
        requires { IfSome node (λ n. n - 1 < self.old.room) }
        ensures { self.new ≡ record self.old { aside = aside_after self.old.aside node } }
    {
        set_flag(&mut self.aside, node);
    }

    /// Whether a node was set aside; false of a number that no node has.
    pub fn is_aside(&self, node: u32) -> bool
        ensures { result ≡ slice_index_or self.now.aside (node - 1) false }
    {
        match self.aside.get(node.saturating_sub(1) as usize) {
            Some(flag) => *flag,
            None => false,
        }
    }

    /// The word at an index of the table, in the table's order; none behind the words of the last node. 0 where the node has
    /// no room yet.
    pub fn word(&self, index: usize) -> Option<u64>
        //= steps/table: The plain memory tells the number at each place of its table, which has six and two a node.
        ensures { result ≡ slice_get (specs.memory_words B self.now.words) index }
    {
        if index < FIRST_WORDS + 2 * self.size as usize {
            Some(word_at(&self.words, index))
        } else {
            None
        }
    }

    /// How many nodes were used.
    pub fn fresh(&self) -> u32
        //= steps/access: Each access of the plain memory finds what the word held and leaves what its definition says.
        ensures { result ≡ content Fresh self.now.words }
    {
        self.words[FRESH] as u32
    }

    /// The word Free: the first node of the free list.
    pub fn free(&self) -> CountedRefOf<B>
        //= steps/access
        ensures { result ≡ content Free self.now.words }
    {
        CountedRefOf::of_word(self.words[FREE])
    }

    /// The word Head: the dummy, before the first value.
    pub fn head(&self) -> CountedRefOf<B>
        //= steps/access
        ensures { result ≡ content Head self.now.words }
    {
        CountedRefOf::of_word(self.words[HEAD])
    }

    /// The word Tail.
    pub fn tail(&self) -> CountedRefOf<B>
        //= steps/access
        ensures { result ≡ content Tail self.now.words }
    {
        CountedRefOf::of_word(self.words[TAIL])
    }

    /// The lock of Tail: 0, or the number of an actor.
    fn tail_lock(&self) -> u16
        ensures { result ≡ content Tail_lock self.now.words }
    {
        self.words[TAIL_LOCK] as u16
    }

    /// The lock of Head: 0, or the number of an actor.
    fn head_lock(&self) -> u16
        ensures { result ≡ content Head_lock self.now.words }
    {
        self.words[HEAD_LOCK] as u16
    }

    /// The `next` of a node, which is null where the node has no room yet.
    pub fn next_of(&self, node: u32) -> CountedRefOf<B>
        //= steps/access
        ensures { result ≡ content (Next node) self.now.words }
    {
        CountedRefOf::of_word(word_at(&self.words, next_place(node)))
    }

    /// The value of a node, which is nobody's where the node has no room yet.
    pub fn value_of(&self, node: u32) -> Taken
        //= steps/access
        ensures { result ≡ content (Value_of node) self.now.words }
    {
        value_of(word_at(&self.words, next_place(node) + 1))
    }

    /// Answers what the number of nodes used held, and writes `new` there where that was `old`.
    pub fn exchange_fresh(&mut self, old: u32, new: u32) -> u32
        //= steps/access (found, after)
        ensures found { result ≡ content Fresh self.old.words }
        ensures after { self.new ≡ accessed (exchange Fresh old new) self.old }
    {
        let found = self.fresh();
        if found == old {
            self.store_fresh(new);
        }
        found
    }

    /// Answers what the tail lock held, and writes `new` there where that was `old`.
    pub fn exchange_tail_lock(&mut self, old: u16, new: u16) -> u16
        //= steps/access (found, after)
        ensures found { result ≡ content Tail_lock self.old.words }
        ensures after { self.new ≡ accessed (exchange Tail_lock old new) self.old }
    {
        let found = self.tail_lock();
        if found == old {
            self.store_tail_lock(new);
        }
        found
    }

    /// Answers what the head lock held, and writes `new` there where that was `old`.
    pub fn exchange_head_lock(&mut self, old: u16, new: u16) -> u16
        //= steps/access (found, after)
        ensures found { result ≡ content Head_lock self.old.words }
        ensures after { self.new ≡ accessed (exchange Head_lock old new) self.old }
    {
        let found = self.head_lock();
        if found == old {
            self.store_head_lock(new);
        }
        found
    }

    /// Answers what Free held, and writes `new` there where that was `old`.
    pub fn exchange_free(&mut self, old: CountedRefOf<B>, new: CountedRefOf<B>) -> CountedRefOf<B>
        //= steps/access (found, after)
        ensures found { result ≡ content Free self.old.words }
        ensures after { self.new ≡ accessed (exchange Free old.entry new.entry) self.old }
    {
        let found = self.free();
        if found.same(old) {
            self.store_free(new);
        }
        found
    }

    /// Answers what Head held, and writes `new` there where that was `old`.
    pub fn exchange_head(&mut self, old: CountedRefOf<B>, new: CountedRefOf<B>) -> CountedRefOf<B>
        //= steps/access (found, after)
        ensures found { result ≡ content Head self.old.words }
        ensures after { self.new ≡ accessed (exchange Head old.entry new.entry) self.old }
    {
        let found = self.head();
        if found.same(old) {
            self.store_head(new);
        }
        found
    }

    /// Answers what Tail held, and writes `new` there where that was `old`.
    pub fn exchange_tail(&mut self, old: CountedRefOf<B>, new: CountedRefOf<B>) -> CountedRefOf<B>
        //= steps/access (found, after)
        ensures found { result ≡ content Tail self.old.words }
        ensures after { self.new ≡ accessed (exchange Tail old.entry new.entry) self.old }
    {
        let found = self.tail();
        if found.same(old) {
            self.store_tail(new);
        }
        found
    }

    /// Answers what the `next` of a node held, and writes `new` there where that was `old`. There is room for the node.
    pub fn exchange_next(
        &mut self,
        node: u32,
        old: CountedRefOf<B>,
        new: CountedRefOf<B>,
    ) -> CountedRefOf<B>
        requires { node - 1 < self.old.room }
        //= steps/access (found, after)
        ensures found { result ≡ content (Next node) self.old.words }
        ensures after { self.new ≡ accessed (exchange (Next node) old.entry new.entry) self.old }
    {
        let found = self.next_of(node);
        if found.same(old) {
            self.store_next(node, new);
        }
        found
    }

    /// Clears the node bits of a node's `next`, and answers what it held. There is room for the node.
    #[tactic(auto, using(counted_ref::proofs::Words::span_least))]
    pub fn clear_next(&mut self, node: u32) -> CountedRefOf<B>
        requires { node - 1 < self.old.room }
        //= steps/access (found, after)
        ensures found { result ≡ content (Next node) self.old.words }
        ensures after { self.new ≡ accessed (clear node) self.old }
    {
        let _ = &self.size;
        let found = self.next_of(node);
        self.store_next(node, CountedRefOf::new(0, found.count()));
        found
    }

    /// Writes how many nodes were used.
    fn store_fresh(&mut self, new: u32)
        ensures { self.new ≡ accessed (store Fresh new) self.old }
    {
        self.words[FRESH] = u64::from(new);
    }

    /// Writes Free.
    fn store_free(&mut self, new: CountedRefOf<B>)
        ensures { self.new ≡ accessed (store Free new.entry) self.old }
    {
        self.words[FREE] = new.word();
    }

    /// Writes Head.
    pub fn store_head(&mut self, new: CountedRefOf<B>)
        //= steps/access
        ensures { self.new ≡ accessed (store Head new.entry) self.old }
    {
        self.words[HEAD] = new.word();
    }

    /// Writes Tail.
    pub fn store_tail(&mut self, new: CountedRefOf<B>)
        //= steps/access
        ensures { self.new ≡ accessed (store Tail new.entry) self.old }
    {
        self.words[TAIL] = new.word();
    }

    /// Writes the tail lock: 0, or the number of an actor.
    pub fn store_tail_lock(&mut self, new: u16)
        //= steps/access
        ensures { self.new ≡ accessed (store Tail_lock new) self.old }
    {
        self.words[TAIL_LOCK] = u64::from(new);
    }

    /// Writes the head lock: 0, or the number of an actor.
    pub fn store_head_lock(&mut self, new: u16)
        //= steps/access
        ensures { self.new ≡ accessed (store Head_lock new) self.old }
    {
        self.words[HEAD_LOCK] = u64::from(new);
    }

    /// Writes the `next` of a node, for which there is room.
    pub fn store_next(&mut self, node: u32, new: CountedRefOf<B>)
        requires { node - 1 < self.old.room }
        //= steps/access
        ensures { self.new ≡ accessed (store (Next node) new.entry) self.old }
    {
        set_word(&mut self.words, next_place(node), new.word());
    }

    /// Writes the value of a node, for which there is room.
    pub fn store_value(&mut self, node: u32, new: Taken)
        requires { node - 1 < self.old.room }
        //= steps/access
        ensures { self.new ≡ accessed (store (Value_of node) new) self.old }
    {
        set_word(&mut self.words, next_place(node) + 1, value_word(new));
    }
}
