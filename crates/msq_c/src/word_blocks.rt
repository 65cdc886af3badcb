//! A seat of a queue of words, with its share, and its calls.
ghost use Rattle.std.specs.Prelude.{◌≡◌, ◌<◌, IfOk, IfErr, OnOk};
ghost use Rattle.carriers.specs.Answers.{PushedOf, PopAnswersOf, DidShutOf, MeetsOf};

use crate::seat_blocks::APART;
use crate::troubles::Trouble;
use carriers::{Carrier, ItemOf};
use owned::{EndRoom, Look, OwnedSeat};
use picked::AnyValues;
use std::alloc::Global;

/// A seat of a queue of words, with its share of the queue, which lies first: include/msq_words.h compares these.
#[repr(C)]
#[derive(Drop)]
pub struct WordsBlock<C: Carrier + Drop> {
    owned: OwnedSeat<C>,
    apart: [u64; APART],
}

impl<T: Send + Drop> WordsBlock<AnyValues<T>> {
    ghost use Rattle.msq_c.specs.WordBlocks.{queue_in, seat_in, known_in, owned_in};
    ghost use Rattle.msq_c.specs.WordBlocks.{RefusesPush, RefusesPop, RefusesShut};
    ghost use Rattle.msq_c.specs.Ends.{IsMemory};
    ghost use Rattle.msq_c.specs.WordEnds.{HasAnyRoom};

    pub(crate) fn new(owned: OwnedSeat<AnyValues<T>>) -> WordsBlock<AnyValues<T>>
        ensures { owned_in result ≡ owned }
    {
        WordsBlock {
            owned,
            apart: [0; APART],
        }
    }

    pub(crate) fn into_owned(self) -> OwnedSeat<AnyValues<T>>
        ensures { result ≡ owned_in self }
    {
        let WordsBlock { owned, apart: _ } = self;
        owned
    }

    pub(crate) fn try_push(&mut self, value: T, turns: u32) -> Result<(), Trouble>
        ensures queue { queue_in self.new ≡ queue_in self.old }
        ensures pushed { OnOk result (PushedOf (known_in self.old) value (known_in self.new)) }
        ensures refused { IfErr result (RefusesPush self.old self.new turns) }
    {
        if turns == 0 {
            return Err(Trouble::BadSize);
        }
        if !self.owned.may_push() {
            return Err(Trouble::NoRole);
        }
        match self.owned.try_push(value, turns) {
            Ok(()) => Ok(()),
            Err(unpushed) => Err(Trouble::Refused(unpushed.refusal)),
        }
    }

    pub(crate) fn try_pop(&mut self, turns: u32) -> Result<Option<ItemOf<T>>, Trouble>
        ensures queue { queue_in self.new ≡ queue_in self.old }
        ensures answer { IfOk result
            (λ front. PopAnswersOf (known_in self.old) front (known_in self.new)) }
        ensures refused { IfErr result (RefusesPop self.old self.new turns) }
    {
        if turns == 0 {
            return Err(Trouble::BadSize);
        }
        if !self.owned.may_pop() {
            return Err(Trouble::NoRole);
        }
        match self.owned.try_pop(turns) {
            Ok(front) => Ok(front),
            Err(refusal) => Err(Trouble::Refused(refusal)),
        }
    }

    pub(crate) fn try_shut(&mut self, turns: u32) -> Result<(), Trouble>
        ensures queue { queue_in self.new ≡ queue_in self.old }
        ensures shut { OnOk result (DidShutOf (known_in self.old) (known_in self.new)) }
        ensures refused { IfErr result (RefusesShut self.old self.new turns) }
    {
        if turns == 0 {
            return Err(Trouble::BadSize);
        }
        if !self.owned.may_push() {
            return Err(Trouble::NoRole);
        }
        match self.owned.try_shut(turns) {
            Ok(()) => Ok(()),
            Err(refusal) => Err(Trouble::Refused(refusal)),
        }
    }

    pub(crate) fn meet(&mut self, other: &mut WordsBlock<AnyValues<T>>)
        requires { queue_in other.old ≡ queue_in self.old }
        ensures queue { queue_in self.new ≡ queue_in self.old }
        ensures other_queue { queue_in other.new ≡ queue_in other.old }
        ensures meets { MeetsOf (known_in self.old) (known_in other.old)
            (known_in self.new) (known_in other.new) }
    {
        self.owned.meet(&mut other.owned)
    }

    pub(crate) fn look<L: Look<AnyValues<T>>>(&mut self) -> L::Told
        ensures queue { queue_in self.new ≡ queue_in self.old }
        ensures told { L.tells (queue_in self.old) (seat_in self.old) result (seat_in self.new) }
    {
        self.owned.look::<L>()
    }

    pub(crate) fn room(
        &self,
        alloc: Global,
        others: usize,
    ) -> Result<EndRoom<AnyValues<T>>, Trouble>
        ensures room { IfOk result (HasAnyRoom (queue_in self.now) others) }
        ensures only_memory { IfErr result IsMemory }
    {
        match self.owned.room(alloc, others) {
            Ok(room) => Ok(room),
            Err(refusal) => Err(Trouble::Refused(refusal)),
        }
    }

    pub(crate) fn shares(&self) -> usize
        ensures { 0 < result }
    {
        self.owned.shares()
    }
}
