//! Values of three words, as C passes and gets them.
ghost use Rattle.std.specs.Prelude.{◌≡◌};
ghost use Rattle.carriers.specs.declared.items.ItemOf.{ItemOf};
ghost use Rattle.msq_c.specs.Words.{item_of};

use carriers::ItemOf;

/// Three words, a value of a queue of words: a pointer, a key, or what a small struct has in its bytes.
#[repr(C)]
#[derive(Clone, Copy)]
pub struct MsqWords {
    pub first: u64,
    pub second: u64,
    pub third: u64,
}

/// A value that was popped, and the number of the seat that pushed it.
#[repr(C)]
#[derive(Clone, Copy)]
pub struct MsqItem {
    pub words: MsqWords,
    pub from: u16,
}

/// What C gets of a value, and of who pushed it.
pub trait Item<T> {
    // What that is.
    ghost told: { ItemOf T → Self };

    /// What C gets of a value.
    fn of(front: ItemOf<T>) -> Self
        ensures { result ≡ told front };
}

// The words that were pushed, and who pushed them.
fn words_of(front: ItemOf<MsqWords>) -> MsqItem
    ensures { result ≡ item_of front }
{
    MsqItem {
        words: front.value,
        from: front.from,
    }
}

impl Item<MsqWords> for MsqItem {
    ghost told = { item_of };

    fn of(front: ItemOf<MsqWords>) -> MsqItem
        ensures { result ≡ item_of front }
    {
        words_of(front)
    }
}
