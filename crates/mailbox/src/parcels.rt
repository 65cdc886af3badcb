//! How letters are stored, and which of the texts due each is.
ghost use Rattle.std.specs.Prelude.{◌≡◌, string_bytes, IfOk, IfErr};
ghost use Rattle.boxcar.specs.Table.{Shows};
ghost use Rattle.mailbox.specs.Plans.{Fits};

use boxcar::{Keeps, Pushed, Vec as Boxes};
use std::alloc::Global;

/// Which text of which task a letter is, both counted from 0.
#[derive(Clone, Copy, Debug)]
pub(crate) struct Due {
    pub(crate) task: usize,
    pub(crate) place: usize,
}

/// A letter as it is stored. One that is of no task is none of the texts due.
#[derive(Drop)]
pub(crate) struct Parcel {
    pub(crate) due: Option<Due>,
    pub(crate) text: String,
}

/// The rule of a store: the letters of tasks have the texts that are due.
pub(crate) struct OnlyDue;

impl Keeps<Parcel> for OnlyDue {
    ghost holds = { λ numbers _ parcel. Fits numbers parcel.due (string_bytes parcel.text) };
}

/// A store of letters, which only grows.
pub(crate) type Letters = Boxes<Parcel, Global, OnlyDue>;

/// What shows that a store has a letter at an index.
pub(crate) type Shown = Pushed<Parcel, Global, OnlyDue>;

/// The answer of a store that it has no letter at an index. Only `find` makes one.
#[derive(Drop)]
pub(crate) struct Missing {
    index: usize,
}

/// What shows the letter at an index; else the store's answer that it has none there.
pub(crate) fn find(letters: &Letters, index: usize) -> Result<Shown, Missing>
    ensures shown { IfOk result (Shows letters.now) }
    ensures at { IfOk result (λ shown. shown.index ≡ index) }
    ensures missing { IfErr result (λ missing. missing.index ≡ index) }
{
    match letters.witness(index) {
        Some(shown) => Ok(shown),
        None => Err(Missing { index }),
    }
}

/// The letter that a token shows.
pub(crate) fn parcel_at<'a>(letters: &'a Letters, shown: &Shown) -> &'a Parcel
    requires { Shows letters.now shown.now }
    ensures value { result.now ≡ shown.now.value }
    ensures due { Fits letters.now.tag result.now.due (string_bytes result.now.text) }
{
    match letters.get_seen(shown.index(), shown) {
        Some(parcel) => parcel,
        None => unreachable!(),
    }
}
