//! A value of a queue, as C gets it.
ghost use Rattle.std.specs.Prelude.{◌≡◌};

use history::Taken;

/// The body of a value, and the number of the seat that pushed it.
#[repr(C)]
#[derive(Clone, Copy)]
pub struct MsqValue {
    pub body: u64,
    pub from: u16,
}

impl MsqValue {
    ghost use Rattle.msq_c.specs.Values.{value_of};

    /// What C gets of a value.
    pub(crate) fn of(taken: Taken) -> MsqValue
        ensures { result ≡ value_of taken }
    {
        MsqValue {
            body: taken.body.number(),
            from: taken.from,
        }
    }
}
