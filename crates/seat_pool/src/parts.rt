//! What a seat may do.
ghost use Rattle.std.specs.Prelude.{◌≡◌, IfSome};

/// What a seat may do, of whichever queue.
#[derive(Clone, Copy, PartialEq, Eq, Debug)]
pub enum Part {
    /// It may push and shut.
    Giver,
    /// It may pop.
    Taker,
    /// It may push, shut and pop.
    Both,
    /// It may do neither.
    Neither,
}

impl Part {
    ghost use Rattle.seat_pool.specs.Parts as parts;

    /// The part of a seat that may push or not, and pop or not.
    pub(crate) fn of(pushes: bool, pops: bool) -> Part
        ensures pushes { parts.pushes result ≡ pushes }
        ensures pops { parts.pops result ≡ pops }
    {
        match (pushes, pops) {
            (true, true) => Part::Both,
            (true, false) => Part::Giver,
            (false, true) => Part::Taker,
            (false, false) => Part::Neither,
        }
    }

    /// The word of a place where such a seat lies; that of one whose seat is leased is 0.
    pub(crate) fn number(self) -> u64
        ensures { result ≡ parts.number_of self }
    {
        match self {
            Part::Giver => 1,
            Part::Taker => 2,
            Part::Both => 3,
            Part::Neither => 4,
        }
    }

    /// The part of this number.
    pub(crate) fn numbered(number: u64) -> Option<Part>
        ensures { IfSome result (λ part. parts.number_of part ≡ number) }
    {
        match number {
            1 => Some(Part::Giver),
            2 => Some(Part::Taker),
            3 => Some(Part::Both),
            4 => Some(Part::Neither),
            _ => None,
        }
    }
}
