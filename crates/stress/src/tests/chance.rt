//! Numbers that look like chance, the same each time from one seed.
use rand::RngExt;
use rand_pcg::Pcg32;

#[derive(Drop)]
pub struct Chance {
    draws: Pcg32,
}

impl Chance {
    pub fn new(seed: u64) -> Chance {
        Chance {
            draws: Pcg32::new(seed, 0),
        }
    }

    /// A number below a limit, and 0 where that is 0.
    pub fn below(&mut self, limit: u64) -> u64 {
        if limit == 0 {
            0
        } else {
            self.draws.random_range(0..limit)
        }
    }

    /// Whether a number below a limit is 0.
    pub fn one_in(&mut self, limit: u64) -> bool {
        self.below(limit) == 0
    }
}
