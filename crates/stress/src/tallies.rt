//! What threads pushed and took, by sender.

/// How many senders there may be.
const SENDERS: usize = 64;

/// Values of each sender: how many, the sum of their numbers, and that of these numbers' squares.
#[derive(Clone, Copy, PartialEq, Eq)]
pub struct Sums {
    count: [u64; SENDERS],
    sum: [u64; SENDERS],
    squares: [u64; SENDERS],
}

/// What a thread pushed, and what it took.
#[derive(Clone, Copy)]
pub struct Tally {
    pub pushed: Sums,
    pub taken: Sums,
    /// By sender the number behind the last one taken.
    next: [u64; SENDERS],
    /// Whether each sender's numbers rose.
    pub in_order: bool,
    /// Whether each value was one of a sender, and each answer one that may come where it came.
    pub whole: bool,
}

impl Sums {
    fn none() -> Sums {
        Sums {
            count: [0; SENDERS],
            sum: [0; SENDERS],
            squares: [0; SENDERS],
        }
    }

    // One more number of this sender; nothing where there is no such sender.
    fn adds(&mut self, from: usize, number: u64) {
        if from < SENDERS {
            self.count[from] = self.count[from].wrapping_add(1);
            self.sum[from] = self.sum[from].wrapping_add(number);
            self.squares[from] = self.squares[from].wrapping_add(number.wrapping_mul(number));
        }
    }

    fn with(&self, others: &Sums) -> Sums {
        let mut all = *self;
        for from in 0..SENDERS {
            all.count[from] = all.count[from].wrapping_add(others.count[from]);
            all.sum[from] = all.sum[from].wrapping_add(others.sum[from]);
            all.squares[from] = all.squares[from].wrapping_add(others.squares[from]);
        }
        all
    }

    /// How many values there are of all senders.
    pub fn total(&self) -> u64 {
        let mut total = 0u64;
        for count in self.count {
            total = total.wrapping_add(count);
        }
        total
    }
}

impl Tally {
    /// Nothing pushed and nothing taken.
    pub fn new() -> Tally {
        Tally {
            pushed: Sums::none(),
            taken: Sums::none(),
            next: [0; SENDERS],
            in_order: true,
            whole: true,
        }
    }

    /// An answer came, which may come there or not.
    pub fn keeps(&mut self, may: bool) {
        self.whole = self.whole && may;
    }

    /// The value of this number was pushed by this sender.
    pub fn pushes(&mut self, from: u64, number: u64) {
        self.pushed.adds(from as usize, number);
    }

    /// The value of this number of this sender was taken.
    pub fn takes(&mut self, from: u64, number: u64) {
        let from = from as usize;
        if from >= SENDERS {
            self.whole = false;
            return;
        }
        self.taken.adds(from, number);
        self.in_order = self.in_order && self.next[from] <= number;
        self.next[from] = number.wrapping_add(1);
    }

    /// Both tallies as one: what both threads pushed and took, whether both took in order, and whether all was whole.
    pub fn with(&self, other: &Tally) -> Tally {
        Tally {
            pushed: self.pushed.with(&other.pushed),
            taken: self.taken.with(&other.taken),
            next: self.next,
            in_order: self.in_order && other.in_order,
            whole: self.whole && other.whole,
        }
    }

    /// Whether the values taken are just those pushed, so many, each sender's in order, and all was whole.
    pub fn is_right(&self, pushed: u64) -> bool {
        self.in_order && self.whole && self.taken == self.pushed && self.pushed.total() == pushed
    }
}
