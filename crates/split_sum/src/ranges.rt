//! A range of numbers as a task: the sum of its squares, or two ranges in its place.
ghost use Rattle.std.specs.Prelude.{◌≡◌, ◌+◌, ◌*◌, IfSome};
ghost use Rattle.split_sum.specs.Squares.{squares_of};

use tasks::Task;

/// How many numbers are added in one task, at most.
const SHORT: u64 = 1000;

/// So many numbers, from this one on.
#[derive(Clone, Copy, Debug, PartialEq, Eq)]
pub struct Range {
    pub first: u64,
    pub many: u64,
}

/// What a range comes to: the sum of its squares, or two ranges that make it up.
#[derive(Clone, Copy, Debug, PartialEq, Eq)]
pub enum Part {
    Sum(u64),
    Halves(Range, Range),
}

/// A number has no room in 64 bits.
#[derive(Clone, Copy, Debug, PartialEq, Eq)]
pub struct NoRoom;

// The sum with the square of the number that stands there behind the first one; none where there is no room for it.
fn with_square(sum: u64, first: u64, at: u64) -> Option<u64>
    ensures { IfSome result (λ more. more ≡ sum + (first + at) * (first + at)) }
{
    let number = first.checked_add(at)?;
    sum.checked_add(number.checked_mul(number)?)
}

// The sum of the squares; none where there is no room for it.
fn sum_of(range: Range) -> Option<u64>
    ensures { IfSome result (λ sum. sum ≡ squares_of range) }
{
    let mut sum = 0;
    for at in 0..range.many {
        sum = with_square(sum, range.first, at)?;
    }
    Some(sum)
}

// A range in two halves; none where there is no room for the number between them.
fn halves(range: Range) -> Option<(Range, Range)>
    ensures { IfSome result (λ both. squares_of both.0 + squares_of both.1 ≡ squares_of range) }
{
    let half = range.many / 2;
    let middle = range.first.checked_add(half)?;
    let one = Range {
        first: range.first,
        many: half,
    };
    let other = Range {
        first: middle,
        many: range.many - half,
    };
    Some((one, other))
}

impl Task for Range {
    ghost use Rattle.split_sum.specs.Squares.{IsPartOf};

    type Output = Part;

    type Error = NoRoom;

    ghost answers = { IsPartOf };

    fn run(self) -> Result<Part, NoRoom> {
        if self.many <= SHORT {
            return match sum_of(self) {
                Some(sum) => Ok(Part::Sum(sum)),
                None => Err(NoRoom),
            };
        }
        match halves(self) {
            Some((one, other)) => Ok(Part::Halves(one, other)),
            None => Err(NoRoom),
        }
    }
}
