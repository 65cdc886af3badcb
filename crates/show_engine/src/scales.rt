//! Which numbers of a history a timeline shows, and in which columns.
ghost use Rattle.std.specs.Prelude.{◌≡◌, ◌≤◌, ◌<◌};
ghost use Rattle.show_engine.specs.Scales.{IsFitting, column_of, end_of_history, greatest_of, is_shown, reaches, scale_of};

use crate::frames::View;
use history::Stamped;

/// The numbers that are shown, and the columns of their bars.
#[derive(Clone, Copy)]
pub struct Scale {
    /// How many columns a row has at most.
    pub width: usize,
    /// How many of them a bar has.
    pub columns: u64,
    /// The first number.
    pub from: u64,
    /// The last number.
    pub to: u64,
    /// The one actor; 0 for each.
    pub actor: u32,
}

/// The greatest number of an operation.
fn greatest_of(operation: &Stamped) -> u64
    ensures { result ≡ greatest_of operation.now }
{
    let last = operation.last.unwrap_or(0);
    let at = operation.at.unwrap_or(0);
    operation.first.max(last.max(at))
}

/// The greatest number in a history.
pub(crate) fn end_of_history(history: &[Stamped]) -> u64
    ensures { result ≡ end_of_history history.now }
{
    let mut last = 0u64;
    for operation in history {
        last = last.max(greatest_of(operation));
    }
    last
}

impl Scale {
    /// The scale of a view of a history that ends at a number.
    pub(crate) fn of(view: View<'_>, last: u64) -> Scale
        ensures scale { result ≡ scale_of view.entry last }
        ensures fits { IsFitting result }
    {
        let width = view.columns();
        Scale {
            width: width as usize,
            columns: u64::from(width / 2),
            from: view.from.max(1),
            to: view.last_step().min(last),
            actor: view.actor,
        }
    }

    /// The column of a number that is shown.
    pub(crate) fn column_of(self, number: u64) -> u64
        requires fits { IsFitting self }
        requires shown { number ≤ self.to }
        ensures { result ≡ column_of self number }
    {
        // A number of 64 bits has no room for the product.
        let span = u128::from(self.to.saturating_sub(self.from)) + 1;
        let ahead = u128::from(number.saturating_sub(self.from)) * u128::from(self.columns);
        (ahead / span) as u64
    }

    /// Whether an operation is shown.
    pub(crate) fn shows(self, operation: &Stamped) -> bool
        ensures { result ≡ is_shown self operation.now }
    {
        operation.first <= self.to
            && self.reaches(operation.last)
            && (self.actor == 0 || u32::from(operation.actor) == self.actor)
    }

    fn reaches(self, last: Option<u64>) -> bool
        ensures { result ≡ reaches self last }
    {
        match last {
            None => true,
            Some(last) => self.from <= last,
        }
    }
}
