//! Pictures and timelines, and pictures of reasons, each against what was worked out by hand.
mod coloured;
mod meanings;
mod reasons;
mod timelines;
mod typed;

use show_engine::View;

/// What is shown where nothing is chosen.
pub(crate) const WHOLE: View<'static> = View {
    width: 80,
    from: 1,
    to: 0,
    actor: 0,
    legend: &[],
};
