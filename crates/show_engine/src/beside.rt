//! The rows of the operations beside a reason, and the last line.
ghost use Rattle.std.specs.Prelude.{◌≡◌, ◌+◌, ◌-◌, ◌≤◌, ◌++◌, ◌^◌, IfOk, OnOk, codes, length, map};
ghost use Rattle.std.specs.List.Sorted.{IsNonDecreasing};
ghost use Rattle.recording_text.specs.RecordingReading.{bytes_of};
ghost use Rattle.show_engine.specs.Reasons.{earliest, least_of, mark_text, operation_at, operations_at, row_beside, rows_beside, scale_beside, times_text};
ghost use Rattle.show_engine.specs.Scales.{IsFitting};
ghost use Rattle.show_engine.specs.Timelines.{bar_text};

use crate::bars::push_bar;
use crate::effects::is_among;
use crate::frames::View;
use crate::rows::push_number;
use crate::scales::{Scale, end_of_history};
use history::Stamped;
use place_engine::push_given;
use std::alloc::{AllocError, Global};
use text_io::{LINE_ROOM, LineBuffer};

/// Puts the operation at a place of a history, from 1, behind others; nothing where there is none.
fn push_operation(
    into: &mut Vec<Stamped>,
    history: &[Stamped],
    place: u64,
) -> Result<(), AllocError>
    ensures { OnOk result (into.new.items ≡ into.old.items ++ operation_at history.now place) }
{
    let Some(operation) = history.get(place.saturating_sub(1) as usize) else {
        return Ok(());
    };
    into.push(*operation)?;
    Ok(())
}

/// The operations at these places.
fn operations_at(
    alloc: Global,
    history: &[Stamped],
    places: &[u64],
) -> Result<Vec<Stamped>, AllocError>
    ensures { IfOk result
        (λ operations. operations.items ≡ operations_at history.now places.now) }
{
    let mut operations = Vec::new(alloc);
    for place in places {
        push_operation(&mut operations, history, *place)?;
    }
    Ok(operations)
}

/// The least of the first and the last number of an operation.
fn least_of(operation: &Stamped) -> u64
    ensures { result ≡ least_of operation.now }
{
    let first = operation.first;
    first.min(operation.last.unwrap_or(first))
}

/// The least number of operations; the greatest one there is where there are none.
fn earliest(operations: &[Stamped]) -> u64
    ensures { result ≡ earliest (2 ^ 64 - 1) operations.now }
{
    let mut least = u64::MAX;
    for operation in operations {
        least = least.min(least_of(operation));
    }
    least
}

/// The scale of a view of the times of operations.
fn scale_of_all(view: View<'_>, operations: &[Stamped]) -> Scale
    ensures scale { result ≡ scale_beside view.entry operations.now }
    ensures fits { IsFitting result }
{
    let width = view.columns();
    let last = end_of_history(operations);
    Scale {
        width: width as usize,
        columns: u64::from(width / 2),
        from: view.from.max(earliest(operations)),
        to: if view.to == 0 {
            last
        } else {
            view.to.min(last)
        },
        actor: view.actor,
    }
}

/// The scale of a view of the times of the operations at these places.
pub(crate) fn scale_beside(
    alloc: Global,
    view: View<'_>,
    history: &[Stamped],
    places: &[u64],
) -> Result<Scale, AllocError>
    ensures scale { IfOk result
        (λ scale. scale ≡ scale_beside view.entry (operations_at history.now places.now)) }
    ensures fits { IfOk result IsFitting }
{
    let operations = operations_at(alloc, history, places)?;
    Ok(scale_of_all(view, &operations))
}

/// What stands before a bar.
fn mark_of(is_of: bool) -> &'static [u8]
    ensures text { result.now ≡ mark_text is_of }
    ensures len { length result.now ≡ 2 }
{
    if is_of { b"! " } else { b"  " }
}

/// The mark and the bar of an operation.
fn bar_line(scale: Scale, operation: &Stamped, is_of: bool) -> LineBuffer
    requires fits { IsFitting scale }
    requires shown { operation.now.first ≤ scale.to }
    ensures { result
        ≡ mark_text is_of ++ bar_text scale operation.now scale.columns ++ codes " " }
{
    let mut line = LineBuffer::new();
    line.push(mark_of(is_of));
    push_bar(&mut line, scale, operation);
    line.push(b" ");
    line
}

/// Puts the row of an operation at a place behind other bytes, where it is shown; so many lines come before that of the place 1.
fn push_row(
    into: &mut Vec<u8>,
    scale: Scale,
    operation: &Stamped,
    is_of: bool,
    lines: &[&[u8]],
    header: u64,
    place: u64,
) -> Result<(), AllocError>
    requires { IsFitting scale }
    ensures { OnOk result (into.new.items ≡ into.old.items
        ++ row_beside scale operation.now is_of (map bytes_of lines.now) (place + header)) }
{
    if !scale.shows(operation) {
        return Ok(());
    }
    into.extend_from_slice(bar_line(scale, operation, is_of).as_slice())?;
    push_given(into, lines, header, place)
}

/// Puts the rows of operations behind other bytes, where those at some places, which rise, are of the reason.
pub(crate) fn push_rows(
    into: &mut Vec<u8>,
    scale: Scale,
    history: &[Stamped],
    lines: &[&[u8]],
    header: u64,
    places: &[u64],
) -> Result<(), AllocError>
    requires fits { IsFitting scale }
    requires rising { IsNonDecreasing places.now }
    ensures { OnOk result (into.new.items ≡ into.old.items
        ++ rows_beside scale (map bytes_of lines.now) header places.now 1 history.now) }
{
    for (index, operation) in history.iter().enumerate() {
        let place = index as u64 + 1;
        let is_of = is_among(places, place);
        push_row(into, scale, operation, is_of, lines, header, place)?;
    }
    Ok(())
}

/// The last line of the picture of a reason.
#[tactic(auto, unfolding(crate::specs::Reasons::times_text))]
pub(crate) fn times_line(scale: Scale, shown: u64, all: u64) -> LineBuffer
    ensures { result ≡ times_text scale shown all }
{
    let mut line = LineBuffer::new();
    line.push(b"times 0");
    push_number(&mut line, b" to ", scale.to.saturating_sub(scale.from));
    push_number(&mut line, b" from ", scale.from);
    push_number(&mut line, b", operations ", shown);
    push_number(&mut line, b" of ", all);
    line.push(b"\n");
    line
}
