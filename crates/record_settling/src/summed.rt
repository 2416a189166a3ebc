//! The sums that records have in place of outcomes.

ghost use Rattle.std.specs.Prelude.{◌≡◌, ◌↔◌, IsTrue, IfOk, OnOk};
ghost use Rattle.record_settling.specs.Summed.{AllHaveSums, HasPlacedSum, HaveSums, first_sums, other_sums};

use crate::fault::RecordsFault;
use crate::stream_names::EventPlace;
use cip_events::Event;
use cip_types::{Items, OutOfMemory};
use std::alloc::Global;
use trace_outcomes::{PlacedSum, has_sum, write_outcome};
use trace_text::{Recorded, Trace};

/// Whether the outcome of the entry at a sum's place has this sum.
fn has_placed_sum(
    alloc: Global,
    entries: &[(Event, Recorded)],
    placed: PlacedSum,
) -> Result<bool, OutOfMemory>
    ensures { IfOk result (λ has. IsTrue has ↔ HasPlacedSum entries.now placed) }
{
    let Some(entry) = entries.get(placed.place) else {
        return Ok(false);
    };
    let Some(outcome) = entry.1.get() else {
        return Ok(false);
    };
    let number = placed.place as u64 + 1;
    let text = write_outcome(alloc, number, outcome)?;
    Ok(has_sum(text.as_bytes(), outcome, Some(placed.sum)))
}

/// Fails if an outcome of a record has not the sum that the record has in its place.
fn check_sums(
    alloc: Global,
    record: usize,
    entries: &[(Event, Recorded)],
    sums: &[PlacedSum],
) -> Result<(), RecordsFault>
    ensures { OnOk result (HaveSums entries.now sums.now) }
{
    for placed in sums {
        if !has_placed_sum(alloc, entries, *placed)? {
            return Err(RecordsFault::Differs(EventPlace {
                record,
                event: placed.place,
            }));
        }
    }
    Ok(())
}

/// The sums of the first record, and those of the others.
fn split_sums(sums: &[Items<PlacedSum>]) -> (&[PlacedSum], &[Items<PlacedSum>])
    ensures first { result.0.now ≡ first_sums sums.now }
    ensures others { result.1.now ≡ other_sums sums.now }
{
    match sums {
        [] => (&[], &[]),
        [first, others @ ..] => (first.as_slice(), others),
    }
}

/// Fails at the first outcome of the first record that has not the sum which the record has in its place.
pub(crate) fn check_all_sums(
    alloc: Global,
    records: &[Trace],
    sums: &[Items<PlacedSum>],
) -> Result<(), RecordsFault>
    ensures { OnOk result (AllHaveSums records.now sums.now) }
{
    let mut rest = sums;
    for (place, trace) in records.iter().enumerate() {
        let (mine, others) = split_sums(rest);
        check_sums(alloc, place, trace.events.as_slice(), mine)?;
        rest = others;
    }
    Ok(())
}
