//! The outcomes that are recorded by their sums: those of ticks at which a device sends datagrams alone.

ghost use Rattle.std.specs.Prelude.{◌≡◌, ◌++◌, OnOk, string_bytes};
ghost use Rattle.station_record.specs.Summed.{is_summed, recorded_outcome_text, sends_alone};

use cip_tables::{Event, Outcome};
use cip_types::OutOfMemory;
use trace_outcomes::{push_sum, sum_over};
use trace_text::push_outcome;

/// Appends the lines of the outcome of the event of this number, or the line of its sum. The lines are made apart first.
pub fn push_recorded_outcome(
    lines: &mut String,
    out: &mut String,
    number: u64,
    event: &Event,
    outcome: &Outcome,
) -> Result<(), OutOfMemory>
    ensures { OnOk result (string_bytes out.new ≡ string_bytes out.old
        ++ recorded_outcome_text number event.now outcome.now) }
{
    if !is_summed(event, outcome) {
        return push_outcome(out, number, outcome);
    }
    lines.clear();
    push_outcome(lines, number, outcome)?;
    match sum_over(lines.as_bytes(), outcome) {
        Some(sum) => push_sum(out, number, &sum),
        None => push_outcome(out, number, outcome),
    }
}

/// Whether an outcome is recorded by its sum.
fn is_summed(event: &Event, outcome: &Outcome) -> bool
    ensures { result ≡ is_summed event.now outcome.now }
{
    match event {
        Event::Tick { .. } => sends_alone(outcome),
        _ => false,
    }
}

/// Whether an answer has datagrams, and no frames.
fn sends_alone(outcome: &Outcome) -> bool
    ensures { result ≡ sends_alone outcome.now }
{
    match outcome {
        Ok(answer) => {
            answer.frames.as_slice().is_empty() && !answer.datagrams.as_slice().is_empty()
        }
        Err(_) => false,
    }
}
