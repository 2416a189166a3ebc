//! Outcomes compared with the recorded ones of a trace.

ghost use Rattle.std.specs.Prelude.{◌≡◌, ◌↔◌, IsTrue, option_map};
ghost use Rattle.trace_stepper.specs.Compared.{AgreesWith, IsCompared};

use cip_tables::Outcome;
use thiserror::Error;
use trace_text::{Recorded, Trace};

/// The number, from 1, of the first event whose recorded outcome is not the given one, or for which no outcome was
/// given.
#[derive(Clone, Copy, Debug, PartialEq, Eq, Error)]
#[error("differs {0}")]
pub struct Differs(pub usize);

/// Whether the outcomes agree with the recorded ones of the trace. Takes no memory.
pub fn compare(trace: &Trace, outcomes: &[Outcome]) -> Result<(), Differs>
    ensures { IsCompared trace.now.events outcomes.now result }
{
    for (place, entry) in trace.events.as_slice().iter().enumerate() {
        if !agrees(&entry.1, outcomes.get(place)) {
            return Err(Differs(place + 1));
        }
    }
    Ok(())
}

/// Whether an outcome is the recorded one, if one is recorded. Takes no memory.
pub fn agrees(recorded: &Recorded, given: Option<&Outcome>) -> bool
    ensures { IsTrue result ↔ AgreesWith recorded.now (option_map (λ outcome. outcome.now) given.entry) }
{
    match recorded.get() {
        None => true,
        Some(recorded) => match given {
            None => false,
            Some(given) => same(given, recorded),
        },
    }
}

fn same(one: &Outcome, other: &Outcome) -> bool
    ensures { IsTrue result ↔ (one.now ≡ other.now) }
{
    match (one, other) {
        (Ok(one), Ok(other)) => one.same(other),
        (Err(one), Err(other)) => one == other,
        _ => false,
    }
}
