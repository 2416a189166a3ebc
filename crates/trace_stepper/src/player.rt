//! The outcomes of a trace, each written before the next step.

ghost use Rattle.std.specs.Prelude.{◌≡◌, ◌<◌, ◌+◌, length};
ghost use Rattle.trace_stepper.specs.Compared.{JudgesOn};
ghost use Rattle.trace_stepper.specs.Playing.{IsPlayed};

use crate::compared::agrees;
use crate::stepper::{Stepper, StepperFault};
use crate::writing::write_text;
use cip_tables::{Device, Outcome};
use std::alloc::Global;
use std::io::Write;
use trace_text::{Trace, push_outcome};

/// Steps a fresh device by a trace's events, writes each outcome before the next step, and answers the number of the
/// first event whose outcome is not the recorded one.
///
/// The faults, in order: `Profile`, `WrongKind`, and `OutOfMemory` and `Write` as they happen.
pub fn play<D: Device + Drop, O: Write>(
    alloc: Global,
    trace: &Trace,
    out: &mut O,
) -> Result<Option<usize>, StepperFault>
    ensures { IsPlayed (D.accepts trace.now.config) trace.now (O.contents out.old) (O.contents out.new) result }
{
    let mut stepper: Stepper<'_, D> = Stepper::new(alloc, trace)?;
    let mut text = String::new(alloc);
    let mut place = 0;
    let mut differs = None;
    while let Some(outcome) = stepper.next()? {
        let number = place_after(trace, place);
        text.clear();
        push_outcome(&mut text, number as u64, &outcome)?;
        write_text(out, text.as_bytes())?;
        differs = judge(trace, place, differs, &outcome);
        place = number;
    }
    Ok(differs)
}

/// The index behind that of an entry, which is the entry's number, from 1.
fn place_after(trace: &Trace, place: usize) -> usize
    requires { place < length trace.now.events }
    ensures { result ≡ place + 1 }
{
    // (gives the prover that the index is below a length, so that the sum fits)
    let _entry = &trace.events.as_slice()[place];
    place + 1
}

/// The number of the first difference, with one outcome more.
fn judge(trace: &Trace, place: usize, differs: Option<usize>, outcome: &Outcome) -> Option<usize>
    requires { place < length trace.now.events }
    ensures { JudgesOn trace.now.events place outcome.now differs result }
{
    if differs.is_some() {
        return differs;
    }
    let entry = &trace.events.as_slice()[place];
    if agrees(&entry.1, Some(outcome)) {
        None
    } else {
        Some(place + 1)
    }
}
