//! The events of a trace, each in a line with the lines of its outcome.

ghost use Rattle.std.specs.Prelude.{◌≡◌, IfOk, map};
ghost use Rattle.trace_explain.specs.Lines.{moment_of_line, moments};

use crate::answers::push_outcome;
use crate::events::push_event;
use cip_events::{Event, Outcome};
use cip_tables::Config;
use cip_types::OutOfMemory;
use std::alloc::Global;
use trace_text::{Recorded, Trace, time_after};
use trace_words::Names;

/// An event in words: its number in the trace, from 1, its time in milliseconds, what happened, and what the device
/// answered, if that is recorded.
#[derive(Drop)]
pub struct EventLine {
    pub number: u64,
    pub time: u64,
    pub words: String,
}

/// The events of a trace in words, in their order. OutOfMemory is the only fault.
///
/// The clock begins at 0, and each tick that is not refused moves it on.
pub fn event_lines(
    alloc: Global,
    trace: &Trace,
    names: &Names,
) -> Result<Vec<EventLine>, OutOfMemory>
    // Each event has its line, with its number and its time.
    ensures { IfOk result (λ lines. map moment_of_line lines.items ≡ moments 1 0 trace.now.events) }
{
    lines_of(alloc, &trace.config, names, trace.events.as_slice())
}

/// The events of a device of this configuration in words.
fn lines_of(
    alloc: Global,
    config: &Config,
    names: &Names,
    entries: &[(Event, Recorded)],
) -> Result<Vec<EventLine>, OutOfMemory>
    ensures { IfOk result (λ lines. map moment_of_line lines.items ≡ moments 1 0 entries.now) }
{
    let mut lines = Vec::new(alloc);
    let mut time = 0;
    for (index, entry) in entries.iter().enumerate() {
        time = time_after(time, &entry.0, &entry.1);
        let words = entry_words(alloc, config, names, &entry.0, &entry.1)?;
        let number = index as u64 + 1;
        lines.push(EventLine {
            number,
            time,
            words,
        })?;
    }
    Ok(lines)
}

/// An event, and its outcome if that is recorded.
fn entry_words(
    alloc: Global,
    config: &Config,
    names: &Names,
    event: &Event,
    recorded: &Recorded,
) -> Result<String, OutOfMemory> {
    let mut out = String::new(alloc);
    push_event(alloc, &mut out, config, names, event)?;
    if let Some(outcome) = recorded.get() {
        push_outcome(alloc, &mut out, config, names, event, outcome)?;
    }
    Ok(out)
}

/// An event and its outcome in words, with these names behind the numbers of points and slots: what happened, and behind it the lines of the outcome, indented. OutOfMemory is the only
/// fault.
pub fn explain_event(
    alloc: Global,
    config: &Config,
    names: &Names,
    event: &Event,
    outcome: &Outcome,
) -> Result<String, OutOfMemory> {
    let mut out = String::new(alloc);
    push_event(alloc, &mut out, config, names, event)?;
    push_outcome(alloc, &mut out, config, names, event, outcome)?;
    Ok(out)
}

/// A trace in words, with these names behind the numbers of points and slots: a line for each event, `NUMBER. TIME ms: WHAT`, and the lines of its recorded outcome, indented.
/// OutOfMemory is the only fault.
pub fn explain_trace(alloc: Global, trace: &Trace, names: &Names) -> Result<String, OutOfMemory> {
    let mut out = String::new(alloc);
    for line in event_lines(alloc, trace, names)? {
        push_line(&mut out, &line)?;
    }
    Ok(out)
}

fn push_line(out: &mut String, line: &EventLine) -> Result<(), OutOfMemory> {
    let number = line.number;
    let time = line.time;
    let words = line.words.as_str();
    Ok(write!(out, "{number}. {time} ms: {words}\n")?)
}
