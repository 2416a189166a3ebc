//! Lists of events through `run`.

use crate::arming::{arm, disarm};
use crate::calls::{Difference, MOST_REQUESTS, Refusals, Trial};
use crate::devices::{is_device_like, made};
use cip_events::{Event, Outcome};
use cip_tables::{Config, Device, run};
use cip_types::OutOfMemory;
use std::alloc::Global;
use std::marker::PhantomData;
use trace_outcomes::is_out_of_memory;
use trace_text::{Recorded, Trace};

/// How many events of a trace make a run, of which each try begins anew.
const MOST_EVENTS: usize = 12;

/// The first events of a trace.
fn first_events(trace: &Trace) -> &[(Event, Recorded)] {
    let events = trace.events.as_slice();
    if events.len() > MOST_EVENTS {
        return &events[..MOST_EVENTS];
    }
    events
}

/// Appends a value, if there is one.
fn push<T: Drop>(values: &mut Vec<T>, value: Result<T, OutOfMemory>) -> Result<(), OutOfMemory> {
    match value {
        Ok(value) => Ok(values.push(value)?),
        Err(refused) => Err(refused),
    }
}

/// A value, if it was completed.
fn completed<T: Drop>(value: T, ended: Result<(), OutOfMemory>) -> Result<T, OutOfMemory> {
    match ended {
        Ok(()) => Ok(value),
        Err(refused) => Err(refused),
    }
}

/// A list of events that a fresh device runs through, for each request that can be refused.
pub struct Ran<D>(PhantomData<D>);

impl<D: Device + Drop> Trial for Ran<D> {
    type On = Vec<Event>;

    type Input = Trace;

    fn begin(alloc: Global, trace: &Trace) -> Result<Vec<Event>, OutOfMemory> {
        let mut events = Vec::new(alloc);
        let ended = copy_events(alloc, &mut events, first_events(trace));
        completed(events, ended)
    }

    fn refuse(
        refusals: &mut Refusals,
        events: &mut Vec<Event>,
        _twin: &mut Vec<Event>,
        trace: &Trace,
    ) -> Result<(), Difference> {
        refuse_runs::<D>(refusals, &trace.config, events.as_slice())
    }
}

/// Appends copies of the events of a trace.
fn copy_events(
    alloc: Global,
    copies: &mut Vec<Event>,
    events: &[(Event, Recorded)],
) -> Result<(), OutOfMemory> {
    for (event, _) in events {
        push(copies, event.copy(alloc))?;
    }
    Ok(())
}

/// Runs fresh devices through the events with the first request refused, then with the second, and so on.
fn refuse_runs<D: Device + Drop>(
    refusals: &mut Refusals,
    config: &Config,
    events: &[Event],
) -> Result<(), Difference> {
    for nth in 0..MOST_REQUESTS {
        if !is_run_refused::<D>(refusals.alloc, config, events, nth + 1)? {
            return Ok(());
        }
        refusals.count = refusals.count.saturating_add(1);
    }
    Err(Difference::Endless)
}

/// One run of a fresh device with the nth request refused. Whether it was.
fn is_run_refused<D: Device + Drop>(
    alloc: Global,
    config: &Config,
    events: &[Event],
    nth: usize,
) -> Result<bool, Difference> {
    match (made::<D>(alloc, config), made::<D>(alloc, config)) {
        (Ok(mut device), Ok(mut twin)) => compare_run(alloc, &mut device, &mut twin, events, nth),
        _ => Err(Difference::OutOfMemory),
    }
}

/// One run of a device with the nth request refused, compared with the steps of its twin. Whether it was refused.
fn compare_run<D: Device>(
    alloc: Global,
    device: &mut D,
    twin: &mut D,
    events: &[Event],
    nth: usize,
) -> Result<bool, Difference> {
    arm(alloc, nth);
    let outcomes = run(alloc, device, events);
    let refused = disarm(alloc);
    judge(twin, events, outcomes, refused)?;
    if is_device_like(device, twin)? {
        return Ok(refused);
    }
    Err(Difference::Changed)
}

/// Compares the outcomes of a run with the steps of a twin. Without outcomes no event happened.
fn judge<D: Device>(
    twin: &mut D,
    events: &[Event],
    outcomes: Result<Vec<Outcome>, OutOfMemory>,
    refused: bool,
) -> Result<(), Difference> {
    match outcomes {
        Ok(outcomes) => compare_outcomes(twin, events, outcomes.as_slice(), refused),
        Err(OutOfMemory) if refused => Ok(()),
        Err(OutOfMemory) => Err(Difference::OutOfMemory),
    }
}

/// Steps a twin at each event whose outcome is not that memory was refused, and compares the outcomes. One was refused
/// if a request was.
fn compare_outcomes<D: Device>(
    twin: &mut D,
    events: &[Event],
    outcomes: &[Outcome],
    refused: bool,
) -> Result<(), Difference> {
    let mut same = events.len() == outcomes.len();
    let mut seen = false;
    for (event, outcome) in events.iter().zip(outcomes.iter()) {
        if is_out_of_memory(outcome) {
            seen = true;
        } else {
            same &= is_outcome(twin, event, outcome);
        }
    }
    match (same, seen == refused) {
        (false, _) => Err(Difference::Result),
        (true, false) => Err(Difference::Unanswered),
        (true, true) => Ok(()),
    }
}

/// Steps a device. Whether it has this outcome.
fn is_outcome<D: Device>(device: &mut D, event: &Event, outcome: &Outcome) -> bool {
    device.step(event) == *outcome
}
