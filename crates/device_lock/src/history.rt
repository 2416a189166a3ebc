//! All segments of one device.

ghost use Rattle.std.specs.Prelude.{◌≡◌, ◌↔◌, ◌<◌, ◌^◌, [], ◌∷◌, true, None, sum, IfOk, IfSome, IsTrue, slice_get, option_copied};
ghost use Rattle.cip_tables.specs.Step.{opening_table, config_fault, step};
ghost use Rattle.cip_tables.specs.Run.{outcome_of, outcomes_of, table_after, table_of};
ghost use Rattle.device_lock.specs.Histories.{history_of, place_in, Follow};

use crate::segment::Segment;
use cip_tables::{Config, Device, Event, NewFault, Outcome, StepFault, TableCopy};
use cip_types::OutOfMemory;
use std::alloc::Global;
use std::marker::Model;

/// What happened at one device since it was made: its configuration, and the events of all its segments. Contracts see
/// the configuration, the events in one list, and the number of events of each segment.
#[derive(Drop)]
pub struct History {
    config: Config,
    events: Vec<Event>,
    counts: Vec<usize>,
}

impl Model for History {
    ghost use Rattle.std.specs.Prelude.{◌≡◌, sum, length};
    ghost use Rattle.device_lock.specs.Histories.{HistoryValue};

    ghost Value = { HistoryValue };

    ghost view = { λ h. record { config = h.config; events = h.events.items; counts = h.counts.items } };

    ghost invariant = { λ h. sum h.counts.items ≡ length h.events.items };
}

impl History {
    /// The history of the segments of a device, in their order.
    ///
    /// None only if the segments do not follow on one another, as `follow` decides, or if an allocation was refused.
    pub fn new<D: Device + Drop>(
        alloc: Global,
        config: Config,
        segments: Vec<Segment>,
    ) -> Option<History>
        requires valid { config_fault config ≡ None }
        requires accepts { D.accepts config ≡ true }
        ensures history { IfSome result (λ history. history ≡ history_of config segments.items) }
        ensures follow { IfSome result (λ _. Follow (opening_table config) segments.items) }
    {
        match History::follow::<D>(alloc, &config, segments.as_slice()) {
            Ok(true) => joined(alloc, config, segments).ok(),
            _ => None,
        }
    }

    /// Whether the first segment opens with the table of a fresh device, and each further one with the table that
    /// the events of the one before lead to. An empty list of segments does.
    pub fn follow<D: Device + Drop>(
        alloc: Global,
        config: &Config,
        segments: &[Segment],
    ) -> Result<bool, OutOfMemory>
        requires valid { config_fault config.now ≡ None }
        requires accepts { D.accepts config.now ≡ true }
        ensures { IfOk result (λ answer. IsTrue answer ↔ Follow (opening_table config.now) segments.now) }
    {
        let mut device = fresh::<D>(alloc, config)?;
        for segment in segments {
            if !device.copy()?.same(&segment.opening) {
                return Ok(false);
            }
            replay(&mut device, segment.events.as_slice())?;
        }
        Ok(true)
    }

    /// The configuration that the device was made of. Takes no memory.
    pub fn config(&self) -> &Config
        ensures { result.now ≡ self.now.config }
    {
        &self.config
    }

    /// The events of all segments. Takes no memory.
    pub fn events(&self) -> &[Event]
        ensures { result.now ≡ self.now.events }
    {
        self.events.as_slice()
    }

    /// The event at a place, from 0. Takes no memory.
    pub fn event(&self, place: usize) -> Option<&Event>
        ensures { option_copied result ≡ slice_get self.now.events place }
    {
        self.events.get(place)
    }

    /// What the device answered to each of the events, in order: a fresh device is run over them.
    pub fn outcomes<D: Device + Drop>(&self, alloc: Global) -> Result<Vec<Outcome>, OutOfMemory>
        requires valid { config_fault self.now.config ≡ None }
        requires accepts { D.accepts self.now.config ≡ true }
        ensures { IfOk result
            (λ outcomes. outcomes.items ≡ outcomes_of (opening_table self.now.config) self.now.events) }
    {
        outcomes_at(
            alloc,
            fresh::<D>(alloc, &self.config)?,
            self.events.as_slice(),
        )
    }

    /// The table of the device behind its last event: a fresh device is run over them.
    pub fn last_table<D: Device + Drop>(&self, alloc: Global) -> Result<TableCopy, OutOfMemory>
        requires valid { config_fault self.now.config ≡ None }
        requires accepts { D.accepts self.now.config ≡ true }
        ensures { IfOk result (λ table. table ≡ table_after (opening_table self.now.config) self.now.events) }
    {
        let mut device = fresh::<D>(alloc, &self.config)?;
        replay(&mut device, self.events.as_slice())?;
        device.copy()
    }

    /// The place of the event that has a segment and an index in a receipt; None where there is no such segment,
    /// or it has no such event. Takes no memory.
    pub fn place_of(&self, segment: u16, index: u32) -> Option<usize>
        ensures { result ≡ place_in self.now.counts segment index }
    {
        let count = self.counts.get(usize::from(segment))?;
        let index = index as usize;
        if index >= *count {
            return None;
        }
        // (gives the prover that all counts together fit a usize)
        let _few = self.events.len();
        Some(total(&self.counts[..usize::from(segment)]) + index)
    }
}

/// A fresh device.
fn fresh<D: Device + Drop>(alloc: Global, config: &Config) -> Result<D, OutOfMemory>
    requires valid { config_fault config.now ≡ None }
    requires accepts { D.accepts config.now ≡ true }
    ensures { IfOk result (λ device. D.table device ≡ opening_table config.now) }
{
    match D::new(alloc, config.copy(alloc)?) {
        Ok(device) => Ok(device),
        Err(NewFault::OutOfMemory) => Err(OutOfMemory),
        // (a valid configuration that is accepted is refused for lack of memory alone)
        Err(_) => unreachable!(),
    }
}

/// Runs a device over stored events.
fn replay<D: Device>(device: &mut D, events: &[Event]) -> Result<(), OutOfMemory>
    ensures { IfOk result (λ _. D.table device.new ≡ table_after (D.table device.old) events.now) }
{
    for event in events {
        repeat(device, event)?;
    }
    Ok(())
}

/// Steps a device at one stored event. A device that refuses the event stays as it was.
fn repeat<D: Device>(device: &mut D, event: &Event) -> Result<(), OutOfMemory>
    ensures { IfOk result (λ _. D.table device.new ≡ table_after (D.table device.old) (event.now ∷ [])) }
{
    match device.step(event) {
        Ok(_) => Ok(()),
        Err(StepFault::OutOfMemory) => Err(OutOfMemory),
        Err(_) => Ok(()),
    }
}

/// What a device answers to events, one after another.
fn outcomes_at<D: Device + Drop>(
    alloc: Global,
    device: D,
    events: &[Event],
) -> Result<Vec<Outcome>, OutOfMemory>
    ensures { IfOk result (λ outcomes. outcomes.items ≡ outcomes_of (D.table device) events.now) }
{
    let mut device = device;
    let mut outcomes = Vec::new(alloc);
    for event in events {
        let outcome = outcome_at(&mut device, event)?;
        outcomes.push(outcome)?;
    }
    Ok(outcomes)
}

/// What a device answers to an event. Want of memory is a fault of the call, and no outcome.
fn outcome_at<D: Device>(device: &mut D, event: &Event) -> Result<Outcome, OutOfMemory>
    ensures outcome { IfOk result (λ outcome. outcome ≡ outcome_of (step (D.table device.old) event.now)) }
    ensures table { IfOk result
        (λ _. D.table device.new ≡ table_of (D.table device.old) (step (D.table device.old) event.now)) }
{
    match device.step(event) {
        Ok(answer) => Ok(Ok(answer)),
        Err(StepFault::OutOfMemory) => Err(OutOfMemory),
        Err(fault) => Ok(Err(fault)),
    }
}

/// How many events some segments have.
fn total(counts: &[usize]) -> usize
    requires { sum counts.now < 2 ^ 64 }
    ensures { result ≡ sum counts.now }
{
    counts.iter().sum()
}

/// The events of a segment. What else it holds is dropped here, apart from the loop that takes them.
fn into_events(segment: Segment) -> Vec<Event>
    ensures { result.items ≡ segment.events }
{
    segment.events.into_vec()
}

/// The history of segments, whose events it takes out of them.
fn joined(alloc: Global, config: Config, segments: Vec<Segment>) -> Result<History, OutOfMemory>
    ensures { IfOk result (λ history. history ≡ history_of config segments.items) }
{
    let mut counts = Vec::with_capacity(alloc, segments.len())?;
    let mut events = Vec::new(alloc);
    for segment in segments {
        let mut more = into_events(segment);
        counts.push(more.len())?;
        events.append(&mut more)?;
    }
    Ok(History {
        config,
        events,
        counts,
    })
}
