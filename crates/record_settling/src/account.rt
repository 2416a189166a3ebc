//! What a record says of its device's history, and of the receipts.

ghost use Rattle.std.specs.Prelude.{◌≡◌, ◌++◌, None, IfOk, OnOk, map, option_to_list, take};
ghost use Rattle.cip_tables.specs.Step.{AcceptsAll, config_fault};
ghost use Rattle.record_settling.specs.Accounts.{account_history, accounted, cut_of, event_in, role_by, role_of, role_of_datagram, is_silent, next_seen, receipts_from, step_of};

use crate::stream_names::{StreamName, is_of_station, named_answer, named_event, named_stream};
use cip_events::{Answer, Delivery, Event, Notice, Verdict};
use cip_tables::{Config, Device};
use cip_types::{Items, OutOfMemory};
use device_lock::{History, Receipt, Segment};
use std::alloc::Global;
use trace_text::Recorded;

// WHAT IS LEFT OUT

/// What becomes of an event that was answered.
#[derive(Clone, Copy, PartialEq, Eq)]
pub(crate) enum EventRole {
    /// It is part of the history.
    Whole,
    /// It changes nothing and is answered by nothing, and is left out.
    LeftOut,
    /// A station has ended its session, and with it the stream: the history has the cut of the stream in its place.
    Cut,
}

/// Whether an answer has neither frames nor datagrams.
fn is_silent(answer: &Answer) -> bool
    ensures { result ≡ is_silent answer.now }
{
    answer.frames.as_slice().is_empty() && answer.datagrams.as_slice().is_empty()
}

/// What becomes of a message over a stream that its station sent, by the notices of its answer.
fn role_by(stream: u16, notices: &[Notice]) -> EventRole
    ensures { result ≡ role_by stream notices.now }
{
    match notices {
        [] => EventRole::LeftOut,
        [Notice::StreamClosed(closed)] if *closed == stream => EventRole::Cut,
        _ => EventRole::Whole,
    }
}

/// What becomes of a datagram, by its verdict: one that no connection takes is left out.
fn role_of_datagram(verdict: &Verdict) -> EventRole
    ensures { result ≡ role_of_datagram verdict.now }
{
    match verdict {
        Verdict::Delivered(Delivery::UnknownId) => EventRole::LeftOut,
        Verdict::Delivered(Delivery::Malformed) => EventRole::LeftOut,
        _ => EventRole::Whole,
    }
}

/// What becomes of an event with this answer.
pub(crate) fn role_of(event: &Event, answer: &Answer) -> EventRole
    ensures { result ≡ role_of event.now answer.now }
{
    match event {
        Event::Datagram { .. } => role_of_datagram(&answer.verdict),
        Event::Frame { stream, bytes } => {
            if is_of_station(bytes.as_slice()) && is_silent(answer) {
                role_by(*stream, answer.notices.as_slice())
            } else {
                EventRole::Whole
            }
        }
        _ => EventRole::Whole,
    }
}

// STEPS

/// How many streams have begun with an event, of so many.
fn next_seen(most: usize, event: &Event, seen: usize) -> usize
    ensures { result ≡ next_seen most event.now seen }
{
    match event {
        Event::StreamOpened { .. } if seen < most => seen + 1,
        _ => seen,
    }
}

/// The streams that have begun.
fn begun(names: &[StreamName], seen: usize) -> &[StreamName]
    ensures { result.now ≡ take seen names.now }
{
    if seen < names.len() {
        &names[..seen]
    } else {
        names
    }
}

/// The cut of the stream of an event.
fn cut_of(names: &[StreamName], event: &Event) -> Event
    ensures { result ≡ cut_of names.now event.now }
{
    match event {
        Event::Frame { stream, .. } => Event::StreamCut {
            stream: named_stream(names, *stream),
        },
        _ => Event::StreamCut { stream: 0 },
    }
}

/// The event and the answer that a history has for an event with its answer, if it has one.
fn step_of(
    alloc: Global,
    names: &[StreamName],
    event: &Event,
    answer: &Answer,
) -> Result<Option<(Event, Answer)>, OutOfMemory>
    ensures { IfOk result (λ step. step ≡ step_of names.now event.now answer.now) }
{
    match role_of(event, answer) {
        EventRole::LeftOut => Ok(None),
        EventRole::Cut => Ok(Some((cut_of(names, event), Answer::plain(alloc, Verdict::Done)))),
        EventRole::Whole => Ok(Some((
            named_event(alloc, names, event)?,
            named_answer(alloc, names, answer)?,
        ))),
    }
}

/// Appends what a history has for an entry of a record. The streams are those that have begun with it.
fn add_step(
    alloc: Global,
    steps: &mut Vec<(Event, Answer)>,
    names: &[StreamName],
    event: &Event,
    answer: &Answer,
) -> Result<(), OutOfMemory>
    ensures { OnOk result (steps.new.items ≡ steps.old.items
        ++ option_to_list (step_of names.now event.now answer.now)) }
{
    if let Some(step) = step_of(alloc, names, event, answer)? {
        steps.push(step)?;
    }
    Ok(())
}

/// The events of a history with their answers, for the entries of a record and the names of its streams.
pub(crate) fn steps_of(
    alloc: Global,
    names: &[StreamName],
    entries: &[(Event, Recorded)],
) -> Result<Vec<(Event, Answer)>, OutOfMemory>
    ensures { IfOk result (λ steps. steps.items ≡ accounted names.now 0 entries.now) }
{
    let mut steps = Vec::new(alloc);
    let mut seen = 0;
    for entry in entries {
        if let Some(Ok(answer)) = entry.1.get() {
            seen = next_seen(names.len(), &entry.0, seen);
            add_step(alloc, &mut steps, begun(names, seen), &entry.0, answer)?;
        }
    }
    Ok(steps)
}

// HISTORIES AND RECEIPTS

/// The index of the next event of a history.
fn index_of(count: usize) -> Result<u32, OutOfMemory>
    ensures { IfOk result (λ index. index ≡ count) }
{
    match u32::try_from(count) {
        Ok(index) => Ok(index),
        Err(_) => Err(OutOfMemory),
    }
}

/// The events of steps. Appends a receipt for each, in the name of the device of this incarnation.
pub(crate) fn divide(
    alloc: Global,
    byte: u8,
    steps: Vec<(Event, Answer)>,
    receipts: &mut Vec<Receipt>,
) -> Result<Vec<Event>, OutOfMemory>
    ensures events { IfOk result (λ events. events.items ≡ map event_in steps.items) }
    ensures receipts { OnOk result (receipts.new.items ≡ receipts.old.items ++ receipts_from byte 0 steps.items) }
{
    let mut events = Vec::new(alloc);
    for step in steps {
        let (event, answer) = step;
        let index = index_of(events.len())?;
        receipts.push(Receipt {
            device: byte,
            segment: 0,
            index,
            event: event.copy(alloc)?,
            answer,
        })?;
        events.push(event)?;
    }
    Ok(events)
}

/// The history of a device that has these events.
pub(crate) fn history_of<D: Device + Drop>(
    alloc: Global,
    config: &Config,
    events: Vec<Event>,
) -> Result<History, OutOfMemory>
    requires accepts { AcceptsAll D.accepts }
    requires valid { config_fault config.now ≡ None }
    ensures { IfOk result (λ history. history ≡ account_history config.now events.items) }
{
    let opening = match D::new(alloc, config.copy(alloc)?) {
        Ok(device) => device.copy()?,
        Err(_) => return Err(OutOfMemory),
    };
    let mut segments = Vec::new(alloc);
    segments.push(Segment {
        opening,
        events: Items::from_vec(events),
    })?;
    History::new::<D>(alloc, config.copy(alloc)?, segments).ok_or(OutOfMemory)
}

/// The place among the entries of a record of the event that has this place in its history.
pub(crate) fn kept_place(entries: &[(Event, Recorded)], place: u64) -> usize {
    let mut count: u64 = 0;
    for (at, entry) in entries.iter().enumerate() {
        if is_kept(entry) {
            if count == place {
                return at;
            }
            count = count.saturating_add(1);
        }
    }
    entries.len()
}

/// Whether a history has the event of an entry, or a cut in its place.
fn is_kept(entry: &(Event, Recorded)) -> bool {
    match entry.1.get() {
        Some(Ok(answer)) => role_of(&entry.0, answer) != EventRole::LeftOut,
        _ => false,
    }
}
