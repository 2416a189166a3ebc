//! What is missing, in words.

use cip_events::Event;
use cip_types::{Node, OutOfMemory};
use record_settling::{EventPlace, RecordsFault, byte_of, node_of};
use trace_text::Trace;
use trace_words::{push_node, push_text};

/// The records, each with the name of its first file.
#[derive(Clone, Copy)]
pub(crate) struct NamedRecords<'a> {
    pub files: &'a [String],
    pub firsts: &'a [usize],
    pub traces: &'a [Trace],
}

impl NamedRecords<'_> {
    /// The name of a record.
    fn name(&self, record: usize) -> &str {
        match self.firsts.get(record) {
            Some(first) => match self.files.get(*first) {
                Some(file) => file.as_str(),
                None => "",
            },
            None => "",
        }
    }

    /// The event at a place.
    fn event(&self, at: EventPlace) -> Option<&Event> {
        let trace = self.traces.get(at.record)?;
        let entry = trace.events.as_slice().get(at.event)?;
        Some(&entry.0)
    }

    /// The peer of the stream of an event: that of the last opening of its number before it.
    fn peer_of(&self, at: EventPlace, stream: u16) -> Option<Node> {
        let trace = self.traces.get(at.record)?;
        let mut last = None;
        for (place, entry) in trace.events.as_slice().iter().enumerate() {
            if let Event::StreamOpened {
                stream: opened,
                peer,
            } = &entry.0
            {
                if place <= at.event && *opened == stream {
                    last = Some(*peer);
                }
            }
        }
        last
    }
}

/// Appends the line of a fault.
pub(crate) fn push_fault(
    out: &mut String,
    records: NamedRecords<'_>,
    fault: RecordsFault,
) -> Result<(), OutOfMemory> {
    match fault {
        RecordsFault::SameIncarnation(one, other) => {
            push_two(out, records, one, other)?;
            push_incarnation(out, records, one)?;
        }
        RecordsFault::SameNode(one, other) => {
            push_two(out, records, one, other)?;
            push_address(out, records, one)?;
        }
        RecordsFault::SharedIds(one, other) => {
            push_two(out, records, one, other)?;
            push_text(out, "their blocks have a connection id in common")?;
        }
        RecordsFault::Profile(record) => {
            write!(out, "{}: its profile is bad", records.name(record))?;
        }
        RecordsFault::Foreign(byte, index) => {
            write!(
                out,
                "the device of incarnation {byte}: the answer to event {index} of its history depends on events that are left out"
            )?;
        }
        RecordsFault::Streams => push_text(out, "more than 65536 streams")?,
        _ => push_at(out, records, fault)?,
    }
    push_text(out, "\n")
}

/// Appends the names of two records.
fn push_two(
    out: &mut String,
    records: NamedRecords<'_>,
    one: usize,
    other: usize,
) -> Result<(), OutOfMemory> {
    write!(out, "{} and {}: ", records.name(one), records.name(other))?;
    Ok(())
}

fn push_incarnation(
    out: &mut String,
    records: NamedRecords<'_>,
    record: usize,
) -> Result<(), OutOfMemory> {
    if let Some(trace) = records.traces.get(record) {
        let byte = byte_of(&trace.config);
        write!(
            out,
            "both are of incarnation {byte}, so their connection ids begin alike"
        )?;
    }
    Ok(())
}

fn push_address(
    out: &mut String,
    records: NamedRecords<'_>,
    record: usize,
) -> Result<(), OutOfMemory> {
    if let Some(trace) = records.traces.get(record) {
        push_text(out, "both are of ")?;
        push_node(out, node_of(trace))?;
        push_text(out, ", and a history is that of one life of a device")?;
    }
    Ok(())
}

/// Appends the fault of one event.
fn push_at(
    out: &mut String,
    records: NamedRecords<'_>,
    fault: RecordsFault,
) -> Result<(), OutOfMemory> {
    match fault {
        RecordsFault::Unrecorded(at) => {
            push_place(out, records, at)?;
            push_text(out, "no outcome is recorded")
        }
        RecordsFault::Differs(at) => {
            push_place(out, records, at)?;
            push_text(
                out,
                "the device gives another outcome than the recorded one",
            )
        }
        RecordsFault::Outsider(at, node) => {
            push_what(out, records, at)?;
            push_text(out, " of ")?;
            push_node(out, node)?;
            push_text(out, ", which has no record")
        }
        RecordsFault::Streamless(at) => {
            push_place(out, records, at)?;
            push_text(out, "a request without a stream, which no device sends")
        }
        RecordsFault::Unsent(at) => push_unsent(out, records, at, " that was never sent by "),
        RecordsFault::UnsentFrame(at) => {
            push_unsent(out, records, at, " that was not sent in its place by ")
        }
        RecordsFault::Uncaused(at) => {
            push_what(out, records, at)?;
            push_text(out, " that comes before its cause")
        }
        _ => push_text(out, "no memory"),
    }
}

/// Appends a thing that was not sent.
fn push_unsent(
    out: &mut String,
    records: NamedRecords<'_>,
    at: EventPlace,
    words: &str,
) -> Result<(), OutOfMemory> {
    push_what(out, records, at)?;
    push_text(out, words)?;
    match sender_of(records, at) {
        Some(node) => push_node(out, node),
        None => push_text(out, "its peer"),
    }
}

/// The address that an event comes from.
fn sender_of(records: NamedRecords<'_>, at: EventPlace) -> Option<Node> {
    match records.event(at)? {
        Event::Datagram { peer, .. } => Some(*peer),
        Event::StreamOpened { peer, .. } => Some(*peer),
        Event::Frame { stream, .. } => records.peer_of(at, *stream),
        Event::StreamCut { stream } => records.peer_of(at, *stream),
        _ => None,
    }
}

/// Appends the name of a record, and the number of an event there, from 1.
fn push_place(
    out: &mut String,
    records: NamedRecords<'_>,
    at: EventPlace,
) -> Result<(), OutOfMemory> {
    let number = at.event.saturating_add(1);
    write!(out, "{}: event {number}: ", records.name(at.record))?;
    Ok(())
}

/// Appends where an event is, and what it is.
fn push_what(
    out: &mut String,
    records: NamedRecords<'_>,
    at: EventPlace,
) -> Result<(), OutOfMemory> {
    push_place(out, records, at)?;
    match records.event(at) {
        Some(Event::Datagram { .. }) => push_text(out, "a datagram"),
        Some(Event::Inquiry { .. }) => push_text(out, "an inquiry"),
        Some(Event::StreamOpened { stream, .. }) => Ok(write!(
            out,
            "the opening of stream {stream}"
        )?),
        Some(Event::Frame { stream, .. }) => Ok(write!(out, "a message over stream {stream}")?),
        Some(Event::StreamCut { stream }) => Ok(write!(out, "the end of stream {stream}")?),
        _ => push_text(out, "an event"),
    }
}
