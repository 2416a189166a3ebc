//! Who sent what a device took: the record of its address, and there an answer that has the datagram.

ghost use Rattle.std.specs.Prelude.{◌≡◌, ◌↔◌, IsTrue};
ghost use Rattle.cip_datagram.specs.Datagram.{view_datagram};
ghost use Rattle.record_settling.specs.Senders.{AnySends, EntrySends, IsSentAs, WasSent, has_numbers, is_bare, peer_of};

use crate::account::{EventRole, role_of};
use crate::fault::RecordsFault;
use crate::stream_names::{EventPlace, record_of};
use cip_datagram::{Datagram, read_datagram};
use cip_events::{Answer, Event, OutgoingDatagram};
use cip_types::Node;
use std::alloc::Global;
use trace_text::{Recorded, Trace};

/// The address that an event comes from, if it comes from another device.
fn peer_of(event: &Event) -> Option<Node>
    ensures { result ≡ peer_of event.now }
{
    match event {
        Event::StreamOpened { peer, .. } => Some(*peer),
        Event::Datagram { peer, .. } => Some(*peer),
        _ => None,
    }
}

// DATAGRAMS

/// Whether two datagrams have one connection id, one sequence number and one sequence count.
fn is_bare(one: &[u8], other: &[u8]) -> bool
    ensures { result ≡ is_bare one.now other.now }
{
    match (read_datagram(one), read_datagram(other)) {
        (Ok(one), Ok(other)) => has_numbers(&one, &other),
        _ => false,
    }
}

fn has_numbers(one: &Datagram<'_>, other: &Datagram<'_>) -> bool
    ensures { result ≡ has_numbers (view_datagram one.now) (view_datagram other.now) }
{
    one.connection.0 == other.connection.0
        && one.sequence == other.sequence
        && one.count == other.count
}

/// Whether a datagram that was sent is the one with these bytes. A record may have those bare: without their data.
fn is_sent_as(bytes: &[u8], bare: bool, sent: &OutgoingDatagram) -> bool
    ensures { IsTrue result ↔ IsSentAs bytes.now bare sent.now }
{
    if bare {
        is_bare(bytes, sent.bytes.as_slice())
    } else {
        bytes == sent.bytes.as_slice()
    }
}

/// Whether one of these datagrams is the one with these bytes.
fn any_sends(bytes: &[u8], bare: bool, datagrams: &[OutgoingDatagram]) -> bool
    ensures { IsTrue result ↔ AnySends bytes.now bare datagrams.now }
{
    for sent in datagrams {
        if is_sent_as(bytes, bare, sent) {
            return true;
        }
    }
    false
}

/// Whether the answer of an entry sends the datagram.
fn entry_sends(bytes: &[u8], bare: bool, entry: &(Event, Recorded)) -> bool
    ensures { IsTrue result ↔ EntrySends bytes.now bare entry.now }
{
    match entry.1.get() {
        Some(Ok(answer)) => any_sends(bytes, bare, answer.datagrams.as_slice()),
        _ => false,
    }
}

/// Whether a record has sent the datagram.
fn was_sent(bytes: &[u8], bare: bool, entries: &[(Event, Recorded)]) -> bool
    ensures { IsTrue result ↔ WasSent bytes.now bare entries.now }
{
    for entry in entries {
        if entry_sends(bytes, bare, entry) {
            return true;
        }
    }
    false
}

/// The first entry from a place on whose answer sends the datagram.
fn sent_from(
    bytes: &[u8],
    bare: bool,
    entries: &[(Event, Recorded)],
    from: usize,
) -> Option<usize> {
    for place in from..entries.len() {
        if entry_sends(bytes, bare, &entries[place]) {
            return Some(place);
        }
    }
    None
}

// THE RECORDS

/// Fails with the first event of the first record that comes from an address without a record, or over no stream, or that
/// brings a datagram which the device of its address never sent.
pub(crate) fn check_senders(alloc: Global, records: &[Trace]) -> Result<(), RecordsFault> {
    for (place, record) in records.iter().enumerate() {
        check_record(alloc, records, place, record)?;
    }
    Ok(())
}

/// Fails with the first such event of a record.
fn check_record(
    alloc: Global,
    records: &[Trace],
    place: usize,
    record: &Trace,
) -> Result<(), RecordsFault> {
    let mut from = vec![in alloc; 0; records.len()]?;
    for (event, entry) in record.events.as_slice().iter().enumerate() {
        let at = EventPlace {
            record: place,
            event,
        };
        if let Some(Ok(answer)) = entry.1.get() {
            check_event(records, &mut from, at, &entry.0, answer)?;
        }
    }
    Ok(())
}

/// Fails if an event that was answered comes from nobody. Of each record it is kept where the next datagram is looked for.
fn check_event(
    records: &[Trace],
    from: &mut Vec<usize>,
    at: EventPlace,
    event: &Event,
    answer: &Answer,
) -> Result<(), RecordsFault> {
    if let Event::Request { .. } = event {
        return Err(RecordsFault::Streamless(at));
    }
    let Some(peer) = peer_of(event) else {
        return Ok(());
    };
    let Some(sender) = record_of(records, peer) else {
        return Err(RecordsFault::Outsider(at, peer));
    };
    let Event::Datagram { bytes, .. } = event else {
        return Ok(());
    };
    let bare = role_of(event, answer) == EventRole::LeftOut;
    if is_found(records, from, sender, bytes.as_slice(), bare) {
        Ok(())
    } else {
        Err(RecordsFault::Unsent(at))
    }
}

/// Whether a record has sent a datagram: it is looked for behind the last one first.
fn is_found(
    records: &[Trace],
    from: &mut Vec<usize>,
    sender: usize,
    bytes: &[u8],
    bare: bool,
) -> bool {
    let Some(record) = records.get(sender) else {
        return false;
    };
    let entries = record.events.as_slice();
    let begin = match from.get(sender) {
        Some(begin) => *begin,
        None => 0,
    };
    let Some(place) = sent_from(bytes, bare, entries, begin) else {
        return was_sent(bytes, bare, entries);
    };
    if let Some(next) = from.get_mut(sender) {
        *next = place;
    }
    true
}
