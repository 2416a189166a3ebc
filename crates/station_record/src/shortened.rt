//! Datagrams that no connection takes, as they are recorded.

ghost use Rattle.std.specs.Prelude.{◌≡◌, ◌++◌, IfOk, OnOk, string_bytes};
ghost use Rattle.cip_datagram.specs.Reading.{datagram_reading};
ghost use Rattle.cip_events.specs.Outcomes.{Outcome};
ghost use Rattle.trace_words.specs.Words.{line_text};
ghost use Rattle.trace_text.specs.Written.{event_words};
ghost use Rattle.station_record.specs.Shortened.{bare_bytes, is_for_none, is_lost, is_lost_by, recorded_event, IsBare, Repeats};

use cip_datagram::{Datagram, fixed_part, read_datagram, reads_back};
use cip_events::{Delivery, Verdict};
use cip_tables::{Event, Outcome};
use cip_types::{Items, Node, OutOfMemory};
use std::alloc::Global;
use trace_text::push_event;

/// Appends the line of an event as it is recorded: that of a datagram that no connection can take has no data, and no bytes
/// at all if it is malformed.
pub fn push_recorded_event(
    alloc: Global,
    out: &mut String,
    event: &Event,
    outcome: &Outcome,
) -> Result<(), OutOfMemory>
    ensures { OnOk result (string_bytes out.new ≡ string_bytes out.old
        ++ line_text (event_words (recorded_event event.now outcome.now))) }
{
    match event {
        Event::Datagram { peer, bytes } => {
            if is_for_none(outcome) {
                push_bare(alloc, out, *peer, bytes.as_slice())
            } else {
                push_event(out, event)
            }
        }
        _ => push_event(out, event),
    }
}

/// Appends the line of a datagram without its data.
fn push_bare(alloc: Global, out: &mut String, peer: Node, bytes: &[u8]) -> Result<(), OutOfMemory>
    ensures { OnOk result (string_bytes out.new ≡ string_bytes out.old
        ++ line_text (event_words (Event.Datagram peer (bare_bytes (datagram_reading bytes.now))))) }
{
    let bytes = bare_bytes(alloc, bytes)?;
    push_event(out, &Event::Datagram { peer, bytes })
}

/// Does nothing. Its contract is a law: each table at which an event has an outcome takes the event as it is recorded as it
/// takes the event itself.
pub fn repeats(event: &Event)
    ensures { (outcome : Outcome) → Repeats event.now outcome }
{
    if let Event::Datagram { bytes, .. } = event {
        stays_itself(bytes.as_slice());
    }
}

/// Does nothing. Its contract is a law: bytes of a datagram that are recorded without its data are a datagram with the same
/// ids, number and count, and those of no datagram are none.
fn stays_itself(bytes: &[u8])
    ensures { IsBare (datagram_reading bytes.now) (datagram_reading (bare_bytes (datagram_reading bytes.now))) }
{
    reads_back();
    let _reading = read_datagram(bytes);
}

/// Whether an outcome is that of a datagram that no connection can take.
fn is_for_none(outcome: &Outcome) -> bool
    ensures { result ≡ is_for_none outcome.now }
{
    match outcome {
        Ok(answer) => is_lost_by(&answer.verdict),
        Err(_) => false,
    }
}

/// Whether a verdict is that of a datagram that no connection can take.
fn is_lost_by(verdict: &Verdict) -> bool
    ensures { result ≡ is_lost_by verdict.now }
{
    match verdict {
        Verdict::Delivered(delivery) => is_lost(*delivery),
        _ => false,
    }
}

fn is_lost(delivery: Delivery) -> bool
    ensures { result ≡ is_lost delivery }
{
    match delivery {
        Delivery::UnknownId => true,
        Delivery::Malformed => true,
        _ => false,
    }
}

/// The shortest bytes with the same ids, number and count, and no data; no bytes for those that are no datagram.
fn bare_bytes(alloc: Global, bytes: &[u8]) -> Result<Items<u8>, OutOfMemory>
    ensures { IfOk result (λ bare. bare ≡ bare_bytes (datagram_reading bytes.now)) }
{
    match read_datagram(bytes) {
        Ok(datagram) => {
            let bare = Datagram {
                data: &[],
                ..datagram
            };
            Items::copy_of(alloc, &fixed_part(&bare))
        }
        Err(_) => Ok(Items::new(alloc)),
    }
}
