//! What a station notes of the state of a connection or a slot: since when, its time-outs, and why a slot is not open.

ghost use Rattle.std.specs.Prelude.{◌≡◌};
ghost use Rattle.station_lines.specs.Watch.Notes.{changed_note, is_target, note_since, opened_note, refused_note, stream_after, stream_refusal, timed_out_note};

use cip_events::{Reason, SlotPhase};
use cip_types::Node;
use udp_runner::{PortReport, RefusalCause};

/// Why there is no stream to a target.
#[derive(Clone, Copy, PartialEq, Eq)]
pub struct StreamRefusal {
    /// Whether the target refused it; else it did not answer.
    pub refused: bool,
    /// When it is tried again, in the milliseconds of all ticks.
    pub next_ms: u64,
}

/// The state of a connection of an adapter, or of the slot of a scanner.
#[derive(Clone, Copy)]
pub struct StateNote {
    /// Since when it has its state, in the milliseconds of all ticks.
    pub since_ms: u64,
    /// Its time-outs; the count ends at 2^64 - 1.
    pub time_outs: u64,
    /// The time of the last one.
    pub last_time_out_ms: Option<u64>,
    /// Why a slot was not opened last, since it was open.
    pub refusal: Option<Reason>,
    /// Why there was no stream to its target last, since there was one.
    pub stream: Option<StreamRefusal>,
}

impl StateNote {
    /// It has its state since this time.
    pub fn since(ms: u64) -> StateNote
        ensures { result ≡ note_since ms }
    {
        StateNote {
            since_ms: ms,
            time_outs: 0,
            last_time_out_ms: None,
            refusal: None,
            stream: None,
        }
    }

    /// The note of a connection that is established at this time.
    pub fn opened(self, ms: u64) -> StateNote
        ensures { result ≡ opened_note ms self }
    {
        StateNote {
            since_ms: ms,
            refusal: None,
            stream: None,
            ..self
        }
    }

    /// The note of a slot that changes at this time to the state of this number.
    pub fn changed(self, ms: u64, state: u8) -> StateNote
        ensures { result ≡ changed_note ms state self }
    {
        if state == SlotPhase::TimedOut.number() {
            return self.timed_out(ms);
        }
        StateNote {
            since_ms: ms,
            ..self
        }
    }

    /// The note of a connection that times out at this time.
    pub fn timed_out(self, ms: u64) -> StateNote
        ensures { result ≡ timed_out_note ms self }
    {
        StateNote {
            since_ms: ms,
            time_outs: self.time_outs.saturating_add(1),
            last_time_out_ms: Some(ms),
            ..self
        }
    }

    /// The note of a slot that is not opened, for this reason.
    pub fn refused(self, reason: Reason) -> StateNote
        ensures { result ≡ refused_note reason self }
    {
        StateNote {
            refusal: Some(reason),
            ..self
        }
    }
}

/// Why there is no stream to the target of a slot, after a report of the port at this time.
pub(crate) fn stream_after(
    known: Option<StreamRefusal>,
    target: Option<Node>,
    ms: u64,
    report: &PortReport,
) -> Option<StreamRefusal>
    ensures { result ≡ stream_after known target ms report.now }
{
    match report {
        PortReport::Opened { stream: _, peer } if is_target(target, *peer) => None,
        PortReport::NotOpened { peer, cause } if is_target(target, *peer) => {
            stream_refusal(known, ms, *cause)
        }
        _ => known,
    }
}

/// Whether this is the target.
fn is_target(target: Option<Node>, peer: Node) -> bool
    ensures { result ≡ is_target target peer }
{
    match target {
        Some(target) => target == peer,
        None => false,
    }
}

/// Why there is no stream: it was refused or not answered at this time. A port whose streams are all taken says nothing of it.
fn stream_refusal(
    known: Option<StreamRefusal>,
    ms: u64,
    cause: RefusalCause,
) -> Option<StreamRefusal>
    ensures { result ≡ stream_refusal known ms cause }
{
    match cause {
        RefusalCause::Full => known,
        RefusalCause::Refused { retry_ms } => Some(StreamRefusal {
            refused: true,
            next_ms: ms.saturating_add(retry_ms),
        }),
        RefusalCause::Unanswered { retry_ms } => Some(StreamRefusal {
            refused: false,
            next_ms: ms.saturating_add(retry_ms),
        }),
    }
}
