//! What a port reports of its streams.

use cip_types::Node;

/// Why a stream ended.
#[derive(Clone, Copy, Debug, PartialEq, Eq)]
pub enum EndCause {
    /// Its peer ended it, or it broke.
    Cut,
    /// No whole message came over it for the inactivity time-out.
    Silent,
    /// A new stream took its place.
    Displaced,
    /// Its target did not answer RegisterSession in time.
    NoSession,
    /// Its target refused RegisterSession.
    SessionRefused,
    /// The station asked for a new stream: a request was not answered in time.
    Renewed,
    /// Its peer sent a message that is longer than a device takes.
    TooLong,
    /// There was no memory for a message.
    NoMemory,
}

/// Why a stream did not open.
#[derive(Clone, Copy, Debug, PartialEq, Eq)]
pub enum RefusalCause {
    /// All streams are taken, and none may make room.
    Full,
    /// The target refused it. The next try is after so many milliseconds.
    Refused { retry_ms: u64 },
    /// The target did not answer in time. The next try is after so many milliseconds.
    Unanswered { retry_ms: u64 },
}

/// What happened at a stream of a port.
#[derive(Clone, Copy, PartialEq, Eq)]
pub enum PortReport {
    /// A stream of this number is open.
    Opened {
        stream: u16,
        peer: Node,
    },
    /// The stream of this number ended.
    Ended {
        stream: u16,
        peer: Node,
        cause: EndCause,
    },
    /// A stream did not open.
    NotOpened {
        peer: Node,
        cause: RefusalCause,
    },
}
