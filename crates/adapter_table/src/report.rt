//! What an adapter says of its connections.

ghost use Rattle.std.specs.Prelude.{◌≡◌, ◌≤◌, ◌^◌};
ghost use Rattle.adapter_table.specs.States.{class3_report, report_of, consumes};

use crate::row::{Mode, Row};
use crate::rows::is_established;
use cip_productions::{Age, Kind, age_of};
use cip_types::{ConnId, Ms, Node, Triad};
use messaging::Class3Connection;

/// What is known of a class 1 connection of an adapter.
///
/// Volume 1, chapter 3, connection object instance attributes.
#[derive(Clone, Copy, PartialEq, Eq)]
pub struct ConnectionReport {
    pub triad: Triad,
    /// The originator.
    pub peer: Node,
    /// The connection id of the datagrams that it accepts.
    pub o_t_id: ConnId,
    /// The connection id of the datagrams that are produced for it.
    pub t_o_id: ConnId,
    pub kind: Kind,
    /// The point that it consumes: an output, or a heartbeat.
    pub consumed: u32,
    /// The input that is produced for it.
    pub produced: u32,
    /// False if it has timed out.
    pub established: bool,
    /// The actual packet interval from originator to target, in milliseconds.
    pub o_t_api_ms: u32,
    /// The actual packet interval from target to originator, in milliseconds.
    pub t_o_api_ms: u32,
    /// The mode of the newest data that it accepted. None before the first datagram, and of a connection without
    /// O->T data.
    pub mode: Option<Mode>,
    /// The age of the newest datagram that it accepted.
    pub age: Age,
}

/// What is known of a class 3 connection of an adapter.
///
/// Volume 1, chapter 3, connection object instance attributes and transport class 3.
#[derive(Clone, Copy, PartialEq, Eq)]
pub struct Class3Report {
    pub triad: Triad,
    /// The originator.
    pub peer: Node,
    /// The stream that it lives on.
    pub stream: u16,
    /// The connection id of its requests.
    pub o_t_id: ConnId,
    /// The connection id of their replies.
    pub t_o_id: ConnId,
    /// The actual packet interval from originator to target, in milliseconds.
    pub o_t_api_ms: u32,
    /// The actual packet interval from target to originator, in milliseconds.
    pub t_o_api_ms: u32,
}

/// A connection of an adapter, of either class.
///
/// Volume 1, chapter 3, transport classes.
#[derive(Clone, Copy, PartialEq, Eq)]
pub enum AnyConnection {
    /// One of class 1: implicit messages, as datagrams.
    Class1(ConnectionReport),
    /// One of class 3: explicit messages, over its stream.
    Class3(Class3Report),
}

/// How many established connections consume an input, by their kinds.
#[derive(Clone, Copy, PartialEq, Eq)]
pub struct ConsumerCounts {
    pub exclusive_owners: usize,
    pub input_only: usize,
    pub listen_only: usize,
}

/// What is known of a connection at a time. Takes no memory.
pub fn report_of(row: &Row, clock: Ms) -> ConnectionReport
    requires waits { row.now.watchdog.0 ≤ 5120000 }
    requires time { clock.0 ≤ 2 ^ 48 }
    ensures { result ≡ report_of clock row.now }
{
    ConnectionReport {
        triad: row.triad,
        peer: row.peer,
        o_t_id: row.o_t_id,
        t_o_id: row.t_o_id,
        kind: row.kind,
        consumed: row.consumed,
        produced: row.produced,
        established: is_established(row),
        o_t_api_ms: row.o_t_api_ms,
        t_o_api_ms: row.t_o_api_ms,
        mode: row.mode,
        age: age_of(clock, row.last, row.watchdog, row.deadline),
    }
}

/// What is known of a class 3 connection. Takes no memory.
pub fn class3_report(connection: &Class3Connection) -> Class3Report
    ensures { result ≡ class3_report connection.now }
{
    Class3Report {
        triad: connection.triad,
        peer: connection.peer,
        stream: connection.stream,
        o_t_id: connection.o_t_id,
        t_o_id: connection.t_o_id,
        o_t_api_ms: connection.o_t_api_ms,
        t_o_api_ms: connection.t_o_api_ms,
    }
}

/// Whether an established connection of a kind consumes an input. Takes no memory.
pub fn consumes(row: &Row, kind: Kind, point: u32) -> bool
    ensures { result ≡ consumes kind point row.now }
{
    is_established(row) && row.kind == kind && row.produced == point
}
