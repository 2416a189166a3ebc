//! What an adapter says of itself.

ghost use Rattle.std.specs.Prelude.{◌≡◌, ◌≤◌, filter, length};
ghost use Rattle.adapter_table.specs.States.{class3_at, connection_at, connection_of, consumers_of, owner_of, is_registered};
ghost use Rattle.cip_events.specs.Clock.{longest_tick};
ghost use Rattle.cip_tables.specs.declared.table.DeviceTable.TheVariants as tables;
ghost use Rattle.cip_tables.specs.States.{adapter_stream, stream_in, totals_of};
ghost use Rattle.cip_tables.specs.Wakes.{IsQuietFor, due_in};

use super::AdapterState;
use adapter_table::{
    AnyConnection, Class3Report, ConnectionReport, ConsumerCounts, class3_report, report_of,
    session_of,
};
use cip_tables::{DeviceTotals, Kind, Stream, StreamReport};
use cip_types::limits::LONGEST_TICK_MS;
use cip_types::{Ms, Triad, ids_left};
use indexed_connections::ConnectionTable;

impl<T: ConnectionTable> AdapterState<T> {
    /// The established exclusive owner of an output. Takes no memory.
    pub fn owner(&self, output: u32) -> Option<ConnectionReport>
        ensures { result ≡ owner_of self.now output }
    {
        let row = self.table.owner(output)?;
        Some(report_of(&row, self.clock))
    }

    /// How many established connections of each kind consume an input. Takes no memory.
    pub fn consumers(&self, input: u32) -> ConsumerCounts
        ensures { result ≡ consumers_of self.now input }
    {
        ConsumerCounts {
            exclusive_owners: self.table.count_consuming(Kind::ExclusiveOwner, input),
            input_only: self.table.count_consuming(Kind::InputOnly, input),
            listen_only: self.table.count_consuming(Kind::ListenOnly, input),
        }
    }

    /// The connection of class 1 at a place of the opening order. Takes no memory.
    pub fn connection(&self, place: u32) -> Option<ConnectionReport>
        ensures { result ≡ connection_at self.now place }
    {
        let row = self.table.nth(place as usize)?;
        Some(report_of(&row, self.clock))
    }

    /// The connection of class 3 at a place of the opening order. Takes no memory.
    pub fn class3_connection(&self, place: u32) -> Option<Class3Report>
        ensures { result ≡ class3_at self.now place }
    {
        let class3 = self.messaging.class3_connections().get(place as usize)?;
        Some(class3_report(class3))
    }

    /// The connection of a triad, of class 1 or 3. Takes no memory.
    pub fn connection_of(&self, triad: Triad) -> Option<AnyConnection>
        ensures { result ≡ connection_of self.now triad }
    {
        if let Some(row) = self.table.find(triad) {
            return Some(AnyConnection::Class1(report_of(&row, self.clock)));
        }
        let class3 = self.messaging.find_triad(triad)?;
        Some(AnyConnection::Class3(class3_report(class3)))
    }

    /// The stream at a place of the order in which they were opened. Takes no memory.
    pub fn stream(&self, place: u32) -> Option<StreamReport>
        ensures { result ≡ stream_in (tables.Adapter self.now) place }
    {
        Some(stream_report(self.streams.get(place as usize)?))
    }

    /// How many streams, sessions and connections there are, and how many ids are left. Takes no memory.
    pub fn totals(&self) -> DeviceTotals
        ensures { result ≡ totals_of (tables.Adapter self.now) }
    {
        DeviceTotals {
            streams: self.streams.len(),
            sessions: sessions(&self.streams),
            connections: self.table.len(),
            class3_connections: self.messaging.class3_connections().len(),
            ids_left: ids_left(&self.ids, self.next_id),
        }
    }

    /// In how many milliseconds something is due, if only time passes: at most the longest tick. Takes no memory.
    pub fn next_wake(&self) -> Ms
        ensures due { result.0 ≡ due_in (tables.Adapter self.now) }
        ensures quiet { IsQuietFor (tables.Adapter self.now) result.0 }
        ensures longest { result.0 ≤ longest_tick }
    {
        let (rows, messages) = (self.table.first_due(), self.messaging.first_moment());
        let due = rows.0.min(messages.0);
        let wait = due.saturating_sub(self.clock.0);
        Ms(wait.min(u64::from(LONGEST_TICK_MS)))
    }
}

/// What is known of a stream.
fn stream_report(stream: &Stream) -> StreamReport
    ensures { result ≡ adapter_stream stream.now }
{
    StreamReport {
        number: stream.number,
        peer: stream.peer,
        session: stream.registered.then_some(session_of(stream)),
    }
}

/// Whether a stream has a session.
fn is_registered(stream: &Stream) -> bool
    ensures { result ≡ is_registered stream.now }
{
    stream.registered
}

/// How many streams have a session. Takes no memory.
fn sessions(streams: &[Stream]) -> usize
    ensures { result ≡ length (filter is_registered streams.now) }
{
    streams
        .iter()
        .filter(|stream| is_registered(stream))
        .count()
}
