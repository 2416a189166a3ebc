//! What a scanner says of its slots, its streams and its numbers.

ghost use Rattle.std.specs.Prelude.{◌≡◌, length, filter};
ghost use Rattle.cip_tables.specs.States.{handle_at, stream_in, target_stream, totals_of};
ghost use Rattle.cip_tables.specs.declared.table.DeviceTable.{DeviceTable};
ghost use Rattle.scanner_table.specs.States.{is_open, is_up};
ghost use Rattle.scanner_table.specs.WellFormed.{IsWellFormed};
ghost use Rattle.scanner.specs.Tables.{table_in};

use crate::slots::ScannerSlots;
use cip_tables::{DeviceTotals, StreamReport};
use cip_types::ids_left;
use scanner_table::{Slot, SlotState, Stage, TargetStream};

/// Returns whether a slot's connection is open.
fn is_open(slot: &Slot) -> bool
    ensures { result ≡ is_open slot.now }
{
    match slot.state {
        SlotState::Established(_) => true,
        SlotState::Idle | SlotState::Opening(_) | SlotState::TimedOut(_) | SlotState::Closing(_) =>
            false,
    }
}

/// Returns whether a session is registered on a stream.
fn is_up(stream: &TargetStream) -> bool
    ensures { result ≡ is_up stream.now }
{
    match stream.stage {
        Stage::Up(_) => true,
        Stage::Waiting | Stage::Unused => false,
    }
}

/// Returns how many slots' connections are open.
fn open_count(slots: &[Slot]) -> usize
    ensures { result ≡ length (filter is_open slots.now) }
{
    slots.iter().filter(|slot| is_open(slot)).count()
}

/// Returns on how many streams a session is registered.
fn up_count(streams: &[TargetStream]) -> usize
    ensures { result ≡ length (filter is_up streams.now) }
{
    streams.iter().filter(|stream| is_up(stream)).count()
}

/// Returns the handle of the session that is registered on a stream.
fn handle_at(stage: Stage) -> Option<u32>
    ensures { result ≡ handle_at stage }
{
    match stage {
        Stage::Up(handle) => Some(handle),
        Stage::Waiting | Stage::Unused => None,
    }
}

/// Returns what is known of a stream.
fn target_stream(stream: &TargetStream) -> StreamReport
    ensures { result ≡ target_stream stream.now }
{
    StreamReport {
        number: stream.number,
        peer: stream.peer,
        session: handle_at(stream.stage),
    }
}

impl ScannerSlots {
    /// Returns what is known of the stream at a place of the order in which they were opened. Takes no memory.
    pub fn stream(&self, place: u32) -> Option<StreamReport>
        ensures { result ≡ stream_in (DeviceTable.Scanner (table_in self.now)) place }
    {
        Some(target_stream(self.state.streams.get(place as usize)?))
    }

    /// Returns how many streams, sessions and connections there are, and how many ids are left. Takes no memory.
    pub fn totals(&self) -> DeviceTotals
        requires { IsWellFormed (table_in self.now) }
        ensures { result ≡ totals_of (DeviceTable.Scanner (table_in self.now)) }
    {
        DeviceTotals {
            streams: self.state.streams.len(),
            sessions: up_count(self.state.streams.as_slice()),
            connections: open_count(self.state.slots.as_slice()),
            class3_connections: 0,
            ids_left: ids_left(&self.state.ids, self.state.next_id),
        }
    }
}
