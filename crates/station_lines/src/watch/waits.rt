//! Why a slot of a scanner is not open: what it waits for.

ghost use Rattle.std.specs.Prelude.{◌≡◌, find, slice_get};
ghost use Rattle.station_lines.specs.Watch.Waits.{stage_wait, stream_wait, wait_at, wait_of, wait_with};
ghost use Rattle.scanner_table.specs.Sessions.{is_to};
ghost use Rattle.scanner_table.specs.Slots.{is_closed};

use cip_tables::DeviceTable;
use cip_types::{Ms, Node};
use scanner_table::{ScannerTable, Slot, SlotState, Stage, TargetStream};

/// What a slot waits for that has no connection.
#[derive(Clone, Copy, PartialEq, Eq)]
pub enum SlotWait {
    /// It has a connection, or a request is on its way.
    Nothing,
    /// A call: one has stopped it, or none has started it.
    Stopped,
    /// A stream to its target.
    NoStream,
    /// A session on that stream.
    NoSession,
    /// Its next try, in so many milliseconds.
    Later(u64),
}

/// What the slot of a number waits for, of this target. An adapter has none.
pub fn wait_at(table: &DeviceTable, number: u32, target: Node) -> SlotWait
    ensures { result ≡ wait_at table.now number target }
{
    match table {
        DeviceTable::Scanner(table) => wait_with(table, number, target),
        DeviceTable::Adapter(_) => SlotWait::Nothing,
    }
}

/// What the slot of a number waits for.
fn wait_with(table: &ScannerTable, number: u32, target: Node) -> SlotWait
    ensures { result ≡ wait_with table.now target (slice_get table.now.slots number) }
{
    match table.slots.as_slice().get(number as usize) {
        Some(slot) => wait_of(table, slot, target),
        None => SlotWait::Nothing,
    }
}

/// What a slot waits for.
fn wait_of(table: &ScannerTable, slot: &Slot, target: Node) -> SlotWait
    ensures { result ≡ wait_of table.now target slot.now }
{
    if !is_closed(slot.state) {
        return SlotWait::Nothing;
    }
    if !slot.desired_up {
        return SlotWait::Stopped;
    }
    let stream = stream_to(table.streams.as_slice(), target);
    stream_wait(stream, slot.retry_at, table.clock)
}

/// Whether a slot has no connection, and waits for no reply.
fn is_closed(state: SlotState) -> bool
    ensures { result ≡ is_closed state }
{
    match state {
        SlotState::Idle => true,
        SlotState::Opening(_) => false,
        SlotState::Established(_) => false,
        SlotState::TimedOut(_) => true,
        SlotState::Closing(_) => false,
    }
}

/// The stream to a target.
fn stream_to(streams: &[TargetStream], target: Node) -> Option<TargetStream>
    ensures { result ≡ find (is_to target) streams.now }
{
    streams.iter().copied().find(|stream| is_to(stream, target))
}

/// Whether a stream is to a target.
fn is_to(stream: &TargetStream, target: Node) -> bool
    ensures { result ≡ is_to target stream.now }
{
    stream.peer == target
}

/// What a slot waits for whose connection is desired.
fn stream_wait(stream: Option<TargetStream>, retry: Ms, clock: Ms) -> SlotWait
    ensures { result ≡ stream_wait retry.0 clock.0 stream }
{
    match stream {
        Some(stream) => stage_wait(stream.stage, retry, clock),
        None => SlotWait::NoStream,
    }
}

fn stage_wait(stage: Stage, retry: Ms, clock: Ms) -> SlotWait
    ensures { result ≡ stage_wait retry.0 clock.0 stage }
{
    match stage {
        Stage::Up(_) => SlotWait::Later(retry.0.saturating_sub(clock.0)),
        Stage::Waiting => SlotWait::NoSession,
        Stage::Unused => SlotWait::NoSession,
    }
}
