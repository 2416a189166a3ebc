//! The lines of the call `status` behind those of the state: a scanner's mode, what was counted of each connection and slot besides,
//! and why a slot is not open.

ghost use Rattle.std.specs.Prelude.{◌≡◌, ◌++◌, OnOk, slice_get, string_bytes};
ghost use Rattle.station_lines.specs.Details.{connection_gaps, details_of, details_text, entry_text, gaps_at, gaps_lines, gaps_text, mean_tenths, mean_text, minute_text, mode_line, mode_name, point_detail, points_details, said_mode, since_text, slot_detail, slot_entry, slot_gaps, time_outs_text, time_text, why_line, why_said};
ghost use Rattle.station_lines.specs.Reasons.{tenths_text};

use crate::points::{EventMoment, PointKind, WatchedPoint};
use crate::reasons::{push_tenths, push_why};
use crate::status::{push_id, push_moment, push_point_head};
use crate::watch::{
    CountedConnection, DatagramCounts, GapMeter, GapSums, SlotWait, StateNote, counted_of, wait_at,
};
use cip_tables::{ConnectionReport, Device, DeviceTable};
use cip_types::limits::MOST_CONNECTIONS;
use cip_types::{Node, OutOfMemory};
use trace_words::push_text;

/// Appends the lines of the details: one of a scanner's mode, one for each connection of an adapter in the order of the openings, and
/// for each slot of a scanner one of its counts and one that says why it is not open. Mode and waits are those of a copy of the
/// device's table.
pub(crate) fn push_details<D: Device>(
    out: &mut String,
    device: &D,
    connections: &[CountedConnection],
    points: &[WatchedPoint],
    at: EventMoment,
) -> Result<(), OutOfMemory>
    ensures { OnOk result (string_bytes out.new ≡ string_bytes out.old
        ++ details_text at (D.table device.now) connections.now points.now) }
{
    let copy = device.copy()?;
    push_details_of(out, copy.table(), device, connections, points, at)
}

/// Appends the lines of the details, with a copy of the device's table.
fn push_details_of<D: Device>(
    out: &mut String,
    copy: &DeviceTable,
    device: &D,
    connections: &[CountedConnection],
    points: &[WatchedPoint],
    at: EventMoment,
) -> Result<(), OutOfMemory>
    ensures { OnOk result (string_bytes out.new ≡ string_bytes out.old
        ++ details_of at copy.now (D.table device.now) connections.now points.now) }
{
    push_mode(out, copy, at)?;
    push_gaps_lines(out, device, connections, at)?;
    push_points_details(out, copy, connections, points, at)?;
    Ok(())
}

/// Appends the line of a scanner's mode.
fn push_mode(out: &mut String, table: &DeviceTable, at: EventMoment) -> Result<(), OutOfMemory>
    ensures { OnOk result (string_bytes out.new ≡ string_bytes out.old ++ mode_line at table.now) }
{
    match table {
        DeviceTable::Scanner(table) => push_said_mode(out, table.run, at),
        DeviceTable::Adapter(_) => Ok(()),
    }
}

/// Appends the line of this mode.
fn push_said_mode(out: &mut String, run: bool, at: EventMoment) -> Result<(), OutOfMemory>
    ensures { OnOk result (string_bytes out.new ≡ string_bytes out.old ++ said_mode at run) }
{
    push_moment(out, at)?;
    push_text(out, "mode ")?;
    push_mode_name(out, run)?;
    push_text(out, "\n")?;
    Ok(())
}

/// Appends the word of a scanner's mode.
fn push_mode_name(out: &mut String, run: bool) -> Result<(), OutOfMemory>
    ensures { OnOk result (string_bytes out.new ≡ string_bytes out.old ++ mode_name run) }
{
    push_text(out, mode_name(run))
}

/// The word of a scanner's mode.
fn mode_name(run: bool) -> &'static str
    ensures { result.now ≡ mode_name run }
{
    if run { "run" } else { "idle" }
}

/// Appends the line of what was counted of each connection of an adapter.
fn push_gaps_lines<D: Device>(
    out: &mut String,
    device: &D,
    connections: &[CountedConnection],
    at: EventMoment,
) -> Result<(), OutOfMemory>
    ensures { OnOk result (string_bytes out.new ≡ string_bytes out.old
        ++ gaps_lines at (D.table device.now) connections.now) }
{
    for place in 0..MOST_CONNECTIONS as u32 {
        push_gaps_at(out, connections, device.connection(place), at)?;
    }
    Ok(())
}

/// Appends the line of what was counted of a connection, if there is one.
fn push_gaps_at(
    out: &mut String,
    connections: &[CountedConnection],
    report: Option<ConnectionReport>,
    at: EventMoment,
) -> Result<(), OutOfMemory>
    ensures { OnOk result (string_bytes out.new ≡ string_bytes out.old ++ gaps_at at connections.now report) }
{
    match report {
        Some(report) => { push_connection_gaps(out, &counted_of(at.ms, connections, &report), at) }
        None => Ok(()),
    }
}

/// Appends the line of what was counted of a connection.
fn push_connection_gaps(
    out: &mut String,
    entry: &CountedConnection,
    at: EventMoment,
) -> Result<(), OutOfMemory>
    ensures { OnOk result (string_bytes out.new ≡ string_bytes out.old ++ connection_gaps at entry.now) }
{
    push_moment(out, at)?;
    push_text(out, "gaps connection ")?;
    push_id(out, entry.id)?;
    push_entry(out, entry, at.ms)?;
    Ok(())
}

/// Appends what was counted of a connection or a slot, and the end of the line.
fn push_entry(out: &mut String, entry: &CountedConnection, now_ms: u64) -> Result<(), OutOfMemory>
    ensures { OnOk result (string_bytes out.new ≡ string_bytes out.old ++ entry_text now_ms entry.now) }
{
    push_since(out, entry.note.since_ms, entry.counts)?;
    push_minute(out, entry.gaps, now_ms)?;
    push_gaps(out, " whole ", entry.gaps.whole)?;
    push_time_outs(out, entry.note)?;
    Ok(())
}

/// Appends since when a connection or slot has its state, what was sent, and what came in a wrong size.
fn push_since(out: &mut String, since: u64, counts: DatagramCounts) -> Result<(), OutOfMemory>
    ensures { OnOk result (string_bytes out.new ≡ string_bytes out.old ++ since_text since counts) }
{
    let (sent, wrong_size) = (counts.sent, counts.wrong_size);
    write!(out, " since {since} sent {sent} wrong-size {wrong_size}")?;
    Ok(())
}

/// Appends the gaps of the last minute.
fn push_minute(out: &mut String, gaps: GapMeter, now_ms: u64) -> Result<(), OutOfMemory>
    ensures { OnOk result (string_bytes out.new ≡ string_bytes out.old ++ minute_text now_ms gaps) }
{
    push_gaps(out, " minute ", gaps.last_minute(now_ms))
}

/// Appends gaps in milliseconds: how many, mean, longest and jitter, which is the mean step from each to the next.
fn push_gaps(out: &mut String, word: &str, sums: GapSums) -> Result<(), OutOfMemory>
    ensures { OnOk result (string_bytes out.new ≡ string_bytes out.old ++ gaps_text word.now sums) }
{
    let (count, longest) = (sums.count, sums.greatest_ms);
    write!(out, "{word}{count}")?;
    push_mean(out, " mean ", sums.sum_ms, count)?;
    write!(out, " longest {longest}")?;
    push_mean(out, " jitter ", sums.moved_ms, count)?;
    Ok(())
}

/// Appends a mean with a tenth.
fn push_mean(out: &mut String, word: &str, sum: u64, count: u64) -> Result<(), OutOfMemory>
    ensures { OnOk result (string_bytes out.new ≡ string_bytes out.old ++ mean_text word.now sum count) }
{
    push_text(out, word)?;
    push_mean_tenths(out, sum, count)?;
    Ok(())
}

/// Appends the number of a mean.
pub(crate) fn push_mean_tenths(out: &mut String, sum: u64, count: u64) -> Result<(), OutOfMemory>
    ensures { OnOk result (string_bytes out.new ≡ string_bytes out.old ++ tenths_text (mean_tenths sum count)) }
{
    push_tenths(out, mean_tenths(sum, count))
}

/// The tenths of a mean.
fn mean_tenths(sum: u64, count: u64) -> u64
    ensures { result ≡ mean_tenths sum count }
{
    if count == 0 {
        return 0;
    }
    sum.saturating_mul(10) / count
}

/// Appends how often a connection or slot timed out, and when last; and the end of the line.
fn push_time_outs(out: &mut String, note: StateNote) -> Result<(), OutOfMemory>
    ensures { OnOk result (string_bytes out.new ≡ string_bytes out.old ++ time_outs_text note) }
{
    let time_outs = note.time_outs;
    write!(out, " time-outs {time_outs} last ")?;
    push_time(out, note.last_time_out_ms)?;
    push_text(out, "\n")?;
    Ok(())
}

/// Appends a time; a dash for none.
fn push_time(out: &mut String, time: Option<u64>) -> Result<(), OutOfMemory>
    ensures { OnOk result (string_bytes out.new ≡ string_bytes out.old ++ time_text time) }
{
    match time {
        Some(ms) => {
            write!(out, "{ms}")?;
            Ok(())
        }
        None => push_text(out, "-"),
    }
}

/// Appends the lines of each slot.
fn push_points_details(
    out: &mut String,
    table: &DeviceTable,
    connections: &[CountedConnection],
    points: &[WatchedPoint],
    at: EventMoment,
) -> Result<(), OutOfMemory>
    ensures { OnOk result (string_bytes out.new ≡ string_bytes out.old
        ++ points_details at table.now connections.now points.now) }
{
    for watched in points {
        push_point_detail(out, table, connections, watched, at)?;
    }
    Ok(())
}

/// Appends the lines of a point: nothing of an output.
fn push_point_detail(
    out: &mut String,
    table: &DeviceTable,
    connections: &[CountedConnection],
    watched: &WatchedPoint,
    at: EventMoment,
) -> Result<(), OutOfMemory>
    ensures { OnOk result (string_bytes out.new ≡ string_bytes out.old
        ++ point_detail at table.now connections.now watched.now.point watched.now.kind) }
{
    match watched.kind {
        PointKind::Output => Ok(()),
        PointKind::Image(terms) => {
            let wait = wait_at(table, watched.point, terms.target);
            push_slot_detail(out, connections, watched.point, terms.target, wait, at)
        }
    }
}

/// Appends the lines of a slot, if there is one.
fn push_slot_detail(
    out: &mut String,
    connections: &[CountedConnection],
    slot: u32,
    target: Node,
    wait: SlotWait,
    at: EventMoment,
) -> Result<(), OutOfMemory>
    ensures { OnOk result (string_bytes out.new ≡ string_bytes out.old
        ++ slot_detail at slot target wait (slice_get connections.now slot)) }
{
    match connections.get(slot as usize) {
        Some(entry) => push_slot_entry(out, slot, target, wait, entry, at),
        None => Ok(()),
    }
}

/// Appends the lines of a slot.
fn push_slot_entry(
    out: &mut String,
    slot: u32,
    target: Node,
    wait: SlotWait,
    entry: &CountedConnection,
    at: EventMoment,
) -> Result<(), OutOfMemory>
    ensures { OnOk result (string_bytes out.new ≡ string_bytes out.old
        ++ slot_entry at slot target wait entry.now) }
{
    push_slot_gaps(out, slot, entry, at)?;
    push_why_line(out, slot, target, entry.note, wait, at)?;
    Ok(())
}

/// Appends the line of what was counted of a slot.
fn push_slot_gaps(
    out: &mut String,
    slot: u32,
    entry: &CountedConnection,
    at: EventMoment,
) -> Result<(), OutOfMemory>
    ensures { OnOk result (string_bytes out.new ≡ string_bytes out.old ++ slot_gaps at slot entry.now) }
{
    push_moment(out, at)?;
    write!(out, "gaps slot {slot}")?;
    push_entry(out, entry, at.ms)?;
    Ok(())
}

/// Appends the line that says why a slot is not open, if it says so.
fn push_why_line(
    out: &mut String,
    slot: u32,
    target: Node,
    note: StateNote,
    wait: SlotWait,
    at: EventMoment,
) -> Result<(), OutOfMemory>
    ensures { OnOk result (string_bytes out.new ≡ string_bytes out.old ++ why_line at slot target note wait) }
{
    match wait {
        SlotWait::Nothing => Ok(()),
        _ => push_why_said(out, slot, target, note, wait, at),
    }
}

/// Appends the line that says why a slot is not open.
fn push_why_said(
    out: &mut String,
    slot: u32,
    target: Node,
    note: StateNote,
    wait: SlotWait,
    at: EventMoment,
) -> Result<(), OutOfMemory>
    ensures { OnOk result (string_bytes out.new ≡ string_bytes out.old ++ why_said at slot target note wait) }
{
    push_point_head(out, "why slot ", slot, at)?;
    push_why(out, at.ms, target, note, wait)?;
    push_text(out, "\n")?;
    Ok(())
}
