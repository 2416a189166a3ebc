//! The lines of the call `status --csv`: what was counted of each connection and slot, with a comma between two values.

ghost use Rattle.std.specs.Prelude.{◌≡◌, ◌++◌, OnOk, slice_get, string_bytes};
ghost use Rattle.station_lines.specs.Numbers.{connection_numbers, connections_numbers, numbers_at, numbers_front, numbers_rest, numbers_text, point_numbers, points_numbers, slot_numbers, slot_numbers_of};

use crate::details::push_mean_tenths;
use crate::points::{EventMoment, PointKind, WatchedPoint};
use crate::status::push_id;
use crate::watch::{CountedConnection, StationTraffic, counted_of};
use cip_tables::{ConnectionReport, Device};
use cip_types::limits::MOST_CONNECTIONS;
use cip_types::{Node, OutOfMemory};
use trace_words::{push_node, push_text};

/// The names of the values.
const HEAD: &str =
    "csv,event,ms,connection,peer,sent,received,lost,jitter_ms,longest_ms,time_outs\n";

/// Appends the names of the values, then a line for each connection of an adapter in the order of the openings, and for each slot of a
/// scanner.
pub(crate) fn push_numbers<D: Device>(
    out: &mut String,
    device: &D,
    traffic: &StationTraffic,
    points: &[WatchedPoint],
    at: EventMoment,
) -> Result<(), OutOfMemory>
    ensures { OnOk result (string_bytes out.new ≡ string_bytes out.old
        ++ numbers_text at (D.table device.now) traffic.now points.now) }
{
    let connections = traffic.connections();
    push_text(out, HEAD)?;
    push_connections(out, device, connections, at)?;
    push_points(out, connections, points, at)?;
    Ok(())
}

/// Appends the lines of an adapter's connections.
fn push_connections<D: Device>(
    out: &mut String,
    device: &D,
    connections: &[CountedConnection],
    at: EventMoment,
) -> Result<(), OutOfMemory>
    ensures { OnOk result (string_bytes out.new ≡ string_bytes out.old
        ++ connections_numbers at (D.table device.now) connections.now) }
{
    for place in 0..MOST_CONNECTIONS as u32 {
        push_at(out, connections, device.connection(place), at)?;
    }
    Ok(())
}

/// Appends the line of a connection, if there is one.
fn push_at(
    out: &mut String,
    connections: &[CountedConnection],
    report: Option<ConnectionReport>,
    at: EventMoment,
) -> Result<(), OutOfMemory>
    ensures { OnOk result (string_bytes out.new ≡ string_bytes out.old ++ numbers_at at connections.now report) }
{
    match report {
        Some(report) => {
            push_connection(
                out,
                &counted_of(at.ms, connections, &report),
                report.peer,
                at,
            )
        }
        None => Ok(()),
    }
}

/// Appends the line of a connection.
fn push_connection(
    out: &mut String,
    entry: &CountedConnection,
    peer: Node,
    at: EventMoment,
) -> Result<(), OutOfMemory>
    ensures { OnOk result (string_bytes out.new ≡ string_bytes out.old ++ connection_numbers at peer entry.now) }
{
    push_front(out, at)?;
    push_text(out, "connection ")?;
    push_id(out, entry.id)?;
    push_rest(out, peer, entry)?;
    Ok(())
}

/// Appends the lines of the slots.
fn push_points(
    out: &mut String,
    connections: &[CountedConnection],
    points: &[WatchedPoint],
    at: EventMoment,
) -> Result<(), OutOfMemory>
    ensures { OnOk result (string_bytes out.new ≡ string_bytes out.old
        ++ points_numbers at connections.now points.now) }
{
    for watched in points {
        push_point(out, connections, watched, at)?;
    }
    Ok(())
}

/// Appends the line of a point: nothing of an output.
fn push_point(
    out: &mut String,
    connections: &[CountedConnection],
    watched: &WatchedPoint,
    at: EventMoment,
) -> Result<(), OutOfMemory>
    ensures { OnOk result (string_bytes out.new ≡ string_bytes out.old
        ++ point_numbers at connections.now watched.now.point watched.now.kind) }
{
    match watched.kind {
        PointKind::Output => Ok(()),
        PointKind::Image(terms) => push_slot_of(out, connections, watched.point, terms.target, at),
    }
}

/// Appends the line of a slot, if it is counted.
fn push_slot_of(
    out: &mut String,
    connections: &[CountedConnection],
    slot: u32,
    target: Node,
    at: EventMoment,
) -> Result<(), OutOfMemory>
    ensures { OnOk result (string_bytes out.new ≡ string_bytes out.old
        ++ slot_numbers_of at slot target (slice_get connections.now slot)) }
{
    match connections.get(slot as usize) {
        Some(entry) => push_slot(out, slot, target, entry, at),
        None => Ok(()),
    }
}

/// Appends the line of a slot.
fn push_slot(
    out: &mut String,
    slot: u32,
    target: Node,
    entry: &CountedConnection,
    at: EventMoment,
) -> Result<(), OutOfMemory>
    ensures { OnOk result (string_bytes out.new ≡ string_bytes out.old ++ slot_numbers at slot target entry.now) }
{
    push_front(out, at)?;
    write!(out, "slot {slot}")?;
    push_rest(out, target, entry)?;
    Ok(())
}

/// Appends the beginning of a line: its word, the number of the last event and the time.
fn push_front(out: &mut String, at: EventMoment) -> Result<(), OutOfMemory>
    ensures { OnOk result (string_bytes out.new ≡ string_bytes out.old ++ numbers_front at) }
{
    let (number, ms) = (at.number, at.ms);
    write!(out, "csv,{number},{ms},")?;
    Ok(())
}

/// Appends the peer and the numbers, and the end of the line.
fn push_rest(out: &mut String, peer: Node, entry: &CountedConnection) -> Result<(), OutOfMemory>
    ensures { OnOk result (string_bytes out.new ≡ string_bytes out.old ++ numbers_rest peer entry.now) }
{
    let (counts, whole) = (entry.counts, entry.gaps.whole);
    let (sent, received, lost) = (counts.sent, counts.received, counts.lost);
    let (longest, time_outs) = (whole.greatest_ms, entry.note.time_outs);
    push_text(out, ",")?;
    push_node(out, peer)?;
    write!(out, ",{sent},{received},{lost},")?;
    push_mean_tenths(out, whole.moved_ms, whole.count)?;
    write!(out, ",{longest},{time_outs}\n")?;
    Ok(())
}
