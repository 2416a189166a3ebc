//! The lines of the call `status`, and that of a request that the application is to answer.

ghost use Rattle.std.specs.Prelude.{◌≡◌, ◌++◌, OnOk, slice_get, string_bytes};
ghost use Rattle.cip_tables.specs.States.{connection_in, totals_of};
ghost use Rattle.station_lines.specs.Details.{status_text};
ghost use Rattle.station_lines.specs.OwnRequests.{own_request_line, said_line};
ghost use Rattle.station_lines.specs.Status.{age_text, apis_text, config_text, connection_at, connection_head, connection_line, connection_lines, counts_text, id_text, mode_word, moment_text, owner_line, owner_text, point_head, point_status, points_status, purpose_text, slot_kind_text, slot_line, slot_of, slot_state, state_word, status_lines, target_text, terms_text, totals_line};

use crate::details::push_details;
use crate::points::{EventMoment, PointKind, SlotTerms, WatchedPoint};
use crate::watch::{CountedConnection, DatagramCounts, StationTraffic, TrafficTotals, counted_of};
use cip_events::Verdict;
use cip_tables::{Age, ConnectionReport, Device, DeviceTotals, Mode, SlotReport, TargetReport};
use cip_types::OutOfMemory;
use cip_types::limits::MOST_CONNECTIONS;
use trace_lines::kind_name;
use trace_outcomes::push_verdict;
use trace_words::{push_digits, push_node, push_text};

/// Appends the lines of a device's state: one of its totals, then one for each connection of an adapter in the order of the
/// openings, then one for each of these points: the owner of an output, the connection and the state of a slot; behind these the
/// details.
pub(crate) fn push_status<D: Device>(
    out: &mut String,
    device: &D,
    traffic: &StationTraffic,
    points: &[WatchedPoint],
    at: EventMoment,
) -> Result<(), OutOfMemory>
    ensures { OnOk result (string_bytes out.new ≡ string_bytes out.old
        ++ status_text at (D.table device.now) traffic.now points.now) }
{
    let (totals, connections) = (traffic.totals(), traffic.connections());
    push_lines(out, device, totals, connections, points, at)?;
    push_details(out, device, connections, points, at)
}

/// Appends the lines of the totals, of connections and of points.
fn push_lines<D: Device>(
    out: &mut String,
    device: &D,
    totals: TrafficTotals,
    connections: &[CountedConnection],
    points: &[WatchedPoint],
    at: EventMoment,
) -> Result<(), OutOfMemory>
    ensures { OnOk result (string_bytes out.new ≡ string_bytes out.old
        ++ status_lines at (D.table device.now) totals connections.now points.now) }
{
    push_totals(out, device, totals, at)?;
    push_connections(out, device, connections, at)?;
    push_points(out, device, connections, points, at)?;
    Ok(())
}

/// Appends the line of the totals.
fn push_totals<D: Device>(
    out: &mut String,
    device: &D,
    traffic: TrafficTotals,
    at: EventMoment,
) -> Result<(), OutOfMemory>
    ensures { OnOk result (string_bytes out.new ≡ string_bytes out.old
        ++ totals_line at (totals_of (D.table device.now)) traffic) }
{
    push_totals_line(out, device.totals(), traffic, at)
}

/// Appends the number of the last event and the time.
pub(crate) fn push_moment(out: &mut String, at: EventMoment) -> Result<(), OutOfMemory>
    ensures { OnOk result (string_bytes out.new ≡ string_bytes out.old ++ moment_text at) }
{
    let (number, ms) = (at.number, at.ms);
    write!(out, "{number} at {ms} ")?;
    Ok(())
}

/// Appends the line of a request to an object of the maker's own, if the verdict is one.
pub fn push_own(out: &mut String, verdict: &Verdict, at: EventMoment) -> Result<(), OutOfMemory>
    ensures { OnOk result (string_bytes out.new ≡ string_bytes out.old ++ own_request_line at verdict.now) }
{
    match verdict {
        Verdict::Asked { .. } => push_said(out, verdict, at),
        _ => Ok(()),
    }
}

/// Appends a verdict behind the number of the event and the time.
fn push_said(out: &mut String, verdict: &Verdict, at: EventMoment) -> Result<(), OutOfMemory>
    ensures { OnOk result (string_bytes out.new ≡ string_bytes out.old ++ said_line at verdict.now) }
{
    push_moment(out, at)?;
    push_verdict(out, verdict)?;
    push_text(out, "\n")?;
    Ok(())
}

/// Appends the line of these totals.
fn push_totals_line(
    out: &mut String,
    device: DeviceTotals,
    traffic: TrafficTotals,
    at: EventMoment,
) -> Result<(), OutOfMemory>
    ensures { OnOk result (string_bytes out.new ≡ string_bytes out.old ++ totals_line at device traffic) }
{
    push_moment(out, at)?;
    let (streams, sessions) = (device.streams, device.sessions);
    let (connections, class3_connections, ids) = (
        device.connections,
        device.class3_connections,
        device.ids_left,
    );
    write!(
        out,
        "status streams {streams} sessions {sessions} connections {connections} class-3 {class3_connections} ids {ids}"
    )?;
    let (received, sent) = (traffic.received, traffic.sent);
    let (applied, lost) = (traffic.applied, traffic.lost);
    write!(
        out,
        " received {received} sent {sent} applied {applied} lost {lost}\n"
    )?;
    Ok(())
}

/// Appends the lines of an adapter's connections.
fn push_connections<D: Device>(
    out: &mut String,
    device: &D,
    connections: &[CountedConnection],
    at: EventMoment,
) -> Result<(), OutOfMemory>
    ensures { OnOk result (string_bytes out.new ≡ string_bytes out.old
        ++ connection_lines at (D.table device.now) connections.now) }
{
    for place in 0..MOST_CONNECTIONS as u32 {
        push_connection_at(out, device, connections, place, at)?;
    }
    Ok(())
}

/// Appends the line of the connection at a place, if there is one.
fn push_connection_at<D: Device>(
    out: &mut String,
    device: &D,
    connections: &[CountedConnection],
    place: u32,
    at: EventMoment,
) -> Result<(), OutOfMemory>
    ensures { OnOk result (string_bytes out.new ≡ string_bytes out.old
        ++ connection_at at connections.now (connection_in (D.table device.now) place)) }
{
    push_connection_of(out, connections, device.connection(place), at)
}

/// Appends the line of a connection, if there is one, with what was counted of it.
fn push_connection_of(
    out: &mut String,
    connections: &[CountedConnection],
    report: Option<ConnectionReport>,
    at: EventMoment,
) -> Result<(), OutOfMemory>
    ensures { OnOk result (string_bytes out.new ≡ string_bytes out.old ++ connection_at at connections.now report) }
{
    match report {
        Some(report) => push_connection(out, counted_of(at.ms, connections, &report), report, at),
        None => Ok(()),
    }
}

/// Appends the line of a connection.
fn push_connection(
    out: &mut String,
    counted: CountedConnection,
    report: ConnectionReport,
    at: EventMoment,
) -> Result<(), OutOfMemory>
    ensures { OnOk result (string_bytes out.new ≡ string_bytes out.old ++ connection_line at counted report) }
{
    push_connection_head(out, counted.id, at)?;
    push_node(out, report.peer)?;
    push_purpose(out, report)?;
    push_age(out, report.age)?;
    push_counts(out, counted.counts)?;
    Ok(())
}

/// Appends the beginning of a connection's line, up to its id.
fn push_connection_head(
    out: &mut String,
    id: Option<u32>,
    at: EventMoment,
) -> Result<(), OutOfMemory>
    ensures { OnOk result (string_bytes out.new ≡ string_bytes out.old ++ connection_head at id) }
{
    push_moment(out, at)?;
    push_text(out, "connection ")?;
    push_id(out, id)?;
    push_text(out, " ")?;
    Ok(())
}

/// Appends a connection id.
pub(crate) fn push_id(out: &mut String, id: Option<u32>) -> Result<(), OutOfMemory>
    ensures { OnOk result (string_bytes out.new ≡ string_bytes out.old ++ id_text id) }
{
    match id {
        Some(id) => push_digits(out, &id.to_be_bytes()),
        None => push_text(out, "-"),
    }
}

/// Appends the kind of a connection, its points, its packet intervals, its state and its mode.
fn push_purpose(out: &mut String, report: ConnectionReport) -> Result<(), OutOfMemory>
    ensures { OnOk result (string_bytes out.new ≡ string_bytes out.old ++ purpose_text report) }
{
    let (kind, consumed, produced) = (kind_name(report.kind), report.consumed, report.produced);
    write!(out, " {kind} {consumed} {produced}")?;
    push_apis(out, report.o_t_api_ms, report.t_o_api_ms)?;
    let (state, mode) = (state_word(report.established), mode_word(report.mode));
    write!(out, " {state} {mode}")?;
    Ok(())
}

/// Appends packet intervals in milliseconds: from originator to target, and back.
fn push_apis(out: &mut String, o_t_api_ms: u32, t_o_api_ms: u32) -> Result<(), OutOfMemory>
    ensures { OnOk result (string_bytes out.new ≡ string_bytes out.old ++ apis_text o_t_api_ms t_o_api_ms) }
{
    write!(out, " api {o_t_api_ms} {t_o_api_ms}")?;
    Ok(())
}

/// Appends the milliseconds since the newest datagram was accepted, or since the opening.
fn push_age(out: &mut String, age: Age) -> Result<(), OutOfMemory>
    ensures { OnOk result (string_bytes out.new ≡ string_bytes out.old ++ age_text age) }
{
    match age {
        Age::SinceAccepted(ms) => {
            let ms = ms.0;
            write!(out, " age {ms}")?;
            Ok(())
        }
        Age::SinceOpening(ms) => {
            let ms = ms.0;
            write!(out, " opened {ms}")?;
            Ok(())
        }
    }
}

/// Appends the counts of a connection, and the end of the line.
fn push_counts(out: &mut String, counts: DatagramCounts) -> Result<(), OutOfMemory>
    ensures { OnOk result (string_bytes out.new ≡ string_bytes out.old ++ counts_text counts) }
{
    let (received, applied, duplicate) = (counts.received, counts.applied, counts.duplicate);
    let (old, lost) = (counts.old, counts.lost);
    write!(
        out,
        " received {received} applied {applied} duplicate {duplicate} old {old} lost {lost}\n"
    )?;
    Ok(())
}

/// Appends the line of each point.
fn push_points<D: Device>(
    out: &mut String,
    device: &D,
    connections: &[CountedConnection],
    points: &[WatchedPoint],
    at: EventMoment,
) -> Result<(), OutOfMemory>
    ensures { OnOk result (string_bytes out.new ≡ string_bytes out.old
        ++ points_status at (D.table device.now) connections.now points.now) }
{
    for watched in points {
        push_point(out, device, connections, watched, at)?;
    }
    Ok(())
}

/// Appends the line of a point: the owner of an output, or the connection and the state of a slot.
fn push_point<D: Device>(
    out: &mut String,
    device: &D,
    connections: &[CountedConnection],
    watched: &WatchedPoint,
    at: EventMoment,
) -> Result<(), OutOfMemory>
    ensures { OnOk result (string_bytes out.new ≡ string_bytes out.old
        ++ point_status at (D.table device.now) connections.now watched.now.point watched.now.kind) }
{
    let point = watched.point;
    match watched.kind {
        PointKind::Output => push_owner(out, point, device.owner(point), at),
        PointKind::Image(terms) => {
            push_slot_of(out, point, terms, device.slot(point), connections, at)
        }
    }
}

/// Appends the line of an output's owner.
fn push_owner(
    out: &mut String,
    point: u32,
    owner: Option<ConnectionReport>,
    at: EventMoment,
) -> Result<(), OutOfMemory>
    ensures { OnOk result (string_bytes out.new ≡ string_bytes out.old ++ owner_line at point owner) }
{
    push_point_head(out, "owner ", point, at)?;
    push_owner_text(out, owner)?;
    push_text(out, "\n")?;
    Ok(())
}

/// Appends the beginning of a point's line: its word, and its number.
pub(crate) fn push_point_head(
    out: &mut String,
    word: &str,
    point: u32,
    at: EventMoment,
) -> Result<(), OutOfMemory>
    ensures { OnOk result (string_bytes out.new ≡ string_bytes out.old ++ point_head at word.now point) }
{
    push_moment(out, at)?;
    write!(out, "{word}{point} ")?;
    Ok(())
}

/// Appends an owner: its peer, its mode and the age of its data.
fn push_owner_text(out: &mut String, owner: Option<ConnectionReport>) -> Result<(), OutOfMemory>
    ensures { OnOk result (string_bytes out.new ≡ string_bytes out.old ++ owner_text owner) }
{
    let Some(owner) = owner else {
        return push_text(out, "none");
    };
    push_node(out, owner.peer)?;
    push_text(out, " ")?;
    push_text(out, mode_word(owner.mode))?;
    push_age(out, owner.age)?;
    Ok(())
}

/// Appends the line of a slot, if there is one.
fn push_slot_of(
    out: &mut String,
    slot: u32,
    terms: SlotTerms,
    report: Option<SlotReport>,
    connections: &[CountedConnection],
    at: EventMoment,
) -> Result<(), OutOfMemory>
    ensures { OnOk result (string_bytes out.new ≡ string_bytes out.old
        ++ slot_of at slot terms report (slice_get connections.now slot)) }
{
    let Some(report) = report else {
        return Ok(());
    };
    let Some(counted) = connections.get(slot as usize) else {
        return Ok(());
    };
    push_slot(out, slot, terms, report, counted.counts, at)
}

/// Appends the line of a slot.
fn push_slot(
    out: &mut String,
    slot: u32,
    terms: SlotTerms,
    report: SlotReport,
    counts: DatagramCounts,
    at: EventMoment,
) -> Result<(), OutOfMemory>
    ensures { OnOk result (string_bytes out.new ≡ string_bytes out.old ++ slot_line at slot terms report counts) }
{
    push_point_head(out, "slot ", slot, at)?;
    push_terms(out, terms)?;
    push_slot_state(out, report)?;
    push_counts(out, counts)?;
    Ok(())
}

/// Appends what the profile says of a slot's connection: its target, kind, points and configuration.
fn push_terms(out: &mut String, terms: SlotTerms) -> Result<(), OutOfMemory>
    ensures { OnOk result (string_bytes out.new ≡ string_bytes out.old ++ terms_text terms) }
{
    push_node(out, terms.target)?;
    push_slot_kind(out, terms)?;
    push_config(out, terms.config)?;
    push_text(out, " ")?;
    Ok(())
}

/// Appends the kind and the points of a slot's connection.
fn push_slot_kind(out: &mut String, terms: SlotTerms) -> Result<(), OutOfMemory>
    ensures { OnOk result (string_bytes out.new ≡ string_bytes out.old ++ slot_kind_text terms) }
{
    let (kind, consumed, produced) = (kind_name(terms.kind), terms.consumed, terms.produced);
    write!(out, " {kind} {consumed} {produced} config ")?;
    Ok(())
}

/// Appends the configuration that a path names; a dash for none.
fn push_config(out: &mut String, config: Option<u32>) -> Result<(), OutOfMemory>
    ensures { OnOk result (string_bytes out.new ≡ string_bytes out.old ++ config_text config) }
{
    match config {
        Some(instance) => {
            write!(out, "{instance}")?;
            Ok(())
        }
        None => push_text(out, "-"),
    }
}

/// Appends the state of a slot; of an established one the packet intervals and the age of its data too.
fn push_slot_state(out: &mut String, report: SlotReport) -> Result<(), OutOfMemory>
    ensures { OnOk result (string_bytes out.new ≡ string_bytes out.old ++ slot_state report) }
{
    match report {
        SlotReport::Idle => push_text(out, "idle"),
        SlotReport::Opening => push_text(out, "opening"),
        SlotReport::Established(target) => push_target(out, target),
        SlotReport::TimedOut => push_text(out, "timed-out"),
        SlotReport::Closing => push_text(out, "closing"),
    }
}

/// Appends that a slot is established, its packet intervals and the age of its data.
fn push_target(out: &mut String, target: TargetReport) -> Result<(), OutOfMemory>
    ensures { OnOk result (string_bytes out.new ≡ string_bytes out.old ++ target_text target) }
{
    push_text(out, "established")?;
    push_apis(out, target.o_t_api_ms, target.t_o_api_ms)?;
    push_age(out, target.age)?;
    Ok(())
}

/// The word of a connection's state.
fn state_word(established: bool) -> &'static str
    ensures { result.now ≡ state_word established }
{
    if established { "open" } else { "timed-out" }
}

/// The word of a mode; a dash for none.
fn mode_word(mode: Option<Mode>) -> &'static str
    ensures { result.now ≡ mode_word mode }
{
    match mode {
        Some(Mode::Idle) => "idle",
        Some(Mode::Run) => "run",
        None => "-",
    }
}
