//! Connections and slots in a snapshot.

ghost use Rattle.std.specs.Prelude.{◌≡◌, ◌++◌, OnOk, string_bytes};
ghost use Rattle.page_feed.specs.Connections.{age_ms, begun_connection, bool_word, connection_head, connection_rest, connection_text, established_text, has_data, kind_text, listed_text, mode_text, mode_word, owner_text, state_text, target_text};

use crate::rows::push_row;
use adapter_table::{ConnectionReport, Mode};
use cip_productions::Age;
use cip_types::OutOfMemory;
use scanner_table::{SlotReport, TargetReport};
use station_lines::CountedConnection;
use trace_lines::kind_name;
use trace_words::{push_node, push_text};

/// Appends the owner of an output; null if it has none.
pub fn push_owner(out: &mut String, owner: Option<ConnectionReport>) -> Result<(), OutOfMemory>
    ensures { OnOk result (string_bytes out.new ≡ string_bytes out.old ++ owner_text owner) }
{
    match owner {
        Some(report) => push_connection(out, report),
        None => push_text(out, "null"),
    }
}

/// Appends a connection of an adapter.
pub fn push_connection(out: &mut String, report: ConnectionReport) -> Result<(), OutOfMemory>
    ensures { OnOk result (string_bytes out.new ≡ string_bytes out.old ++ connection_text report) }
{
    push_begun(out, report)?;
    push_text(out, "}")
}

/// Appends a connection of an adapter in the list of all, with what was counted of it.
pub fn push_listed(
    out: &mut String,
    report: ConnectionReport,
    now_ms: u64,
    row: Option<CountedConnection>,
) -> Result<(), OutOfMemory>
    ensures { OnOk result (string_bytes out.new ≡ string_bytes out.old ++ listed_text now_ms row report) }
{
    push_begun(out, report)?;
    push_row(out, now_ms, row)?;
    push_text(out, "}")?;
    Ok(())
}

/// Appends a connection, without its end.
fn push_begun(out: &mut String, report: ConnectionReport) -> Result<(), OutOfMemory>
    ensures { OnOk result (string_bytes out.new ≡ string_bytes out.old ++ begun_connection report) }
{
    push_connection_head(out, report)?;
    push_connection_rest(out, report)
}

/// Appends the peer of a connection.
fn push_connection_head(out: &mut String, report: ConnectionReport) -> Result<(), OutOfMemory>
    ensures { OnOk result (string_bytes out.new ≡ string_bytes out.old ++ connection_head report) }
{
    push_text(out, "{\"peer\":\"")?;
    push_node(out, report.peer)
}

/// Appends what a connection is, behind its peer.
fn push_connection_rest(out: &mut String, report: ConnectionReport) -> Result<(), OutOfMemory>
    ensures { OnOk result (string_bytes out.new ≡ string_bytes out.old ++ connection_rest report) }
{
    push_kind(out, report)?;
    push_established(out, report.established)?;
    push_mode(out, report)?;
    Ok(())
}

/// Appends the kind and the points of a connection.
fn push_kind(out: &mut String, report: ConnectionReport) -> Result<(), OutOfMemory>
    ensures { OnOk result (string_bytes out.new ≡ string_bytes out.old ++ kind_text report) }
{
    let kind = kind_name(report.kind);
    let (consumed, produced) = (report.consumed, report.produced);
    write!(
        out,
        "\",\"kind\":\"{kind}\",\"consumed\":{consumed},\"produced\":{produced},\"established\":"
    )?;
    Ok(())
}

/// Appends whether a connection is established.
fn push_established(out: &mut String, is: bool) -> Result<(), OutOfMemory>
    ensures { OnOk result (string_bytes out.new ≡ string_bytes out.old ++ established_text is) }
{
    push_text(out, bool_word(is))?;
    push_text(out, ",\"o_t_ms\":")
}

/// Appends the packet intervals and the mode of a connection, and the age of its data.
fn push_mode(out: &mut String, report: ConnectionReport) -> Result<(), OutOfMemory>
    ensures { OnOk result (string_bytes out.new ≡ string_bytes out.old ++ mode_text report) }
{
    let (o_t, t_o) = (report.o_t_api_ms, report.t_o_api_ms);
    let mode = mode_word(report.mode);
    let (age, data) = (age_ms(report.age), has_data(report.age));
    write!(
        out,
        "{o_t},\"t_o_ms\":{t_o},\"mode\":\"{mode}\",\"age_ms\":{age},\"has_data\":{data}"
    )?;
    Ok(())
}

/// The word of a mode.
fn mode_word(mode: Option<Mode>) -> &'static str
    ensures { result.now ≡ mode_word mode }
{
    match mode {
        Some(Mode::Run) => "run",
        Some(Mode::Idle) => "idle",
        None => "none",
    }
}

/// The word of a truth value.
fn bool_word(is: bool) -> &'static str
    ensures { result.now ≡ bool_word is }
{
    if is { "true" } else { "false" }
}

/// The milliseconds of an age.
fn age_ms(age: Age) -> u64
    ensures { result ≡ age_ms age }
{
    match age {
        Age::SinceOpening(ms) => ms.0,
        Age::SinceAccepted(ms) => ms.0,
    }
}

/// Whether a datagram was accepted.
fn has_data(age: Age) -> bool
    ensures { result ≡ has_data age }
{
    match age {
        Age::SinceOpening(_) => false,
        Age::SinceAccepted(_) => true,
    }
}

/// Appends the state of a slot.
pub fn push_state(out: &mut String, report: SlotReport) -> Result<(), OutOfMemory>
    ensures { OnOk result (string_bytes out.new ≡ string_bytes out.old ++ state_text report) }
{
    match report {
        SlotReport::Idle => push_text(out, "\"idle\""),
        SlotReport::Opening => push_text(out, "\"opening\""),
        SlotReport::Established(report) => push_target(out, report),
        SlotReport::TimedOut => push_text(out, "\"timed_out\""),
        SlotReport::Closing => push_text(out, "\"closing\""),
    }
}

/// Appends what an established slot is.
fn push_target(out: &mut String, report: TargetReport) -> Result<(), OutOfMemory>
    ensures { OnOk result (string_bytes out.new ≡ string_bytes out.old ++ target_text report) }
{
    let (o_t, t_o) = (report.o_t_api_ms, report.t_o_api_ms);
    let (age, data) = (age_ms(report.age), has_data(report.age));
    write!(
        out,
        "\"established\",\"o_t_ms\":{o_t},\"t_o_ms\":{t_o},\"age_ms\":{age},\"has_data\":{data}"
    )?;
    Ok(())
}
