//! What a station says of the streams of its port and of its slots.

ghost use Rattle.std.specs.Prelude.{◌≡◌, ◌++◌, OnOk, string_bytes};
ghost use Rattle.station_lines.specs.Reports.{ended_text, ending_text, full_text, missized_text, not_opened_text, opened_text, refusal_text, remedy_text, report_text, retry_text, sizes_text, starved_text, stream_text, unbound_port_text, unbound_text, unfed_text};

use crate::reasons::push_stream_words;
use crate::watch::{Starved, StarvedCause};
use cip_types::{Node, OutOfMemory};
use trace_words::{push_node, push_text};
use udp_runner::{DataGroup, EndCause, PortReport, RefusalCause};

/// Appends the line of a port's report. An adapter's streams may be silent for so many seconds.
pub fn push_report(out: &mut String, report: &PortReport, silent_s: u16) -> Result<(), OutOfMemory>
    ensures { OnOk result (string_bytes out.new ≡ string_bytes out.old ++ report_text silent_s report.now) }
{
    match report {
        PortReport::Opened { stream, peer } => push_opened(out, *stream, *peer),
        PortReport::Ended {
            stream,
            peer,
            cause,
        } => push_ended(out, *stream, *peer, *cause, silent_s),
        PortReport::NotOpened { peer, cause } => push_refusal(out, *peer, *cause),
    }
}

/// Appends that a stream is open.
fn push_opened(out: &mut String, stream: u16, peer: Node) -> Result<(), OutOfMemory>
    ensures { OnOk result (string_bytes out.new ≡ string_bytes out.old ++ opened_text stream peer) }
{
    push_stream(out, stream, peer)?;
    push_text(out, " is open\n")?;
    Ok(())
}

/// Appends that a stream ended, and why.
fn push_ended(
    out: &mut String,
    stream: u16,
    peer: Node,
    cause: EndCause,
    silent_s: u16,
) -> Result<(), OutOfMemory>
    ensures { OnOk result (string_bytes out.new ≡ string_bytes out.old ++ ended_text silent_s stream peer cause) }
{
    push_stream(out, stream, peer)?;
    push_text(out, " ended: ")?;
    push_ending(out, cause, silent_s)?;
    push_text(out, "\n")?;
    Ok(())
}

/// Appends a stream and its peer.
fn push_stream(out: &mut String, stream: u16, peer: Node) -> Result<(), OutOfMemory>
    ensures { OnOk result (string_bytes out.new ≡ string_bytes out.old ++ stream_text stream peer) }
{
    write!(out, "eip_station: stream {stream} of ")?;
    push_node(out, peer)?;
    Ok(())
}

/// Appends why a stream ended.
fn push_ending(out: &mut String, cause: EndCause, silent_s: u16) -> Result<(), OutOfMemory>
    ensures { OnOk result (string_bytes out.new ≡ string_bytes out.old ++ ending_text silent_s cause) }
{
    match cause {
        EndCause::Cut => push_text(out, "its peer cut it"),
        EndCause::TooLong => push_text(
            out,
            "this station ended it, since a message of more than 2048 bytes came",
        ),
        EndCause::NoMemory => push_text(
            out,
            "this station ended it, since there was no memory for a message",
        ),
        EndCause::Silent => {
            write!(out, "it was silent for {silent_s} s")?;
            Ok(())
        }
        EndCause::Displaced => push_text(out, "a new one took its place"),
        EndCause::NoSession => push_text(out, "no session in time"),
        EndCause::SessionRefused => push_text(out, "its session was refused"),
        EndCause::Renewed => push_text(out, "a request was not answered in time"),
    }
}

/// Appends why a stream did not open.
fn push_refusal(out: &mut String, peer: Node, cause: RefusalCause) -> Result<(), OutOfMemory>
    ensures { OnOk result (string_bytes out.new ≡ string_bytes out.old ++ refusal_text peer cause) }
{
    match cause {
        RefusalCause::Full => push_full(out, peer),
        RefusalCause::Refused { retry_ms } => push_not_opened(out, peer, true, retry_ms),
        RefusalCause::Unanswered { retry_ms } => push_not_opened(out, peer, false, retry_ms),
    }
}

/// Appends that a target refuses a stream, or does not answer.
fn push_not_opened(
    out: &mut String,
    peer: Node,
    refused: bool,
    retry_ms: u64,
) -> Result<(), OutOfMemory>
    ensures { OnOk result (string_bytes out.new ≡ string_bytes out.old ++ not_opened_text peer refused retry_ms) }
{
    push_text(out, "eip_station: ")?;
    push_node(out, peer)?;
    push_stream_words(out, refused)?;
    push_retry(out, retry_ms)?;
    Ok(())
}

/// Appends that a connection found no place.
fn push_full(out: &mut String, peer: Node) -> Result<(), OutOfMemory>
    ensures { OnOk result (string_bytes out.new ≡ string_bytes out.old ++ full_text peer) }
{
    push_text(out, "eip_station: a connection of ")?;
    push_node(out, peer)?;
    push_text(out, " is refused: 16 streams are open\n")?;
    Ok(())
}

/// Appends when the next try is.
fn push_retry(out: &mut String, retry_ms: u64) -> Result<(), OutOfMemory>
    ensures { OnOk result (string_bytes out.new ≡ string_bytes out.old ++ retry_text retry_ms) }
{
    let seconds = retry_ms / 1_000;
    write!(out, "; the next try is in {seconds} s\n")?;
    Ok(())
}

/// Appends the line of a slot that gets no data.
pub fn push_starved(out: &mut String, starved: &Starved) -> Result<(), OutOfMemory>
    ensures { OnOk result (string_bytes out.new ≡ string_bytes out.old ++ starved_text starved.now) }
{
    let (slot, target) = (starved.slot, starved.target);
    match starved.cause {
        StarvedCause::NoDatagram(group) => push_unfed(out, slot, target, group),
        StarvedCause::WrongSize { came, takes } => push_missized(out, slot, target, came, takes),
    }
}

/// Appends the line of a slot whose data never came.
fn push_unfed(
    out: &mut String,
    slot: u32,
    target: Node,
    group: Option<DataGroup>,
) -> Result<(), OutOfMemory>
    ensures { OnOk result (string_bytes out.new ≡ string_bytes out.old ++ unfed_text slot target group) }
{
    write!(out, "eip_station: slot {slot}: no multicast datagram of ")?;
    push_node(out, target)?;
    push_remedy(out, group)?;
    Ok(())
}

/// Appends the line of a slot whose datagrams have another size than it takes.
fn push_missized(
    out: &mut String,
    slot: u32,
    target: Node,
    came: u64,
    takes: u64,
) -> Result<(), OutOfMemory>
    ensures { OnOk result (string_bytes out.new ≡ string_bytes out.old ++ missized_text slot target came takes) }
{
    write!(out, "eip_station: slot {slot}: the datagrams of ")?;
    push_node(out, target)?;
    push_sizes(out, came, takes)?;
    Ok(())
}

/// Appends how many bytes came, and how many a slot takes.
fn push_sizes(out: &mut String, came: u64, takes: u64) -> Result<(), OutOfMemory>
    ensures { OnOk result (string_bytes out.new ≡ string_bytes out.old ++ sizes_text came takes) }
{
    write!(
        out,
        " have {came} bytes of data, and the slot takes {takes}: none is applied\n"
    )?;
    Ok(())
}

/// Appends what to do for the data of a group, if the reply named one.
fn push_remedy(out: &mut String, group: Option<DataGroup>) -> Result<(), OutOfMemory>
    ensures { OnOk result (string_bytes out.new ≡ string_bytes out.old ++ remedy_text group) }
{
    let Some(group) = group else {
        return push_text(
            out,
            " came: if this host does not receive its group: ip address add GROUP/32 dev INTERFACE autojoin\n",
        );
    };
    push_text(out, " came to ")?;
    push_node(out, group.address)?;
    push_text(
        out,
        ": this host does not receive that group: ip address add ",
    )?;
    push_node(out, group.address)?;
    push_text(out, "/32 dev INTERFACE autojoin\n")
}

/// Appends the line of a group for which no socket can be bound.
pub fn push_unbound(out: &mut String, group: DataGroup) -> Result<(), OutOfMemory>
    ensures { OnOk result (string_bytes out.new ≡ string_bytes out.old ++ unbound_text group) }
{
    push_text(out, "eip_station: no datagram of the group ")?;
    push_node(out, group.address)?;
    push_unbound_port(out, group.port)?;
    Ok(())
}

/// Appends why no datagram of a group comes.
fn push_unbound_port(out: &mut String, port: u16) -> Result<(), OutOfMemory>
    ensures { OnOk result (string_bytes out.new ≡ string_bytes out.old ++ unbound_port_text port) }
{
    write!(
        out,
        " can be received: its UDP port {port} cannot be had, as where another program has it alone; it is tried again every 5 s\n"
    )?;
    Ok(())
}
