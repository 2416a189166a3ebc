//! Recorded outcomes in words, a line for each part.

use crate::datagrams::push_datagram;
use crate::events::{is_target, push_name};
use crate::frames::push_message;
use crate::router::{push_data, push_id, push_object, push_reply, push_triad};
use cip_events::{
    Answer, Delivery, Event, Frame, Notice, Outcome, OutgoingDatagram, Recipient, SlotPhase,
    StepFault, Unanswered, Verdict,
};
use cip_tables::Config;
use cip_types::{Fault, Node, OutOfMemory};
use std::alloc::Global;
use trace_words::{
    Named, Names, push_bytes, push_encap, push_fault, push_general, push_node, push_nodes,
    push_reason, push_text,
};

/// What begins a line of an outcome.
const INDENT: &str = "\n    ";

/// The outcome of an event.
pub fn push_outcome(
    alloc: Global,
    out: &mut String,
    config: &Config,
    names: &Names,
    event: &Event,
    outcome: &Outcome,
) -> Result<(), OutOfMemory> {
    match outcome {
        Ok(answer) => push_answer(alloc, out, config, names, event, answer),
        Err(StepFault::WrongLength) => {
            push_text(out, INDENT)?;
            push_text(out, "refused: a wrong number of bytes")
        }
        Err(fault) => {
            push_text(out, INDENT)?;
            Ok(write!(out, "refused: {fault}")?)
        }
    }
}

fn push_answer(
    alloc: Global,
    out: &mut String,
    config: &Config,
    names: &Names,
    event: &Event,
    answer: &Answer,
) -> Result<(), OutOfMemory> {
    push_text(out, INDENT)?;
    push_verdict(alloc, out, config, event, &answer.verdict)?;
    for frame in answer.frames.as_slice() {
        push_text(out, INDENT)?;
        push_frame(alloc, out, config, event, frame)?;
    }
    for outgoing in answer.datagrams.as_slice() {
        push_text(out, INDENT)?;
        push_outgoing(alloc, out, config, outgoing)?;
    }
    for notice in answer.notices.as_slice() {
        push_text(out, INDENT)?;
        push_notice(out, names, event, answer, *notice)?;
    }
    Ok(())
}

fn push_verdict(
    alloc: Global,
    out: &mut String,
    config: &Config,
    event: &Event,
    verdict: &Verdict,
) -> Result<(), OutOfMemory> {
    match verdict {
        Verdict::Done => push_text(out, "done"),
        Verdict::BadFrame => push_text(out, "not answered: too short, or a wrong length field"),
        Verdict::Ignored => push_text(out, "ignored: the scanner does not expect it"),
        Verdict::Value(bytes) => {
            push_text(out, "the point holds ")?;
            push_data(alloc, out, bytes.as_slice())
        }
        Verdict::Delivered(Delivery::Old) => push_old(out, config),
        Verdict::Delivered(delivery) if is_frame(event) => push_text(out, message_words(*delivery)),
        Verdict::Delivered(delivery) => push_text(out, delivery_words(*delivery)),
        Verdict::Replied {
            number,
            status,
            additional,
            data,
        } => {
            write!(out, "explicit request {number} is answered: ")?;
            push_status(out, *status, additional.as_slice())?;
            push_text(out, ", ")?;
            push_data(alloc, out, data.as_slice())
        }
        Verdict::Asked { .. } => push_own_request(alloc, out, verdict),
    }
}

/// A request to an object of the maker's own.
fn push_own_request(alloc: Global, out: &mut String, verdict: &Verdict) -> Result<(), OutOfMemory> {
    let Verdict::Asked {
        number,
        service,
        class,
        instance,
        attribute,
        data,
    } = verdict
    else {
        return Ok(());
    };
    write!(out, "the application is to answer request {number}: ")?;
    let path = (*class, *instance, *attribute);
    push_object(alloc, out, *service, path, data.as_slice())
}

/// Whether an event is a message over a stream.
fn is_frame(event: &Event) -> bool {
    match event {
        Event::Frame { .. } => true,
        _ => false,
    }
}

/// What became of a connected message that is not executed.
fn message_words(delivery: Delivery) -> &'static str {
    match delivery {
        Delivery::Duplicate => "not executed: its sequence count is that of the last one",
        Delivery::UnknownId => "left aside: no class 3 connection of this stream has this id",
        Delivery::WrongSize => "left aside: it is longer than its connection's size",
        other => delivery_words(other),
    }
}

/// A sequence number that is not accepted, with the limit of how far ahead it may be, if the profile states one.
fn push_old(out: &mut String, config: &Config) -> Result<(), OutOfMemory> {
    push_text(out, delivery_words(Delivery::Old))?;
    match config {
        Config::Adapter(profile) => push_within(out, profile.limits.newer),
        Config::Scanner(profile) => push_within(out, profile.newer),
    }
}

fn push_within(out: &mut String, newer: Option<u32>) -> Result<(), OutOfMemory> {
    match newer {
        Some(within) => Ok(write!(
            out,
            ", or is ahead of it by {within} or more, and two more for each packet interval since then"
        )?),
        None => Ok(()),
    }
}

/// A general status, and the bytes of the additional one. Two bytes are an extended status.
fn push_status(out: &mut String, general: u8, additional: &[u8]) -> Result<(), OutOfMemory> {
    if let [low, high] = additional {
        let extended = Some(u16::from_le_bytes([*low, *high]));
        return push_fault(out, Fault { general, extended });
    }
    push_general(out, general)?;
    push_text(out, ", additional status ")?;
    push_bytes(out, additional)
}

fn delivery_words(delivery: Delivery) -> &'static str {
    match delivery {
        Delivery::Applied => "accepted, its data are applied",
        Delivery::Idle => "accepted, in idle mode",
        Delivery::Heartbeat => "accepted, a heartbeat",
        Delivery::Duplicate => "accepted, its sequence count repeats, so its data are not new",
        Delivery::Old => "left aside: its sequence number is not newer than the last accepted one",
        Delivery::UnknownId => "left aside: no established connection of the peer has this id",
        Delivery::WrongSize => "left aside: its size is not the connection's",
        Delivery::Malformed => "left aside: no class 1 datagram",
    }
}

fn push_frame(
    alloc: Global,
    out: &mut String,
    config: &Config,
    event: &Event,
    frame: &Frame,
) -> Result<(), OutOfMemory> {
    match frame.to {
        Recipient::Stream(stream) => {
            write!(out, "sends on stream {stream}: ")?;
            push_message(
                alloc,
                out,
                config,
                frame.bytes.as_slice(),
                !is_target(config),
            )
        }
        Recipient::Peer(node) => {
            push_to_peer(alloc, out, config, event, node, frame.bytes.as_slice())
        }
    }
}

/// A reply over no stream: an encapsulation message to an inquiry, and that of a message router to another event.
fn push_to_peer(
    alloc: Global,
    out: &mut String,
    config: &Config,
    event: &Event,
    node: Node,
    bytes: &[u8],
) -> Result<(), OutOfMemory> {
    push_text(out, "replies to ")?;
    push_node(out, node)?;
    push_text(out, ": ")?;
    match event {
        Event::Inquiry { .. } => push_message(alloc, out, config, bytes, false),
        _ => push_reply(alloc, out, bytes),
    }
}

fn push_outgoing(
    alloc: Global,
    out: &mut String,
    config: &Config,
    outgoing: &OutgoingDatagram,
) -> Result<(), OutOfMemory> {
    push_text(out, "sends a datagram to ")?;
    push_node(out, outgoing.address)?;
    push_text(out, ", consumed by ")?;
    push_nodes(out, outgoing.nodes.as_slice())?;
    push_text(out, ": ")?;
    push_datagram(alloc, out, outgoing.bytes.as_slice(), !is_target(config))
}

/// A change of a connection, a stream, a slot or an explicit request, which an event's answer says.
pub fn push_notice(
    out: &mut String,
    names: &Names,
    event: &Event,
    answer: &Answer,
    notice: Notice,
) -> Result<(), OutOfMemory> {
    match notice {
        Notice::Opened(triad, id) => {
            push_text(out, "opened: ")?;
            push_triad(out, triad)?;
            push_text(out, ", O->T id ")?;
            push_id(out, id)
        }
        Notice::Closed(triad) => {
            push_text(out, "closed: ")?;
            push_triad(out, triad)
        }
        Notice::Expired(triad) => {
            push_text(out, "timed out: ")?;
            push_triad(out, triad)
        }
        Notice::Dropped(triad) => {
            push_text(out, dropped_words(event, answer.notices.as_slice()))?;
            push_triad(out, triad)
        }
        Notice::Replaced(triad) => {
            push_text(out, "removed for a new one, timed out before: ")?;
            push_triad(out, triad)
        }
        Notice::StreamClosed(stream) => Ok(write!(out, "closes stream {stream}")?),
        Notice::Reset(kind) => {
            let words = reset_words(kind);
            Ok(write!(out, "a peer requests a reset of type {kind}{words}")?)
        }
        Notice::Unanswered(number, why) => {
            write!(out, "explicit request {number} is not answered: ")?;
            push_unanswered(out, why)
        }
        _ => push_slot_notice(out, names, notice),
    }
}

/// Why a connection was dropped: a class 3 connection ends with its stream, and no listener does.
fn dropped_words(event: &Event, notices: &[Notice]) -> &'static str {
    match (event, notices) {
        (Event::StreamCut { .. }, _) => "ended with its stream: ",
        (_, [Notice::StreamClosed(_), ..]) => "ended with its stream: ",
        _ => "dropped, a listener without support: ",
    }
}

fn push_unanswered(out: &mut String, why: Unanswered) -> Result<(), OutOfMemory> {
    match why {
        Unanswered::TimedOut => push_text(out, "no reply came within the open time-out"),
        Unanswered::Lost => push_text(out, "its stream ended"),
        Unanswered::Encap(status) => push_encap(out, status),
        Unanswered::Unreadable => push_text(out, "no readable reply"),
    }
}

/// What a reset of this type is.
///
/// Volume 1, chapter 5, Identity object, Reset service.
fn reset_words(kind: u8) -> &'static str {
    match kind {
        0 => ": as a power cycle",
        1 => ": as a power cycle, to the settings of the factory",
        _ => "",
    }
}

fn push_slot_notice(out: &mut String, names: &Names, notice: Notice) -> Result<(), OutOfMemory> {
    match notice {
        Notice::Slot(slot, state) => {
            let words = state_words(state);
            push_slot(out, names, slot)?;
            Ok(write!(out, " is {words} (state {state})")?)
        }
        Notice::NoIds(slot) => {
            push_slot(out, names, slot)?;
            push_text(
                out,
                " needs a connection id or a request number, and none is left",
            )
        }
        Notice::Refused(slot, reason) => {
            push_slot(out, names, slot)?;
            push_text(out, " is not opened: ")?;
            push_reason(out, reason)
        }
        _ => Ok(()),
    }
}

/// A slot by its number, and its name behind that.
fn push_slot(out: &mut String, names: &Names, slot: u32) -> Result<(), OutOfMemory> {
    write!(out, "slot {slot}")?;
    push_name(out, names, Named::Slot(slot))
}

/// The state of a slot's connection, by the standard's number.
///
/// Volume 1, chapter 3, connection instance states.
fn state_words(state: u8) -> &'static str {
    match SlotPhase::of(state) {
        Some(SlotPhase::Idle) => "idle",
        Some(SlotPhase::Opening) => "opening",
        Some(SlotPhase::Established) => "established",
        Some(SlotPhase::TimedOut) => "timed out",
        Some(SlotPhase::Closing) => "closing",
        None => "in another state",
    }
}
