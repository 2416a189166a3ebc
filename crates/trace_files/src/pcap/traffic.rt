//! The packets of a trace's events.

ghost use Rattle.std.specs.Prelude.{◌≡◌, ◌++◌, OnOk, flat_map};
ghost use Rattle.trace_files.specs.Pcap.Traffic.{without, replaced_stream, stream_of, control_of, segment_record, sent_more, opener, other_end, start_of, opened_by, opening_records, data_records, data_streams, last_bits, end_records, event_records, event_streams, frame_records, frame_streams, frames_records, frames_streams, inquired_records, replies_records, copies_records, outgoing_records, datagrams_records, notice_records, notice_streams, notices_records, notices_streams, answer_records, answer_streams};

use crate::pcap::ends::{
    CapturedStream, Sender, Side, datagram_ends, ends_of, inquiry_ends, is_multicast, reversed,
    stream_port,
};
use crate::pcap::headers::Control;
use crate::pcap::packets::{MOST_TCP, push_tcp, push_udp, shown};
use cip_events::{Answer, Event, Frame, Notice, OutgoingDatagram, Recipient};
use cip_types::{Node, OutOfMemory, add_stream, drop_stream, find_stream};

/// The control bit SYN: the first segment of the end that opens a stream.
const OPENS: u8 = 2;

/// The control bits SYN and ACK: the first segment of the other end.
const ACCEPTS: u8 = 18;

/// The control bit ACK: the stream is open.
const CONFIRMS: u8 = 16;

/// The control bits PSH and ACK: data for the application.
const DATA: u8 = 24;

/// The control bits RST and ACK: a stream that breaks.
const BREAKS: u8 = 20;

/// The control bits FIN and ACK: the last segment of an end.
const CLOSES: u8 = 17;

/// Where and when an event happens: the traced device, the time in milliseconds, and the number of the event.
#[derive(Clone, Copy)]
pub struct EventContext {
    pub side: Side,
    pub time: u64,
    pub number: u64,
}

/// Puts the stream in place of the one with its number.
fn replace_stream(
    streams: &mut Vec<CapturedStream>,
    stream: CapturedStream,
) -> Result<(), OutOfMemory>
    ensures { OnOk result (streams.new.items ≡ replaced_stream stream streams.old.items) }
{
    drop_stream(streams, stream.number);
    add_stream(streams, stream)
}

/// The numbers of a segment: the next one of its sender, and the next one of the other end.
fn control_of(sender: Sender, stream: &CapturedStream, bits: u8) -> Control
    ensures { result ≡ control_of sender stream.now bits }
{
    let (sequence, acknowledgement) = match sender {
        Sender::Peer => (stream.received, stream.sent),
        Sender::Device => (stream.sent, stream.received),
    };
    Control {
        sequence,
        acknowledgement,
        bits,
    }
}

/// Appends a segment of a stream.
#[tactic(auto, unfolding(crate::specs::Pcap::Traffic::segment_record))]
fn push_segment(
    out: &mut Vec<u8>,
    context: EventContext,
    sender: Sender,
    stream: &CapturedStream,
    bits: u8,
    bytes: &[u8],
) -> Result<(), OutOfMemory>
    ensures { OnOk result (out.new.items ≡ out.old.items ++ segment_record context sender stream.now bits bytes.now) }
{
    let ends = ends_of(sender, context.side, stream);
    let control = control_of(sender, stream, bits);
    push_tcp(out, context.time, &ends, control, bytes)
}

/// The stream after its sender took this many more numbers.
fn sent_more(sender: Sender, count: u32, stream: CapturedStream) -> CapturedStream
    ensures { result ≡ sent_more sender count stream }
{
    match sender {
        Sender::Peer => CapturedStream {
            received: stream.received.wrapping_add(count),
            ..stream
        },
        Sender::Device => CapturedStream {
            sent: stream.sent.wrapping_add(count),
            ..stream
        },
    }
}

/// The end that opens a stream.
fn opener(side: Side) -> Sender
    ensures { result ≡ opener side }
{
    if side.opens {
        Sender::Device
    } else {
        Sender::Peer
    }
}

fn other_end(sender: Sender) -> Sender
    ensures { result ≡ other_end sender }
{
    match sender {
        Sender::Peer => Sender::Device,
        Sender::Device => Sender::Peer,
    }
}

/// A stream of which nothing was sent.
fn start_of(context: EventContext, number: u16, peer: Node) -> CapturedStream
    ensures { result ≡ start_of context number peer }
{
    CapturedStream {
        number,
        peer,
        port: stream_port(context.number),
        received: 0,
        sent: 0,
    }
}

/// The stream after both ends opened it, this one first.
fn opened_by(first: Sender, start: CapturedStream) -> CapturedStream
    ensures { result ≡ opened_by first start }
{
    sent_more(other_end(first), 1, sent_more(first, 1, start))
}

/// Appends the three segments by which this end opens a stream.
#[tactic(auto, unfolding(crate::specs::Pcap::Traffic::opening_records))]
fn push_opening(
    out: &mut Vec<u8>,
    context: EventContext,
    first: Sender,
    start: CapturedStream,
) -> Result<(), OutOfMemory>
    ensures { OnOk result (out.new.items ≡ out.old.items ++ opening_records context first start) }
{
    let half = sent_more(first, 1, start);
    let open = opened_by(first, start);
    push_segment(out, context, first, &start, OPENS, &[])?;
    push_segment(out, context, other_end(first), &half, ACCEPTS, &[])?;
    push_segment(out, context, first, &open, CONFIRMS, &[])?;
    Ok(())
}

/// A stream opens, or opens anew.
fn push_opened(
    out: &mut Vec<u8>,
    streams: &mut Vec<CapturedStream>,
    context: EventContext,
    first: Sender,
    start: CapturedStream,
) -> Result<(), OutOfMemory>
    ensures records { OnOk result (out.new.items ≡ out.old.items ++ opening_records context first start) }
    ensures streams { OnOk result (streams.new.items ≡ replaced_stream (opened_by first start) streams.old.items) }
{
    push_opening(out, context, first, start)?;
    replace_stream(streams, opened_by(first, start))
}

/// An end of a stream sends bytes.
fn push_data(
    out: &mut Vec<u8>,
    streams: &mut Vec<CapturedStream>,
    context: EventContext,
    sender: Sender,
    number: u16,
    bytes: &[u8],
) -> Result<(), OutOfMemory>
    ensures records { OnOk result
        (out.new.items ≡ out.old.items ++ data_records context sender bytes.now (stream_of number streams.old.items)) }
    ensures streams { OnOk result
        (streams.new.items ≡ data_streams sender bytes.now (stream_of number streams.old.items) streams.old.items) }
{
    let Some(stream) = find_stream(streams.as_slice(), number) else {
        return Ok(());
    };
    push_segment(out, context, sender, &stream, DATA, bytes)?;
    let count = shown(MOST_TCP, bytes).len() as u32;
    replace_stream(streams, sent_more(sender, count, stream))
}

/// The control bits of the last segment of a stream: it breaks, or its peer closes it; or the device closes it.
fn last_bits(sender: Sender) -> u8
    ensures { result ≡ last_bits sender }
{
    match sender {
        Sender::Peer => BREAKS,
        Sender::Device => CLOSES,
    }
}

/// An end of a stream ends it.
fn push_end(
    out: &mut Vec<u8>,
    streams: &mut Vec<CapturedStream>,
    context: EventContext,
    sender: Sender,
    number: u16,
) -> Result<(), OutOfMemory>
    ensures records { OnOk result
        (out.new.items ≡ out.old.items ++ end_records context sender (stream_of number streams.old.items)) }
    ensures streams { OnOk result (streams.new.items ≡ without number streams.old.items) }
{
    if let Some(stream) = find_stream(streams.as_slice(), number) {
        push_segment(out, context, sender, &stream, last_bits(sender), &[])?;
    }
    drop_stream(streams, number);
    Ok(())
}

/// What arrives at the device in an event.
pub fn push_event(
    out: &mut Vec<u8>,
    streams: &mut Vec<CapturedStream>,
    context: EventContext,
    event: &Event,
) -> Result<(), OutOfMemory>
    ensures records { OnOk result (out.new.items ≡ out.old.items ++ event_records context event.now streams.old.items) }
    ensures streams { OnOk result (streams.new.items ≡ event_streams context event.now streams.old.items) }
{
    match event {
        Event::StreamOpened { stream, peer } => {
            let start = start_of(context, *stream, *peer);
            push_opened(out, streams, context, opener(context.side), start)
        }
        Event::Frame { stream, bytes } => {
            push_data(
                out,
                streams,
                context,
                Sender::Peer,
                *stream,
                bytes.as_slice(),
            )
        }
        Event::StreamCut { stream } => push_end(out, streams, context, Sender::Peer, *stream),
        Event::Datagram { peer, bytes } => {
            let ends = datagram_ends(*peer, context.side.node);
            push_udp(out, context.time, &ends, bytes.as_slice())
        }
        Event::Inquiry { peer, bytes } => {
            let ends = inquiry_ends(context.number, *peer, context.side.node);
            push_udp(out, context.time, &ends, bytes.as_slice())
        }
        _ => Ok(()),
    }
}

/// The replies to an event that is an inquiry: each goes to the port that the inquiry came from.
pub fn push_replies(
    out: &mut Vec<u8>,
    context: EventContext,
    event: &Event,
    frames: &[Frame],
) -> Result<(), OutOfMemory>
    ensures { OnOk result (out.new.items ≡ out.old.items ++ replies_records context event.now frames.now) }
{
    match event {
        Event::Inquiry { .. } => push_inquired(out, context, frames),
        _ => Ok(()),
    }
}

fn push_inquired(
    out: &mut Vec<u8>,
    context: EventContext,
    frames: &[Frame],
) -> Result<(), OutOfMemory>
    ensures { OnOk result (out.new.items ≡ out.old.items ++ flat_map (inquired_records context) frames.now) }
{
    for frame in frames {
        push_to_inquirer(out, context, frame)?;
    }
    Ok(())
}

fn push_to_inquirer(
    out: &mut Vec<u8>,
    context: EventContext,
    frame: &Frame,
) -> Result<(), OutOfMemory>
    ensures { OnOk result (out.new.items ≡ out.old.items ++ inquired_records context frame.now) }
{
    match frame.to {
        Recipient::Peer(node) => {
            let ends = reversed(inquiry_ends(context.number, node, context.side.node));
            push_udp(out, context.time, &ends, frame.bytes.as_slice())
        }
        Recipient::Stream(_) => Ok(()),
    }
}

fn push_frame(
    out: &mut Vec<u8>,
    streams: &mut Vec<CapturedStream>,
    context: EventContext,
    frame: &Frame,
) -> Result<(), OutOfMemory>
    ensures records { OnOk result (out.new.items ≡ out.old.items ++ frame_records context frame.now streams.old.items) }
    ensures streams { OnOk result (streams.new.items ≡ frame_streams frame.now streams.old.items) }
{
    match frame.to {
        Recipient::Stream(number) => {
            let bytes = frame.bytes.as_slice();
            push_data(out, streams, context, Sender::Device, number, bytes)
        }
        Recipient::Peer(_) => Ok(()),
    }
}

fn push_frames(
    out: &mut Vec<u8>,
    streams: &mut Vec<CapturedStream>,
    context: EventContext,
    frames: &[Frame],
) -> Result<(), OutOfMemory>
    ensures records { OnOk result
        (out.new.items ≡ out.old.items ++ frames_records context frames.now streams.old.items) }
    ensures streams { OnOk result (streams.new.items ≡ frames_streams frames.now streams.old.items) }
{
    for frame in frames {
        push_frame(out, streams, context, frame)?;
    }
    Ok(())
}

/// The datagrams of a production: one to a group of hosts, or one to each node.
fn push_outgoing(
    out: &mut Vec<u8>,
    context: EventContext,
    outgoing: &OutgoingDatagram,
) -> Result<(), OutOfMemory>
    ensures { OnOk result (out.new.items ≡ out.old.items ++ outgoing_records context outgoing.now) }
{
    let bytes = outgoing.bytes.as_slice();
    if is_multicast(outgoing.address) {
        let ends = datagram_ends(context.side.node, outgoing.address);
        return push_udp(out, context.time, &ends, bytes);
    }
    push_copies(out, context, outgoing.nodes.as_slice(), bytes)
}

fn push_copies(
    out: &mut Vec<u8>,
    context: EventContext,
    nodes: &[Node],
    bytes: &[u8],
) -> Result<(), OutOfMemory>
    ensures { OnOk result (out.new.items ≡ out.old.items ++ copies_records context bytes.now nodes.now) }
{
    for node in nodes {
        let ends = datagram_ends(context.side.node, *node);
        push_udp(out, context.time, &ends, bytes)?;
    }
    Ok(())
}

fn push_datagrams(
    out: &mut Vec<u8>,
    context: EventContext,
    datagrams: &[OutgoingDatagram],
) -> Result<(), OutOfMemory>
    ensures { OnOk result (out.new.items ≡ out.old.items ++ datagrams_records context datagrams.now) }
{
    for outgoing in datagrams {
        push_outgoing(out, context, outgoing)?;
    }
    Ok(())
}

fn push_notice(
    out: &mut Vec<u8>,
    streams: &mut Vec<CapturedStream>,
    context: EventContext,
    notice: &Notice,
) -> Result<(), OutOfMemory>
    ensures records { OnOk result
        (out.new.items ≡ out.old.items ++ notice_records context notice.now streams.old.items) }
    ensures streams { OnOk result (streams.new.items ≡ notice_streams notice.now streams.old.items) }
{
    match notice {
        Notice::StreamClosed(number) => { push_end(out, streams, context, Sender::Device, *number) }
        _ => Ok(()),
    }
}

fn push_notices(
    out: &mut Vec<u8>,
    streams: &mut Vec<CapturedStream>,
    context: EventContext,
    notices: &[Notice],
) -> Result<(), OutOfMemory>
    ensures records { OnOk result
        (out.new.items ≡ out.old.items ++ notices_records context notices.now streams.old.items) }
    ensures streams { OnOk result (streams.new.items ≡ notices_streams notices.now streams.old.items) }
{
    for notice in notices {
        push_notice(out, streams, context, notice)?;
    }
    Ok(())
}

/// What the device sends and closes in an answer: its frames, its datagrams, and the streams that it closed.
pub fn push_answer(
    out: &mut Vec<u8>,
    streams: &mut Vec<CapturedStream>,
    context: EventContext,
    answer: &Answer,
) -> Result<(), OutOfMemory>
    ensures records { OnOk result
        (out.new.items ≡ out.old.items ++ answer_records context answer.now streams.old.items) }
    ensures streams { OnOk result (streams.new.items ≡ answer_streams answer.now streams.old.items) }
{
    push_frames(out, streams, context, answer.frames.as_slice())?;
    push_datagrams(out, context, answer.datagrams.as_slice())?;
    push_notices(out, streams, context, answer.notices.as_slice())
}
