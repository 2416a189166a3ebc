//! One number for both ends of a stream.
//!
//! A station numbers its streams by itself, and uses a number again. In a network each stream has one number, which is
//! never used again. An adapter's session handle is the number of its stream plus one, so the handle changes with it.
//!
//! Volume 2, chapter 2, encapsulation messages, session handle.

ghost use Rattle.std.specs.Prelude.{◌≡◌, IfOk, map};
ghost use Rattle.record_settling.specs.StreamNames.Names.{name_in, named_answer, named_bytes, named_bytes_to, named_event, named_frame, named_handle, named_notice, named_recipient, named_sent, named_stream};

use cip_events::{
    Answer, Consumers, Event, Frame, Notice, OutgoingDatagram, Recipient, SmallBytes, Verdict,
};
use cip_types::fields::{put_bytes, put_u32, u32_in};
use cip_types::{Items, OutOfMemory};
use std::alloc::Global;

/// A stream of a device, from its opening to its end.
#[derive(Clone, Copy)]
pub struct StreamName {
    /// The number that the device's station gave it.
    pub own: u16,
    /// The number that the adapter's station gave it, which makes the session handle.
    pub target: u16,
    /// Its number in the network.
    pub number: u16,
}

/// The stream of this number that began last.
pub fn name_in(names: &[StreamName], stream: u16) -> Option<StreamName>
    ensures { result ≡ name_in names.now stream }
{
    let mut last = None;
    for name in names {
        if name.own == stream {
            last = Some(*name);
        }
    }
    last
}

/// The number of a stream in the network.
pub fn named_stream(names: &[StreamName], stream: u16) -> u16
    ensures { result ≡ named_stream names.now stream }
{
    match name_in(names, stream) {
        Some(name) => name.number,
        None => stream,
    }
}

/// A session handle of a stream: that of the adapter's number is that of the network's, and the other way round.
fn named_handle(name: StreamName, handle: u32) -> u32
    ensures { result ≡ named_handle name handle }
{
    let own = u32::from(name.target) + 1;
    let named = u32::from(name.number) + 1;
    if handle == own {
        named
    } else if handle == named {
        own
    } else {
        handle
    }
}

/// A message with this name's handle. Fewer than 8 bytes have none.
fn with_handle(alloc: Global, name: StreamName, bytes: &[u8]) -> Result<Items<u8>, OutOfMemory>
    ensures { IfOk result (λ named. named ≡ named_bytes name bytes.now) }
{
    if bytes.len() < 8 {
        return Items::copy_of(alloc, bytes);
    }
    let mut out = Vec::with_capacity(alloc, bytes.len())?;
    put_bytes(&mut out, &bytes[..4])?;
    put_u32(&mut out, named_handle(name, u32_in(bytes, 4)))?;
    put_bytes(&mut out, &bytes[8..])?;
    Ok(Items::from_vec(out))
}

/// A message of a stream.
fn named_frame(
    alloc: Global,
    names: &[StreamName],
    stream: u16,
    bytes: &[u8],
) -> Result<Items<u8>, OutOfMemory>
    ensures { IfOk result (λ named. named ≡ named_frame names.now stream bytes.now) }
{
    match name_in(names, stream) {
        Some(name) => with_handle(alloc, name, bytes),
        None => Items::copy_of(alloc, bytes),
    }
}

/// The event with the network's number of its stream.
pub fn named_event(alloc: Global, names: &[StreamName], event: &Event) -> Result<Event, OutOfMemory>
    ensures { IfOk result (λ named. named ≡ named_event names.now event.now) }
{
    match event {
        Event::StreamOpened { stream, peer } => Ok(Event::StreamOpened {
            stream: named_stream(names, *stream),
            peer: *peer,
        }),
        Event::Frame { stream, bytes } => Ok(Event::Frame {
            stream: named_stream(names, *stream),
            bytes: named_frame(alloc, names, *stream, bytes.as_slice())?,
        }),
        Event::StreamCut { stream } => Ok(Event::StreamCut {
            stream: named_stream(names, *stream),
        }),
        _ => event.copy(alloc),
    }
}

fn named_recipient(names: &[StreamName], to: Recipient) -> Recipient
    ensures { result ≡ named_recipient names.now to }
{
    match to {
        Recipient::Stream(stream) => Recipient::Stream(named_stream(names, stream)),
        Recipient::Peer(peer) => Recipient::Peer(peer),
    }
}

fn bytes_to(
    alloc: Global,
    names: &[StreamName],
    to: Recipient,
    bytes: &[u8],
) -> Result<Items<u8>, OutOfMemory>
    ensures { IfOk result (λ named. named ≡ (named_bytes_to names.now to bytes.now)) }
{
    match to {
        Recipient::Stream(stream) => named_frame(alloc, names, stream, bytes),
        Recipient::Peer(_) => Items::copy_of(alloc, bytes),
    }
}

fn named_sent(alloc: Global, names: &[StreamName], frame: &Frame) -> Result<Frame, OutOfMemory>
    ensures { IfOk result (λ named. named ≡ named_sent names.now frame.now) }
{
    Ok(Frame {
        to: named_recipient(names, frame.to),
        bytes: bytes_to(alloc, names, frame.to, frame.bytes.as_slice())?,
    })
}

fn named_frames(
    alloc: Global,
    names: &[StreamName],
    frames: &[Frame],
) -> Result<Items<Frame>, OutOfMemory>
    ensures { IfOk result (λ named. named ≡ map (named_sent names.now) frames.now) }
{
    let mut out = Vec::new(alloc);
    for frame in frames {
        out.push(named_sent(alloc, names, frame)?)?;
    }
    Ok(Items::from_vec(out))
}

fn same_datagram(
    alloc: Global,
    outgoing: &OutgoingDatagram,
) -> Result<OutgoingDatagram, OutOfMemory>
    ensures { IfOk result (λ copy. copy ≡ outgoing.now) }
{
    Ok(OutgoingDatagram {
        address: outgoing.address,
        nodes: Consumers::copy_of(alloc, outgoing.nodes.as_slice())?,
        bytes: SmallBytes::joined(alloc, outgoing.bytes.as_slice(), &[])?,
    })
}

fn same_datagrams(
    alloc: Global,
    datagrams: &[OutgoingDatagram],
) -> Result<Items<OutgoingDatagram>, OutOfMemory>
    ensures { IfOk result (λ copy. copy ≡ datagrams.now) }
{
    let mut out = Vec::new(alloc);
    for outgoing in datagrams {
        out.push(same_datagram(alloc, outgoing)?)?;
    }
    Ok(Items::from_vec(out))
}

fn named_notice(names: &[StreamName], notice: Notice) -> Notice
    ensures { result ≡ named_notice names.now notice }
{
    match notice {
        Notice::StreamClosed(stream) => Notice::StreamClosed(named_stream(names, stream)),
        other => other,
    }
}

fn named_notices(
    alloc: Global,
    names: &[StreamName],
    notices: &[Notice],
) -> Result<Items<Notice>, OutOfMemory>
    ensures { IfOk result (λ named. named ≡ map (named_notice names.now) notices.now) }
{
    let mut out = Vec::new(alloc);
    for notice in notices {
        out.push(named_notice(names, *notice))?;
    }
    Ok(Items::from_vec(out))
}

fn same_verdict(alloc: Global, verdict: &Verdict) -> Result<Verdict, OutOfMemory>
    ensures { IfOk result (λ copy. copy ≡ verdict.now) }
{
    Ok(match verdict {
        Verdict::Done => Verdict::Done,
        Verdict::BadFrame => Verdict::BadFrame,
        Verdict::Ignored => Verdict::Ignored,
        Verdict::Value(bytes) => Verdict::Value(Items::copy_of(alloc, bytes.as_slice())?),
        Verdict::Delivered(delivery) => Verdict::Delivered(*delivery),
        Verdict::Replied {
            number,
            status,
            additional,
            data,
        } => Verdict::Replied {
            number: *number,
            status: *status,
            additional: Items::copy_of(alloc, additional.as_slice())?,
            data: Items::copy_of(alloc, data.as_slice())?,
        },
        Verdict::Asked {
            number,
            service,
            class,
            instance,
            attribute,
            data,
        } => Verdict::Asked {
            number: *number,
            service: *service,
            class: *class,
            instance: *instance,
            attribute: *attribute,
            data: Items::copy_of(alloc, data.as_slice())?,
        },
    })
}

/// The answer with the network's numbers of streams, and their handles.
pub fn named_answer(
    alloc: Global,
    names: &[StreamName],
    answer: &Answer,
) -> Result<Answer, OutOfMemory>
    ensures { IfOk result (λ named. named ≡ named_answer names.now answer.now) }
{
    Ok(Answer {
        frames: named_frames(alloc, names, answer.frames.as_slice())?,
        datagrams: same_datagrams(alloc, answer.datagrams.as_slice())?,
        verdict: same_verdict(alloc, &answer.verdict)?,
        notices: named_notices(alloc, names, answer.notices.as_slice())?,
    })
}
