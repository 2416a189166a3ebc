//! Events in words.

use crate::datagrams::push_datagram;
use crate::frames::push_message;
use crate::router::{push_data, push_request};
use cip_events::Event;
use cip_tables::Config;
use cip_types::{IdBlock, Node, OutOfMemory};
use std::alloc::Global;
use trace_words::{Named, Names, push_general, push_node, push_text};

/// Whether the traced device is a target: an adapter.
pub fn is_target(config: &Config) -> bool {
    match config {
        Config::Adapter(_) => true,
        Config::Scanner(_) => false,
    }
}

/// What happens in an event.
pub fn push_event(
    alloc: Global,
    out: &mut String,
    config: &Config,
    names: &Names,
    event: &Event,
) -> Result<(), OutOfMemory> {
    match event {
        Event::Request { peer, bytes } => {
            push_text(out, "request without a stream from ")?;
            push_node(out, *peer)?;
            push_text(out, ": ")?;
            push_request(alloc, out, config, bytes.as_slice())
        }
        Event::Inquiry { peer, bytes } => {
            push_text(out, "inquiry from ")?;
            push_node(out, *peer)?;
            push_text(out, ": ")?;
            push_message(alloc, out, config, bytes.as_slice(), true)
        }
        Event::StreamOpened { stream, peer } => push_stream(out, config, *stream, *peer),
        Event::Frame { stream, bytes } => {
            write!(out, "frame on stream {stream}: ")?;
            push_message(alloc, out, config, bytes.as_slice(), is_target(config))
        }
        Event::StreamCut { stream } => {
            Ok(write!(out, "stream {stream} breaks, or its peer closes it")?)
        }
        Event::Datagram { peer, bytes } => {
            push_text(out, "datagram from ")?;
            push_node(out, *peer)?;
            push_text(out, ": ")?;
            push_datagram(alloc, out, bytes.as_slice(), is_target(config))
        }
        Event::Explicit {
            target,
            number,
            bytes,
        } => {
            write!(out, "the application sends explicit request {number} to ")?;
            push_node(out, *target)?;
            push_text(out, ": ")?;
            push_request(alloc, out, config, bytes.as_slice())
        }
        _ => push_call(alloc, out, config, names, event),
    }
}

fn push_stream(
    out: &mut String,
    config: &Config,
    stream: u16,
    peer: Node,
) -> Result<(), OutOfMemory> {
    let direction = if is_target(config) { "from" } else { "to" };
    write!(out, "stream {stream} opens, {direction} ")?;
    push_node(out, peer)
}

/// What a further block of connection ids is.
fn push_ids(out: &mut String, block: IdBlock) -> Result<(), OutOfMemory> {
    let IdBlock { first, count } = block;
    Ok(write!(
        out,
        "the device gets {count} further connection ids, from {first:08x} on"
    )?)
}

/// A call of the application, or time that passes.
fn push_call(
    alloc: Global,
    out: &mut String,
    config: &Config,
    names: &Names,
    event: &Event,
) -> Result<(), OutOfMemory> {
    match event {
        Event::Write { point, bytes } => {
            write!(out, "the application writes point {point}")?;
            push_name(out, names, point_of(config, *point))?;
            push_text(out, ", ")?;
            push_data(alloc, out, bytes.as_slice())
        }
        Event::Respond {
            number,
            status,
            bytes,
        } => {
            write!(out, "the application answers request {number}: ")?;
            push_general(out, *status)?;
            push_text(out, ", ")?;
            push_data(alloc, out, bytes.as_slice())
        }
        Event::Read { point } => {
            write!(out, "the application reads point {point}")?;
            push_name(out, names, point_of(config, *point))
        }
        Event::Counters { bytes } => {
            push_text(out, "the host has counted of its interface ")?;
            push_data(alloc, out, bytes.as_slice())
        }
        Event::Ids { block } => push_ids(out, *block),
        Event::Tick { ms } => Ok(write!(out, "{ms} ms pass")?),
        Event::Mode { run: true } => push_text(out, "the application runs"),
        Event::Mode { run: false } => push_text(out, "the application is idle"),
        Event::Start { slot } => {
            write!(out, "the application starts slot {slot}")?;
            push_name(out, names, Named::Slot(*slot))
        }
        Event::Stop { slot } => {
            write!(out, "the application stops slot {slot}")?;
            push_name(out, names, Named::Slot(*slot))
        }
        _ => Ok(()),
    }
}

/// What a call's number of a point is: a point of an adapter, a slot of a scanner.
fn point_of(config: &Config, point: u32) -> Named {
    if is_target(config) {
        Named::Point(point)
    } else {
        Named::Slot(point)
    }
}

/// The name of a point or a slot behind its number, if it has one.
pub fn push_name(out: &mut String, names: &Names, named: Named) -> Result<(), OutOfMemory> {
    match names.of(named) {
        Some(name) => Ok(write!(out, " ({name})")?),
        None => Ok(()),
    }
}
