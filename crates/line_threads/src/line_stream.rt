//! A stream between two devices of a line, and what waits on it.

ghost use Rattle.std.specs.Prelude.{◌≡◌, IfOk};
ghost use Rattle.line_threads.specs.Openings.{opening, openings};

use crate::inbox::Inbox;
use crate::openings::{StreamPlaces, openings_of};
use cip_events::Arrival;
use cip_tables::Config;
use cip_types::{Node, OutOfMemory};
use std::alloc::Global;
use std::marker::Model;
use std::sync::Wait;
use std::sync::atomic::{AtomicBool, Ordering};

/// How many arrivals wait at most in a direction of a stream.
const MOST_WAITING: usize = 1_024;

/// A device at an end of a stream, what waits for it there, and whether it has closed the stream.
#[derive(Drop)]
struct LineEnd {
    device: usize,
    inbox: Inbox,
    is_closed: AtomicBool,
}

/// A stream between two devices of a line, which are named by their places. Each end takes the mark that the stream has
/// opened, then what the other end sends. Contracts see the places.
#[derive(Drop)]
pub struct LineStream {
    from: LineEnd,
    to: LineEnd,
}

impl Model for LineStream {
    ghost use Rattle.line_threads.specs.declared.openings.StreamPlaces.{StreamPlaces};
    ghost use Rattle.line_threads.specs.Openings.{opening};

    ghost Value = { StreamPlaces };

    ghost view = { λ s. opening s.from.device s.to.device };
}

impl LineEnd {
    /// An end for which the mark waits that a stream has opened.
    fn open(alloc: Global, stream: u16, device: usize, peer: Node) -> Result<LineEnd, OutOfMemory>
        ensures { IfOk result (λ end. end.device ≡ device) }
    {
        Ok(LineEnd {
            device,
            inbox: Inbox::with_first(alloc, MOST_WAITING, Arrival::Opened { stream, peer })?,
            is_closed: AtomicBool::new(false),
        })
    }
}

impl LineStream {
    /// The stream of this number between two devices, which have these places and addresses. `OutOfMemory` is the only
    /// error.
    pub fn open(
        alloc: Global,
        stream: u16,
        from: (usize, Node),
        to: (usize, Node),
    ) -> Result<LineStream, OutOfMemory>
        ensures { IfOk result (λ stream. stream ≡ opening from.0 to.0) }
    {
        Ok(LineStream {
            from: LineEnd::open(alloc, stream, from.0, to.1)?,
            to: LineEnd::open(alloc, stream, to.0, from.1)?,
        })
    }

    /// The end of a device, and the other end. None for a device at neither end.
    fn ends_of(&self, device: usize) -> Option<(&LineEnd, &LineEnd)> {
        if self.from.device == device {
            Some((&self.from, &self.to))
        } else if self.to.device == device {
            Some((&self.to, &self.from))
        } else {
            None
        }
    }

    /// Takes what waits first for a device. None for a device at neither end, and for one that closed the stream. May
    /// wait; takes no memory.
    pub fn take<R: Wait>(&self, rt: &R, device: usize) -> Option<Arrival> {
        let (own, _) = self.ends_of(device)?;
        if own.is_closed.load(Ordering::SeqCst) {
            return None;
        }
        own.inbox.take(rt)
    }

    /// Puts what a device sends into the inbox of the other end, and returns what that full inbox lost. An arrival of a
    /// device at neither end is dropped, and so is every arrival once an end has closed the stream. May wait; takes no
    /// memory.
    pub fn send<R: Wait>(&self, rt: &R, device: usize, arrival: Arrival) -> Option<Arrival> {
        let (own, other) = self.ends_of(device)?;
        if own.is_closed.load(Ordering::SeqCst) || other.is_closed.load(Ordering::SeqCst) {
            return None;
        }
        other.inbox.put(rt, arrival)
    }

    /// Closes the end of a device, which then neither takes nor sends.
    pub fn close(&self, device: usize) {
        if let Some((own, _)) = self.ends_of(device) {
            own.is_closed.store(true, Ordering::SeqCst);
        }
    }
}

/// The streams of a line whose devices have these addresses and configurations, by their numbers. `OutOfMemory` is the
/// only error.
pub fn open_streams(
    alloc: Global,
    nodes: &[Node],
    configs: &[Config],
) -> Result<Vec<LineStream>, OutOfMemory>
    ensures { IfOk result (λ streams. streams.items ≡ openings nodes.now configs.now) }
{
    let openings = openings_of(alloc, nodes, configs)?;
    streams_of(alloc, nodes, &openings)
}

/// The streams between these places.
fn streams_of(
    alloc: Global,
    nodes: &[Node],
    openings: &[StreamPlaces],
) -> Result<Vec<LineStream>, OutOfMemory>
    ensures { IfOk result (λ streams. streams.items ≡ openings.now) }
{
    let mut streams = Vec::with_capacity(alloc, openings.len())?;
    for (place, opening) in openings.iter().enumerate() {
        // (255 devices with 64 slots each open fewer than 65,536 streams)
        let number = (place % 65_536) as u16;
        streams.push(opened(alloc, number, nodes, *opening)?)?;
    }
    Ok(streams)
}

fn opened(
    alloc: Global,
    number: u16,
    nodes: &[Node],
    opening: StreamPlaces,
) -> Result<LineStream, OutOfMemory>
    ensures { IfOk result (λ stream. stream ≡ opening) }
{
    let StreamPlaces { from, to } = opening;
    LineStream::open(
        alloc,
        number,
        (from, node_at(nodes, from)),
        (to, node_at(nodes, to)),
    )
}

/// The address of the device of this place. (Both ends of a stream are devices of the line.)
fn node_at(nodes: &[Node], place: usize) -> Node {
    nodes.get(place).copied().unwrap_or(Node(0))
}
