//! Copies of events, and whether two events are the same.

ghost use Rattle.std.specs.Prelude.{◌≡◌, ◌↔◌, IsTrue, IfOk};
ghost use Rattle.cip_events.specs.declared.event.Event.TheVariants as event;

use crate::event::Event;
use cip_types::{Items, Node, OutOfMemory};
use std::alloc::Global;

/// A request of a peer with a copy of its bytes.
fn request_copy(alloc: Global, peer: Node, bytes: &[u8]) -> Result<Event, OutOfMemory>
    ensures { IfOk result (λ copy. copy ≡ event.Request peer bytes.now) }
{
    Ok(Event::Request {
        peer,
        bytes: Items::copy_of(alloc, bytes)?,
    })
}

/// An explicit request with a copy of its bytes.
fn explicit_copy(
    alloc: Global,
    target: Node,
    number: u32,
    bytes: &[u8],
) -> Result<Event, OutOfMemory>
    ensures { IfOk result (λ copy. copy ≡ event.Explicit target number bytes.now) }
{
    Ok(Event::Explicit {
        target,
        number,
        bytes: Items::copy_of(alloc, bytes)?,
    })
}

/// An answer of the application with a copy of its bytes.
fn respond_copy(alloc: Global, number: u64, status: u8, bytes: &[u8]) -> Result<Event, OutOfMemory>
    ensures { IfOk result (λ copy. copy ≡ event.Respond number status bytes.now) }
{
    Ok(Event::Respond {
        number,
        status,
        bytes: Items::copy_of(alloc, bytes)?,
    })
}

/// An inquiry of a peer with a copy of its bytes.
fn inquiry_copy(alloc: Global, peer: Node, bytes: &[u8]) -> Result<Event, OutOfMemory>
    ensures { IfOk result (λ copy. copy ≡ event.Inquiry peer bytes.now) }
{
    Ok(Event::Inquiry {
        peer,
        bytes: Items::copy_of(alloc, bytes)?,
    })
}

/// What a host has counted, with a copy of its bytes.
fn counters_copy(alloc: Global, bytes: &[u8]) -> Result<Event, OutOfMemory>
    ensures { IfOk result (λ copy. copy ≡ event.Counters bytes.now) }
{
    Ok(Event::Counters {
        bytes: Items::copy_of(alloc, bytes)?,
    })
}

impl Event {
    /// A copy of the event.
    pub fn copy(&self, alloc: Global) -> Result<Event, OutOfMemory>
        ensures { IfOk result (λ copy. copy ≡ self.now) }
    {
        Ok(match self {
            Event::Request { peer, bytes } => request_copy(alloc, *peer, bytes.as_slice())?,
            Event::StreamOpened { stream, peer } => Event::StreamOpened {
                stream: *stream,
                peer: *peer,
            },
            Event::Frame { stream, bytes } => Event::Frame {
                stream: *stream,
                bytes: Items::copy_of(alloc, bytes.as_slice())?,
            },
            Event::StreamCut { stream } => Event::StreamCut { stream: *stream },
            Event::Datagram { peer, bytes } => Event::Datagram {
                peer: *peer,
                bytes: Items::copy_of(alloc, bytes.as_slice())?,
            },
            Event::Inquiry { peer, bytes } => inquiry_copy(alloc, *peer, bytes.as_slice())?,
            Event::Write { point, bytes } => Event::Write {
                point: *point,
                bytes: Items::copy_of(alloc, bytes.as_slice())?,
            },
            Event::Read { point } => Event::Read { point: *point },
            Event::Tick { ms } => Event::Tick { ms: *ms },
            Event::Mode { run } => Event::Mode { run: *run },
            Event::Start { slot } => Event::Start { slot: *slot },
            Event::Stop { slot } => Event::Stop { slot: *slot },
            Event::Explicit {
                target,
                number,
                bytes,
            } => explicit_copy(alloc, *target, *number, bytes.as_slice())?,
            Event::Respond {
                number,
                status,
                bytes,
            } => respond_copy(alloc, *number, *status, bytes.as_slice())?,
            Event::Counters { bytes } => counters_copy(alloc, bytes.as_slice())?,
            Event::Ids { block } => Event::Ids { block: *block },
        })
    }
    /// Whether the other event is the same. Takes no memory.
    pub fn same(&self, other: &Event) -> bool
        ensures { IsTrue result ↔ (self.now ≡ other.now) }
    {
        self == other
    }
}
