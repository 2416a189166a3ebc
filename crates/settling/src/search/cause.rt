//! How an event can come to a device.

ghost use Rattle.std.specs.Prelude.{◌≡◌, ◌↔◌, ◌<◌, IsTrue, IfOk, IfSome, IfNone, length, slice_get, Some, false};
ghost use Rattle.cip_events.specs.Arrivals.{is_own};
ghost use Rattle.cip_events.specs.declared.event.Event.TheVariants as event;
ghost use Rattle.segment_world.specs.Transit.Fronts.{view_front};
ghost use Rattle.segment_world.specs.World.{event_of_item, node_at};
ghost use Rattle.settling.specs.declared.search.cause.Search.TheVariants as seek;
ghost use Rattle.settling.specs.Search.Causes.{CanCome, Causes, IsFront, WaitsFirst, WasSent};

use cip_tables::{Device, Event};
use cip_types::{Node, OutOfMemory};
use segment_world::{Act, Call, Direction, QueueFront, World, receiver_of, sender_of};
use std::alloc::Global;

/// How many datagrams before the place where a search begins are looked at, too.
const WINDOW: usize = 64;

fn node_of<D: Device + Drop>(world: &World<D>, device: u32) -> Node
    ensures { result ≡ node_at world.now device }
{
    world.node(device).unwrap_or(Node(0))
}

/// Whether what waits first is this event.
fn is_event(number: u16, node: Node, front: QueueFront<'_>, event: &Event) -> bool
    ensures { IsTrue result ↔ (event_of_item number node (view_front front.entry) ≡ event.now) }
{
    match (front, event) {
        (QueueFront::Opening, Event::StreamOpened { stream, peer }) => *stream == number
            && *peer == node,
        (QueueFront::Frame(text), Event::Frame { stream, bytes }) => *stream == number
            && text == bytes.as_slice(),
        (QueueFront::Ending, Event::StreamCut { stream }) => *stream == number,
        _ => false,
    }
}

/// Whether what waits first in a direction of a stream is this event of this device.
fn is_front<D: Device + Drop>(
    world: &World<D>,
    stream: u16,
    direction: Direction,
    device: u32,
    event: &Event,
) -> bool
    ensures { IsTrue result ↔ IsFront world.now stream direction device event.now }
{
    let Some(endpoints) = world.endpoints(stream) else {
        return false;
    };
    let Some(front) = world.front(stream, direction) else {
        return false;
    };
    let node = node_of(world, sender_of(endpoints, direction));
    receiver_of(endpoints, direction) == device && is_event(stream, node, front, event)
}

/// The act that takes the event off a stream.
#[tactic(auto, using(crate::proofs::Causing::front_causes))]
fn stream_cause<D: Device + Drop>(
    world: &World<D>,
    stream: u16,
    device: u32,
    event: &Event,
) -> Option<Act>
    ensures none { IfNone result (WaitsFirst world.now stream device event.now → ⊥) }
    ensures some { IfSome result (Causes world.now device event.now) }
{
    if is_front(world, stream, Direction::Forth, device, event) {
        return Some(Act::NextFrame {
            stream,
            direction: Direction::Forth,
        });
    }
    if is_front(world, stream, Direction::Back, device, event) {
        return Some(Act::NextFrame {
            stream,
            direction: Direction::Back,
        });
    }
    None
}

/// Whether this is the datagram at a place among those that were sent.
fn is_sent<D: Device + Drop>(world: &World<D>, place: usize, peer: Node, bytes: &[u8]) -> bool
    ensures { IsTrue result ↔ (slice_get world.now.sent place ≡ Some (record { from = peer; bytes = bytes.now })) }
{
    match world.sent(place) {
        None => false,
        Some((from, text)) => from == peer && text == bytes,
    }
}

/// The last place of an equal datagram.
fn sent_place<D: Device + Drop>(world: &World<D>, peer: Node, bytes: &[u8]) -> Option<usize>
    ensures none { IfNone result (WasSent world.now.sent peer bytes.now → ⊥) }
    ensures some { IfSome result (λ k. slice_get world.now.sent k ≡ Some (record { from = peer; bytes = bytes.now })) }
{
    for place in (0..world.sent_count()).rev() {
        if is_sent(world, place, peer, bytes) {
            return Some(place);
        }
    }
    None
}

/// A place of an equal datagram, from a place on or shortly before it.
fn sent_near<D: Device + Drop>(
    world: &World<D>,
    peer: Node,
    bytes: &[u8],
    from: usize,
) -> Option<usize>
    ensures { IfSome result (λ k. slice_get world.now.sent k ≡ Some (record { from = peer; bytes = bytes.now })) }
{
    for place in from..world.sent_count() {
        if is_sent(world, place, peer, bytes) {
            return Some(place);
        }
    }
    for place in (from.saturating_sub(WINDOW)..from).rev() {
        if is_sent(world, place, peer, bytes) {
            return Some(place);
        }
    }
    None
}

/// Where a datagram is looked for among those that were sent.
#[derive(Clone, Copy)]
pub enum Search {
    /// Among all.
    All,
    /// From a place on, and among the few before it: where one device takes datagrams in the order in which another
    /// sent them, the next one stands there.
    Near(usize),
}

/// The act that delivers the datagram.
#[tactic(auto, using(crate::proofs::Ways::sent_is_cause))]
fn sent_cause<D: Device + Drop>(
    world: &World<D>,
    device: u32,
    peer: Node,
    bytes: &[u8],
    search: Search,
) -> Option<Act>
    requires device { device < length world.now.tables }
    ensures none { IfNone result (search ≡ seek.All → WasSent world.now.sent peer bytes.now → ⊥) }
    ensures some { IfSome result (Causes world.now device (event.Datagram peer bytes.now)) }
{
    let place = match search {
        Search::All => sent_place(world, peer, bytes),
        Search::Near(from) => sent_near(world, peer, bytes, from),
    };
    let index = place?;
    Some(Act::Deliver { index, device })
}

/// The act that is this event of a device's application, of time at it, or of a peer outside, if it is one.
#[tactic(auto, using(crate::proofs::Ways::call_is_cause))]
fn local_cause<D: Device + Drop>(
    alloc: Global,
    _world: &World<D>,
    device: u32,
    event: &Event,
) -> Result<Option<Act>, OutOfMemory>
    ensures none { IfOk result (λ o. IfNone o (is_own event.now ≡ false)) }
    ensures some { IfOk result (λ o. IfSome o (Causes _world.now device event.now)) }
{
    match Call::of_event(alloc, event)? {
        None => Ok(None),
        Some(call) => Ok(Some(Act::Local { device, call })),
    }
}

/// The act that brings the event to the device now, if there is one.
pub fn cause<D: Device + Drop>(
    alloc: Global,
    world: &World<D>,
    device: u32,
    event: &Event,
    search: Search,
) -> Result<Option<Act>, OutOfMemory>
    requires device { device < length world.now.tables }
    ensures none { IfOk result (λ o. IfNone o (search ≡ seek.All → CanCome world.now device event.now → ⊥)) }
    ensures some { IfOk result (λ o. IfSome o (Causes world.now device event.now)) }
{
    match event {
        Event::Request { .. } => Ok(None),
        Event::StreamOpened { stream, .. } => Ok(stream_cause(world, *stream, device, event)),
        Event::Frame { stream, .. } => Ok(stream_cause(world, *stream, device, event)),
        Event::StreamCut { stream } => Ok(stream_cause(world, *stream, device, event)),
        Event::Datagram { peer, bytes } => {
            let text = bytes.as_slice();
            Ok(sent_cause(world, device, *peer, text, search))
        }
        _ => local_cause(alloc, world, device, event),
    }
}
