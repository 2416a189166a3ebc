//! Events that devices receive over streams.

ghost use Rattle.std.specs.Prelude.{◌≡◌, IfOk, slice_get, slice_index_or};
ghost use Rattle.cip_events.specs.Arrivals.{arrival_event};
ghost use Rattle.segment_world.specs.Transit.Fronts.{view_front};
ghost use Rattle.segment_world.specs.World.{event_of_item};
ghost use Rattle.segment_world.specs.Receptions.{receiver_in, sender_in};

use crate::transit::{Direction, Endpoints, QueueFront};
use cip_events::{Arrival, Event};
use cip_types::{Items, Node, OutOfMemory};
use std::alloc::Global;

/// An event that a device is about to receive.
#[derive(Drop)]
pub struct Reception {
    /// The index of the device.
    pub device: u32,
    /// The address of the device.
    pub node: Node,
    /// The event.
    pub event: Event,
}

/// Returns the device that receives in a direction.
pub fn receiver_of(endpoints: Endpoints, direction: Direction) -> u32
    ensures { result ≡ receiver_in direction endpoints }
{
    match direction {
        Direction::Forth => endpoints.to,
        Direction::Back => endpoints.from,
    }
}

/// Returns the device that sends in a direction.
pub fn sender_of(endpoints: Endpoints, direction: Direction) -> u32
    ensures { result ≡ sender_in direction endpoints }
{
    match direction {
        Direction::Forth => endpoints.from,
        Direction::Back => endpoints.to,
    }
}

/// Returns the address of a device, if there is the device.
pub fn node_of(nodes: &[Node], device: u32) -> Option<Node>
    ensures { result ≡ slice_get nodes.now device }
{
    nodes.get(device as usize).copied()
}

/// Returns the address of a device, or address 0 if there is no such device. Both ends of a stream are devices of the
/// world, so the default is never seen.
pub fn node_or_zero(nodes: &[Node], device: u32) -> Node
    ensures { result ≡ slice_index_or nodes.now device (record { 0 = 0 }) }
{
    node_of(nodes, device).unwrap_or(Node(0))
}

/// Copies what arrives at the end that receives this front of a stream. `OutOfMemory` is the only error.
pub fn arrival_of_front(
    alloc: Global,
    stream: u16,
    peer: Node,
    front: QueueFront<'_>,
) -> Result<Arrival, OutOfMemory>
    ensures { IfOk result (λ arrival.
        arrival_event arrival ≡ event_of_item stream peer (view_front front.entry)) }
{
    match front {
        QueueFront::Opening => Ok(Arrival::Opened { stream, peer }),
        QueueFront::Frame(bytes) => Ok(Arrival::Frame {
            stream,
            bytes: Items::copy_of(alloc, bytes)?,
        }),
        QueueFront::Ending => Ok(Arrival::Cut { stream }),
    }
}
