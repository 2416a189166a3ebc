//! All devices of a world, one of which performs an event.

ghost use Rattle.std.specs.Prelude.{◌<◌, length, map};
ghost use Rattle.segment_world.specs.World.{event_of_ready};
ghost use Rattle.segment_world.specs.AnswerSpace.{CameTo, WasDelivered};

use crate::act::ReadyCall;
use answer_sizes::answers_are_small;
use cip_events::{Delivery, Event, Outcome};
use cip_tables::Device;
use cip_types::Node;

/// Performs a call at one device.
pub fn call_at<D: Device>(devices: &mut Vec<D>, device: usize, call: ReadyCall<'_>) -> Outcome
    requires { device < length devices.old.items }
    ensures { CameTo (map D.table devices.old.items) device (event_of_ready call.entry)
        result (map D.table devices.new.items) }
{
    // The answer of a device with a whole table is small, so the reserved space suffices.
    answers_are_small();
    devices[device].is_whole();
    call.perform(&mut devices[device])
}

/// Performs an event at one device.
pub fn step_at<D: Device>(devices: &mut Vec<D>, device: usize, event: &Event) -> Outcome
    requires { device < length devices.old.items }
    ensures { CameTo (map D.table devices.old.items) device event.now result (map D.table devices.new.items) }
{
    // The answer of a device with a whole table is small, so the reserved space suffices.
    answers_are_small();
    devices[device].is_whole();
    devices[device].step(event)
}

/// Delivers a datagram to one device. Takes no memory.
pub fn deliver_at<D: Device>(
    devices: &mut Vec<D>,
    device: usize,
    peer: Node,
    bytes: &[u8],
) -> Delivery
    requires { device < length devices.old.items }
    ensures { WasDelivered (map D.table devices.old.items) device peer bytes.now
        result (map D.table devices.new.items) }
{
    devices[device].deliver(peer, bytes)
}
