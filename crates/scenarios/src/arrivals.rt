//! What arrives at a port, in order.

use cip_events::{Arrival, Event};
use cip_types::OutOfMemory;
use std::collections::VecDeque;

/// Appends an item.
pub fn push<T: Drop>(list: &mut VecDeque<T>, item: T) -> Result<(), OutOfMemory> {
    match list.push_back(item) {
        Ok(()) => Ok(()),
        Err(_) => Err(OutOfMemory),
    }
}

/// The arrival of a port for this event of a device, if it comes over a port.
pub fn arrival_of(event: Event) -> Option<Arrival> {
    match event {
        Event::StreamOpened { stream, peer } => Some(Arrival::Opened { stream, peer }),
        Event::Frame { stream, bytes } => Some(Arrival::Frame { stream, bytes }),
        Event::StreamCut { stream } => Some(Arrival::Cut { stream }),
        Event::Datagram { peer, bytes } => Some(Arrival::Datagram { peer, bytes }),
        Event::Inquiry { peer, bytes } => Some(Arrival::Inquiry { peer, bytes }),
        _ => None,
    }
}
