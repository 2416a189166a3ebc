//! What arrives at a device from outside.

ghost use Rattle.std.specs.Prelude.{◌≡◌};
ghost use Rattle.cip_events.specs.Arrivals.{arrival_event};

use crate::event::Event;
use cip_types::{Items, Node};

/// What a port, a line of devices or a simulated network brings to a device.
#[derive(Drop)]
pub enum Arrival {
    /// A peer opened a stream, which has this number from now on.
    Opened { stream: u16, peer: Node },
    /// One encapsulation message came over a stream.
    Frame { stream: u16, bytes: Items<u8> },
    /// A stream broke, or its peer closed it. Its number is free again.
    Cut { stream: u16 },
    /// A peer sent a class 1 datagram.
    Datagram { peer: Node, bytes: Items<u8> },
    /// A peer sent an encapsulation message over no stream.
    Inquiry { peer: Node, bytes: Items<u8> },
}

impl Arrival {
    /// The event of the device at which this arrives. Takes no memory.
    pub fn into_event(self) -> Event
        ensures { result ≡ arrival_event self }
    {
        match self {
            Arrival::Opened { stream, peer } => Event::StreamOpened { stream, peer },
            Arrival::Frame { stream, bytes } => Event::Frame { stream, bytes },
            Arrival::Cut { stream } => Event::StreamCut { stream },
            Arrival::Datagram { peer, bytes } => Event::Datagram { peer, bytes },
            Arrival::Inquiry { peer, bytes } => Event::Inquiry { peer, bytes },
        }
    }
}
