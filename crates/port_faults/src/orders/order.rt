//! Orders to a port.

ghost use Rattle.std.specs.Prelude.{◌≡◌, true};

use cip_types::{Items, Node, OutOfMemory};
use udp_runner::Port;

/// An order to a port, which no device gives.
#[derive(PartialEq, Drop)]
pub enum PortOrder {
    /// Each open stream is cut, at both ends.
    Cut,
    /// For so many milliseconds nothing is received, and nothing is sent.
    Pause { ms: u64 },
    /// A datagram of these bytes is sent to a node, whatever the bytes are.
    Send { node: Node, bytes: Items<u8> },
}

/// A port that takes orders. None of them receives, sends or fails at once: what it does is done by the next `receive`.
pub trait OrderedPort: Port {
    /// Takes an order. The only fault is a refused allocation, and then the order is not obeyed.
    fn obey(&mut self, order: PortOrder) -> Result<(), OutOfMemory>
        ensures kept { Self.is_scripted ≡ true → Self.tape self.new ≡ Self.tape self.old }
        ensures worked { Self.failed self.new ≡ Self.failed self.old };
}
