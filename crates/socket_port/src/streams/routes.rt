//! The destinations of datagrams.

ghost use Rattle.std.specs.Prelude.{◌≡◌};
ghost use Rattle.socket_port.specs.Streams.Routing.{destination_of, listed};

use cip_types::{Items, Node};

/// An IPv4 address and a UDP port.
#[derive(Clone, Copy, PartialEq, Eq)]
pub struct Destination {
    pub node: Node,
    pub port: u16,
}

/// The destination of the datagrams of a node.
#[derive(Clone, Copy)]
pub struct DatagramRoute {
    pub node: Node,
    pub to: Destination,
}

/// The destinations of the datagrams of all nodes.
#[derive(Drop)]
pub enum DatagramRoutes {
    /// One destination for all, as for a peer on this host.
    One(Destination),
    /// Each node's own address, at this port.
    Own(u16),
    /// The destination of the first route of the node. Datagrams of other nodes are dropped.
    Listed(Items<DatagramRoute>),
}

impl DatagramRoutes {
    /// The destination of the datagrams of this node. Takes no memory.
    pub fn destination_of(&self, node: Node) -> Option<Destination>
        ensures { result ≡ destination_of self.now node }
    {
        match self {
            DatagramRoutes::One(to) => Some(*to),
            DatagramRoutes::Own(port) => Some(Destination { node, port: *port }),
            DatagramRoutes::Listed(routes) => listed(routes.as_slice(), node),
        }
    }
}

/// The destination of the first route of this node.
fn listed(routes: &[DatagramRoute], node: Node) -> Option<Destination>
    ensures { result ≡ listed routes.now node }
{
    for route in routes {
        if route.node == node {
            return Some(route.to);
        }
    }
    None
}
