//! A port over TCP and UDP sockets, and the system's clock.
//!
//! `streams` are streams of bytes over sockets, and where datagrams go. `rules` say when a port ends streams, makes room for
//! new ones, and opens those to targets.
#![tactic(auto)]

mod addresses;
mod calls;
mod clock;
mod outcomes;
mod port;
mod rules;
mod sending;
mod sockets;
mod streams;

pub use addresses::{LOOPBACK, loopback, node_of};
pub use clock::SystemClock;
pub use outcomes::{ReadOutcome, accepted, read_outcome, received};
pub use port::{OpenFault, SocketPort};
pub use rules::{KeptStream, LinkState, Place, StreamKeeper, TargetLink, TargetLinks, owners_stay};
pub use streams::{
    DatagramRoute, DatagramRoutes, Destination, MessageQueue, PollOrder, PortStream, PortStreams,
    Shortener, SpareBytes,
};
