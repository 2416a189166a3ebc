//! The part of a port over sockets that needs no socket: the numbers of streams, the messages in their bytes, those that are too
//! long for a device, and those that are sent, the order of their arrivals and of the polls, and the memory and the destinations of
//! datagrams.

mod poll_order;
mod port_stream;
mod routes;
mod sending;
mod shortener;
mod spare;
mod streams;
mod waiting;

pub use poll_order::PollOrder;
pub use port_stream::PortStream;
pub use routes::{DatagramRoute, DatagramRoutes, Destination};
pub use shortener::Shortener;
pub use spare::SpareBytes;
pub use streams::PortStreams;
pub use waiting::MessageQueue;
