//! The UDP port that an originator names for the datagrams of a connection, and the socket address that a target names: the socket
//! address item of a request to open a connection, which one side's port adds and the other side's port reads and takes off, that of
//! the reply, and the destination of each datagram.

mod bytes;
mod destination;
mod edit;
mod held;
mod named;
mod opening;
mod ports;
mod reply;

pub use destination::named_destination;
pub use edit::{with_item, without_item};
pub use held::NamedRoute;
pub use named::{NamedPort, named_port};
pub use ports::{ItemPorts, ItemUse, RequestedPort};
pub use reply::{ReplyOutcome, reply_outcome};
