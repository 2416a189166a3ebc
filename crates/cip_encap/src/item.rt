//! The types of the items of explicit messages.
//!
//! Volume 2, chapter 2, common packet format.

/// The null address item.
pub const NULL_ADDRESS: u16 = 0x0000;

/// The connected address item: the id of a connection.
pub const CONNECTED_ADDRESS: u16 = 0x00A1;

/// The connected data item: a sequence count, and a message of the connection.
pub const CONNECTED_TRANSPORT: u16 = 0x00B1;

/// The unconnected data item: a request or a reply.
pub const UNCONNECTED_DATA: u16 = 0x00B2;

/// The socket address item of the O->T direction.
pub const O_T_SOCKET_ADDRESS: u16 = 0x8000;

/// The socket address item of the T->O direction.
pub const T_O_SOCKET_ADDRESS: u16 = 0x8001;

/// The communications service item of a reply to ListServices.
pub const COMMUNICATIONS: u16 = 0x0100;
