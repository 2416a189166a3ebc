//! The types of the items of a class 1 datagram.
//!
//! Volume 2, chapter 2, common packet format.

/// The sequenced address item: a connection id and a sequence number.
pub const SEQUENCED_ADDRESS: u16 = 0x8002;

/// The connected data item: a sequence count and data.
pub const CONNECTED_DATA: u16 = 0x00B1;
