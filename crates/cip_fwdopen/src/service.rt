//! The service codes of requests and replies.
//!
//! Volume 1, appendix A, explicit messaging services, and chapter 3, Connection Manager services.

/// Reads one attribute of an object.
pub const GET_ATTRIBUTE_SINGLE: u8 = 0x0E;

/// Closes a connection.
pub const FORWARD_CLOSE: u8 = 0x4E;

/// Opens a connection of at most 511 bytes in each direction.
pub const FORWARD_OPEN: u8 = 0x54;

/// Opens a connection of any size.
pub const LARGE_FORWARD_OPEN: u8 = 0x5B;

/// The bit of a service byte that marks a reply.
pub const REPLY: u8 = 0x80;
