//! The commands of encapsulation messages.
//!
//! Volume 2, chapter 2, encapsulation commands.

/// No operation.
pub const NOP: u16 = 0x0000;

/// Lists the services of a device.
pub const LIST_SERVICES: u16 = 0x0004;

/// Opens a session on a stream.
pub const REGISTER_SESSION: u16 = 0x0065;

/// Closes a session and its stream.
pub const UNREGISTER_SESSION: u16 = 0x0066;

/// Carries a request to the message router, or its reply.
pub const SEND_RR_DATA: u16 = 0x006F;

/// Carries a message of a class 3 connection: a request to the message router, or its reply.
pub const SEND_UNIT_DATA: u16 = 0x0070;
