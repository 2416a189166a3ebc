//! The classes of the objects that this line serves or addresses.

/// The Message Router object.
///
/// Volume 1, chapter 5, Message Router object.
pub const MESSAGE_ROUTER: u32 = 2;

/// The Connection Manager object.
///
/// Volume 1, chapter 3, Connection Manager object.
pub const CONNECTION_MANAGER: u32 = 6;

/// The Assembly object.
///
/// Volume 1, chapter 5, Assembly object.
pub const ASSEMBLY: u32 = 4;
