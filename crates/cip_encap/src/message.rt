//! The contents of messages, and the faults of other bytes.

use thiserror::Error;

/// The fault of bytes that are not one whole message.
#[derive(Clone, Copy, Debug, PartialEq, Eq, Error)]
pub enum EncapFault {
    /// The bytes end within the header or within the data.
    #[error("the message ends too early")]
    Truncated,
    /// Bytes follow the data.
    #[error("bytes follow the message")]
    Trailing,
}

/// One encapsulation message. Its length field is the length of its data.
///
/// Volume 2, chapter 2, encapsulation messages.
#[derive(Clone, Copy)]
pub struct MessageView<'a> {
    pub command: u16,
    /// The session handle.
    pub session: u32,
    pub status: u32,
    /// The sender context, which a reply repeats: eight bytes, the first the least significant.
    pub context: u64,
    pub options: u32,
    pub data: &'a [u8],
}
