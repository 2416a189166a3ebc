//! What a device says of its streams.

use cip_types::Node;

/// An open stream of a device: its number, its peer, and the handle of the session that is registered on it.
///
/// Volume 2, chapter 2, encapsulation sessions.
#[derive(Clone, Copy, PartialEq, Eq)]
pub struct StreamReport {
    pub number: u16,
    /// The originator of an adapter's stream, or the target of a scanner's.
    pub peer: Node,
    /// None before a session is registered.
    pub session: Option<u32>,
}
