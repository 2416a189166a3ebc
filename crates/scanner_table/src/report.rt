//! What a scanner says of its slots.

use cip_productions::Age;
use cip_types::{ConnId, Triad};

/// What is known of an open connection of a slot.
///
/// Volume 1, chapter 3, connection object instance attributes.
#[derive(Clone, Copy, PartialEq, Eq)]
pub struct TargetReport {
    pub triad: Triad,
    /// The connection id of the datagrams that the slot sends.
    pub o_t_id: ConnId,
    /// The connection id of the datagrams that the target sends.
    pub t_o_id: ConnId,
    /// The actual packet interval from scanner to target, in milliseconds.
    pub o_t_api_ms: u32,
    /// The actual packet interval from target to scanner, in milliseconds.
    pub t_o_api_ms: u32,
    /// The age of the newest datagram that was accepted of the target.
    pub age: Age,
}

/// The state of a slot's connection, without the requests and ids that only the scanner needs.
///
/// Volume 1, chapter 3, connection object state.
#[derive(Clone, Copy, PartialEq, Eq)]
pub enum SlotReport {
    /// The slot has no connection.
    Idle,
    /// The slot has sent a Forward_Open and waits for the reply.
    Opening,
    /// The connection is open.
    Established(TargetReport),
    /// The connection timed out.
    TimedOut,
    /// The slot has sent a Forward_Close and waits for the reply.
    Closing,
}
