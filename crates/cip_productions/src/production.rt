//! Producers.

use cip_netparams::Trigger;
use cip_types::{ConnId, Ms, Node};

/// The production state of a connection's data.
///
/// Volume 1, chapter 3, transport class 1 and production triggers.
#[derive(Clone, Copy, PartialEq, Eq)]
pub struct Production {
    /// The producer's number: the opening number of the connection that created it.
    pub producer: u32,
    /// The sequence number of the next datagram.
    pub sequence: u32,
    /// The sequence count, which rises with new data.
    pub count: u16,
    /// Whether the input was written since the last production.
    pub written: bool,
    /// The due time of the next production.
    pub due: Ms,
    /// The destination of its datagrams: a multicast address, or the one consumer.
    pub address: Node,
    /// The production trigger.
    pub trigger: Trigger,
    /// The production inhibit time of a change-of-state producer, in milliseconds.
    pub inhibit: u8,
    /// The time of the last production.
    pub last: Option<Ms>,
}

/// A producer: the point that it sends, the connection id of its datagrams, and its production state.
///
/// Volume 1, chapter 3, transport class 1.
#[derive(Clone, Copy)]
pub struct Producer {
    pub point: u32,
    pub id: ConnId,
    pub production: Production,
}
