//! Requests that the application has to answer.

use cip_types::{ConnId, Ms, Node};

/// The route on which a request came, and on which its answer goes.
#[derive(Clone, Copy, PartialEq, Eq)]
pub enum Requester {
    /// A peer, which sent it to the message router.
    Peer(Node),
    /// A stream, which brought it in an unconnected message with this sender context.
    ///
    /// Volume 2, chapter 2, SendRRData.
    Stream { number: u16, context: u64 },
    /// The class 3 connection of this O->T id, in its message of this sequence count.
    ///
    /// Volume 2, chapter 2, SendUnitData.
    Class3Connection { id: ConnId, count: u16 },
}

/// A request to an object of the maker's own, which the application has to answer before the deadline.
#[derive(Clone, Copy, PartialEq, Eq)]
pub struct Waiting {
    /// The number by which the application answers.
    pub number: u64,
    /// The node that asked.
    pub peer: Node,
    /// The route of the answer.
    pub asker: Requester,
    /// The service of the request.
    pub service: u8,
    /// The time at which the device answers in place of the application.
    pub deadline: Ms,
}
