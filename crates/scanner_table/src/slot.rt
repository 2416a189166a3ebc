//! The slots of a scanner. A slot has one connection at most.

use cip_productions::{Accepted, Production};
use cip_types::{Items, Ms};
use conn_state::{Link, Requested};

/// A Forward_Open without a reply yet.
#[derive(Clone, Copy, PartialEq, Eq)]
pub struct PendingOpen {
    /// The number of the request, which is its sender context. It names the opening.
    pub request: u64,
    /// The triad and the T->O id that the request asks for.
    pub requested: Requested,
    /// The time at which the slot gives the request up.
    pub deadline: Ms,
}

/// An open connection.
///
/// Volume 1, chapter 3, connection object attributes.
#[derive(Clone, Copy, PartialEq, Eq)]
pub struct SlotConnection {
    /// The number of the request that opened the connection.
    pub opening: u64,
    /// The triad and the two ids of the connection.
    pub link: Link,
    /// The actual packet interval from scanner to target, in milliseconds.
    pub o_t_api_ms: u32,
    /// The actual packet interval from target to scanner, in milliseconds.
    pub t_o_api_ms: u32,
    /// The time without an accepted datagram after which the connection times out: that of the timeout multiplier and the
    /// T->O packet interval.
    ///
    /// Volume 1, chapter 3, inactivity watchdog.
    pub watchdog: Ms,
    /// The sequence number and the count of the datagram that was accepted last.
    pub last: Option<Accepted>,
    /// The time at which the connection times out, unless a datagram is accepted before.
    pub deadline: Ms,
    /// The producer of the connection.
    pub production: Production,
}

/// A Forward_Close without a reply yet.
#[derive(Clone, Copy, PartialEq, Eq)]
pub struct PendingClose {
    /// The number of the request, which is its sender context.
    pub request: u64,
    /// The triad and the two ids of the connection that ends.
    pub link: Link,
    /// The time at which the slot gives the request up.
    pub deadline: Ms,
}

/// The state of a slot's connection.
///
/// Volume 1, chapter 3, connection object state.
#[derive(Clone, Copy, PartialEq, Eq)]
pub enum SlotState {
    /// The slot has no connection.
    Idle,
    /// The slot has sent a Forward_Open and waits for the reply.
    Opening(PendingOpen),
    /// The connection is open.
    Established(SlotConnection),
    /// The connection timed out. The slot opens again after the retry time.
    TimedOut(Link),
    /// The slot has sent a Forward_Close and waits for the reply.
    Closing(PendingClose),
}

/// A slot: the state of its connection, and the data of both directions.
#[derive(PartialEq, Drop)]
pub struct Slot {
    /// The state of the connection.
    pub state: SlotState,
    /// Whether the application wants the connection open.
    pub desired_up: bool,
    /// The earliest time at which the slot opens again.
    pub retry_at: Ms,
    /// The output that the slot sends; empty for a slot that is no exclusive owner.
    pub output: Items<u8>,
    /// The input data that the slot received last. The slot sets it to zeros when its connection opens.
    pub image: Items<u8>,
}
