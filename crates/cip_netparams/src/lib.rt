//! The network connection parameters, triggers, packet intervals and watchdogs of class 1
//! connections, and the trigger of class 3 connections.
#![tactic(auto)]

mod laws;
mod rate;
mod trigger_byte;
mod word;

pub use laws::reads_back;
pub use rate::{api_of, timeout_of};
pub use trigger_byte::is_message_trigger;
pub use word::{read16, read32, write16, write32};

/// The priority of a connection's datagrams.
///
/// Volume 1, chapter 3, network connection parameters.
#[derive(Clone, Copy, PartialEq, Eq)]
pub enum Priority {
    Low,
    High,
    Scheduled,
    Urgent,
}

/// The connection type of one direction.
///
/// Volume 1, chapter 3, network connection parameters.
#[derive(Clone, Copy, PartialEq, Eq)]
pub enum ConnectionType {
    Null,
    Multicast,
    PointToPoint,
    Reserved,
}

/// The network connection parameters of one direction.
///
/// Volume 1, chapter 3, network connection parameters.
#[derive(Clone, Copy, PartialEq, Eq)]
pub struct NetParams {
    /// Bytes of a datagram's data, the sequence count included; at most 511 in a 16-bit word.
    pub size: u16,
    /// Whether datagrams may be shorter than the size.
    pub variable: bool,
    pub priority: Priority,
    pub kind: ConnectionType,
    /// The redundant owner bit.
    pub redundant: bool,
}

/// The production trigger of a class 1 connection.
///
/// Volume 1, chapter 3, transport class and trigger.
#[derive(Clone, Copy, PartialEq, Eq)]
pub enum Trigger {
    /// Once in each packet interval.
    Cyclic,
    /// At each change of the data, and at the latest after a packet interval.
    ChangeOfState,
}
