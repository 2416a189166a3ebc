//! How much of a device is in use.

/// How many streams, sessions, and connections of class 1 and 3 a device has, and how many connection ids it has left.
#[derive(Clone, Copy, PartialEq, Eq)]
pub struct DeviceTotals {
    /// The open streams.
    pub streams: usize,
    /// The streams on which a session is registered.
    pub sessions: usize,
    /// The connections of an adapter, timed-out ones included, or the established slots of a scanner.
    pub connections: usize,
    /// The class 3 connections of an adapter. A scanner has none.
    pub class3_connections: usize,
    /// How many connection ids can still be drawn, of 16,777,215.
    pub ids_left: u32,
}
