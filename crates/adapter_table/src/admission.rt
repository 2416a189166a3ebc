//! The outcome of a request that is admitted.

use crate::row::Row;
use cip_netparams::Trigger;
use cip_productions::Kind;
use cip_types::Ms;

/// The consumer of a connection's O->T data: the connection's application type, and the length of the output in
/// bytes (0 if it consumes none).
#[derive(Clone, Copy)]
pub struct ConsumedPoint {
    pub kind: Kind,
    pub len: u64,
}

/// The connection that an open request is admitted as, with all that the checks decided.
#[derive(Clone, Copy)]
pub struct Admission<'a> {
    /// The application type of the connection.
    pub kind: Kind,
    /// The point that the connection consumes.
    pub consumed: u32,
    /// The input that the connection produces.
    pub produced: u32,
    /// Whether its producer sends to a group.
    pub multicast: bool,
    /// When its producer sends.
    pub trigger: Trigger,
    /// The least number of milliseconds between two productions at changes of state.
    pub inhibit: u8,
    /// The actual O->T packet interval, in milliseconds.
    pub o_t_api_ms: u32,
    /// The actual T->O packet interval, in milliseconds.
    pub t_o_api_ms: u32,
    /// The time-out of its inactivity watchdog.
    pub watchdog: Ms,
    /// The connection whose producer it shares, if it joins a group.
    pub group: Option<Row>,
    /// How many ids its opening draws.
    pub drawn: u32,
    /// The data segment to store at the configuration.
    pub segment: Option<&'a [u8]>,
}
