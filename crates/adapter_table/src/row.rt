//! One connection.

ghost use Rattle.std.specs.Prelude.{◌≡◌};
ghost use Rattle.adapter_table.specs.Connections.{with_state};

use cip_productions::{Accepted, Kind, Production};
use cip_types::{ConnId, Ms, Node, Triad};

/// Whether a connection is established.
#[derive(Clone, Copy, PartialEq, Eq)]
pub enum State {
    /// It is established, and produces.
    Established(Production),
    /// It received no datagram before its deadline.
    TimedOut,
}

/// The mode of an originator, by the run/idle header of its data.
///
/// Volume 1, chapter 3, real time formats.
#[derive(Clone, Copy, PartialEq, Eq)]
pub enum Mode {
    /// It is idle: its data are not used.
    Idle,
    /// It runs: the output takes its data.
    Run,
}

/// One connection: its triad and peer, its application type and points, its ids, its actual packet intervals in
/// milliseconds, the least milliseconds between two of its O->T datagrams, the time-out of its inactivity watchdog, the
/// number of its opening, the last datagram that it accepted, the mode of the newest data that it accepted, its deadline,
/// and what is known of its production.
///
/// The mode is None before the first datagram, and of a connection without O->T data. A duplicate brings no new data.
///
/// Volume 1, chapter 3, connection object attributes.
#[derive(Clone, Copy, PartialEq, Eq)]
pub struct Connection<P> {
    pub triad: Triad,
    pub peer: Node,
    pub kind: Kind,
    pub consumed: u32,
    pub produced: u32,
    pub o_t_id: ConnId,
    pub t_o_id: ConnId,
    pub o_t_api_ms: u32,
    pub t_o_api_ms: u32,
    pub o_t_pace_ms: u32,
    pub watchdog: Ms,
    pub multicast: bool,
    pub opening: u32,
    pub last: Option<Accepted>,
    pub mode: Option<Mode>,
    pub deadline: Ms,
    pub state: P,
}

impl<P> Connection<P> {
    /// The same connection, with another knowledge of its production. Takes no memory.
    pub fn with_state<Q>(&self, state: Q) -> Connection<Q>
        ensures { result ≡ with_state state self.now }
    {
        Connection {
            triad: self.triad,
            peer: self.peer,
            kind: self.kind,
            consumed: self.consumed,
            produced: self.produced,
            o_t_id: self.o_t_id,
            t_o_id: self.t_o_id,
            o_t_api_ms: self.o_t_api_ms,
            t_o_api_ms: self.t_o_api_ms,
            o_t_pace_ms: self.o_t_pace_ms,
            watchdog: self.watchdog,
            multicast: self.multicast,
            opening: self.opening,
            last: self.last,
            mode: self.mode,
            deadline: self.deadline,
            state,
        }
    }
}

/// A connection with its production, if it is established.
pub type Row = Connection<State>;
