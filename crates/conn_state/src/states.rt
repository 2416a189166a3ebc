//! The five states, and the transitions between them.

ghost use Rattle.std.specs.Prelude.{◌≡◌};
ghost use Rattle.cip_types.specs.Cases.{first_case};
ghost use Rattle.conn_state.specs.Answers.{answer_tests, is_requested_id, accepted};

use crate::names::{Link, Requested};
use cip_fwdopen::{OpenAnswer, OpenReply, Opened};
use cip_netparams::api_of;
use cip_types::{ConnId, Mismatch, Triad};
use std::marker::Model;

/// No connection, so no triad and no ids.
#[derive(Drop)]
pub struct Idle;

/// A Forward_Open was sent, and its reply is awaited.
#[derive(Drop)]
pub struct Opening {
    requested: Requested,
}

/// The connection is open.
#[derive(Drop)]
pub struct Established {
    link: Link,
}

/// No datagram arrived before the connection's deadline.
#[derive(Drop)]
pub struct TimedOut {
    link: Link,
}

/// A Forward_Close was sent, and its reply is awaited.
#[derive(Drop)]
pub struct Closing {
    link: Link,
}

/// Contracts see an opening as the requested connection.
impl Model for Opening {
    ghost use Rattle.conn_state.specs.declared.names.Requested.{Requested};

    ghost Value = { Requested };

    ghost view = { λ s. s.requested };
}

/// Contracts see an open connection as its link.
impl Model for Established {
    ghost use Rattle.conn_state.specs.declared.names.Link.{Link};

    ghost Value = { Link };

    ghost view = { λ s. s.link };
}

/// Contracts see a timed-out connection as its former link.
impl Model for TimedOut {
    ghost use Rattle.conn_state.specs.declared.names.Link.{Link};

    ghost Value = { Link };

    ghost view = { λ s. s.link };
}

/// Contracts see a closing connection as its link.
impl Model for Closing {
    ghost use Rattle.conn_state.specs.declared.names.Link.{Link};

    ghost Value = { Link };

    ghost view = { λ s. s.link };
}

impl Idle {
    /// Sends a Forward_Open of this triad. Without a T->O id the target chooses it, as for multicast.
    pub fn open(self, triad: Triad, t_o_id: Option<ConnId>) -> Opening
        ensures { result ≡ record { triad = triad; t_o_id = t_o_id } }
    {
        Opening {
            requested: Requested { triad, t_o_id },
        }
    }

    /// Opens the requested connection at its target, with the O->T id and the T->O id.
    pub fn admit(self, triad: Triad, o_t_id: ConnId, t_o_id: ConnId) -> Established
        ensures { result ≡ record { triad = triad; o_t_id = o_t_id; t_o_id = t_o_id } }
    {
        Established {
            link: Link {
                triad,
                o_t_id,
                t_o_id,
            },
        }
    }

    /// The standard's number of the state: nonexistent.
    pub fn number(&self) -> u8
        ensures { result ≡ 0 }
    {
        0
    }
}

/// Whether the id is the requested one, if one was requested.
fn is_requested_id(requested: Option<ConnId>, id: ConnId) -> bool
    ensures { result ≡ is_requested_id requested id }
{
    match requested {
        Some(requested) => requested == id,
        None => true,
    }
}

/// The first mismatch of a success.
fn mismatch_of(requested: &Requested, opened: &Opened, id_free: bool) -> Option<Mismatch>
    ensures { result ≡ first_case (answer_tests requested.now opened.now id_free) }
{
    if opened.triad != requested.triad {
        return Some(Mismatch::Triad);
    }
    if !is_requested_id(requested.t_o_id, opened.t_o_id) || !id_free {
        return Some(Mismatch::Id);
    }
    if api_of(opened.o_t_api_us).is_none() || api_of(opened.t_o_api_us).is_none() {
        return Some(Mismatch::Api);
    }
    None
}

impl Opening {
    /// Opens the connection by the target's reply, with the ids of the reply. `id_free` says that no other
    /// established connection with the target has the reply's T->O id. The service of the reply is not judged.
    ///
    /// The faults, in this order, each with the opening: the target's refusal; a reply for another connection;
    /// a T->O id that is not the requested one, or not free; an actual packet interval out of range.
    pub fn accept(
        self,
        reply: &OpenReply,
        id_free: bool,
    ) -> Result<Established, (Opening, Mismatch)>
        ensures { result ≡ accepted self reply.now.answer id_free }
    {
        let opened = match reply.answer {
            OpenAnswer::Refused(refused) => {
                return Err((self, Mismatch::Refused(refused.fault)));
            }
            OpenAnswer::Opened(opened) => opened,
        };
        match mismatch_of(&self.requested, &opened, id_free) {
            Some(why) => Err((self, why)),
            None => Ok(Established {
                link: Link {
                    triad: self.requested.triad,
                    o_t_id: opened.o_t_id,
                    t_o_id: opened.t_o_id,
                },
            }),
        }
    }

    /// Stops waiting for the reply.
    pub fn give_up(self) -> Idle {
        Idle
    }

    /// The requested connection.
    pub fn requested(&self) -> Requested
        ensures { result ≡ self.now }
    {
        self.requested
    }

    /// The standard's number of the state: waiting for a connection id.
    pub fn number(&self) -> u8
        ensures { result ≡ 2 }
    {
        2
    }
}

impl Established {
    /// The connection's deadline passed.
    pub fn expire(self) -> TimedOut
        ensures { result ≡ self }
    {
        TimedOut { link: self.link }
    }

    /// Sends a Forward_Close.
    pub fn close(self) -> Closing
        ensures { result ≡ self }
    {
        Closing { link: self.link }
    }

    /// The connection's triad and ids.
    pub fn link(&self) -> Link
        ensures { result ≡ self.now }
    {
        self.link
    }

    /// The standard's number of the state: established.
    pub fn number(&self) -> u8
        ensures { result ≡ 3 }
    {
        3
    }
}

impl TimedOut {
    /// Removes the connection.
    pub fn clear(self) -> Idle {
        Idle
    }

    /// The connection's former triad and ids.
    pub fn link(&self) -> Link
        ensures { result ≡ self.now }
    {
        self.link
    }

    /// The standard's number of the state: timed out.
    pub fn number(&self) -> u8
        ensures { result ≡ 4 }
    {
        4
    }
}

impl Closing {
    /// The target answered, or no answer is awaited any more.
    pub fn done(self) -> Idle {
        Idle
    }

    /// The connection's triad and ids.
    pub fn link(&self) -> Link
        ensures { result ≡ self.now }
    {
        self.link
    }

    /// The standard's number of the state: closing.
    pub fn number(&self) -> u8
        ensures { result ≡ 6 }
    {
        6
    }
}
