//! The limits that the maker of an adapter states.

ghost use Rattle.std.specs.Prelude.{◌≡◌};
ghost use Rattle.adapter_table.specs.Profiles.{class3_places, most_openings, shares_requests};
ghost use Rattle.adapter_table.specs.StatedLimits.{places_of, is_wrong_closer, is_wrong_ender};

use crate::row::Row;
use cip_productions::Kind;
use cip_types::Node;
use messaging::Class3Connection;

/// How many connections of each application type can be established at one time: exclusive owners, input-only and
/// listen-only ones. Each is at most 64, and their sum is 1 to 64. Beside them, how many class 3 connections there can
/// be, at most 64, if it is stated; then the requests that wait for the application are shared by node.
///
/// Volume 1, chapter 3, application connection types, and transport class 3.
#[derive(Clone, Copy, PartialEq, Eq)]
pub struct Places {
    pub owners: u8,
    pub readers: u8,
    pub listeners: u8,
    pub class3_connections: Option<u8>,
}

/// What one node can have: so many established connections, 1 to 64, and, if it is stated, so many openings in a second,
/// 1 to 65,535.
///
/// Volume 1, chapter 3, Connection Manager.
#[derive(Clone, Copy, PartialEq, Eq)]
pub struct NodeLimits {
    pub connections: u8,
    pub openings: Option<u16>,
}

impl Places {
    /// The places of an application type. Takes no memory.
    pub fn of(&self, kind: Kind) -> u8
        ensures { result ≡ places_of self.now kind }
    {
        match kind {
            Kind::ExclusiveOwner => self.owners,
            Kind::InputOnly => self.readers,
            Kind::ListenOnly => self.listeners,
        }
    }
}

/// The limits that the maker of an adapter states beside those of every adapter. An absent one limits nothing.
///
/// Volume 1, chapter 3, Connection Manager, and class 1 transport.
#[derive(Clone, Copy, PartialEq, Eq)]
pub struct MakerLimits {
    /// The least requested packet interval that is admitted, in microseconds: 1 to 10,000,000.
    pub least_rpi: Option<u32>,
    /// How many connections of each application type can be established at one time.
    pub places: Option<Places>,
    /// What one node can have.
    pub node_connections: Option<NodeLimits>,
    /// Whether only the node that opened a connection can close it.
    pub own_closers: bool,
    /// A connection accepts sequence numbers that are ahead of its newest by less than this, and by two more for each
    /// interval of its producer since then: 2 to 2^31.
    pub newer: Option<u32>,
}

impl MakerLimits {
    /// No limits.
    pub const NONE: MakerLimits = MakerLimits {
        least_rpi: None,
        places: None,
        node_connections: None,
        own_closers: false,
        newer: None,
    };

    /// How many class 3 connections there can be, if the maker states it. Takes no memory.
    ///
    /// Volume 1, chapter 3, transport class 3.
    pub fn class3_places(&self) -> Option<u8>
        ensures { result ≡ class3_places self.now.places }
    {
        match self.places {
            Some(places) => places.class3_connections,
            None => None,
        }
    }

    /// How many connections a node can open in its second, if the maker states it. Takes no memory.
    ///
    /// Volume 1, chapter 3, Connection Manager object.
    pub fn most_openings(&self) -> Option<u16>
        ensures { result ≡ most_openings self.now.node_connections }
    {
        match self.node_connections {
            Some(limits) => limits.openings,
            None => None,
        }
    }

    /// Whether the requests that wait for the application are shared by node. Takes no memory.
    pub fn shares_requests(&self) -> bool
        ensures { result ≡ shares_requests self.now.places }
    {
        self.class3_places().is_some()
    }

    /// Whether only the node that opened a connection closes it, and this is another node. Takes no memory.
    ///
    /// Volume 1, chapter 3, Forward_Close service.
    pub fn is_wrong_closer(&self, peer: Node, row: &Row) -> bool
        ensures { result ≡ is_wrong_closer self.now peer row.now }
    {
        self.own_closers && row.peer.0 != peer.0
    }

    /// The same of a class 3 connection. Takes no memory.
    ///
    /// Volume 1, chapter 3, Forward_Close service.
    pub fn is_wrong_ender(&self, peer: Node, class3: &Class3Connection) -> bool
        ensures { result ≡ is_wrong_ender self.now peer class3.now }
    {
        self.own_closers && class3.peer.0 != peer.0
    }
}
