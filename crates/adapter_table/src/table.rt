//! The table of an adapter.

use crate::counters::DeviceCounters;
use crate::opening_rates::NodeOpenings;
use crate::profile::Profile;
use crate::row::Row;
use cip_types::{IdBlock, Items, Ms, Node, Numbered};
use messaging::Messaging;

/// The bytes of a point.
#[derive(PartialEq, Drop)]
pub struct PointValue {
    pub point: u32,
    pub bytes: Items<u8>,
}

/// An open stream: its number, its peer, and whether a session is registered on it.
///
/// Volume 2, chapter 2, encapsulation sessions.
#[derive(Clone, Copy, PartialEq, Eq)]
pub struct Stream {
    pub number: u16,
    pub peer: Node,
    pub registered: bool,
}

impl Numbered for Stream {
    ghost number = { λ stream. stream.number };

    fn number(&self) -> u16 {
        self.number
    }
}

/// An adapter: its profile, its connections in opening order, the bytes of its points, its clock, the blocks of its connection
/// ids, the number of the next one, its open streams in the order in which they were opened, its class 3 connections
/// with the requests that wait for its application, the openings of each node in its second, and its counters.
#[derive(PartialEq, Drop)]
pub struct AdapterTable {
    pub profile: Profile,
    pub rows: Items<Row>,
    pub values: Items<PointValue>,
    pub clock: Ms,
    pub ids: Items<IdBlock>,
    pub next_id: u32,
    pub streams: Items<Stream>,
    pub messaging: Messaging,
    pub openings: Items<NodeOpenings>,
    pub counters: DeviceCounters,
}
