//! The peers of the connections, one after another.

ghost use Rattle.std.specs.Prelude.{◌≡◌};
ghost use Rattle.std.specs.Iterator.{YieldsFirst, item_count};
ghost use Rattle.conn_slab.specs.Producing.{peer_by};

use crate::record::{Record, TriadKey};
use cip_types::{Ms, Node};
use indexmap::map::Values;
use slab::Slab;
use std::marker::Model;

/// The peer of a connection, the number of its producer, which an established one has, and when its watchdog runs out.
#[derive(Clone, Copy)]
pub struct Peer {
    pub node: Node,
    pub producer: Option<u32>,
    pub deadline: Ms,
}

/// The peers of the connections in opening order, which contracts see as the list of those still to come.
#[derive(Drop)]
pub struct Peers<'a> {
    pub(crate) records: &'a Slab<Record>,
    pub(crate) keys: Values<'a, TriadKey, usize>,
}

impl<'a> Model for Peers<'a> {
    ghost use Rattle.std.specs.Prelude.{List, map};
    ghost use Rattle.conn_slab.specs.declared.peers.Peer.{Peer};

    ghost Value = { List Peer };

    ghost use Rattle.std.specs.List.{filter_map, AllByRecursion};
    ghost use Rattle.slab.specs.Slab.{get};
    ghost use Rattle.conn_slab.specs.Producing.{peer_by};
    ghost use Rattle.conn_slab.specs.Layout.{IsStored};

    ghost view = { λ it. map peer_by (filter_map (get it.records.now) it.keys) };

    ghost invariant = { λ it. AllByRecursion (IsStored it.records.now) it.keys };
}

fn peer_of(record: &Record) -> Peer
    ensures { result ≡ peer_by record.now }
{
    Peer {
        node: record.peer,
        producer: record.state,
        deadline: record.deadline,
    }
}

impl<'a> Iterator for Peers<'a> {
    type Item = Peer;

    ghost next_gives = { YieldsFirst (λ rest. rest) };

    ghost remaining = { item_count (λ rest. rest) };

    #[inline(always)]
    fn next(&mut self) -> Option<Peer> {
        let key = self.keys.next()?;
        let record = self.records.get(*key)?;
        Some(peer_of(record))
    }
}
