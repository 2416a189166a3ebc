//! The consumers of each producer.

ghost use Rattle.std.specs.Prelude.{◌≡◌, ◌≤◌, ◌++◌, ◌∷◌, [], true, IfOk, map, drop, length, vec_len};
ghost use Rattle.std.specs.List.{list_any};
ghost use Rattle.conn_slab.specs.Producing.{peer_in};
ghost use Rattle.indexed_connections.specs.ConsumerTables.{consumers_among, consumers_by_producer, consumers_in, is_of, more_by, one_consumer, AreWithin, IsNewIfSingle};

use adapter_table::has_node;
use cip_types::limits::MOST_CONNECTIONS;
use cip_types::{Node, OutOfMemory};
use conn_slab::{Connections, Peer};
use std::alloc::Global;
use std::marker::Model;

/// The number of a producer, and the range of the nodes that consume its datagrams.
#[derive(Clone, Copy)]
pub(crate) struct Entry {
    pub(crate) number: u32,
    pub(crate) first: usize,
    pub(crate) count: usize,
}

/// The consumers of each producer, in the order of the producers' first connections. Only `new` takes memory.
///
/// Volume 2, chapter 3, multicast connections.
#[derive(Drop)]
pub struct ConsumerTable {
    entries: Vec<Entry>,
    nodes: Vec<Node>,
    /// The peers of the connections, while the table is built.
    peers: Vec<Peer>,
}

impl Model for ConsumerTable {
    ghost use Rattle.std.specs.Prelude.{List, map, length};
    ghost use Rattle.indexed_connections.specs.ConsumerTables.{ProducerConsumers, consumers_in, AreWithin};

    ghost Value = { List ProducerConsumers };

    ghost view = { λ s. map (consumers_in s.nodes.items) s.entries.items };

    ghost invariant = { λ s. AreWithin (length s.nodes.items) s.entries.items };
}

/// Adds the node of a peer of the producer of this number, unless it is among the nodes from an index on. False without
/// spare capacity.
fn add_consumer(nodes: &mut Vec<Node>, first: usize, peer: Peer, number: u32) -> bool
    requires { first ≤ vec_len nodes.old }
    ensures { result ≡ true
        → nodes.new.items ≡ nodes.old.items ++ one_consumer number peer (drop first nodes.old.items) }
{
    if peer.producer != Some(number) || has_node(&nodes[first..], peer.node) {
        return true;
    }
    if nodes.len() >= nodes.capacity() {
        return false;
    }
    nodes.push_reserved(peer.node);
    true
}

/// Adds the nodes among peers that consume the datagrams of a producer. False without spare capacity.
fn add_consumers(nodes: &mut Vec<Node>, peers: &[Peer], number: u32) -> bool
    ensures { result ≡ true → nodes.new.items ≡ nodes.old.items ++ consumers_among number peers.now }
{
    let first = nodes.len();
    for peer in peers {
        if !add_consumer(nodes, first, *peer, number) {
            return false;
        }
    }
    true
}

fn has_entry(entries: &[Entry], number: u32) -> bool
    ensures { result ≡ list_any (is_of number) entries.now }
{
    entries.iter().any(|entry| entry.number == number)
}

/// Adds a producer, and the nodes among peers that consume its datagrams. False without spare capacity.
fn add_entry(entries: &mut Vec<Entry>, nodes: &mut Vec<Node>, peers: &[Peer], number: u32) -> bool
    requires { AreWithin (length nodes.old.items) entries.old.items }
    ensures within { result ≡ true → AreWithin (length nodes.new.items) entries.new.items }
    ensures added { result ≡ true → map (consumers_in nodes.new.items) entries.new.items
        ≡ map (consumers_in nodes.old.items) entries.old.items
        ++ (record { number = number; nodes = consumers_among number peers.now }) ∷ [] }
{
    let first = nodes.len();
    if entries.len() >= entries.capacity() || !add_consumers(nodes, peers, number) {
        return false;
    }
    let count = nodes.len() - first;
    entries.push_reserved(Entry {
        number,
        first,
        count,
    });
    true
}

/// Adds the producer of a peer, unless it is there. False without spare capacity.
///
/// The producer of one connection alone is looked for neither among the entries nor among the other peers.
fn add_producer(
    entries: &mut Vec<Entry>,
    nodes: &mut Vec<Node>,
    connections: &Connections,
    peers: &[Peer],
    peer: Peer,
) -> bool
    requires peers { peers.now ≡ map peer_in connections.now }
    requires within { AreWithin (length nodes.old.items) entries.old.items }
    requires single { IsNewIfSingle connections.now
        (map (consumers_in nodes.old.items) entries.old.items) peer.node peer.producer }
    ensures within { result ≡ true → AreWithin (length nodes.new.items) entries.new.items }
    ensures added { result ≡ true
        → map (consumers_in nodes.new.items) entries.new.items ≡ map (consumers_in nodes.old.items) entries.old.items
        ++ more_by connections.now (map (consumers_in nodes.old.items) entries.old.items) peer.producer }
{
    let Some(number) = peer.producer else {
        return true;
    };
    if connections.is_single(number, entries.len()) {
        return add_entry(entries, nodes, &[peer], number);
    }
    if has_entry(entries, number) {
        return true;
    }
    add_entry(entries, nodes, peers, number)
}

/// Adds the producers of peers. False without spare capacity.
fn add_producers(
    entries: &mut Vec<Entry>,
    nodes: &mut Vec<Node>,
    connections: &Connections,
    peers: &[Peer],
) -> bool
    requires peers { peers.now ≡ map peer_in connections.now }
    requires none { entries.old.items ≡ [] }
    ensures within { result ≡ true → AreWithin (length nodes.new.items) entries.new.items }
    ensures consumer_table { result ≡ true
        → map (consumers_in nodes.new.items) entries.new.items ≡ consumers_by_producer connections.now }
{
    for peer in peers {
        if !add_producer(entries, nodes, connections, peers, *peer) {
            return false;
        }
    }
    true
}

/// Adds the peers of connections. False without spare capacity.
fn add_peers(peers: &mut Vec<Peer>, connections: &Connections) -> bool
    requires { peers.old.items ≡ [] }
    ensures { result ≡ true → peers.new.items ≡ map peer_in connections.now }
{
    for peer in connections.peers() {
        if peers.len() >= peers.capacity() {
            return false;
        }
        peers.push_reserved(peer);
    }
    true
}

impl ConsumerTable {
    /// No producers, with capacity for the most that there can be. Out of memory is the only fault.
    pub fn new(alloc: Global) -> Result<Self, OutOfMemory>
        ensures { IfOk result (λ consumer_table. consumer_table ≡ []) }
    {
        Ok(ConsumerTable {
            entries: Vec::with_capacity(alloc, MOST_CONNECTIONS)?,
            nodes: Vec::with_capacity(alloc, MOST_CONNECTIONS)?,
            peers: Vec::with_capacity(alloc, MOST_CONNECTIONS)?,
        })
    }

    /// Builds the table anew from connections. False without spare capacity, which 64 connections never need more of.
    /// Takes no memory.
    ///
    /// Volume 2, chapter 3, multicast connections.
    pub fn rebuild(&mut self, connections: &Connections) -> bool
        ensures { result ≡ true → self.new ≡ consumers_by_producer connections.now }
    {
        self.entries.clear();
        self.nodes.clear();
        self.peers.clear();
        let found = add_peers(&mut self.peers, connections)
            && add_producers(&mut self.entries, &mut self.nodes, connections, &self.peers);
        if !found {
            self.entries.clear();
        }
        found
    }

    /// The entries of the producers, and the nodes that they refer to.
    pub(crate) fn parts(&self) -> (&[Entry], &[Node])
        ensures consumer_table { map (consumers_in result.1.now) result.0.now ≡ self.now }
        ensures within { AreWithin (length result.1.now) result.0.now }
    {
        (&self.entries, &self.nodes)
    }
}
