//! Producers of connections, and the nodes that they send to.

ghost use Rattle.std.specs.Prelude.{◌≡◌, ◌≤◌, ◌++◌, map, length, OnOk, IfOk};
ghost use Rattle.std.specs.List.{list_any};
ghost use Rattle.cip_types.specs.Order.{first_of_each, unless};
ghost use Rattle.cip_productions.specs.Productions.{same_producer, sent};
ghost use Rattle.adapter_table.specs.Productions.{group, same_node, peer_of, consumers, production_of};

use adapter_table::{Row, has_node, is_produced_by};
use cip_events::{Consumers, OutgoingDatagram};
use cip_productions::{Producer, same_producer, sent_by};
use cip_types::{Node, OutOfMemory};
use std::alloc::Global;

fn has_producer(producers: &[Producer], producer: &Producer) -> bool
    ensures { result ≡ list_any (λ other. same_producer other producer.now) producers.now }
{
    producers.iter().any(|other| same_producer(other, producer))
}

/// Adds a producer that is not there yet.
fn add_producer(producers: &mut Vec<Producer>, producer: Producer) -> Result<(), OutOfMemory>
    ensures { OnOk result (producers.new.items ≡ producers.old.items
        ++ unless (list_any (λ other. same_producer other producer) producers.old.items) producer) }
{
    if !has_producer(producers, &producer) {
        producers.push(producer)?;
    }
    Ok(())
}

/// Each producer once, as it is first found.
pub fn each_producer(alloc: Global, producers: &[Producer]) -> Result<Vec<Producer>, OutOfMemory>
    ensures { IfOk result (λ each. each.items ≡ first_of_each same_producer producers.now) }
{
    let mut each = Vec::new(alloc);
    for producer in producers {
        add_producer(&mut each, *producer)?;
    }
    Ok(each)
}

/// Adds a node that is not there yet.
fn add_node(nodes: &mut Vec<Node>, node: Node) -> Result<(), OutOfMemory>
    ensures { OnOk result (nodes.new.items
        ≡ nodes.old.items ++ unless (list_any (λ other. same_node other node) nodes.old.items) node) }
{
    if !has_node(nodes, node) {
        nodes.push(node)?;
    }
    Ok(())
}

fn peers(alloc: Global, rows: &[Row], number: u32) -> Result<Vec<Node>, OutOfMemory>
    ensures { IfOk result (λ nodes. nodes.items ≡ map peer_of (group number rows.now)) }
{
    let mut nodes = Vec::new(alloc);
    for row in rows {
        if is_produced_by(row, number) {
            nodes.push(row.peer)?;
        }
    }
    Ok(nodes)
}

fn each_node(alloc: Global, nodes: &[Node]) -> Result<Vec<Node>, OutOfMemory>
    ensures { IfOk result (λ each. each.items ≡ first_of_each same_node nodes.now) }
{
    let mut each = Vec::new(alloc);
    for node in nodes {
        add_node(&mut each, *node)?;
    }
    Ok(each)
}

/// The peers of a producer's connections, in opening order, each once.
fn consumers(alloc: Global, rows: &[Row], number: u32) -> Result<Vec<Node>, OutOfMemory>
    ensures { IfOk result (λ nodes. nodes.items ≡ consumers number rows.now) }
{
    let peers = peers(alloc, rows, number)?;
    each_node(alloc, &peers)
}

/// The next datagram of a producer of the connections, if its input holds these bytes.
pub fn datagram(
    alloc: Global,
    rows: &[Row],
    input: &[u8],
    producer: &Producer,
) -> Result<OutgoingDatagram, OutOfMemory>
    requires { length input.now ≤ 65533 }
    ensures { IfOk result (λ datagram. datagram ≡ sent (production_of rows.now input.now producer.now)) }
{
    let nodes = consumers(alloc, rows, producer.production.producer)?;
    sent_by(alloc, Consumers::from_vec(nodes), input, producer)
}
