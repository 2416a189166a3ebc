//! The peers of an adapter that have connections, and those that own outputs.

ghost use Rattle.std.specs.Prelude.{◌≡◌, IfOk, OnOk};
ghost use Rattle.std.specs.List.{list_any};
ghost use Rattle.station_lines.specs.Watch.Peers.{class3_peer, connected_below, connected_by, is_change, is_node, owner_of, owners_below, with_both, with_peer};

use adapter_table::{Class3Report, ConnectionReport};
use cip_events::Notice;
use cip_productions::Kind;
use cip_tables::Device;
use cip_types::limits::MOST_CONNECTIONS;
use cip_types::{Node, OutOfMemory};
use std::alloc::Global;

/// Whether notices say that a connection of an adapter was opened or has ended.
pub fn changes_connections(notices: &[Notice]) -> bool
    ensures { result ≡ list_any is_change notices.now }
{
    notices.iter().any(is_change)
}

/// Whether a notice says that a connection of an adapter was opened or has ended.
fn is_change(notice: &Notice) -> bool
    ensures { result ≡ is_change notice.now }
{
    match notice {
        Notice::Opened(_, _) => true,
        Notice::Closed(_) => true,
        Notice::Expired(_) => true,
        Notice::Dropped(_) => true,
        Notice::Replaced(_) => true,
        _ => false,
    }
}

/// Appends the peers that have connections with an adapter, established ones of class 1 or ones of class 3, each peer once. No
/// one has one with a scanner. The fault: an allocation was refused, and not all are appended.
pub fn push_connected<D: Device>(peers: &mut Vec<Node>, device: &D) -> Result<(), OutOfMemory>
    ensures { OnOk result (peers.new.items ≡ connected_below (D.table device.now) peers.old.items 64) }
{
    for place in 0..MOST_CONNECTIONS as u32 {
        add_both(
            peers,
            device.connection(place),
            device.class3_connection(place),
        )?;
    }
    Ok(())
}

/// Appends the peers of a connection of class 1 and of one of class 3. The fault: an allocation was refused.
fn add_both(
    peers: &mut Vec<Node>,
    class1: Option<ConnectionReport>,
    class3: Option<Class3Report>,
) -> Result<(), OutOfMemory>
    ensures { OnOk result (peers.new.items ≡ with_both class1 class3 peers.old.items) }
{
    add_peer(peers, connected_by(class1))?;
    add_peer(peers, class3_peer(class3))
}

/// The peer of a class 1 connection that is established.
fn connected_by(report: Option<ConnectionReport>) -> Option<Node>
    ensures { result ≡ connected_by report }
{
    match report {
        Some(report) if report.established => Some(report.peer),
        _ => None,
    }
}

/// The peer of a class 3 connection.
fn class3_peer(report: Option<Class3Report>) -> Option<Node>
    ensures { result ≡ class3_peer report }
{
    match report {
        Some(report) => Some(report.peer),
        None => None,
    }
}

/// The peers that own outputs of an adapter, each once. None own one of a scanner. The fault: an allocation was refused.
pub fn owners_of<D: Device>(alloc: Global, device: &D) -> Result<Vec<Node>, OutOfMemory>
    ensures { IfOk result (λ owners. owners.items ≡ owners_below (D.table device.now) 64) }
{
    let mut owners = Vec::new(alloc);
    for place in 0..MOST_CONNECTIONS as u32 {
        add_peer(&mut owners, owner_of(device.connection(place)))?;
    }
    Ok(owners)
}

/// The peer of a connection that owns an output: an established exclusive owner.
///
/// Volume 1, chapter 3, application connection types.
fn owner_of(report: Option<ConnectionReport>) -> Option<Node>
    ensures { result ≡ owner_of report }
{
    match report {
        Some(report) if report.established && report.kind == Kind::ExclusiveOwner => {
            Some(report.peer)
        }
        _ => None,
    }
}

/// Whether this is the node.
pub(crate) fn is_node(other: &Node, node: Node) -> bool
    ensures { result ≡ is_node node other.now }
{
    other.0 == node.0
}

/// Appends a peer, if there is one and it is not among them. The fault: an allocation was refused, and none is appended.
fn add_peer(peers: &mut Vec<Node>, peer: Option<Node>) -> Result<(), OutOfMemory>
    ensures { OnOk result (peers.new.items ≡ with_peer peer peers.old.items) }
{
    let Some(peer) = peer else {
        return Ok(());
    };
    if !has_peer(peers.as_slice(), peer) {
        peers.push(peer)?;
    }
    Ok(())
}

/// Whether a peer is among these.
fn has_peer(peers: &[Node], peer: Node) -> bool
    ensures { result ≡ list_any (is_node peer) peers.now }
{
    peers.iter().any(|other| is_node(other, peer))
}
