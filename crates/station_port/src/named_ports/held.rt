//! The destinations of the connections whose peers have named one.

ghost use Rattle.std.specs.Prelude.{◌≡◌, find, OnOk};
ghost use Rattle.station_port.specs.NamedPorts.Held.{after_answer, after_opening, after_reply, at_peer, has_triad, is_for, is_replaced, with_entry, without_closed, without_replaced, without_triad};

use crate::named_ports::destination::at_host;
use crate::named_ports::reply::ReplyOutcome;
use cip_encap::SocketAddress;
use cip_types::limits::MOST_CONNECTIONS;
use cip_types::{Node, OutOfMemory, Triad};

/// Where the datagrams of one connection go.
#[derive(Clone, Copy, PartialEq, Eq)]
pub struct NamedRoute {
    /// The address of the peer.
    pub peer: Node,
    pub triad: Triad,
    /// The id of the datagrams: at a target the T->O id, at an originator the O->T id.
    pub id: u32,
    /// The UDP port that the peer has named, and an address: at a target the peer's.
    pub to: SocketAddress,
}

/// A target's entries after a reply to this peer, whose request has named this port or none. An opening takes the place of the
/// entries of its triad, and of its peer's entry of the same id; the oldest of 64 entries makes room for a new one. A close ends the
/// entry of its triad. The fault: an allocation was refused, and there is no entry for the connection.
pub(crate) fn note_reply(
    held: &mut Vec<NamedRoute>,
    peer: Node,
    named: Option<u16>,
    outcome: ReplyOutcome,
) -> Result<(), OutOfMemory>
    ensures { OnOk result (held.new.items ≡ after_reply peer named outcome held.old.items) }
{
    match outcome {
        ReplyOutcome::Nothing => Ok(()),
        ReplyOutcome::Closed(triad) => {
            remove_triad(held, triad);
            Ok(())
        }
        ReplyOutcome::Opened {
            triad,
            o_t_id: _,
            t_o_id,
        } => note_opening(held, peer, triad, t_o_id, at_peer(peer, named)),
    }
}

/// An originator's entries after a reply of this peer, behind which it names this socket address or none. An opening is noted as at a
/// target. The fault: an allocation was refused, and there is no entry for the connection.
pub(crate) fn note_answer(
    held: &mut Vec<NamedRoute>,
    peer: Node,
    said: Option<SocketAddress>,
    outcome: ReplyOutcome,
) -> Result<(), OutOfMemory>
    ensures { OnOk result (held.new.items ≡ after_answer peer said outcome held.old.items) }
{
    let ReplyOutcome::Opened {
        triad,
        o_t_id,
        t_o_id: _,
    } = outcome
    else {
        return Ok(());
    };
    match said {
        Some(said) => note_opening(held, peer, triad, o_t_id, Some(at_host(peer, said))),
        None => note_opening(held, peer, triad, o_t_id, None),
    }
}

/// An originator's entries after a request that asks to close the connection of this triad, if it does.
pub(crate) fn note_request(held: &mut Vec<NamedRoute>, closed: Option<Triad>)
    ensures { held.new.items ≡ without_closed closed held.old.items }
{
    if let Some(triad) = closed {
        remove_triad(held, triad);
    }
}

/// This port at the peer's own address.
fn at_peer(peer: Node, named: Option<u16>) -> Option<SocketAddress>
    ensures { result ≡ at_peer peer named }
{
    match named {
        Some(port) => Some(SocketAddress {
            port,
            address: peer,
        }),
        None => None,
    }
}

/// The entries once a connection is open whose datagrams go to this destination, or to the usual one. The fault: an allocation was
/// refused, and there is no entry for the connection.
fn note_opening(
    held: &mut Vec<NamedRoute>,
    peer: Node,
    triad: Triad,
    id: u32,
    to: Option<SocketAddress>,
) -> Result<(), OutOfMemory>
    ensures { OnOk result (held.new.items ≡ after_opening peer to triad id held.old.items) }
{
    remove_replaced(held, peer, triad, id);
    match to {
        Some(to) => add(
            held,
            NamedRoute {
                peer,
                triad,
                id,
                to,
            },
        ),
        None => Ok(()),
    }
}

/// The entry of the datagrams of this id to this peer.
pub(crate) fn entry_for(held: &[NamedRoute], peer: Node, id: u32) -> Option<NamedRoute>
    ensures { result ≡ find (is_for peer id) held.now }
{
    held.iter().copied().find(|entry| is_for(entry, peer, id))
}

/// Whether an entry is that of the datagrams of this id to this peer.
fn is_for(entry: &NamedRoute, peer: Node, id: u32) -> bool
    ensures { result ≡ is_for peer id entry.now }
{
    entry.peer == peer && entry.id == id
}

/// Whether an entry is that of this triad.
fn has_triad(entry: &NamedRoute, triad: Triad) -> bool
    ensures { result ≡ has_triad triad entry.now }
{
    entry.triad == triad
}

/// Whether an opening takes the place of an entry.
fn is_replaced(entry: &NamedRoute, peer: Node, triad: Triad, id: u32) -> bool
    ensures { result ≡ is_replaced peer triad id entry.now }
{
    has_triad(entry, triad) || is_for(entry, peer, id)
}

/// Removes the entry of a triad.
fn remove_triad(held: &mut Vec<NamedRoute>, triad: Triad)
    ensures { held.new.items ≡ without_triad triad held.old.items }
{
    held.retain(|entry| !has_triad(entry, triad));
}

/// Removes the entries of which an opening takes the place.
fn remove_replaced(held: &mut Vec<NamedRoute>, peer: Node, triad: Triad, id: u32)
    ensures { held.new.items ≡ without_replaced peer triad id held.old.items }
{
    held.retain(|entry| !is_replaced(entry, peer, triad, id));
}

/// Adds an entry. The oldest of 64 makes room for it. The fault: an allocation was refused, and none is added.
fn add(held: &mut Vec<NamedRoute>, new: NamedRoute) -> Result<(), OutOfMemory>
    ensures { OnOk result (held.new.items ≡ with_entry new held.old.items) }
{
    if held.len() >= MOST_CONNECTIONS {
        let _oldest = held.remove(0);
    }
    held.push(new)?;
    Ok(())
}
