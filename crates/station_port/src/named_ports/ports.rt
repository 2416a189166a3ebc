//! What a port does with socket address items, and where a datagram goes.

ghost use Rattle.std.specs.Prelude.{◌≡◌, [], None, IfOk, OnOk, OnErr};
ghost use Rattle.std.specs.Option.{option_map};
ghost use Rattle.station_port.specs.NamedPorts.Replies.{reply_outcome};
ghost use Rattle.station_port.specs.NamedPorts.Closing.{closed_triad};
ghost use Rattle.station_port.specs.NamedPorts.Held.{without_closed};
ghost use Rattle.station_port.specs.declared.named_ports.ports.ItemUse.TheVariants.{Honoured};
ghost use Rattle.station_port.specs.NamedPorts.Ports.{requested_after, requested_on, datagram_id, destination_for, received, received_after, held_after, learned, seen_after, sent_after};

use crate::named_ports::bytes::behind;
use crate::named_ports::destination::named_destination;
use crate::named_ports::edit::{with_item, without_item};
use crate::named_ports::held::{NamedRoute, entry_for, note_answer, note_reply, note_request};
use crate::named_ports::named::named_port;
use crate::named_ports::opening::closed_triad;
use crate::named_ports::reply::reply_outcome;
use cip_encap::SocketAddress;
use cip_types::fields::u32_at;
use cip_types::limits::MOST_CONNECTIONS;
use cip_types::{Node, OutOfMemory};
use std::alloc::Global;

/// The bytes of a datagram before its connection id: the number of items, and the head of the first item.
///
/// Volume 2, chapter 2, sequenced address item.
const BEFORE_ID: usize = 6;

/// What a port does with socket address items.
#[derive(Clone, Copy, PartialEq, Eq)]
pub enum ItemUse {
    /// Nothing: its device reads them and does not use them.
    Unused,
    /// An originator's: it names this UDP port in each request to open a connection, and sends the datagrams of a connection where
    /// the reply says.
    Named(u16),
    /// An originator's: it names no port, and sends the datagrams of a connection where the reply says.
    Obeyed,
    /// A target's: it sends the datagrams of a connection to the port that its originator has named.
    Honoured,
}

/// The port that the last request over a stream has named.
#[derive(Clone, Copy, PartialEq, Eq)]
pub struct RequestedPort {
    pub stream: u16,
    pub port: u16,
}

/// What a port does with socket address items, and what it has learned of them.
#[derive(Drop)]
pub struct ItemPorts {
    use_of: ItemUse,
    /// The port of all other datagrams.
    usual: u16,
    /// The port that the last message that arrived has named.
    requested: Option<RequestedPort>,
    held: Vec<NamedRoute>,
}

impl ItemPorts {
    /// Datagrams go to this port as long as no other one was learned. The only fault is a refused allocation; nothing takes
    /// memory for entries later.
    pub fn new(alloc: Global, use_of: ItemUse, usual: u16) -> Result<ItemPorts, OutOfMemory>
        ensures uses { IfOk result (λ ports. (ports.use_of ≡ use_of) × (ports.usual ≡ usual)) }
        ensures nothing { IfOk result (λ ports. (ports.requested ≡ None) × (ports.held.items ≡ [])) }
    {
        let most = match use_of {
            ItemUse::Named(_) | ItemUse::Obeyed | ItemUse::Honoured => MOST_CONNECTIONS,
            ItemUse::Unused => 0,
        };
        Ok(ItemPorts {
            use_of,
            usual,
            requested: None,
            held: Vec::with_capacity(alloc, most)?,
        })
    }

    /// A message of this peer arrives over a stream. Where its port is honoured, the message is handed to the device without the item
    /// that names it. Of a target's reply an originator learns where the datagrams of the connection go. None: the message as it is.
    /// The fault: an allocation was refused, and nothing has changed at a target.
    pub fn arrive(
        &mut self,
        alloc: Global,
        stream: u16,
        peer: Option<Node>,
        message: &[u8],
    ) -> Result<Option<Vec<u8>>, OutOfMemory>
        ensures seen { IfOk result
            (λ shorter. option_map (λ v. v.items) shorter ≡ seen_after self.old.use_of message.now) }
        ensures requested { OnOk result
            (self.new.requested ≡ requested_after self.old.use_of stream message.now self.old.requested) }
        ensures kept { OnErr result (self.new.requested ≡ self.old.requested) }
        ensures use_kept { (self.new.use_of ≡ self.old.use_of) × (self.new.usual ≡ self.old.usual) }
        ensures held { OnOk result
            (self.new.held.items ≡ received_after self.old.use_of peer message.now self.old.held.items) }
    {
        match self.use_of {
            ItemUse::Unused => Ok(None),
            ItemUse::Named(_) | ItemUse::Obeyed => {
                self.receive(peer, message)?;
                Ok(None)
            }
            ItemUse::Honoured => self.take_off(alloc, stream, message),
        }
    }

    /// Learns of the reply of this peer where the datagrams of its connection go.
    fn receive(&mut self, peer: Option<Node>, message: &[u8]) -> Result<(), OutOfMemory>
        ensures held { OnOk result (self.new.held.items ≡ received peer message.now self.old.held.items) }
        ensures use_kept { (self.new.use_of ≡ self.old.use_of) × (self.new.usual ≡ self.old.usual) }
        ensures requested_kept { self.new.requested ≡ self.old.requested }
    {
        match peer {
            Some(peer) => {
                let outcome = reply_outcome(message);
                note_answer(&mut self.held, peer, named_destination(message), outcome)
            }
            None => Ok(()),
        }
    }

    /// Takes the item off that names a port, if the message has one, and notes the port.
    fn take_off(
        &mut self,
        alloc: Global,
        stream: u16,
        message: &[u8],
    ) -> Result<Option<Vec<u8>>, OutOfMemory>
        ensures seen { IfOk result
            (λ shorter. option_map (λ v. v.items) shorter ≡ seen_after Honoured message.now) }
        ensures requested { OnOk result
            (self.new.requested ≡ requested_after Honoured stream message.now self.old.requested) }
        ensures kept { OnErr result (self.new.requested ≡ self.old.requested) }
        ensures use_kept { (self.new.use_of ≡ self.old.use_of) × (self.new.usual ≡ self.old.usual) }
        ensures held { self.new.held.items ≡ self.old.held.items }
    {
        let Some(named) = named_port(message) else {
            self.requested = None;
            return Ok(None);
        };
        let shorter = without_item(alloc, message, named.from_end)?;
        self.requested = Some(RequestedPort {
            stream,
            port: named.port,
        });
        Ok(Some(shorter))
    }

    /// The device sends a message over the stream of this peer. An originator's request to open a connection is sent with an
    /// item that names its port, and one to close it ends its entry; of a target's reply it is learned where the datagrams of the
    /// connection go. None: the message is sent as it is. The fault: an allocation was refused.
    pub fn leave(
        &mut self,
        alloc: Global,
        stream: u16,
        peer: Option<Node>,
        message: &[u8],
    ) -> Result<Option<Vec<u8>>, OutOfMemory>
        ensures sent { IfOk result
            (λ longer. option_map (λ v. v.items) longer ≡ sent_after self.old.use_of message.now) }
        ensures held { OnOk result (self.new.held.items
            ≡ held_after self.old.use_of peer (requested_on stream self.old.requested) message.now
            self.old.held.items) }
        ensures use_kept { (self.new.use_of ≡ self.old.use_of) × (self.new.usual ≡ self.old.usual) }
        ensures requested_kept { self.new.requested ≡ self.old.requested }
    {
        match self.use_of {
            ItemUse::Unused => Ok(None),
            ItemUse::Named(port) => {
                self.forget(message);
                with_item(alloc, message, port)
            }
            ItemUse::Obeyed => {
                self.forget(message);
                Ok(None)
            }
            ItemUse::Honoured => {
                self.learn(stream, peer, message)?;
                Ok(None)
            }
        }
    }

    /// Ends the entry of the connection that a request asks to close.
    fn forget(&mut self, message: &[u8])
        ensures held { self.new.held.items ≡ without_closed (closed_triad message.now) self.old.held.items }
        ensures use_kept { (self.new.use_of ≡ self.old.use_of) × (self.new.usual ≡ self.old.usual) }
        ensures requested_kept { self.new.requested ≡ self.old.requested }
    {
        note_request(&mut self.held, closed_triad(message));
    }

    /// Learns of a reply over the stream of this peer where the datagrams of its connection go.
    fn learn(&mut self, stream: u16, peer: Option<Node>, message: &[u8]) -> Result<(), OutOfMemory>
        ensures held { OnOk result (self.new.held.items
            ≡ learned peer (requested_on stream self.old.requested) (reply_outcome message.now) self.old.held.items) }
        ensures use_kept { (self.new.use_of ≡ self.old.use_of) × (self.new.usual ≡ self.old.usual) }
        ensures requested_kept { self.new.requested ≡ self.old.requested }
    {
        let named = requested_on(stream, self.requested);
        // (where no originator has named a port, no reply is read)
        if named.is_none() && self.held.is_empty() {
            return Ok(());
        }
        match peer {
            Some(peer) => note_reply(&mut self.held, peer, named, reply_outcome(message)),
            None => Ok(()),
        }
    }

    /// The destination of a datagram to a node: the one that was named for its id, or else the node's address at the usual port. Takes
    /// no memory.
    pub fn destination_for(&self, node: Node, datagram: &[u8]) -> SocketAddress
        ensures { result ≡ destination_for self.now.held.items node datagram.now self.now.usual }
    {
        let usual = SocketAddress {
            port: self.usual,
            address: node,
        };
        let Some(id) = datagram_id(datagram) else {
            return usual;
        };
        match entry_for(self.held.as_slice(), node, id) {
            Some(entry) => entry.to,
            None => usual,
        }
    }
}

/// The port that the last request has named, if it came over this stream.
fn requested_on(stream: u16, requested: Option<RequestedPort>) -> Option<u16>
    ensures { result ≡ requested_on stream requested }
{
    match requested {
        Some(requested) if requested.stream == stream => Some(requested.port),
        _ => None,
    }
}

/// The connection id of a datagram.
fn datagram_id(datagram: &[u8]) -> Option<u32>
    ensures { result ≡ datagram_id datagram.now }
{
    let (id, _rest) = u32_at(behind(datagram, BEFORE_ID))?;
    Some(id)
}
