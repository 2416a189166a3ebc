//! Where the reply to a request to open a connection has its O->T datagrams sent.

ghost use Rattle.std.specs.Prelude.{◌≡◌};
ghost use Rattle.station_port.specs.NamedPorts.Destinations.{at_host, destination_in, is_host, named_destination, packet_destination};

use crate::named_ports::bytes::behind;
use crate::named_ports::named::{ITEM_BYTES, socket_in};
use cip_encap::command::SEND_RR_DATA;
use cip_encap::item::O_T_SOCKET_ADDRESS;
use cip_encap::{SocketAddress, read_items, read_message};
use cip_types::Node;

/// The bytes of items before the reply: the interface handle, the time-out, the number of items, the null address item, and the
/// head of the data item.
///
/// Volume 2, chapter 2, common packet format.
const BEFORE_REPLY: usize = 16;

/// No host has 224.0.0.0, the first address of a group, or one behind it.
///
/// RFC 1112, section 4.
const BEHIND_HOSTS: u32 = 0xE000_0000;

/// The socket address that a message names for O->T datagrams: that of the first of two items behind its reply which is of the O->T
/// direction, of the Internet's family and of a port that is not 0.
///
/// Volume 2, chapter 2, socket address item.
#[tactic(auto, unfolding(crate::specs::NamedPorts::Destinations::named_destination))]
pub fn named_destination(message: &[u8]) -> Option<SocketAddress>
    ensures { result ≡ named_destination message.now }
{
    match read_message(message) {
        Ok(message) if message.command == SEND_RR_DATA => packet_destination(message.data),
        _ => None,
    }
}

/// The socket address that the items behind a reply name.
fn packet_destination(items: &[u8]) -> Option<SocketAddress>
    ensures { result ≡ packet_destination items.now }
{
    match read_items(items) {
        Ok(packet) => destination_in(behind(behind(items, BEFORE_REPLY), packet.data.len())),
        Err(_) => None,
    }
}

/// The socket address that one of the first two items names.
fn destination_in(items: &[u8]) -> Option<SocketAddress>
    ensures { result ≡ destination_in items.now }
{
    match socket_in(O_T_SOCKET_ADDRESS, items) {
        Some(socket) => Some(socket),
        None => socket_in(O_T_SOCKET_ADDRESS, behind(items, ITEM_BYTES)),
    }
}

/// The destination that a reply of this peer names: its address is the peer's where the item has none of a host.
pub(crate) fn at_host(peer: Node, said: SocketAddress) -> SocketAddress
    ensures { result ≡ at_host peer said }
{
    if is_host(said.address) {
        said
    } else {
        SocketAddress {
            port: said.port,
            address: peer,
        }
    }
}

/// Whether an address may be that of a host: not 0.0.0.0, and none of a group or behind those.
fn is_host(address: Node) -> bool
    ensures { result ≡ is_host address }
{
    address.0 != 0 && address.0 < BEHIND_HOSTS
}
