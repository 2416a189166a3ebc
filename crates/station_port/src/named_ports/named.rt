//! The port that a request to open a connection names, and the socket address of an item.

ghost use Rattle.std.specs.Prelude.{◌≡◌, ◌≤◌, length, IfSome};
ghost use Rattle.station_port.specs.NamedPorts.Naming.{named_among, named_first, named_port, port_in, socket_in};

use crate::named_ports::bytes::{be16_in, be32_in, behind};
use crate::named_ports::opening::any_opening_len;
use cip_encap::item::T_O_SOCKET_ADDRESS;
use cip_encap::{HEADER_LEN, SocketAddress, after_item};
use cip_types::Node;
use cip_types::fields::u16_in;
use cip_types::limits::LONGEST_MESSAGE;

/// The bytes of a message before its request: the header; the interface handle, the time-out, the number of items, the null
/// address item, and the head of the data item.
///
/// Volume 2, chapter 2, common packet format.
pub(crate) const BEFORE_REQUEST: usize = 40;

/// The bytes of a socket address item.
///
/// Volume 2, chapter 2, socket address item.
pub(crate) const ITEM_BYTES: usize = 20;

/// The position of the number of items in a message.
pub(crate) const COUNT_AT: usize = 30;

/// The items of a message without one behind its request: the null address item, and the data item.
const ITEMS_ALONE: u16 = 2;

/// A message with a request and an item has no fewer bytes.
const LEAST_BYTES: usize = 64;

/// The bytes of the longest message of a stream.
pub(crate) const MOST_BYTES: usize = HEADER_LEN + LONGEST_MESSAGE;

/// The address family of the Internet.
const INTERNET_FAMILY: u16 = 2;

/// The item of a request to open a connection that names the UDP port of its T->O datagrams.
#[derive(Clone, Copy, PartialEq, Eq)]
pub struct NamedPort {
    /// The bytes from the item's first one to the end of the message.
    pub from_end: usize,
    /// The port, not 0.
    pub port: u16,
}

/// The port that a message names for T->O datagrams, if it is a request to open a connection whose T->O datagrams go to its
/// originator alone: that of the first item behind the request which is of the T->O direction, of the Internet's family and of a port
/// that is not 0. Items of other types are passed over, as the device of each target's port does. The address of the item is not read.
///
/// Volume 2, chapter 2, socket address item.
#[tactic(auto, unfolding(crate::specs::NamedPorts::Naming::named_port))]
pub fn named_port(message: &[u8]) -> Option<NamedPort>
    ensures value { result ≡ named_port message.now }
    ensures least { IfSome result (λ _. 64 ≤ length message.now) }
    ensures most { IfSome result (λ _. length message.now ≤ 2072) }
{
    if message.len() < LEAST_BYTES || message.len() > MOST_BYTES {
        return None;
    }
    // (most requests have no item behind them; their device alone reads them)
    if u16_in(message, COUNT_AT) == ITEMS_ALONE {
        return None;
    }
    let len = any_opening_len(message)?;
    let items = behind(behind(message, BEFORE_REQUEST), len);
    let count = u16_in(message, COUNT_AT);
    named_among(count.saturating_sub(ITEMS_ALONE), items)
}

/// The port that the first of so many items names which names one.
fn named_among(count: u16, items: &[u8]) -> Option<NamedPort>
    ensures { result ≡ named_among count items.now }
{
    let mut rest = items;
    for done in 0..count {
        if let Some(named) = named_first(rest) {
            return Some(named);
        }
        match after_item(rest) {
            Some(after) => rest = after,
            None => return None,
        }
    }
    None
}

/// The port that the item at the front names, with the bytes from there on.
fn named_first(items: &[u8]) -> Option<NamedPort>
    ensures { result ≡ named_first items.now }
{
    let port = port_in(items)?;
    Some(NamedPort {
        from_end: items.len(),
        port,
    })
}

/// The port that the item at the front names.
fn port_in(items: &[u8]) -> Option<u16>
    ensures { result ≡ port_in items.now }
{
    match socket_in(T_O_SOCKET_ADDRESS, items) {
        Some(socket) => Some(socket.port),
        None => None,
    }
}

/// The socket address of the item at the front, if that is of this direction, of the Internet's family and of a port that is not 0.
///
/// Volume 2, chapter 2, socket address item.
pub(crate) fn socket_in(kind: u16, items: &[u8]) -> Option<SocketAddress>
    ensures { result ≡ socket_in kind items.now }
{
    if items.len() < ITEM_BYTES {
        return None;
    }
    let port = be16_in(items, 6);
    if u16_in(items, 0) != kind || be16_in(items, 4) != INTERNET_FAMILY || port == 0 {
        return None;
    }
    Some(SocketAddress {
        port,
        address: Node(be32_in(items, 8)),
    })
}
