//! The group to which the T->O datagrams of a connection go, as the reply to its Forward_Open says. (A device does not read it: its
//! datagrams reach it by any address.)

ghost use Rattle.std.specs.Prelude.{◌≡◌, drop};
ghost use Rattle.cip_types.specs.Fields.{Finds};
ghost use Rattle.station_lines.specs.Watch.Groups.{as_group, group_behind, group_in, u32_behind, last_group, opened_group, socket_at};

use cip_encap::{read_items, read_message};
use cip_types::Node;
use cip_types::fields::{u16_at, u32_at};
use udp_runner::{DataGroup, group_port, is_group};

/// The bytes of the items before the data: the interface handle and the timeout, the count, the null address item, and the
/// head of the data item.
///
/// Volume 2, chapter 2, common packet format.
const BEFORE_DATA: usize = 16;

/// The type of the item that says where T->O datagrams go.
///
/// Volume 2, chapter 2, socket address item.
const T_O_SOCKET_ADDRESS: u16 = 0x8001;

/// The bytes of a datagram before its connection id: the number of items, and the head of the first item.
const BEFORE_DATAGRAM_ID: usize = 6;

/// The bytes of a datagram before its sequence number.
const BEFORE_SEQUENCE: usize = 10;

/// The bytes of a socket address.
const SOCKET_ADDRESS_BYTES: u16 = 16;

/// A socket address item: its type, and the address and the port that it names.
#[derive(Clone, Copy, PartialEq, Eq)]
struct SocketItem {
    kind: u16,
    address: Node,
    port: u16,
}

/// The group that the reply names which opened a connection.
pub fn opened_group(message: &[u8]) -> Option<DataGroup>
    ensures { result ≡ opened_group message.now }
{
    match read_message(message) {
        Ok(message) => group_behind(message.data),
        Err(_) => None,
    }
}

/// The group that the items behind a reply name.
fn group_behind(items: &[u8]) -> Option<DataGroup>
    ensures { result ≡ group_behind items.now }
{
    match read_items(items) {
        Ok(packet) => group_in(behind(behind(items, BEFORE_DATA), packet.data.len())),
        Err(_) => None,
    }
}

/// The connection id of a datagram: it follows the number of items and the head of the sequenced address item.
///
/// Volume 2, chapter 2, sequenced address item.
pub fn datagram_id(bytes: &[u8]) -> Option<u32>
    ensures { result ≡ u32_behind bytes.now 6 }
{
    u32_behind(bytes, BEFORE_DATAGRAM_ID)
}

/// The sequence number of a datagram: it follows the connection id.
///
/// Volume 2, chapter 2, sequenced address item.
pub fn datagram_sequence(bytes: &[u8]) -> Option<u32>
    ensures { result ≡ u32_behind bytes.now 10 }
{
    u32_behind(bytes, BEFORE_SEQUENCE)
}

/// The 32 bits behind so many bytes.
fn u32_behind(bytes: &[u8], before: usize) -> Option<u32>
    ensures { result ≡ u32_behind bytes.now before }
{
    let (number, _rest) = u32_at(behind(bytes, before))?;
    Some(number)
}

/// What is behind so many bytes: nothing, if there are no more.
fn behind(bytes: &[u8], count: usize) -> &[u8]
    ensures { result.now ≡ drop count bytes.now }
{
    if count <= bytes.len() {
        &bytes[count..]
    } else {
        &[]
    }
}

/// The group that one of at most two socket address items names.
fn group_in(items: &[u8]) -> Option<DataGroup>
    ensures { result ≡ group_in items.now }
{
    let (item, rest) = socket_at(items)?;
    if item.kind == T_O_SOCKET_ADDRESS {
        return as_group(item);
    }
    last_group(rest)
}

/// The group that the last socket address item names.
fn last_group(items: &[u8]) -> Option<DataGroup>
    ensures { result ≡ last_group items.now }
{
    let (item, _rest) = socket_at(items)?;
    if item.kind == T_O_SOCKET_ADDRESS {
        return as_group(item);
    }
    None
}

/// The socket address item at the front, and the bytes behind it.
fn socket_at(bytes: &[u8]) -> Option<(SocketItem, &[u8])>
    ensures { Finds (λ x. (x.0, x.1.now)) result (socket_at bytes.now) }
{
    let (kind, rest) = u16_at(bytes)?;
    let (len, rest) = u16_at(rest)?;
    if len != SOCKET_ADDRESS_BYTES || rest.len() < 16 {
        return None;
    }
    let (_family, rest) = rest.split_at(2);
    let (port, rest) = rest.split_at(2);
    let (ip, rest) = rest.split_at(4);
    let (_zeros, rest) = rest.split_at(8);
    let address = Node(u32::from_be_bytes([ip[0], ip[1], ip[2], ip[3]]));
    let port = u16::from_be_bytes([port[0], port[1]]);
    Some((
        SocketItem {
            kind,
            address,
            port,
        },
        rest,
    ))
}

/// The group that an item names, if its address is that of a group.
fn as_group(item: SocketItem) -> Option<DataGroup>
    ensures { result ≡ as_group item }
{
    if !is_group(item.address) {
        return None;
    }
    Some(DataGroup {
        address: item.address,
        port: group_port(item.port),
    })
}
