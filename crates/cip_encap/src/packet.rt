//! The items of explicit requests and replies outside connections.

ghost use Rattle.std.specs.Prelude.{◌≡◌, ◌≤◌, ◌+◌, ◌++◌, Result, Ok, Some, OnOk, IfOk, length};
ghost use Rattle.cip_types.specs.Fields.{fields_text};
ghost use Rattle.std.specs.Option.{option_map};
ghost use Rattle.cip_encap.specs.declared.packet.ItemFault.{ItemFault};
ghost use Rattle.cip_encap.specs.Packet.{PacketFields, view_packet, IsPacketText, IsPacketReading, packet_widths, written_numbers, socket_items, packet_text};
ghost use Rattle.cip_encap.specs.Reading.{seen};
ghost use Rattle.cip_encap.specs.PacketReading.{behind_socket, are_sockets as sockets_test, packet_reading};
ghost use Rattle.cip_encap.specs.AnyItems.{any_packet_reading, are_items as items_test, behind_item, is_socket_kind};

use crate::item::{O_T_SOCKET_ADDRESS, T_O_SOCKET_ADDRESS, UNCONNECTED_DATA};
use crate::packet_header::PacketHeader;
use cip_types::fields::{put_bytes, put_u16, u16_at};
use cip_types::{Node, OutOfMemory};
use std::alloc::Global;
use thiserror::Error;

/// The fault of bytes that are not the items of an explicit request or reply.
#[derive(Clone, Copy, Debug, PartialEq, Eq, Error)]
pub enum ItemFault {
    /// They are not a null address item, an unconnected data item with data, and socket address items.
    #[error("the items are not those of an explicit message")]
    Bad,
}

/// The items of an explicit request or reply: the data of the command SendRRData.
///
/// Volume 2, chapter 2, common packet format.
#[derive(Clone, Copy)]
pub struct CommonPacket<'a> {
    /// The timeout, in seconds.
    pub timeout: u16,
    /// The request or reply, at least one byte.
    pub data: &'a [u8],
}

/// The destination of the datagrams of a multicast connection.
///
/// Volume 2, chapter 2, socket address item.
#[derive(Clone, Copy, PartialEq, Eq)]
pub struct SocketAddress {
    pub port: u16,
    pub address: Node,
}

/// The bytes after the socket address item at the front. None where there is no such item.
#[tactic(auto, unfolding(crate::specs::PacketReading::behind_socket))]
fn after_socket(bytes: &[u8]) -> Option<&[u8]>
    ensures { option_map (λ x. x.now) result ≡ behind_socket bytes.now }
{
    let (kind, rest) = u16_at(bytes)?;
    let (len, rest) = u16_at(rest)?;
    if (kind == O_T_SOCKET_ADDRESS || kind == T_O_SOCKET_ADDRESS) && len == 16 && rest.len() >= 16 {
        let (_address, after) = rest.split_at(16);
        Some(after)
    } else {
        None
    }
}

/// Whether the bytes are this number of socket address items.
pub fn are_sockets(count: u16, bytes: &[u8]) -> bool
    ensures { result ≡ sockets_test count bytes.now }
{
    let mut rest = bytes;
    for done in 0..count {
        match after_socket(rest) {
            Some(after) => rest = after,
            None => return false,
        }
    }
    rest.is_empty()
}

/// Whether items of this type are socket addresses.
fn is_socket_kind(kind: u16) -> bool
    ensures { result ≡ is_socket_kind kind }
{
    kind == O_T_SOCKET_ADDRESS || kind == T_O_SOCKET_ADDRESS
}

/// The bytes after the item at the front, of any type. None where no whole item is, or a socket address of another length.
///
/// Volume 2, chapter 2, common packet format.
#[tactic(auto, unfolding(crate::specs::AnyItems::behind_item))]
pub fn after_item(bytes: &[u8]) -> Option<&[u8]>
    ensures { option_map (λ x. x.now) result ≡ behind_item bytes.now }
{
    let (kind, rest) = u16_at(bytes)?;
    let (len, rest) = u16_at(rest)?;
    let len = len as usize;
    if rest.len() >= len && (!is_socket_kind(kind) || len == 16) {
        let (_item, after) = rest.split_at(len);
        Some(after)
    } else {
        None
    }
}

/// Whether the bytes are this number of items, of any types.
pub fn are_items(count: u16, bytes: &[u8]) -> bool
    ensures { result ≡ items_test count bytes.now }
{
    let mut rest = bytes;
    for done in 0..count {
        match after_item(rest) {
            Some(after) => rest = after,
            None => return false,
        }
    }
    rest.is_empty()
}

/// The items of the numbers before the data and the bytes after them.
#[tactic(auto, unfolding(crate::specs::PacketReading::packet_reading))]
fn parsed(bytes: &[u8]) -> Result<CommonPacket<'_>, ItemFault>
    ensures { seen view_packet result ≡ packet_reading bytes.now }
{
    let Some((packet_header, rest)) = PacketHeader::at(bytes) else {
        return Err(ItemFault::Bad);
    };
    let len = packet_header.len as usize;
    if !packet_header.is_right() || rest.len() < len {
        return Err(ItemFault::Bad);
    }
    let (data, sockets) = rest.split_at(len);
    if !are_sockets(packet_header.count - 2, sockets) {
        return Err(ItemFault::Bad);
    }
    Ok(CommonPacket {
        timeout: packet_header.timeout,
        data,
    })
}

/// Reads a null address item, an unconnected data item, whose data borrows from the bytes, and socket
/// address items, which are dropped. `Bad` for all other bytes.
///
/// Volume 2, chapter 2, common packet format.
pub fn read_items(bytes: &[u8]) -> Result<CommonPacket<'_>, ItemFault>
    // The result is a reading of the bytes.
    ensures reading { IsPacketReading bytes.now (seen view_packet result) }
    // The bytes have no other reading.
    ensures only { (other : Result PacketFields ItemFault) → IsPacketReading bytes.now other
        → seen view_packet result ≡ other }
    // The same as a function of the bytes.
    ensures value { seen view_packet result ≡ packet_reading bytes.now }
{
    parsed(bytes)
}

/// Reads the same, and behind the data items of any type, which are dropped. `Bad` for all other bytes.
///
/// Volume 2, chapter 2, common packet format.
#[tactic(auto, unfolding(crate::specs::AnyItems::any_packet_reading))]
pub fn read_any_items(bytes: &[u8]) -> Result<CommonPacket<'_>, ItemFault>
    ensures { seen view_packet result ≡ any_packet_reading bytes.now }
{
    let Some((packet_header, rest)) = PacketHeader::at(bytes) else {
        return Err(ItemFault::Bad);
    };
    let len = packet_header.len as usize;
    if !packet_header.is_right() || rest.len() < len {
        return Err(ItemFault::Bad);
    }
    let (data, items) = rest.split_at(len);
    if !are_items(packet_header.count - 2, items) {
        return Err(ItemFault::Bad);
    }
    Ok(CommonPacket {
        timeout: packet_header.timeout,
        data,
    })
}

/// The bytes of the items before the data, and those of a socket address item.
const ITEMS_HEADER_LEN: usize = 16;

const SOCKET_ITEM_LEN: usize = 20;

/// The number of bytes of the items around data of this length.
pub fn items_len(len: usize, socket: Option<SocketAddress>) -> usize
    requires { len ≤ 65535 }
    ensures { result ≡ 16 + len + length (socket_items socket) }
{
    match socket {
        Some(_) => ITEMS_HEADER_LEN + len + SOCKET_ITEM_LEN,
        None => ITEMS_HEADER_LEN + len,
    }
}

/// Appends what comes before the data of a request or reply: timeout 0, a null address item, and the beginning of an
/// unconnected data item with data of this length. The data, and a socket address item if there is a socket address,
/// are to follow. OutOfMemory is the only fault.
///
/// Volume 2, chapter 2, common packet format.
pub fn put_items_header(
    out: &mut Vec<u8>,
    len: u16,
    socket: Option<SocketAddress>,
) -> Result<(), OutOfMemory>
    ensures { OnOk result (out.new.items ≡ out.old.items ++ fields_text packet_widths (written_numbers len socket)) }
{
    put_bytes(out, &[0, 0, 0, 0, 0, 0])?;
    put_u16(out, if socket.is_some() { 3 } else { 2 })?;
    put_bytes(out, &[0, 0, 0, 0])?;
    put_u16(out, UNCONNECTED_DATA)?;
    put_u16(out, len)
}

/// Appends a T->O socket address item.
fn put_socket_item(out: &mut Vec<u8>, socket: SocketAddress) -> Result<(), OutOfMemory>
    ensures { OnOk result (out.new.items ≡ out.old.items ++ socket_items (Some socket)) }
{
    put_u16(out, T_O_SOCKET_ADDRESS)?;
    put_bytes(out, &[16, 0, 0, 2])?;
    put_bytes(out, &socket.port.to_be_bytes())?;
    put_bytes(out, &socket.address.0.to_be_bytes())?;
    put_bytes(out, &[0; 8])
}

/// Appends a T->O socket address item, if there is a socket address. OutOfMemory is the only fault.
///
/// Volume 2, chapter 2, socket address item.
pub fn put_socket(out: &mut Vec<u8>, socket: Option<SocketAddress>) -> Result<(), OutOfMemory>
    ensures { OnOk result (out.new.items ≡ out.old.items ++ socket_items socket) }
{
    match socket {
        Some(socket) => put_socket_item(out, socket),
        None => Ok(()),
    }
}

/// The bytes of the items around the data of a request or reply: timeout 0, and a T->O socket address item
/// if there is a socket address.
///
/// Volume 2, chapter 2, common packet format.
pub fn write_items(
    alloc: Global,
    data: &[u8],
    socket: Option<SocketAddress>,
) -> Result<Vec<u8>, OutOfMemory>
    requires some { 1 ≤ length «data».now }
    // The item's length field counts the data.
    requires short { length «data».now ≤ 65535 }
    ensures text { IfOk result (λ v. v.items ≡ packet_text «data».now socket) }
    ensures is_text { IfOk result (λ v. IsPacketText v.items (record { timeout = 0; payload = «data».now })) }
    ensures read_back { IfOk result (λ v. packet_reading v.items ≡ Ok (record { timeout = 0; payload = «data».now })) }
{
    let mut out = Vec::with_capacity(alloc, items_len(data.len(), socket))?;
    put_items_header(&mut out, data.len() as u16, socket)?;
    put_bytes(&mut out, data)?;
    put_socket(&mut out, socket)?;
    Ok(out)
}
