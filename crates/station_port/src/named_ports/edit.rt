//! The item of a request to open a connection, added and taken off.

ghost use Rattle.std.specs.Prelude.{◌≡◌, ◌≤◌, ◌++◌, length, true, IfOk, OnOk};
ghost use Rattle.std.specs.Option.{option_map};
ghost use Rattle.station_port.specs.NamedPorts.Editing.{head, takes_item, with_item, without_item};

use crate::named_ports::bytes::behind;
use crate::named_ports::named::{BEFORE_REQUEST, COUNT_AT, ITEM_BYTES, MOST_BYTES};
use crate::named_ports::opening::opening_len;
use cip_encap::{HEADER_LEN, SocketAddress, put_socket};
use cip_types::fields::{put_bytes, put_u16, u16_in};
use cip_types::{Node, OutOfMemory};
use std::alloc::Global;

/// The bytes of a message up to the number of its items, this among them.
const BEFORE_HEADS: usize = 32;

/// The items of a request, and the one that names its port.
const ITEMS_WITH_PORT: u16 = 3;

/// Each address: the receiver of the item uses its port alone.
const NO_ADDRESS: Node = Node(0);

/// Whether a message is a request to open a connection to which an item can be added: its T->O datagrams go to its originator
/// alone, no item is behind it, and with one more it is not longer than a message of a stream.
fn takes_item(message: &[u8]) -> bool
    ensures takes { result ≡ takes_item message.now }
    ensures least { result ≡ true → 40 ≤ length message.now }
    ensures most { result ≡ true → length message.now ≤ 2052 }
{
    if message.len() < BEFORE_REQUEST || message.len() > MOST_BYTES - ITEM_BYTES {
        return false;
    }
    match opening_len(message) {
        Some(len) => behind(behind(message, BEFORE_REQUEST), len).is_empty(),
        None => false,
    }
}

/// The message with an item behind it that names this port for T->O datagrams, if it takes one. The only fault is a refused
/// allocation.
///
/// Volume 2, chapter 2, socket address item.
#[tactic(auto, unfolding(crate::specs::NamedPorts::Editing::with_item))]
pub fn with_item(alloc: Global, message: &[u8], port: u16) -> Result<Option<Vec<u8>>, OutOfMemory>
    ensures { IfOk result (λ longer. option_map (λ v. v.items) longer ≡ with_item message.now port) }
{
    if !takes_item(message) {
        return Ok(None);
    }
    let socket = SocketAddress {
        port,
        address: NO_ADDRESS,
    };
    let mut out = Vec::with_capacity(alloc, message.len() + ITEM_BYTES)?;
    let len = message.len() + ITEM_BYTES - HEADER_LEN;
    put_head(&mut out, message, len as u16, ITEMS_WITH_PORT)?;
    put_bytes(&mut out, behind(message, BEFORE_HEADS))?;
    put_socket(&mut out, Some(socket))?;
    Ok(Some(out))
}

/// The message without the item that begins so many bytes before its end. The only fault is a refused allocation.
///
/// Volume 2, chapter 2, socket address item.
#[tactic(auto, unfolding(crate::specs::NamedPorts::Editing::without_item))]
pub fn without_item(alloc: Global, message: &[u8], from_end: usize) -> Result<Vec<u8>, OutOfMemory>
    requires least { 64 ≤ length message.now }
    requires most { length message.now ≤ 2072 }
    ensures { IfOk result (λ shorter. shorter.items ≡ without_item message.now from_end) }
{
    let mut out = Vec::with_capacity(alloc, message.len())?;
    let len = message.len() - ITEM_BYTES - HEADER_LEN;
    let count = u16_in(message, COUNT_AT).saturating_sub(1);
    let (before, item) = message.split_at(message.len().saturating_sub(from_end));
    put_head(&mut out, message, len as u16, count)?;
    put_bytes(&mut out, behind(before, BEFORE_HEADS))?;
    put_bytes(&mut out, behind(item, ITEM_BYTES))?;
    Ok(out)
}

/// Appends the bytes of a message up to the number of its items, with this length and this number. OutOfMemory is the only
/// fault.
fn put_head(out: &mut Vec<u8>, message: &[u8], len: u16, count: u16) -> Result<(), OutOfMemory>
    requires { 32 ≤ length message.now }
    ensures { OnOk result (out.new.items ≡ out.old.items ++ head message.now len count) }
{
    put_bytes(out, &message[..2])?;
    put_u16(out, len)?;
    put_bytes(out, &message[4..COUNT_AT])?;
    put_u16(out, count)
}
