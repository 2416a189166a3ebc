//! The items of connected messages.

ghost use Rattle.std.specs.Prelude.{◌≡◌, ◌≤◌, ◌+◌, ◌++◌, Result, OnOk};
ghost use Rattle.cip_types.specs.Fields.{fields_text};
ghost use Rattle.cip_encap.specs.declared.packet.ItemFault.{ItemFault};
ghost use Rattle.cip_encap.specs.Connected.{ConnectedFields, view_connected, IsConnectedReading, connected_widths, written_connected};
ghost use Rattle.cip_encap.specs.ConnectedHeader.{address_widths, written_address};
ghost use Rattle.cip_encap.specs.Reading.{seen};
ghost use Rattle.cip_encap.specs.ConnectedReading.{connected_reading};
ghost use Rattle.cip_encap.specs.AnyItems.{any_connected_reading};

use crate::connected_header::ConnectedHeader;
use crate::item::{CONNECTED_ADDRESS, CONNECTED_TRANSPORT};
use crate::packet::{ItemFault, are_items, are_sockets};
use cip_types::fields::{put_bytes, put_u16, put_u32};
use cip_types::{ConnId, OutOfMemory};

/// A connected message among its items: the data of the command SendUnitData.
///
/// Volume 1, chapter 3, class 3 transport; Volume 2, chapter 2, common packet format.
#[derive(Clone, Copy)]
pub struct ConnectedPacket<'a> {
    /// The connection id of the receiver's direction.
    pub connection: ConnId,
    /// The sequence count. An equal one as in the message before repeats that message.
    pub count: u16,
    /// A request to the message router, or its reply. It may have no byte.
    pub message: &'a [u8],
}

/// The connected message of the numbers before it and the bytes after them.
#[tactic(auto, unfolding(crate::specs::ConnectedReading::connected_reading))]
fn parsed(bytes: &[u8]) -> Result<ConnectedPacket<'_>, ItemFault>
    ensures { seen view_connected result ≡ connected_reading bytes.now }
{
    let Some((header, rest)) = ConnectedHeader::at(bytes) else {
        return Err(ItemFault::Bad);
    };
    if !header.is_right() {
        return Err(ItemFault::Bad);
    }
    let len = header.len as usize - 2;
    if rest.len() < len {
        return Err(ItemFault::Bad);
    }
    let (message, sockets) = rest.split_at(len);
    if !are_sockets(header.items - 2, sockets) {
        return Err(ItemFault::Bad);
    }
    Ok(ConnectedPacket {
        connection: ConnId(header.connection),
        count: header.count,
        message,
    })
}

/// Reads a connected address item, a connected data item, whose message borrows from the bytes, and socket address
/// items, which are dropped. The timeout is not judged. `Bad` for all other bytes.
///
/// Volume 2, chapter 2, common packet format.
pub fn read_connected_items(bytes: &[u8]) -> Result<ConnectedPacket<'_>, ItemFault>
    // The result is a reading of the bytes.
    ensures reading { IsConnectedReading bytes.now (seen view_connected result) }
    // The bytes have no other reading.
    ensures only { (other : Result ConnectedFields ItemFault) → IsConnectedReading bytes.now other
        → seen view_connected result ≡ other }
    // The same as a function of the bytes.
    ensures value { seen view_connected result ≡ connected_reading bytes.now }
{
    parsed(bytes)
}

/// Reads the same, and behind the message items of any type, which are dropped. `Bad` for all other bytes.
///
/// Volume 2, chapter 2, common packet format.
#[tactic(auto, unfolding(crate::specs::AnyItems::any_connected_reading))]
pub fn read_any_connected_items(bytes: &[u8]) -> Result<ConnectedPacket<'_>, ItemFault>
    ensures { seen view_connected result ≡ any_connected_reading bytes.now }
{
    let Some((header, rest)) = ConnectedHeader::at(bytes) else {
        return Err(ItemFault::Bad);
    };
    if !header.is_right() {
        return Err(ItemFault::Bad);
    }
    let len = header.len as usize - 2;
    if rest.len() < len {
        return Err(ItemFault::Bad);
    }
    let (message, items) = rest.split_at(len);
    if !are_items(header.items - 2, items) {
        return Err(ItemFault::Bad);
    }
    let connection = ConnId(header.connection);
    Ok(ConnectedPacket {
        connection,
        count: header.count,
        message,
    })
}

/// The bytes of the items before the message.
const CONNECTED_HEADER_LEN: usize = 22;

/// The number of bytes of the items around a message of this length.
pub fn connected_len(len: usize) -> usize
    requires { len ≤ 65533 }
    ensures { result ≡ 22 + len }
{
    CONNECTED_HEADER_LEN + len
}

/// Appends the numbers before the items, with timeout 0 and two items, and a connected address item.
fn put_address(out: &mut Vec<u8>, connection: ConnId) -> Result<(), OutOfMemory>
    ensures { OnOk result (out.new.items ≡ out.old.items ++ fields_text address_widths (written_address connection.0)) }
{
    put_bytes(out, &[0, 0, 0, 0, 0, 0, 2, 0])?;
    put_u16(out, CONNECTED_ADDRESS)?;
    put_bytes(out, &[4, 0])?;
    put_u32(out, connection.0)
}

/// Appends what comes before a message of this length: timeout 0, a connected address item with the connection id, and
/// the beginning of a connected data item with the sequence count. The message is to follow, and no other item.
/// OutOfMemory is the only fault.
///
/// Volume 2, chapter 2, common packet format.
pub fn put_connected_header(
    out: &mut Vec<u8>,
    connection: ConnId,
    count: u16,
    len: u16,
) -> Result<(), OutOfMemory>
    // The item's length field counts the sequence count and the message.
    requires { len ≤ 65533 }
    ensures { OnOk result (out.new.items
        ≡ out.old.items ++ fields_text connected_widths (written_connected connection.0 count len)) }
{
    put_address(out, connection)?;
    put_u16(out, CONNECTED_TRANSPORT)?;
    put_u16(out, 2 + len)?;
    put_u16(out, count)
}
