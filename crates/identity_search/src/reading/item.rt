//! The identity item.

ghost use Rattle.std.specs.Prelude.{◌≡◌, ◌+◌, ◌≤◌, length, slice_index};
ghost use Rattle.cip_encap.specs.Reading.{seen};
ghost use Rattle.identity_search.specs.Reading.Items.{device_at, identity_at, is_head, is_internet, item_reading, socket_at, view_found};

use cip_encap::SocketAddress;
use cip_types::fields::{u16_in, u32_in};
use cip_types::{Identity, Node};
use thiserror::Error;

/// The type of the item of an identity.
const ITEM_TYPE: u16 = 0x000C;

/// The family of Internet addresses, whose most significant byte is first.
const FAMILY: u16 = 0x0200;

/// The bytes of the data of a reply, but for the name.
const BYTES_BESIDE_NAME: usize = 40;

/// The place of the length of the name.
const NAME_LEN_AT: usize = 38;

/// The place of the name.
const NAME_AT: usize = 39;

/// Which device answers.
///
/// Volume 1, chapter 5, Identity object. Volume 2, chapter 2, ListIdentity.
#[derive(Clone, Copy)]
pub struct FoundIdentity<'a> {
    /// The address and the TCP port that the device says of itself.
    pub at: SocketAddress,
    /// Vendor, device type, product and revision.
    pub device: Identity,
    /// The status word of the Identity object.
    pub status: u16,
    /// The serial number of the device.
    pub serial: u32,
    /// The name of the product, as it was sent.
    pub name: &'a [u8],
    /// The state of the Identity object.
    pub state: u8,
}

/// Why bytes are no reply to a ListIdentity request.
#[derive(Clone, Copy, Debug, PartialEq, Eq, Error)]
pub enum IdentityFault {
    /// They are not one whole message.
    #[error("no encapsulation message")]
    Message,
    /// They are of another command.
    #[error("another command")]
    Command,
    /// The status of the message is not 0.
    #[error("a status")]
    Status,
    /// The sender context is not that of the request.
    #[error("another sender context")]
    Context,
    /// The data end before the name begins.
    #[error("the identity ends too early")]
    Truncated,
    /// The data are not one identity item of this length and of version 1 of the protocol.
    #[error("another item than an identity")]
    Item,
    /// The socket address is not of the Internet.
    #[error("an address of another family")]
    Family,
    /// The name is longer or shorter than the item.
    #[error("a name of another length")]
    Name,
}

/// The identity of the data of a reply. The faults, in order: `Truncated`, `Item`, `Family`, `Name`.
///
/// Volume 2, chapter 2, ListIdentity.
pub fn read_item(bytes: &[u8]) -> Result<FoundIdentity<'_>, IdentityFault>
    ensures { seen view_found result ≡ item_reading bytes.now }
{
    if bytes.len() < BYTES_BESIDE_NAME {
        return Err(IdentityFault::Truncated);
    }
    if !is_head(bytes) {
        return Err(IdentityFault::Item);
    }
    if !is_internet(bytes) {
        return Err(IdentityFault::Family);
    }
    if bytes.len() != BYTES_BESIDE_NAME + usize::from(bytes[NAME_LEN_AT]) {
        return Err(IdentityFault::Name);
    }
    Ok(identity_at(bytes))
}

/// Whether the data begin as one identity item of this length.
#[tactic(auto, unfolding(crate::specs::Reading::Items::is_head))]
fn is_head(bytes: &[u8]) -> bool
    requires { 40 ≤ length bytes.now }
    ensures { result ≡ is_head bytes.now }
{
    u16_in(bytes, 0) == 1
        && u16_in(bytes, 2) == ITEM_TYPE
        && usize::from(u16_in(bytes, 4)) + 6 == bytes.len()
        && u16_in(bytes, 6) == 1
}

/// Whether the socket address is of the Internet.
#[tactic(auto, unfolding(crate::specs::Reading::Items::is_internet))]
fn is_internet(bytes: &[u8]) -> bool
    requires { 40 ≤ length bytes.now }
    ensures { result ≡ is_internet bytes.now }
{
    u16_in(bytes, 8) == FAMILY
}

/// The identity at its places.
#[tactic(auto, unfolding(crate::specs::Reading::Items::identity_at))]
fn identity_at(bytes: &[u8]) -> FoundIdentity<'_>
    requires { length bytes.now ≡ 40 + slice_index bytes.now 38 }
    ensures { view_found result ≡ identity_at bytes.now }
{
    let name_len = usize::from(bytes[NAME_LEN_AT]);
    FoundIdentity {
        at: socket_at(bytes),
        device: device_at(bytes),
        status: u16_in(bytes, 32),
        serial: u32_in(bytes, 34),
        name: &bytes[NAME_AT..NAME_AT + name_len],
        state: bytes[NAME_AT + name_len],
    }
}

/// The socket address: its port and its address have their most significant byte first.
#[tactic(auto, unfolding(crate::specs::Reading::Items::socket_at))]
fn socket_at(bytes: &[u8]) -> SocketAddress
    requires { 40 ≤ length bytes.now }
    ensures { result ≡ socket_at bytes.now }
{
    SocketAddress {
        port: u16_in(bytes, 10).swap_bytes(),
        address: Node(u32_in(bytes, 12).swap_bytes()),
    }
}

/// Vendor, device type, product and revision.
#[tactic(auto, unfolding(crate::specs::Reading::Items::device_at))]
fn device_at(bytes: &[u8]) -> Identity
    requires { 40 ≤ length bytes.now }
    ensures { result ≡ device_at bytes.now }
{
    Identity {
        vendor: u16_in(bytes, 24),
        device_type: u16_in(bytes, 26),
        product: u16_in(bytes, 28),
        major: bytes[30],
        minor: bytes[31],
    }
}
