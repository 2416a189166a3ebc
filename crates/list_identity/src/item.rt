//! The identity item.

ghost use Rattle.std.specs.Prelude.{◌≡◌, ◌++◌, ◌<◌, length, OnOk};
ghost use Rattle.list_identity.specs.Identity.{identity_item, item_head, view_device, view_name, view_product, view_socket, view_unit};

use crate::station::StationIdentity;
use cip_encap::SocketAddress;
use cip_types::OutOfMemory;
use cip_types::fields::{put_bytes, put_u8, put_u16, put_u32};

/// The type of the item of an identity.
const IDENTITY_ITEM: u16 = 0x000C;

/// The version of the encapsulation protocol.
const PROTOCOL_VERSION: u16 = 1;

/// The family of Internet addresses.
const INTERNET: u16 = 2;

/// The bytes of an identity item before its name, and behind it.
const FIXED_BYTES: u16 = 34;

/// Appends the one item of the reply: at most 72 bytes.
#[tactic(auto, using(crate::proofs::Short::identity_item_few), unfolding(crate::specs::Identity::identity_item))]
pub(crate) fn put_identity(
    out: &mut Vec<u8>,
    station: &StationIdentity,
    at: SocketAddress,
) -> Result<(), OutOfMemory>
    ensures ok { OnOk result (out.new.items ≡ out.old.items ++ identity_item station.now at) }
    ensures few { OnOk result (length (identity_item station.now at) < 73) }
{
    // The prover needs that the name is short.
    let _name = station.name.as_slice();
    put_head(out, station)?;
    put_socket(out, at)?;
    put_device(out, station)?;
    put_name(out, station)?;
    Ok(())
}

/// Appends the number of items, the item's type and length, and the version of the protocol.
#[tactic(auto, unfolding(crate::specs::Identity::item_head))]
fn put_head(out: &mut Vec<u8>, station: &StationIdentity) -> Result<(), OutOfMemory>
    ensures ok { OnOk result (out.new.items ≡ out.old.items ++ item_head station.now) }
{
    let name = station.name.as_slice();
    put_u16(out, 1)?;
    put_u16(out, IDENTITY_ITEM)?;
    put_u16(out, FIXED_BYTES + name.len() as u16)?;
    put_u16(out, PROTOCOL_VERSION)?;
    Ok(())
}

/// Appends an address, its numbers with the most significant byte first.
#[tactic(auto, unfolding(crate::specs::Identity::view_socket))]
fn put_socket(out: &mut Vec<u8>, at: SocketAddress) -> Result<(), OutOfMemory>
    ensures ok { OnOk result (out.new.items ≡ out.old.items ++ view_socket at) }
{
    put_bytes(out, &INTERNET.to_be_bytes())?;
    put_bytes(out, &at.port.to_be_bytes())?;
    put_bytes(out, &at.address.0.to_be_bytes())?;
    put_bytes(out, &[0u8; 8])
}

/// Appends what the Identity object says of the device.
#[tactic(auto, unfolding(crate::specs::Identity::view_device))]
fn put_device(out: &mut Vec<u8>, station: &StationIdentity) -> Result<(), OutOfMemory>
    ensures ok { OnOk result (out.new.items ≡ out.old.items ++ view_device station.now) }
{
    put_product(out, station)?;
    put_unit(out, station)?;
    Ok(())
}

/// Appends vendor, device type and product.
#[tactic(auto, unfolding(crate::specs::Identity::view_product))]
fn put_product(out: &mut Vec<u8>, station: &StationIdentity) -> Result<(), OutOfMemory>
    ensures ok { OnOk result (out.new.items ≡ out.old.items ++ view_product station.now) }
{
    put_u16(out, station.device.vendor)?;
    put_u16(out, station.device.device_type)?;
    put_u16(out, station.device.product)?;
    Ok(())
}

/// Appends revision, status word and serial number.
#[tactic(auto, unfolding(crate::specs::Identity::view_unit))]
fn put_unit(out: &mut Vec<u8>, station: &StationIdentity) -> Result<(), OutOfMemory>
    ensures ok { OnOk result (out.new.items ≡ out.old.items ++ view_unit station.now) }
{
    put_u8(out, station.device.major)?;
    put_u8(out, station.device.minor)?;
    put_u16(out, station.status)?;
    put_u32(out, station.serial)?;
    Ok(())
}

/// Appends the name behind its length, and the state.
#[tactic(auto, unfolding(crate::specs::Identity::view_name))]
fn put_name(out: &mut Vec<u8>, station: &StationIdentity) -> Result<(), OutOfMemory>
    ensures ok { OnOk result (out.new.items ≡ out.old.items ++ view_name station.now) }
{
    let name = station.name.as_slice();
    put_u8(out, name.len() as u8)?;
    put_bytes(out, name)?;
    put_u8(out, station.state)?;
    Ok(())
}
