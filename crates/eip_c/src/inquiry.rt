//! The reply of a device to an inquiry.

ghost use Rattle.std.specs.Prelude.{◌≡◌};
ghost use Rattle.eip_c.specs.Inquiries.{Inquires, identity_of, socket_of};
ghost use Rattle.eip_c.specs.Statuses.{status_of};

use crate::room::copy_out;
use crate::status::{LONG_NAME, NO_INQUIRY, OUT_OF_MEMORY};
use cip_encap::SocketAddress;
use cip_types::{Identity, Node};
use list_identity::{NameFault, ProductName, StationIdentity, inquiry_reply};
use std::alloc::Global;

/// The numbers of a device's identity. In C they are the front of the struct of an identity.
#[repr(C)]
#[derive(Clone, Copy)]
pub struct IdentityNumbers {
    /// The IPv4 address under which who asks reaches the device.
    pub address: u32,
    /// The serial number.
    pub serial: u32,
    /// The TCP port of encapsulation messages.
    pub port: u16,
    pub vendor: u16,
    pub device_type: u16,
    pub product: u16,
    /// The status word of the Identity object.
    pub status: u16,
    /// The revision.
    pub major: u8,
    pub minor: u8,
    /// The state of the Identity object: 3 is operational.
    pub state: u8,
}

/// Writes the reply to an inquiry of the caller's memory.
pub fn report_inquiry(
    alloc: Global,
    message: &[u8],
    numbers: &IdentityNumbers,
    name: &[u8],
    out: &mut [u8],
    size: &mut usize,
) -> u32
    ensures { Inquires message.now numbers.now name.now
        (status_of result) (out.old, size.old) (out.new, size.new) }
{
    match ProductName::new(alloc, name) {
        Ok(name) => report_named(alloc, message, numbers, name, out, size),
        Err(NameFault::TooLong) => LONG_NAME,
        Err(NameFault::OutOfMemory) => OUT_OF_MEMORY,
    }
}

/// The same of a device of this name.
fn report_named(
    alloc: Global,
    message: &[u8],
    numbers: &IdentityNumbers,
    name: ProductName,
    out: &mut [u8],
    size: &mut usize,
) -> u32
    ensures { Inquires message.now numbers.now name
        (status_of result) (out.old, size.old) (out.new, size.new) }
{
    let station = identity_of(numbers, name);
    match inquiry_reply(alloc, message, &station, socket_of(numbers)) {
        Ok(Some(reply)) => copy_out(reply.as_slice(), out, size),
        Ok(None) => {
            *size = 0;
            NO_INQUIRY
        }
        Err(_) => OUT_OF_MEMORY,
    }
}

/// An identity of these numbers and this name.
fn identity_of(numbers: &IdentityNumbers, name: ProductName) -> StationIdentity
    ensures { result ≡ identity_of numbers.now name }
{
    StationIdentity {
        device: Identity {
            vendor: numbers.vendor,
            device_type: numbers.device_type,
            product: numbers.product,
            major: numbers.major,
            minor: numbers.minor,
        },
        status: numbers.status,
        serial: numbers.serial,
        name,
        state: numbers.state,
    }
}

/// Where the device is reached.
fn socket_of(numbers: &IdentityNumbers) -> SocketAddress
    ensures { result ≡ socket_of numbers.now }
{
    SocketAddress {
        port: numbers.port,
        address: Node(numbers.address),
    }
}
