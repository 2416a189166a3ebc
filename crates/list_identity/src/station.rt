//! What a station says of itself.

ghost use Rattle.std.specs.Prelude.{◌≡◌, IfOk};
ghost use Rattle.list_identity.specs.Names.{identity_with};

use crate::name::ProductName;
use cip_types::{Identity, OutOfMemory};
use std::alloc::Global;

/// The state of an Identity object whose device is operational.
///
/// Volume 1, chapter 5, Identity object.
const OPERATIONAL: u8 = 3;

/// What a station says of itself to who lists identities: the Identity object of its device.
///
/// Volume 1, chapter 5, Identity object. Volume 2, chapter 2, ListIdentity.
#[derive(Drop)]
pub struct StationIdentity {
    /// Vendor, device type, product and revision.
    pub device: Identity,
    /// The status word of the Identity object.
    pub status: u16,
    /// The serial number of the device.
    pub serial: u32,
    pub name: ProductName,
    /// The state of the Identity object: 3 is operational.
    pub state: u8,
}

impl StationIdentity {
    /// What a device in operation says of itself: the identity of its profile, its serial number, and at most 32 bytes of
    /// its name. The only fault is a refused allocation.
    pub fn of(
        alloc: Global,
        device: Identity,
        serial: u32,
        name: &[u8],
    ) -> Result<StationIdentity, OutOfMemory>
        ensures { IfOk result (λ identity. identity ≡ identity_with device serial name.now) }
    {
        Ok(StationIdentity {
            device,
            status: 0,
            serial,
            name: ProductName::front_of(alloc, name)?,
            state: OPERATIONAL,
        })
    }
}
