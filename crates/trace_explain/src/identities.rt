//! Which device answers, in words.

use crate::router::push_name;
use cip_types::OutOfMemory;
use identity_search::FoundIdentity;
use trace_words::push_node;

/// The identity in a reply to ListIdentity, behind the message's command.
///
/// Volume 1, chapter 5, Identity object. Volume 2, chapter 2, ListIdentity.
pub fn push_identity(out: &mut String, found: &FoundIdentity<'_>) -> Result<(), OutOfMemory> {
    let device = found.device;
    write!(
        out,
        ": vendor {}, device type {}, product {}, revision {}.{}, serial number {}, name ",
        device.vendor, device.device_type, device.product, device.major, device.minor, found.serial
    )?;
    push_name(out, found.name)?;
    let status = found.status;
    let state = found.state;
    write!(out, ", status word {status:#06x}, state {state}, at ")?;
    push_node(out, found.at.address)?;
    let port = found.at.port;
    Ok(write!(out, " port {port}")?)
}
