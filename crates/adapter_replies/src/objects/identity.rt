//! The replies of a described device to inquiries.

ghost use Rattle.std.specs.Prelude.{◌≡◌, ◌≤◌, IfOk, Some, None, false, length};
ghost use Rattle.std.specs.Option.{option_map};
ghost use Rattle.list_identity.specs.Inquiries.{inquiry_answer, inquiry_in};
ghost use Rattle.adapter_replies.specs.Objects.Said.{station_in, address_in};

use crate::objects::described::IN_OPERATION;
use crate::objects::status::status_word;
use adapter_table::{Description, IoState};
use assembly_set::AssemblySet;
use cip_encap::{HEADER_LEN, SocketAddress};
use cip_types::OutOfMemory;
use list_identity::{ProductName, StationIdentity, inquiry_reply as reply_to_inquiry};
use std::alloc::Global;

/// Whether bytes are as many as those of an inquiry, which is a header alone. Others are no inquiry. Takes no memory.
///
/// Volume 2, chapter 2, encapsulation messages.
#[tactic(auto, using(crate::specs::Objects::SaidLaws::no_inquiry))]
pub fn has_inquiry_length(bytes: &[u8]) -> bool
    ensures { result ≡ false → inquiry_in bytes.now ≡ None }
{
    bytes.len() == HEADER_LEN
}

/// What a device says of itself.
#[tactic(auto, using(crate::proofs::Points::whole_name))]
fn station_of(
    alloc: Global,
    assemblies: &AssemblySet,
    io: IoState,
    description: &Description,
) -> Result<StationIdentity, OutOfMemory>
    requires { length description.now.name ≤ 32 }
    ensures { IfOk result (λ station. station ≡ station_in assemblies.now io description.now) }
{
    Ok(StationIdentity {
        device: assemblies.profile().identity,
        status: status_word(assemblies, io),
        serial: description.serial,
        name: ProductName::front_of(alloc, description.name.as_slice())?,
        state: IN_OPERATION,
    })
}

/// The reply of a described device to an inquiry, and none to other bytes. Out of memory is the only fault.
///
/// Volume 2, chapter 2, ListIdentity, ListServices and ListInterfaces.
#[tactic(auto, using(adapter_table::specs::Lemmas::ObjectSizes::name_few))]
pub fn inquiry_reply(
    alloc: Global,
    assemblies: &AssemblySet,
    io: IoState,
    description: &Description,
    bytes: &[u8],
) -> Result<Option<Vec<u8>>, OutOfMemory>
    requires { assemblies.now.profile.description ≡ Some description.now }
    ensures { IfOk result (λ reply. option_map (λ v. v.items) reply
        ≡ inquiry_answer bytes.now (station_in assemblies.now io description.now)
        (address_in assemblies.now description.now)) }
{
    let at = SocketAddress {
        port: description.port,
        address: assemblies.profile().node,
    };
    let station = station_of(alloc, assemblies, io, description)?;
    reply_to_inquiry(alloc, bytes, &station, at)
}
