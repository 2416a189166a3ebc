//! The replies to inquiries.

ghost use Rattle.std.specs.Prelude.{◌≡◌, ◌<◌, ◌≤◌, length, IfOk, IfSome};
ghost use Rattle.std.specs.Option.{option_map};
ghost use Rattle.list_identity.specs.Inquiries.{inquiry_answer, inquiry_data, identity_answer, longest_reply, reply_message};
ghost use Rattle.cip_encap.specs.Message.{message_text, view_message};
ghost use Rattle.cip_router.specs.Frames.{services_text};

use crate::inquiry::{Inquiry, inquiry_in};
use crate::item::put_identity;
use crate::station::StationIdentity;
use cip_encap::{MessageView, SocketAddress, write_message};
use cip_types::OutOfMemory;
use std::alloc::Global;

/// One service item: its count, type, length, version, flags (TCP, and class 1 over UDP) and name.
const SERVICES: [u8; 26] = [
    1, 0, 0, 1, 20, 0, 1, 0, 0x20, 1, b'C', b'o', b'm', b'm', b'u', b'n', b'i', b'c', b'a', b't',
    b'i', b'o', b'n', b's', 0, 0,
];

/// No item.
const NO_ITEMS: [u8; 2] = [0, 0];

/// The reply to a ListServices, ListIdentity or ListInterfaces request. None for every other message: of other bytes than
/// one whole message, of another command, or with a status, options or data. The identity has `at` as its socket address:
/// the TCP port, and the address under which the sender reaches the station. The only fault is a refused allocation.
///
/// A request has 24 bytes, and a reply at most 96: what a station sends to a forged sender is at most four times what it
/// receives.
///
/// Volume 2, chapter 2, encapsulation commands.
pub fn inquiry_reply(
    alloc: Global,
    message: &[u8],
    station: &StationIdentity,
    at: SocketAddress,
) -> Result<Option<Vec<u8>>, OutOfMemory>
    ensures reply { IfOk result (λ reply.
        option_map (λ v. v.items) reply ≡ inquiry_answer message.now station.now at) }
    ensures short { IfOk result (λ reply. IfSome reply (λ v. length v.items ≤ longest_reply)) }
{
    match inquiry_in(message) {
        Some((inquiry, request)) => {
            let reply = reply_to(alloc, inquiry, &request, station, at)?;
            Ok(Some(reply))
        }
        None => Ok(None),
    }
}

/// The reply to a ListIdentity request, and none for every other message, as `inquiry_reply` makes it. Over a stream the
/// device itself answers the other commands.
pub fn identity_reply(
    alloc: Global,
    message: &[u8],
    station: &StationIdentity,
    at: SocketAddress,
) -> Result<Option<Vec<u8>>, OutOfMemory>
    ensures { IfOk result (λ reply.
        option_map (λ v. v.items) reply ≡ identity_answer message.now station.now at) }
{
    match inquiry_in(message) {
        Some((Inquiry::Identity, request)) => {
            let reply = reply_to(alloc, Inquiry::Identity, &request, station, at)?;
            Ok(Some(reply))
        }
        _ => Ok(None),
    }
}

/// The reply to an inquiry.
fn reply_to(
    alloc: Global,
    inquiry: Inquiry,
    request: &MessageView<'_>,
    station: &StationIdentity,
    at: SocketAddress,
) -> Result<Vec<u8>, OutOfMemory>
    ensures text { IfOk result (λ v. v.items
        ≡ message_text (reply_message (view_message request.now) (inquiry_data inquiry station.now at))) }
    ensures short { IfOk result (λ v. length v.items ≤ longest_reply) }
{
    let data = data_of(alloc, inquiry, station, at)?;
    write_reply(alloc, request, data.as_slice())
}

/// The reply with these data.
fn write_reply(
    alloc: Global,
    request: &MessageView<'_>,
    data: &[u8],
) -> Result<Vec<u8>, OutOfMemory>
    requires { length «data».now < 73 }
    ensures text { IfOk result (λ v. v.items
        ≡ message_text (reply_message (view_message request.now) «data».now)) }
    ensures short { IfOk result (λ v. length v.items ≤ longest_reply) }
{
    let reply = MessageView {
        command: request.command,
        session: request.session,
        status: 0,
        context: request.context,
        options: 0,
        data,
    };
    write_message(alloc, &reply)
}

/// The data of the reply: at most 72 bytes.
fn data_of(
    alloc: Global,
    inquiry: Inquiry,
    station: &StationIdentity,
    at: SocketAddress,
) -> Result<Vec<u8>, OutOfMemory>
    ensures bytes { IfOk result (λ v. v.items ≡ inquiry_data inquiry station.now at) }
    ensures few { IfOk result (λ v. length v.items < 73) }
{
    match inquiry {
        Inquiry::Services => services(alloc),
        Inquiry::Identity => identity(alloc, station, at),
        Inquiry::Interfaces => Ok(Vec::from_slice(alloc, &NO_ITEMS)?),
    }
}

/// The data of the reply to ListServices.
fn services(alloc: Global) -> Result<Vec<u8>, OutOfMemory>
    ensures bytes { IfOk result (λ v. v.items ≡ services_text) }
    ensures few { IfOk result (λ v. length v.items < 73) }
{
    Ok(Vec::from_slice(alloc, &SERVICES)?)
}

/// The data of the reply to ListIdentity.
fn identity(
    alloc: Global,
    station: &StationIdentity,
    at: SocketAddress,
) -> Result<Vec<u8>, OutOfMemory>
    ensures bytes { IfOk result (λ v. v.items ≡ inquiry_data Inquiry.Identity station.now at) }
    ensures few { IfOk result (λ v. length v.items < 73) }
{
    let mut data = Vec::new(alloc);
    put_identity(&mut data, station, at)?;
    Ok(data)
}
