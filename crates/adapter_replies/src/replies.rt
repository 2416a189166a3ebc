//! The messages that answer frames.

ghost use Rattle.std.specs.Prelude.{◌≡◌, ◌≤◌, IfOk, length};
ghost use Rattle.cip_encap.specs.Message.{message_text, view_header};
ghost use Rattle.cip_router.specs.Replies.{view_reply};
ghost use Rattle.cip_router.specs.Frames.{connected, headed_reply, reply_message, router_reply};
ghost use Rattle.adapter_replies.specs.Routes.{view_request_header, view_frame_reply, router_numbers, unit_numbers, IsWritable, IsWritableFrame};

use crate::routes::RequestHeader;
use cip_encap::command::SEND_UNIT_DATA;
use cip_encap::{
    HEADER_LEN, MessageHeader, MessageView, SocketAddress, connected_len, items_len,
    put_connected_header, put_items_header, put_message_header, put_socket, write_message,
};
use cip_router::{EncapStatus, Reply};
use cip_types::fields::put_bytes;
use cip_types::limits::UDP_PORT;
use cip_types::{ConnId, Node, OutOfMemory};
use std::alloc::Global;

/// One service item: its count, type, length, version, flags (TCP, and class 1 over UDP) and name.
const SERVICES: [u8; 26] = [
    1, 0, 0, 1, 20, 0, 1, 0, 0x20, 1, b'C', b'o', b'm', b'm', b'u', b'n', b'i', b'c', b'a', b't',
    b'i', b'o', b'n', b's', 0, 0,
];

/// Protocol version 1, without option flags.
pub const PROTOCOL: [u8; 4] = [1, 0, 0, 0];

/// The reply to a frame.
///
/// Volume 2, chapter 2, encapsulation commands.
#[derive(Clone, Copy)]
pub enum FrameReply<'a> {
    /// The services of the device.
    Services,
    /// The session that was registered, by its handle.
    Registered(u32),
    /// The supported protocol version, in reply to another one.
    OtherVersion,
    /// A reply of the message router, with the multicast address of a connection that it opened.
    Router(Reply<'a>, Option<Node>),
    /// A refusal.
    Refused(EncapStatus),
    /// The text of a reply over a class 3 connection, with its T->O id and the sequence count of the request.
    ///
    /// Volume 2, chapter 2, SendUnitData.
    Connected(ConnId, u16, &'a [u8]),
}

/// A message that returns the command and the sender context of its request.
fn write_headed_reply(
    alloc: Global,
    request_header: RequestHeader,
    session: u32,
    status: u32,
    body: &[u8],
) -> Result<Vec<u8>, OutOfMemory>
    requires { length body.now ≤ 65535 }
    ensures { IfOk result (λ v. v.items
        ≡ message_text (headed_reply (view_request_header request_header) session status body.now)) }
{
    let message = MessageView {
        command: request_header.command,
        session,
        status,
        context: request_header.context,
        options: 0,
        data: body,
    };
    write_message(alloc, &message)
}

/// The header of a message with data of this length, which returns the command, the session handle and the sender
/// context of its request.
fn router_header(request_header: RequestHeader, len: u16) -> MessageHeader
    ensures { view_header result ≡ router_numbers (view_request_header request_header) len }
{
    MessageHeader {
        command: request_header.command,
        len,
        session: request_header.session,
        status: 0,
        context: request_header.context,
        options: 0,
    }
}

/// The message of a reply of the message router: header, items and reply in one buffer.
fn write_router(
    alloc: Global,
    request_header: RequestHeader,
    reply: &Reply<'_>,
    address: Option<Node>,
) -> Result<Vec<u8>, OutOfMemory>
    requires { IsWritable (view_reply reply.now) }
    ensures { IfOk result (λ v. v.items
        ≡ message_text (reply_message (view_request_header request_header)
        (router_reply (view_reply reply.now) address))) }
{
    let socket = address.map(|address| SocketAddress {
        port: UDP_PORT,
        address,
    });
    let reply_len = reply.len();
    let len = items_len(reply_len, socket);
    let mut out = Vec::with_capacity(alloc, HEADER_LEN + len)?;
    put_message_header(&mut out, &router_header(request_header, len as u16))?;
    put_items_header(&mut out, reply_len as u16, socket)?;
    reply.put(&mut out)?;
    put_socket(&mut out, socket)?;
    Ok(out)
}

/// The header of a message of a class 3 connection, with data of this length, over the stream of its request.
fn unit_header(request_header: RequestHeader, len: u16) -> MessageHeader
    ensures { view_header result ≡ unit_numbers (view_request_header request_header) len }
{
    MessageHeader {
        command: SEND_UNIT_DATA,
        len,
        session: request_header.session,
        status: 0,
        context: 0,
        options: 0,
    }
}

/// The message of a reply over a class 3 connection: header, items and text in one buffer.
fn write_connected(
    alloc: Global,
    request_header: RequestHeader,
    id: ConnId,
    count: u16,
    text: &[u8],
) -> Result<Vec<u8>, OutOfMemory>
    requires { length text.now ≤ 1404 }
    ensures { IfOk result (λ v. v.items
        ≡ message_text (reply_message (view_request_header request_header) (connected id.0 count text.now))) }
{
    let len = connected_len(text.len());
    let mut out = Vec::with_capacity(alloc, HEADER_LEN + len)?;
    put_message_header(&mut out, &unit_header(request_header, len as u16))?;
    put_connected_header(&mut out, id, count, text.len() as u16)?;
    put_bytes(&mut out, text)?;
    Ok(out)
}

/// The message of a reply to a frame. Out of memory is the only fault.
///
/// Volume 2, chapter 2, encapsulation commands and status codes.
pub fn write_frame_reply(
    alloc: Global,
    request_header: RequestHeader,
    reply: &FrameReply<'_>,
) -> Result<Vec<u8>, OutOfMemory>
    // A value that is replied has at most 1,400 bytes, and a refusal a status that says so.
    requires { IsWritableFrame (view_frame_reply reply.now) }
    ensures { IfOk result (λ v. v.items
        ≡ message_text (reply_message (view_request_header request_header) (view_frame_reply reply.now))) }
{
    match reply {
        FrameReply::Services => write_headed_reply(
            alloc,
            request_header,
            request_header.session,
            0,
            &SERVICES,
        ),
        FrameReply::Registered(session) => write_headed_reply(
            alloc,
            request_header,
            *session,
            0,
            &PROTOCOL,
        ),
        FrameReply::OtherVersion => {
            let status = EncapStatus::UnsupportedVersion.code();
            write_headed_reply(alloc, request_header, 0, status, &PROTOCOL)
        }
        FrameReply::Router(reply, address) => write_router(alloc, request_header, reply, *address),
        FrameReply::Connected(id, count, text) => {
            write_connected(alloc, request_header, *id, *count, text)
        }
        FrameReply::Refused(why) => write_headed_reply(
            alloc,
            request_header,
            request_header.session,
            why.code(),
            &[],
        ),
    }
}
