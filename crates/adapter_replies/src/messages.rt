//! Replies to the messages of class 3 connections.

ghost use Rattle.std.specs.Prelude.{◌≡◌, ◌≤◌, IfOk, length};
ghost use Rattle.cip_router.specs.Replies.{view_reply};
ghost use Rattle.cip_encap.specs.Message.{message_text as message_bytes};
ghost use Rattle.cip_router.specs.Frames.{reply_message};
ghost use Rattle.adapter_table.specs.Connected.{fitted, most_reply};
ghost use Rattle.adapter_replies.specs.Messages.{repeated_answer};
ghost use Rattle.adapter_replies.specs.Routes.{IsWritable, connected_reply, message_text_of, view_request_header};

use crate::answers::stream_frame;
use crate::replies::FrameReply;
use crate::routes::ConnectionRoute;
use cip_events::{Answer, Delivery, Frame, Recipient, Verdict};
use cip_router::{Reply, Status};
use cip_types::{Items, OutOfMemory};
use std::alloc::Global;

/// The bytes of a refusal, for which there is always room.
const REFUSAL_LEN: usize = 4;

/// The bytes of a reply with the longest data.
const LONGEST_REPLY: usize = 1_404;

/// The most bytes of a reply over a connection of this T->O size.
fn most_reply(size: u32) -> usize
    ensures { result ≡ most_reply size }
{
    (size as usize)
        .saturating_sub(2)
        .min(LONGEST_REPLY)
        .max(REFUSAL_LEN)
}

/// The reply, if the T->O size has room for it, else that it is too large.
fn fitted<'a>(size: u32, service: u8, reply: &Reply<'a>) -> Reply<'a>
    requires { IsWritable (view_reply reply.now) }
    ensures value { view_reply result ≡ fitted size service (view_reply reply.now) }
    ensures writable { IsWritable (view_reply result) }
{
    if reply.len() <= most_reply(size) {
        return *reply;
    }
    Reply::Refused(service, Status::ReplyTooLarge.fault(), None)
}

/// The text of the reply to a message, as its connection keeps it: the reply, or where the T->O size has no room for it,
/// that it is too large. `OutOfMemory` is the only error.
///
/// Volume 1, chapter 2, message router reply.
pub(crate) fn message_text(
    alloc: Global,
    way: &ConnectionRoute,
    reply: &Reply<'_>,
) -> Result<Vec<u8>, OutOfMemory>
    requires { IsWritable (view_reply reply.now) }
    ensures text { IfOk result (λ text. text.items ≡ message_text_of way.now (view_reply reply.now)) }
    ensures few { IfOk result (λ text. length text.items ≤ 1404) }
{
    let fitted = fitted(way.t_o_size, way.service, reply);
    let text = fitted.write(alloc)?;
    Ok(text)
}

/// The frame with the text of the reply to a message. `OutOfMemory` is the only error.
pub(crate) fn message_frame(
    alloc: Global,
    way: &ConnectionRoute,
    text: &[u8],
) -> Result<Frame, OutOfMemory>
    requires { length text.now ≤ 1404 }
    ensures { IfOk result (λ frame. frame
        ≡ record {
          to = Recipient.Stream way.now.number;
          bytes = message_bytes
              (reply_message (view_request_header way.now.request_header) (connected_reply way.now text.now));
        }) }
{
    let reply = FrameReply::Connected(way.t_o_id, way.count, text);
    stream_frame(alloc, way.number, way.request_header, &reply)
}

/// The answer to the last message again: the text that the connection keeps, if it has a reply yet. `OutOfMemory` is
/// the only error.
///
/// Volume 1, chapter 3, transport class 3.
pub fn repeated_answer(
    alloc: Global,
    way: &ConnectionRoute,
    text: &[u8],
) -> Result<Answer, OutOfMemory>
    requires { length text.now ≤ 1404 }
    ensures { IfOk result (λ answer. answer ≡ repeated_answer way.now text.now) }
{
    let verdict = Verdict::Delivered(Delivery::Duplicate);
    if text.is_empty() {
        return Ok(Answer::plain(alloc, verdict));
    }
    let frame = message_frame(alloc, way, text)?;
    Ok(Answer {
        frames: Items::one(alloc, frame)?,
        datagrams: Items::new(alloc),
        verdict,
        notices: Items::new(alloc),
    })
}
