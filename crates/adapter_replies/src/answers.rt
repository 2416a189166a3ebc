//! Answers, which the adapter makes before its table changes.

ghost use Rattle.std.specs.Prelude.{◌≡◌, ◌∷◌, ◌++◌, [], map, None, IfOk, OnOk, ◌≤◌, length};
ghost use Rattle.cip_encap.specs.Message.{message_text};
ghost use Rattle.cip_router.specs.Frames.{refused, reply_message};
ghost use Rattle.cip_router.specs.Replies.{view_reply};
ghost use Rattle.adapter_table.specs.Class3Opening.{class3_opened};
ghost use Rattle.adapter_table.specs.Opening.{opened_reply, opened_address, replaced_notices};
ghost use Rattle.adapter_table.specs.Ticks.{expired_notice};
ghost use Rattle.adapter_replies.specs.Routes.{view_request_header, view_frame_reply, IsWritable, IsWritableFrame, routed_frame, routed_answer, framed_answer, unserved_answer, kept_text, message_text_of};

use crate::messages::{message_frame, message_text};
use crate::replies::{FrameReply, write_frame_reply};
use crate::routes::{ConnectionRoute, RequestHeader, Route};
use adapter_table::{Row, State};
use cip_events::{Answer, Frame, Notice, OutgoingDatagram, Recipient, Verdict};
use cip_fwdopen::Opened;
use cip_router::{EncapStatus, Reply};
use cip_types::{Items, Node, OutOfMemory, Triad};
use messaging::Class3Connection;
use std::alloc::Global;
use std::iter;

/// An answer with datagrams and notices. Takes no memory.
pub fn notices_answer(
    alloc: Global,
    datagrams: Vec<OutgoingDatagram>,
    notices: Vec<Notice>,
) -> Answer
    ensures { result
        ≡ record { frames = []; datagrams = datagrams.items; verdict = Verdict.Done; notices = notices.items } }
{
    Answer {
        frames: Items::new(alloc),
        datagrams: Items::from_vec(datagrams),
        verdict: Verdict::Done,
        notices: Items::from_vec(notices),
    }
}

/// An answer with frames, datagrams and notices. Takes no memory.
pub fn late_answer(
    frames: Vec<Frame>,
    datagrams: Vec<OutgoingDatagram>,
    notices: Vec<Notice>,
) -> Answer
    ensures { result
        ≡ record {
          frames = frames.items;
          datagrams = datagrams.items;
          verdict = Verdict.Done;
          notices = notices.items;
        } }
{
    Answer {
        frames: Items::from_vec(frames),
        datagrams: Items::from_vec(datagrams),
        verdict: Verdict::Done,
        notices: Items::from_vec(notices),
    }
}

/// An answer with one frame.
pub(crate) fn one_frame_answer(
    alloc: Global,
    frame: Frame,
    notices: Vec<Notice>,
) -> Result<Answer, OutOfMemory>
    ensures { IfOk result (λ answer. answer
        ≡ record { frames = frame ∷ []; datagrams = []; verdict = Verdict.Done; notices = notices.items }) }
{
    Ok(Answer {
        frames: Items::one(alloc, frame)?,
        datagrams: Items::new(alloc),
        verdict: Verdict::Done,
        notices: Items::from_vec(notices),
    })
}

/// The frame of a reply to a frame of a stream. Out of memory is the only fault.
pub(crate) fn stream_frame(
    alloc: Global,
    number: u16,
    request_header: RequestHeader,
    reply: &FrameReply<'_>,
) -> Result<Frame, OutOfMemory>
    requires { IsWritableFrame (view_frame_reply reply.now) }
    ensures { IfOk result (λ frame. frame
        ≡ record {
          to = Recipient.Stream number;
          bytes = message_text (reply_message (view_request_header request_header) (view_frame_reply reply.now));
        }) }
{
    let bytes = write_frame_reply(alloc, request_header, reply)?;
    Ok(Frame {
        to: Recipient::Stream(number),
        bytes: Items::from_vec(bytes),
    })
}

/// The frame with a reply on its route; the one that answers an unconnected request over a stream has the multicast
/// address of a connection that was opened. Out of memory is the only fault.
pub(crate) fn reply_frame(
    alloc: Global,
    route: Route,
    reply: &Reply<'_>,
    address: Option<Node>,
) -> Result<Frame, OutOfMemory>
    // A value that is replied has at most 1,400 bytes, and a refusal a status that says so.
    requires { IsWritable (view_reply reply.now) }
    ensures { IfOk result (λ frame. frame ≡ routed_frame route (view_reply reply.now) address) }
{
    match route {
        Route::Peer(peer) => {
            let bytes = Items::from_vec(reply.write(alloc)?);
            let to = Recipient::Peer(peer);
            Ok(Frame { to, bytes })
        }
        Route::Stream(stream, request_header) => {
            let reply = FrameReply::Router(*reply, address);
            stream_frame(alloc, stream.number, request_header, &reply)
        }
        Route::Connection(way) => {
            let text = message_text(alloc, &way, reply)?;
            message_frame(alloc, &way, &text)
        }
    }
}

/// The answer with a reply on its route; over a stream it has the multicast address of a connection that it opened. Out
/// of memory is the only fault.
pub fn reply_answer(
    alloc: Global,
    route: Route,
    reply: &Reply<'_>,
    address: Option<Node>,
    notices: Vec<Notice>,
) -> Result<Answer, OutOfMemory>
    requires { IsWritable (view_reply reply.now) }
    ensures { IfOk result (λ answer. answer ≡ routed_answer route (view_reply reply.now) address notices.items) }
{
    let frame = reply_frame(alloc, route, reply, address)?;
    one_frame_answer(alloc, frame, notices)
}

/// The answer with a reply on the route of a message, and the text of the reply.
fn message_reply(
    alloc: Global,
    way: ConnectionRoute,
    reply: &Reply<'_>,
    notices: Vec<Notice>,
) -> Result<(Answer, Vec<u8>), OutOfMemory>
    requires { IsWritable (view_reply reply.now) }
    ensures answer { IfOk result (λ made. made.0
        ≡ routed_answer (Route.Connection way) (view_reply reply.now) None notices.items) }
    ensures text { IfOk result (λ made. made.1.items ≡ message_text_of way (view_reply reply.now)) }
    ensures few { IfOk result (λ made. length made.1.items ≤ 1404) }
{
    let text = message_text(alloc, &way, reply)?;
    let frame = message_frame(alloc, &way, &text)?;
    let answer = one_frame_answer(alloc, frame, notices)?;
    Ok((answer, text))
}

/// The answer with a reply on its route, and the text of it that a class 3 connection keeps, none on other routes. Out
/// of memory is the only fault.
pub fn reply_and_text(
    alloc: Global,
    route: Route,
    reply: &Reply<'_>,
    notices: Vec<Notice>,
) -> Result<(Answer, Vec<u8>), OutOfMemory>
    requires { IsWritable (view_reply reply.now) }
    ensures answer { IfOk result (λ made. made.0 ≡ routed_answer route (view_reply reply.now) None notices.items) }
    ensures text { IfOk result (λ made. made.1.items ≡ kept_text route (view_reply reply.now)) }
    ensures few { IfOk result (λ made. length made.1.items ≤ 1404) }
{
    if let Route::Connection(way) = route {
        return message_reply(alloc, way, reply, notices);
    }
    let answer = reply_answer(alloc, route, reply, None, notices)?;
    Ok((answer, Vec::new(alloc)))
}

/// The answer with the reply to a frame of a stream. Out of memory is the only fault.
pub fn frame_answer(
    alloc: Global,
    number: u16,
    request_header: RequestHeader,
    reply: &FrameReply<'_>,
    notices: Vec<Notice>,
) -> Result<Answer, OutOfMemory>
    requires { IsWritableFrame (view_frame_reply reply.now) }
    ensures { IfOk result (λ answer. answer
        ≡ framed_answer number (view_request_header request_header) (view_frame_reply reply.now) notices.items) }
{
    let frame = stream_frame(alloc, number, request_header, reply)?;
    one_frame_answer(alloc, frame, notices)
}

/// The refusal of data without a request.
fn refused_data(
    alloc: Global,
    number: u16,
    request_header: RequestHeader,
) -> Result<Answer, OutOfMemory>
    ensures { IfOk result (λ answer. answer ≡ framed_answer number (view_request_header request_header)
        (refused EncapStatus.IncorrectData) []) }
{
    let reply = FrameReply::Refused(EncapStatus::IncorrectData);
    frame_answer(alloc, number, request_header, &reply, Vec::new(alloc))
}

/// The answer to bytes that are no request. Out of memory is the only fault.
pub fn unserved_answer(alloc: Global, route: Route) -> Result<Answer, OutOfMemory>
    ensures { IfOk result (λ answer. answer ≡ unserved_answer route) }
{
    match route {
        Route::Peer(_) => Ok(Answer::plain(alloc, Verdict::BadFrame)),
        Route::Stream(stream, request_header) => refused_data(alloc, stream.number, request_header),
        Route::Connection(way) => refused_data(alloc, way.number, way.request_header),
    }
}

/// One notice. Out of memory is the only fault.
pub fn one_notice(alloc: Global, notice: Notice) -> Result<Vec<Notice>, OutOfMemory>
    ensures { IfOk result (λ notices. notices.items ≡ notice ∷ []) }
{
    let mut notices = Vec::new(alloc);
    notices.push(notice)?;
    Ok(notices)
}

/// The notices of class 3 connections that end with their stream. Out of memory is the only fault.
fn ended_notices(alloc: Global, ended: &[Triad]) -> Result<Vec<Notice>, OutOfMemory>
    ensures { IfOk result (λ notices. notices.items ≡ map Notice.Dropped ended.now) }
{
    let dropped = ended.iter().map(|triad| Notice::Dropped(*triad));
    Ok(dropped.collect(alloc)?)
}

/// The same behind the notice of the stream, whose session ends. Out of memory is the only fault.
fn stream_notices(alloc: Global, number: u16, ended: &[Triad]) -> Result<Vec<Notice>, OutOfMemory>
    ensures { IfOk result (λ notices. notices.items
        ≡ (Notice.StreamClosed number ∷ []) ++ map Notice.Dropped ended.now) }
{
    let dropped = ended.iter().map(|triad| Notice::Dropped(*triad));
    let closed = iter::once(Notice::StreamClosed(number));
    Ok(closed.chain(dropped).collect(alloc)?)
}

/// The answer when a session ends, and its stream with it: these connections end, too. Out of memory is the only fault.
pub fn ended_answer(alloc: Global, number: u16, ended: &[Triad]) -> Result<Answer, OutOfMemory>
    ensures { IfOk result (λ answer. answer
        ≡ record {
          frames = [];
          datagrams = [];
          verdict = Verdict.Done;
          notices = (Notice.StreamClosed number ∷ []) ++ map Notice.Dropped ended.now;
        }) }
{
    let notices = stream_notices(alloc, number, ended)?;
    Ok(notices_answer(alloc, Vec::new(alloc), notices))
}

/// The answer when a stream breaks: these connections end with it. Out of memory is the only fault.
pub fn cut_answer(alloc: Global, ended: &[Triad]) -> Result<Answer, OutOfMemory>
    ensures { IfOk result (λ answer. answer
        ≡ record {
          frames = [];
          datagrams = [];
          verdict = Verdict.Done;
          notices = map Notice.Dropped ended.now;
        }) }
{
    let notices = ended_notices(alloc, ended)?;
    Ok(notices_answer(alloc, Vec::new(alloc), notices))
}

/// The notices of an opening: the connection that is replaced, and the new one.
pub fn opening_notices(
    alloc: Global,
    replaced: Option<Triad>,
    row: &Row,
) -> Result<Vec<Notice>, OutOfMemory>
    ensures { IfOk result (λ notices. notices.items
        ≡ replaced_notices replaced ++ Notice.Opened row.now.triad row.now.o_t_id ∷ []) }
{
    let mut notices = Vec::new(alloc);
    if let Some(replaced) = replaced {
        notices.push(Notice::Replaced(replaced))?;
    }
    notices.push(Notice::Opened(row.triad, row.o_t_id))?;
    Ok(notices)
}

/// The notices of a close: the connection that is closed, and then these, which are dropped with it. Out of memory is
/// the only fault.
pub fn closed_notices(
    alloc: Global,
    triad: Triad,
    dropped: &[Triad],
) -> Result<Vec<Notice>, OutOfMemory>
    ensures { IfOk result (λ notices. notices.items
        ≡ (Notice.Closed triad ∷ []) ++ map Notice.Dropped dropped.now) }
{
    let dropped = dropped.iter().map(|triad| Notice::Dropped(*triad));
    let closed = iter::once(Notice::Closed(triad));
    Ok(closed.chain(dropped).collect(alloc)?)
}

/// Appends the notices of class 3 connections that time out. Out of memory is the only fault.
fn put_ended(notices: &mut Vec<Notice>, ended: &[Triad]) -> Result<(), OutOfMemory>
    ensures { OnOk result (notices.new.items ≡ notices.old.items ++ map Notice.Expired ended.now) }
{
    for triad in ended {
        notices.push(Notice::Expired(*triad))?;
    }
    Ok(())
}

/// The notices of connections that time out, and then of these, which are dropped with them. Out of memory is the only
/// fault.
pub fn expiry_notices(
    alloc: Global,
    expired: &[Row],
    dropped: &[Triad],
) -> Result<Vec<Notice>, OutOfMemory>
    ensures { IfOk result (λ notices. notices.items
        ≡ map expired_notice expired.now ++ map Notice.Dropped dropped.now) }
{
    let dropped = dropped.iter().map(|triad| Notice::Dropped(*triad));
    let expired = expired.iter().map(|row| Notice::Expired(row.triad));
    Ok(expired.chain(dropped).collect(alloc)?)
}

/// The same, and then those of class 3 connections that time out. Out of memory is the only fault.
pub fn late_notices(
    alloc: Global,
    expired: &[Row],
    dropped: &[Triad],
    ended: &[Triad],
) -> Result<Vec<Notice>, OutOfMemory>
    ensures { IfOk result (λ notices. notices.items
        ≡ (map expired_notice expired.now ++ map Notice.Dropped dropped.now) ++ map Notice.Expired ended.now) }
{
    let mut notices = expiry_notices(alloc, expired, dropped)?;
    put_ended(&mut notices, ended)?;
    Ok(notices)
}

/// The fields of the reply to an opening.
pub fn opened_reply(row: &Row) -> Opened
    requires o_t { row.now.o_t_api_ms ≤ 10000 }
    requires t_o { row.now.t_o_api_ms ≤ 10000 }
    ensures { result ≡ opened_reply row.now }
{
    Opened {
        o_t_id: row.o_t_id,
        t_o_id: row.t_o_id,
        triad: row.triad,
        o_t_api_us: 1000 * row.o_t_api_ms,
        t_o_api_us: 1000 * row.t_o_api_ms,
    }
}

/// The same of a class 3 connection.
pub fn class3_opened(class3: &Class3Connection) -> Opened
    requires o_t { class3.now.o_t_api_ms ≤ 10000 }
    requires t_o { class3.now.t_o_api_ms ≤ 10000 }
    ensures { result ≡ class3_opened class3.now }
{
    Opened {
        o_t_id: class3.o_t_id,
        t_o_id: class3.t_o_id,
        triad: class3.triad,
        o_t_api_us: 1000 * class3.o_t_api_ms,
        t_o_api_us: 1000 * class3.t_o_api_ms,
    }
}

/// The multicast address of the datagrams of an opened connection, if it is multicast.
pub fn opened_address(row: &Row) -> Option<Node>
    ensures { result ≡ opened_address row.now }
{
    if !row.multicast {
        return None;
    }
    match row.state {
        State::Established(production) => Some(production.address),
        State::TimedOut => None,
    }
}
