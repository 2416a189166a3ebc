//! What the reply to a request says of connections.

ghost use Rattle.std.specs.Prelude.{◌≡◌};
ghost use Rattle.station_port.specs.NamedPorts.Replies.{closed_outcome, opened_outcome, packet_outcome, reply_outcome, request_outcome};

use cip_encap::command::SEND_RR_DATA;
use cip_encap::{read_items, read_message};
use cip_fwdopen::service::{FORWARD_CLOSE, FORWARD_OPEN, LARGE_FORWARD_OPEN, REPLY};
use cip_fwdopen::{CloseAnswer, OpenAnswer, read_close_reply, read_open_reply};
use cip_types::Triad;

/// What a message over a stream does to the connections of its peer.
#[derive(Clone, Copy, PartialEq, Eq)]
pub enum ReplyOutcome {
    /// A connection of this triad is open, whose datagrams have these ids.
    Opened {
        triad: Triad,
        o_t_id: u32,
        t_o_id: u32,
    },
    /// The connection of this triad is closed.
    Closed(Triad),
    /// Nothing: another message, or a refusal.
    Nothing,
}

/// What a message does, as the reply to a request over its stream.
///
/// Volume 1, chapter 3, Forward_Open and Forward_Close services, successful response.
#[tactic(auto, unfolding(crate::specs::NamedPorts::Replies::reply_outcome))]
pub fn reply_outcome(message: &[u8]) -> ReplyOutcome
    ensures { result ≡ reply_outcome message.now }
{
    match read_message(message) {
        Ok(message) if message.command == SEND_RR_DATA => packet_outcome(message.data),
        _ => ReplyOutcome::Nothing,
    }
}

/// What the reply among these items does.
fn packet_outcome(items: &[u8]) -> ReplyOutcome
    ensures { result ≡ packet_outcome items.now }
{
    match read_items(items) {
        Ok(packet) => request_outcome(packet.data),
        Err(_) => ReplyOutcome::Nothing,
    }
}

/// What a reply does, by its service.
fn request_outcome(reply: &[u8]) -> ReplyOutcome
    ensures { result ≡ request_outcome reply.now }
{
    let [service, ..] = reply else {
        return ReplyOutcome::Nothing;
    };
    let service = *service;
    if service == FORWARD_OPEN | REPLY || service == LARGE_FORWARD_OPEN | REPLY {
        return opened_outcome(reply);
    }
    if service == FORWARD_CLOSE | REPLY {
        return closed_outcome(reply);
    }
    ReplyOutcome::Nothing
}

/// What the reply to a request to open a connection does.
fn opened_outcome(reply: &[u8]) -> ReplyOutcome
    ensures { result ≡ opened_outcome reply.now }
{
    match read_open_reply(reply) {
        Ok(reply) => match reply.answer {
            OpenAnswer::Opened(opened) => ReplyOutcome::Opened {
                triad: opened.triad,
                o_t_id: opened.o_t_id.0,
                t_o_id: opened.t_o_id.0,
            },
            OpenAnswer::Refused(_) => ReplyOutcome::Nothing,
        },
        Err(_) => ReplyOutcome::Nothing,
    }
}

/// What the reply to a request to close a connection does.
fn closed_outcome(reply: &[u8]) -> ReplyOutcome
    ensures { result ≡ closed_outcome reply.now }
{
    match read_close_reply(reply) {
        Ok(reply) => match reply.answer {
            CloseAnswer::Closed(triad) => ReplyOutcome::Closed(triad),
            CloseAnswer::Refused(_) => ReplyOutcome::Nothing,
        },
        Err(_) => ReplyOutcome::Nothing,
    }
}
