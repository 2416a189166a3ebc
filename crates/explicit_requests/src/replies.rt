//! Replies to explicit requests.

ghost use Rattle.std.specs.Prelude.{◌≡◌, ◌∷◌, [], IfOk};
ghost use Rattle.cip_encap.specs.Message.{view_message};
ghost use Rattle.cip_encap.specs.Reading.{seen};
ghost use Rattle.cip_events.specs.Answers.{plain_answer};
ghost use Rattle.cip_fwdopen.specs.Reply.{reply_service};
ghost use Rattle.cip_router.specs.RouterReplies.{view_router_reply};
ghost use Rattle.scanner_table.specs.declared.table.ScannerTable.{ScannerTable};
ghost use Rattle.scanner_table.specs.Explicit.{explicit_answered, explicit_reply, replied_verdict, unanswered_notice, without_explicit};

use cip_encap::command::SEND_RR_DATA;
use cip_encap::{MessageView, read_items};
use cip_events::{Answer, Notice, Unanswered, Verdict};
use cip_fwdopen::service::REPLY;
use cip_router::{RouterReply, read_router_reply};
use cip_types::{Items, OutOfMemory};
use scanner_table::PendingExplicit;
use std::alloc::Global;

/// Returns the service of a reply: that of the request, with the reply bit.
fn reply_service(service: u8) -> u8
    ensures { result ≡ reply_service service }
{
    REPLY + service % REPLY
}

/// Reads the reply to a request of this service from a message.
///
/// The errors, in order: `Encap` if the message has a status; `Unreadable` if it is no SendRRData message, or has no
/// reply of the requested service.
///
/// Volume 1, chapter 2, message router response; Volume 2, chapter 2, SendRRData.
#[tactic(auto, unfolding(scanner_table::specs::Explicit::explicit_reply))]
fn explicit_reply<'a>(service: u8, message: &MessageView<'a>) -> Result<RouterReply<'a>, Unanswered>
    ensures { seen view_router_reply result ≡ explicit_reply service (view_message message.now) }
{
    if message.status != 0 {
        return Err(Unanswered::Encap(message.status));
    }
    if message.command != SEND_RR_DATA {
        return Err(Unanswered::Unreadable);
    }
    let Ok(packet) = read_items(message.data) else {
        return Err(Unanswered::Unreadable);
    };
    let Some(reply) = read_router_reply(packet.data) else {
        return Err(Unanswered::Unreadable);
    };
    if reply.service != reply_service(service) {
        return Err(Unanswered::Unreadable);
    }
    Ok(reply)
}

/// Makes the answer with a reply.
fn replied(
    alloc: Global,
    explicit: PendingExplicit,
    reply: &RouterReply<'_>,
) -> Result<Answer, OutOfMemory>
    ensures { IfOk result
        (λ answer. answer ≡ plain_answer (replied_verdict explicit (view_router_reply reply.now))) }
{
    let additional = Items::copy_of(alloc, reply.additional)?;
    let content = Items::copy_of(alloc, reply.content)?;
    Ok(Answer::plain(
        alloc,
        Verdict::Replied {
            number: explicit.number,
            status: reply.status,
            additional,
            data: content,
        },
    ))
}

/// Makes the answer with the notice that a request has no reply.
fn unanswered(
    alloc: Global,
    explicit: PendingExplicit,
    why: Unanswered,
) -> Result<Answer, OutOfMemory>
    ensures { IfOk result
        (λ answer. answer ≡ record (plain_answer Verdict.Done) { notices = unanswered_notice why explicit ∷ [] }) }
{
    let notices = Items::one(alloc, Notice::Unanswered(explicit.number, why))?;
    Ok(Answer {
        notices,
        ..Answer::plain(alloc, Verdict::Done)
    })
}

/// Makes the answer to the message of a target that ends a request. `OutOfMemory` is the only error.
///
/// Volume 1, chapter 2, message router response.
pub fn reply_answer(
    alloc: Global,
    explicit: PendingExplicit,
    message: &MessageView<'_>,
) -> Result<Answer, OutOfMemory>
    ensures { IfOk result
        (λ answer. (t : ScannerTable)
        → explicit_answered t explicit (explicit_reply explicit.service (view_message message.now))
        ≡ (answer, without_explicit t explicit)) }
{
    match explicit_reply(explicit.service, message) {
        Ok(reply) => replied(alloc, explicit, &reply),
        Err(why) => unanswered(alloc, explicit, why),
    }
}
