//! Replies to requests.

ghost use Rattle.std.specs.Prelude.{◌≡◌, ◌==◌, ◌&&◌};
ghost use Rattle.cip_encap.specs.Message.{view_message};
ghost use Rattle.scanner_table.specs.Encapsulation.{is_registered};
ghost use Rattle.scanner_table.specs.Replies.{open_answer};
ghost use Rattle.cip_fwdopen.specs.Services.{is_large_open};

use cip_encap::command::{REGISTER_SESSION, SEND_RR_DATA};
use cip_encap::{MessageView, read_items};
use cip_events::Reason;
use cip_fwdopen::{OpenAnswer, OpenService, read_open_reply};

/// The encapsulation status of a message whose session the target does not know.
const INVALID_SESSION: u32 = 0x0064;

/// Reads the answer to a request of this service from a message.
///
/// The errors, in order: `Encap` if the message has a status; `Unreadable` if it is no SendRRData message, or has no
/// reply of the requested service.
///
/// Volume 1, chapter 3, Forward_Open service, successful and unsuccessful response; Volume 2, chapter 2,
/// SendRRData.
#[tactic(auto, unfolding(scanner_table::specs::Replies::open_answer))]
pub fn open_answer(service: OpenService, message: &MessageView<'_>) -> Result<OpenAnswer, Reason>
    ensures { result ≡ open_answer (is_large_open service) (view_message message.now) }
{
    if message.status != 0 {
        return Err(Reason::Encap(message.status));
    }
    if message.command != SEND_RR_DATA {
        return Err(Reason::Unreadable);
    }
    let Ok(packet) = read_items(message.data) else {
        return Err(Reason::Unreadable);
    };
    let Ok(reply) = read_open_reply(packet.data) else {
        return Err(Reason::Unreadable);
    };
    if reply.service != service.reply_code() {
        return Err(Reason::Unreadable);
    }
    Ok(reply.answer)
}

/// Returns whether a message is a successful RegisterSession reply.
///
/// Volume 2, chapter 2, RegisterSession.
pub fn is_registered(message: &MessageView<'_>) -> bool
    ensures { result ≡ is_registered (view_message message.now) }
{
    message.command == REGISTER_SESSION && message.status == 0 && message.data.len() == 4
}

/// Returns whether a message ends the session that it came over: with `tidy`, if its target does not know the session.
///
/// Volume 2, chapter 2, encapsulation status, invalid session handle.
pub fn ends_session(tidy: bool, message: &MessageView<'_>) -> bool
    ensures { result ≡ (tidy && (view_message message.now).status == 0x0064) }
{
    tidy && message.status == INVALID_SESSION
}
