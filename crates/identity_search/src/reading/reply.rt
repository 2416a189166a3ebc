//! The request, and the message of a reply.

ghost use Rattle.std.specs.Prelude.{◌≡◌, IfOk};
ghost use Rattle.cip_encap.specs.Message.{message_text, view_message};
ghost use Rattle.cip_encap.specs.Reading.{seen};
ghost use Rattle.identity_search.specs.Reading.Items.{view_found};
ghost use Rattle.identity_search.specs.Reading.Replies.{of_message, reply_reading, request_message};

use crate::reading::item::{FoundIdentity, IdentityFault, read_item};
use cip_encap::{MessageView, read_message, write_message};
use cip_types::OutOfMemory;
use std::alloc::Global;

/// The command of a ListIdentity request and of its reply.
const COMMAND: u16 = 0x0063;

/// The bytes of a ListIdentity request with this sender context: 24. `OutOfMemory` is the only fault.
///
/// Volume 2, chapter 2, ListIdentity.
pub fn identity_request(alloc: Global, context: u64) -> Result<Vec<u8>, OutOfMemory>
    ensures { IfOk result (λ v. v.items ≡ message_text (request_message context)) }
{
    let request = MessageView {
        command: COMMAND,
        session: 0,
        status: 0,
        context,
        options: 0,
        data: &[],
    };
    write_message(alloc, &request)
}

/// The identity in a reply to the request of this sender context. The faults, in order: `Message`, `Command`, `Status`,
/// `Context`, and those of the item: `Truncated`, `Item`, `Family`, `Name`. It takes no memory.
///
/// Volume 2, chapter 2, ListIdentity.
pub fn read_identity_reply(context: u64, bytes: &[u8]) -> Result<FoundIdentity<'_>, IdentityFault>
    ensures { seen view_found result ≡ reply_reading context bytes.now }
{
    match read_message(bytes) {
        Ok(message) => of_message(context, message),
        Err(_) => Err(IdentityFault::Message),
    }
}

/// The identity in a message.
fn of_message(context: u64, message: MessageView<'_>) -> Result<FoundIdentity<'_>, IdentityFault>
    ensures { seen view_found result ≡ of_message context (view_message message.entry) }
{
    if message.command != COMMAND {
        return Err(IdentityFault::Command);
    }
    if message.status != 0 {
        return Err(IdentityFault::Status);
    }
    if message.context != context {
        return Err(IdentityFault::Context);
    }
    read_item(message.data)
}
