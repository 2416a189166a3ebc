//! Reading messages.

ghost use Rattle.std.specs.Prelude.{◌≡◌, Result};
ghost use Rattle.cip_encap.specs.declared.message.EncapFault.{EncapFault};
ghost use Rattle.cip_encap.specs.Message.{MessageFields, view_message, IsMessageReading};
ghost use Rattle.cip_encap.specs.Reading.{seen, message_reading};

use crate::header::header_at;
use crate::message::{EncapFault, MessageView};

/// The message of the header and the bytes after it.
#[tactic(auto, unfolding(crate::specs::Reading::message_reading))]
fn parsed(bytes: &[u8]) -> Result<MessageView<'_>, EncapFault>
    ensures { seen view_message result ≡ message_reading bytes.now }
{
    let Some((header, data)) = header_at(bytes) else {
        return Err(EncapFault::Truncated);
    };
    let len = header.len as usize;
    if data.len() < len {
        return Err(EncapFault::Truncated);
    }
    if data.len() > len {
        return Err(EncapFault::Trailing);
    }
    Ok(MessageView {
        command: header.command,
        session: header.session,
        status: header.status,
        context: header.context,
        options: header.options,
        data,
    })
}

/// Reads a message. Its data borrows from the bytes.
///
/// The faults: `Truncated` where the bytes are the front of a longer message, as fewer than the 24 bytes of
/// the header are; `Trailing` where bytes follow a message.
///
/// Volume 2, chapter 2, encapsulation messages.
pub fn read_message(bytes: &[u8]) -> Result<MessageView<'_>, EncapFault>
    // The result is a reading of the bytes.
    ensures reading { IsMessageReading bytes.now (seen view_message result) }
    // The bytes have no other reading.
    ensures only { (other : Result MessageFields EncapFault) → IsMessageReading bytes.now other
        → seen view_message result ≡ other }
    // The same as a function of the bytes.
    ensures value { seen view_message result ≡ message_reading bytes.now }
{
    parsed(bytes)
}
