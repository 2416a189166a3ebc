//! Writing messages.

ghost use Rattle.std.specs.Prelude.{◌≡◌, ◌≤◌, ◌++◌, length, Ok, IfOk, OnOk};
ghost use Rattle.cip_types.specs.Fields.{fields_text};
ghost use Rattle.cip_encap.specs.Message.{view_message, view_header, header_widths, message_text, IsMessageText};
ghost use Rattle.cip_encap.specs.Reading.{message_reading};
ghost use Rattle.cip_encap.specs.Stream.{StandsFirst};

use crate::header::MessageHeader;
use crate::message::MessageView;
use cip_types::OutOfMemory;
use cip_types::fields::{put_bytes, put_u16, put_u32};
use std::alloc::Global;

/// The bytes of a message's header.
pub const HEADER_LEN: usize = 24;

/// Appends the header of a message. The message's data, of the length that the header states, are to follow.
/// OutOfMemory is the only fault.
///
/// Volume 2, chapter 2, encapsulation messages.
pub fn put_message_header(out: &mut Vec<u8>, header: &MessageHeader) -> Result<(), OutOfMemory>
    ensures { OnOk result (out.new.items ≡ out.old.items ++ fields_text header_widths (view_header header.now)) }
{
    put_u16(out, header.command)?;
    put_u16(out, header.len)?;
    put_u32(out, header.session)?;
    put_u32(out, header.status)?;
    put_bytes(out, &header.context.to_le_bytes())?;
    put_u32(out, header.options)
}

/// The bytes of the message.
///
/// Volume 2, chapter 2, encapsulation messages.
pub fn write_message(alloc: Global, message: &MessageView<'_>) -> Result<Vec<u8>, OutOfMemory>
    // The length field counts the data.
    requires { length message.now.«data».now ≤ 65535 }
    ensures text { IfOk result (λ v. v.items ≡ message_text (view_message message.now)) }
    ensures is_text { IfOk result (λ v. IsMessageText v.items (view_message message.now)) }
    ensures read_back { IfOk result (λ v. message_reading v.items ≡ Ok (view_message message.now)) }
    ensures first { IfOk result (λ v. length message.now.«data».now ≤ 2048 → StandsFirst v.items) }
{
    let header = MessageHeader {
        command: message.command,
        len: message.data.len() as u16,
        session: message.session,
        status: message.status,
        context: message.context,
        options: message.options,
    };
    let mut out = Vec::with_capacity(alloc, HEADER_LEN + message.data.len())?;
    put_message_header(&mut out, &header)?;
    put_bytes(&mut out, message.data)?;
    Ok(out)
}
