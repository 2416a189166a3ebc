//! Encapsulation messages in words.

use crate::identities::push_identity;
use crate::router::{push_data, push_id, push_reply, push_request};
use cip_encap::{MessageView, read_any_connected_items, read_any_items, read_message};
use cip_router::Command;
use cip_tables::Config;
use cip_types::OutOfMemory;
use identity_search::read_identity_reply;
use std::alloc::Global;
use trace_words::{encap_words, push_text};

/// A message, by its command and fields: one from an originator to a target, or its reply. The reply to ListIdentity says
/// which device it is of.
///
/// Volume 2, chapter 2, encapsulation messages.
pub fn push_message(
    alloc: Global,
    out: &mut String,
    config: &Config,
    bytes: &[u8],
    to_target: bool,
) -> Result<(), OutOfMemory> {
    let message = match read_message(bytes) {
        Ok(message) => message,
        Err(fault) => {
            write!(out, "no encapsulation message ({fault}), ")?;
            return push_data(alloc, out, bytes);
        }
    };
    push_command(out, &message, to_target)?;
    if message.status != 0 {
        let status = message.status;
        let words = encap_words(status);
        write!(out, ", status {status:#06x} ({words})")?;
    }
    if !to_target {
        if let Ok(found) = read_identity_reply(message.context, bytes) {
            return push_identity(out, &found);
        }
    }
    push_contents(alloc, out, config, &message, to_target)
}

fn push_command(
    out: &mut String,
    message: &MessageView<'_>,
    to_target: bool,
) -> Result<(), OutOfMemory> {
    if !to_target {
        push_text(out, "reply to ")?;
    }
    match Command::of(message.command) {
        Command::Nop => push_text(out, "NOP")?,
        Command::ListServices => push_text(out, "ListServices")?,
        Command::RegisterSession => push_text(out, "RegisterSession")?,
        Command::UnregisterSession => push_text(out, "UnRegisterSession")?,
        Command::SendRrData => push_text(out, "SendRRData")?,
        Command::SendUnitData => push_text(out, "SendUnitData")?,
        Command::Other => push_other(out, message.command)?,
    }
    let session = message.session;
    Ok(write!(out, ", session {session}")?)
}

/// A command that no device of this repository serves.
fn push_other(out: &mut String, command: u16) -> Result<(), OutOfMemory> {
    let name = match command {
        0x0063 => "ListIdentity",
        0x0064 => "ListInterfaces",
        _ => "a command",
    };
    Ok(write!(out, "{name} ({command:#06x})")?)
}

fn push_contents(
    alloc: Global,
    out: &mut String,
    config: &Config,
    message: &MessageView<'_>,
    to_target: bool,
) -> Result<(), OutOfMemory> {
    if message.data.is_empty() {
        return Ok(());
    }
    match Command::of(message.command) {
        Command::SendRrData => push_items(alloc, out, config, message.data, to_target),
        Command::SendUnitData => push_connected(alloc, out, config, message.data, to_target),
        _ => {
            push_text(out, ", ")?;
            push_data(alloc, out, message.data)
        }
    }
}

/// The request or the reply among the items of an unconnected message.
fn push_items(
    alloc: Global,
    out: &mut String,
    config: &Config,
    items: &[u8],
    to_target: bool,
) -> Result<(), OutOfMemory> {
    match read_any_items(items) {
        Ok(packet) => {
            push_text(out, ": ")?;
            push_routed(alloc, out, config, packet.data, to_target)
        }
        Err(fault) => {
            write!(out, ", no items ({fault}), ")?;
            push_data(alloc, out, items)
        }
    }
}

/// The request or the reply among the items of a connected message, with its connection id and sequence count.
///
/// Volume 1, chapter 3, class 3 transport.
fn push_connected(
    alloc: Global,
    out: &mut String,
    config: &Config,
    items: &[u8],
    to_target: bool,
) -> Result<(), OutOfMemory> {
    match read_any_connected_items(items) {
        Ok(packet) => {
            push_text(out, ", connection ")?;
            push_id(out, packet.connection)?;
            let count = packet.count;
            write!(out, " count {count}: ")?;
            push_routed(alloc, out, config, packet.message, to_target)
        }
        Err(fault) => {
            write!(out, ", no connected items ({fault}), ")?;
            push_data(alloc, out, items)
        }
    }
}

/// A request to a target's message router, or the reply of one.
fn push_routed(
    alloc: Global,
    out: &mut String,
    config: &Config,
    bytes: &[u8],
    to_target: bool,
) -> Result<(), OutOfMemory> {
    if to_target {
        push_request(alloc, out, config, bytes)
    } else {
        push_reply(alloc, out, bytes)
    }
}
