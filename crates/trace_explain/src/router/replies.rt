//! Replies of the message router in words.

use crate::router::requests::service_name;
use crate::router::values::{push_data, push_id, push_interval, push_triad};
use cip_fwdopen::service::{FORWARD_CLOSE, FORWARD_OPEN, LARGE_FORWARD_OPEN, REPLY};
use cip_fwdopen::{
    CloseAnswer, GetAnswer, OpenAnswer, Opened, ReadFault, Refused, read_close_reply,
    read_get_reply, read_open_reply,
};
use cip_router::read_router_reply;
use cip_types::fields::u16_at;
use cip_types::{Fault, OutOfMemory};
use std::alloc::Global;
use trace_words::{push_fault, push_general, push_text};

/// A reply, by its service and fields.
///
/// Volume 1, chapter 2, message router response; chapter 3, Connection Manager services.
pub fn push_reply(alloc: Global, out: &mut String, bytes: &[u8]) -> Result<(), OutOfMemory> {
    let [service, ..] = bytes else {
        return push_text(out, "a reply without a byte");
    };
    if *service < REPLY {
        write!(out, "no reply, since service {service:#04x} is a request: ")?;
        return push_data(alloc, out, bytes);
    }
    match *service - REPLY {
        FORWARD_OPEN => {
            push_text(out, "reply to Forward_Open: ")?;
            push_open_reply(alloc, out, bytes)
        }
        LARGE_FORWARD_OPEN => {
            push_text(out, "reply to Large_Forward_Open: ")?;
            push_open_reply(alloc, out, bytes)
        }
        FORWARD_CLOSE => {
            push_text(out, "reply to Forward_Close: ")?;
            push_close_reply(alloc, out, bytes)
        }
        service => {
            match service_name(service) {
                Some(name) => write!(out, "reply to {name}: ")?,
                None => write!(out, "reply to service {service:#04x}: ")?,
            }
            push_get_reply(alloc, out, bytes)
        }
    }
}

fn push_open_reply(alloc: Global, out: &mut String, bytes: &[u8]) -> Result<(), OutOfMemory> {
    match read_open_reply(bytes) {
        Ok(reply) => match reply.answer {
            OpenAnswer::Opened(opened) => push_opened(out, opened),
            OpenAnswer::Refused(refused) => {
                push_refused(out, refused)?;
                push_further(out, bytes)
            }
        },
        Err(fault) => {
            write!(out, "it does not read ({fault}), ")?;
            push_data(alloc, out, bytes)
        }
    }
}

fn push_opened(out: &mut String, opened: Opened) -> Result<(), OutOfMemory> {
    push_text(out, "opened ")?;
    push_triad(out, opened.triad)?;
    push_text(out, ", O->T id ")?;
    push_id(out, opened.o_t_id)?;
    push_text(out, " every ")?;
    push_interval(out, opened.o_t_api_us)?;
    push_text(out, ", T->O id ")?;
    push_id(out, opened.t_o_id)?;
    push_text(out, " every ")?;
    push_interval(out, opened.t_o_api_us)
}

fn push_refused(out: &mut String, refused: Refused) -> Result<(), OutOfMemory> {
    push_text(out, "refused with ")?;
    push_fault(out, refused.fault)?;
    match refused.triad {
        Some(triad) => {
            push_text(out, ", ")?;
            push_triad(out, triad)
        }
        None => Ok(()),
    }
}

/// The additional words of a refusal behind the extended status, as the size or the interval that a target wants.
///
/// Volume 1, chapter 3, Connection Manager extended status codes.
fn push_further(out: &mut String, bytes: &[u8]) -> Result<(), OutOfMemory> {
    let Some(reply) = read_router_reply(bytes) else {
        return Ok(());
    };
    let Some((_extended, further)) = u16_at(reply.additional) else {
        return Ok(());
    };
    push_further_words(out, further)
}

/// The words behind an extended status, if there are any.
fn push_further_words(out: &mut String, further: &[u8]) -> Result<(), OutOfMemory> {
    if further.is_empty() {
        return Ok(());
    }
    push_text(out, ", further words")?;
    push_words(out, further)
}

/// Each of these words.
fn push_words(out: &mut String, words: &[u8]) -> Result<(), OutOfMemory> {
    let mut rest = words;
    for _ in 0..words.len() {
        let Some((word, after)) = u16_at(rest) else {
            return Ok(());
        };
        write!(out, " {word:#06x}")?;
        rest = after;
    }
    Ok(())
}

fn push_close_reply(alloc: Global, out: &mut String, bytes: &[u8]) -> Result<(), OutOfMemory> {
    match read_close_reply(bytes) {
        Ok(reply) => match reply.answer {
            CloseAnswer::Closed(triad) => {
                push_text(out, "closed ")?;
                push_triad(out, triad)
            }
            CloseAnswer::Refused(refused) => {
                push_refused(out, refused)?;
                push_further(out, bytes)
            }
        },
        Err(fault) => {
            write!(out, "it does not read ({fault}), ")?;
            push_data(alloc, out, bytes)
        }
    }
}

/// A reply whose data is the value of an attribute, or bytes that no reader here knows.
fn push_get_reply(alloc: Global, out: &mut String, bytes: &[u8]) -> Result<(), OutOfMemory> {
    match read_get_reply(bytes) {
        Ok(reply) => match reply.answer {
            GetAnswer::Got(value) => push_data(alloc, out, value),
            GetAnswer::Refused(fault) => {
                push_text(out, "refused with ")?;
                push_fault(out, fault)
            }
        },
        Err(fault) => push_other_reply(alloc, out, bytes, fault),
    }
}

/// A refusal with data of an object's own, or bytes that are no reply.
///
/// Volume 1, chapter 2, message router response.
fn push_other_reply(
    alloc: Global,
    out: &mut String,
    bytes: &[u8],
    fault: ReadFault,
) -> Result<(), OutOfMemory> {
    if let Some(reply) = read_router_reply(bytes) {
        if reply.status != 0 {
            push_text(out, "refused with ")?;
            push_status(out, reply.status, reply.additional)?;
            push_text(out, ", ")?;
            return push_data(alloc, out, reply.content);
        }
    }
    write!(out, "it does not read ({fault}), ")?;
    push_data(alloc, out, bytes)
}

/// A general status, with its additional words: the extended status, and those behind it.
///
/// Volume 1, appendix B, general status codes; chapter 3, Connection Manager extended status codes.
fn push_status(out: &mut String, general: u8, additional: &[u8]) -> Result<(), OutOfMemory> {
    let Some((extended, further)) = u16_at(additional) else {
        return push_general(out, general);
    };
    let extended = Some(extended);
    push_fault(out, Fault { general, extended })?;
    push_further_words(out, further)
}
