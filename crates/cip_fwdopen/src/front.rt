//! The fixed parts of a reply, of a request to close and of a success's data.

ghost use Rattle.std.specs.Prelude.{◌≡◌};
ghost use Rattle.std.specs.Option.{option_map};
ghost use Rattle.std.specs.Int.{w16};
ghost use Rattle.cip_types.specs.Fields.{Finds, field_at, fields_at};
ghost use Rattle.cip_fwdopen.specs.Reply.{unread_reading};

use crate::reply::{Opened, triad_in};
use cip_types::fields::{u16_at, u32_in};
use cip_types::{ConnId, Fault, Triad};

/// The fields before the extended status of a reply.
#[derive(Clone, Copy)]
pub struct ReplyFront {
    pub service: u8,
    pub reserved: u8,
    pub general: u8,
    pub words: u8,
}

impl ReplyFront {
    ghost use Rattle.cip_fwdopen.specs.Numbers.{reply_front_numbers};
    ghost use Rattle.cip_fwdopen.specs.Reply.{reply_widths};

    /// The fixed part of a reply at the front, and the bytes after it.
    pub fn at(bytes: &[u8]) -> Option<(ReplyFront, &[u8])>
        ensures { Finds (λ x. (reply_front_numbers x.0, x.1.now)) result (fields_at reply_widths bytes.now) }
    {
        let [service, reserved, general, words, rest @ ..] = bytes else {
            return None;
        };
        let front = ReplyFront {
            service: *service,
            reserved: *reserved,
            general: *general,
            words: *words,
        };
        Some((front, rest))
    }
}

/// A reply whose data is not yet read.
#[derive(Clone, Copy)]
pub struct Unread<'a> {
    pub service: u8,
    /// The general status, and the first word of the extended status.
    pub fault: Fault,
    pub content: &'a [u8],
}

fn first_word(words: &[u8]) -> Option<u16>
    ensures { result ≡ option_map (λ x. x.0) (field_at w16 words.now) }
{
    let (word, _) = u16_at(words)?;
    Some(word)
}

/// Reads a reply up to its data. None where the bytes end before the data.
pub fn unread_at(bytes: &[u8]) -> Option<Unread<'_>>
    ensures { Finds (λ x. (x.service, x.fault, x.content.now)) result (unread_reading bytes.now) }
{
    let (front, rest) = ReplyFront::at(bytes)?;
    let len = 2 * usize::from(front.words);
    if rest.len() < len {
        return None;
    }
    let (words, content) = rest.split_at(len);
    let fault = Fault {
        general: front.general,
        extended: first_word(words),
    };
    Some(Unread {
        service: front.service,
        fault,
        content,
    })
}

/// The fields before the application reply of a success.
#[derive(Clone, Copy)]
pub struct Success {
    pub opened: Opened,
    pub application_words: u8,
    pub reserved: u8,
}

impl Success {
    ghost use Rattle.cip_fwdopen.specs.Numbers.{success_numbers};
    ghost use Rattle.cip_fwdopen.specs.Reply.{opened_widths};

    /// The fixed part of a success's data at the front, and the bytes after it.
    pub fn at(bytes: &[u8]) -> Option<(Success, &[u8])>
        ensures { Finds (λ x. (success_numbers x.0, x.1.now)) result (fields_at opened_widths bytes.now) }
    {
        if bytes.len() < 26 {
            return None;
        }
        let opened = Opened {
            o_t_id: ConnId(u32_in(bytes, 0)),
            t_o_id: ConnId(u32_in(bytes, 4)),
            triad: triad_in(bytes, 8),
            o_t_api_us: u32_in(bytes, 16),
            t_o_api_us: u32_in(bytes, 20),
        };
        let success = Success {
            opened,
            application_words: bytes[24],
            reserved: bytes[25],
        };
        Some((success, &bytes[26..]))
    }
}

/// The fields before the path of a Forward_Close.
#[derive(Clone, Copy)]
pub struct CloseFront {
    pub priority_tick: u8,
    pub ticks: u8,
    pub triad: Triad,
    pub path_words: u8,
    pub reserved: u8,
}

impl CloseFront {
    ghost use Rattle.cip_fwdopen.specs.Numbers.{close_front_numbers};
    ghost use Rattle.cip_fwdopen.specs.Close.{close_widths};

    /// The fixed part of a request's data at the front, and the bytes after it.
    pub fn at(bytes: &[u8]) -> Option<(CloseFront, &[u8])>
        ensures { Finds (λ x. (close_front_numbers x.0, x.1.now)) result (fields_at close_widths bytes.now) }
    {
        if bytes.len() < 12 {
            return None;
        }
        let front = CloseFront {
            priority_tick: bytes[0],
            ticks: bytes[1],
            triad: triad_in(bytes, 2),
            path_words: bytes[10],
            reserved: bytes[11],
        };
        Some((front, &bytes[12..]))
    }
}

/// The fields before the application reply of a successful close.
#[derive(Clone, Copy)]
pub struct ClosedFront {
    pub triad: Triad,
    pub application_words: u8,
    pub reserved: u8,
}

impl ClosedFront {
    ghost use Rattle.cip_fwdopen.specs.Numbers.{closed_front_numbers};
    ghost use Rattle.cip_fwdopen.specs.Close.{closed_widths};

    /// The fixed part of a success's data at the front, and the bytes after it.
    pub fn at(bytes: &[u8]) -> Option<(ClosedFront, &[u8])>
        ensures { Finds (λ x. (closed_front_numbers x.0, x.1.now)) result (fields_at closed_widths bytes.now) }
    {
        if bytes.len() < 10 {
            return None;
        }
        let front = ClosedFront {
            triad: triad_in(bytes, 0),
            application_words: bytes[8],
            reserved: bytes[9],
        };
        Some((front, &bytes[10..]))
    }
}
