//! Replies to a Forward_Open and to a Large_Forward_Open.

ghost use Rattle.std.specs.Prelude.{◌≡◌, ◌+◌, ◌≤◌, length, Result};
ghost use Rattle.std.specs.Int.{w16, w32};
ghost use Rattle.cip_types.specs.Fields.{Finds, fields_at};
ghost use Rattle.cip_types.specs.Parts.{number_in};
ghost use Rattle.cip_fwdopen.specs.declared.fault.ReadFault.{ReadFault};
ghost use Rattle.cip_fwdopen.specs.declared.reply.OpenReply.{OpenReply};
ghost use Rattle.cip_fwdopen.specs.Reply.{triad_widths, triad_numbers, failure_reading, opened_reading, answer_reading, IsOpenReplyReading, open_reply_reading};

use crate::fault::ReadFault;
use crate::front::{Success, unread_at};
use cip_types::fields::{u16_in, u32_in};
use cip_types::{ConnId, Fault, Triad};

/// The connection that a target opened. Actual packet intervals are in microseconds.
///
/// Volume 1, chapter 3, Forward_Open service, successful response.
#[derive(Clone, Copy, PartialEq, Eq)]
pub struct Opened {
    pub o_t_id: ConnId,
    pub t_o_id: ConnId,
    pub triad: Triad,
    pub o_t_api_us: u32,
    pub t_o_api_us: u32,
}

/// The refusal of a connection.
///
/// Volume 1, chapter 3, Forward_Open service, unsuccessful response.
#[derive(Clone, Copy, PartialEq, Eq)]
pub struct Refused {
    pub fault: Fault,
    /// The triad of the request, if the reply has it.
    pub triad: Option<Triad>,
}

/// The packet intervals that a target accepts in place of those of a request, in microseconds, and what is said of each.
///
/// Volume 1, chapter 3, Connection Manager extended status codes.
#[derive(Clone, Copy, PartialEq, Eq)]
pub struct AcceptableIntervals {
    /// 0: the requested interval is accepted; 2: the least that is; 3: the greatest that is; 4: that of the data that are
    /// exchanged already.
    pub o_t_says: u8,
    pub t_o_says: u8,
    pub o_t_us: u32,
    pub t_o_us: u32,
}

/// The answer of a reply to a Forward_Open.
#[derive(Clone, Copy, PartialEq, Eq)]
pub enum OpenAnswer {
    Opened(Opened),
    Refused(Refused),
}

/// A reply to a Forward_Open or a Large_Forward_Open.
#[derive(Clone, Copy, PartialEq, Eq)]
pub struct OpenReply {
    /// The reply's service byte. It is not judged.
    pub service: u8,
    pub answer: OpenAnswer,
}

/// The triad at a position.
pub fn triad_in(bytes: &[u8], at: usize) -> Triad
    requires { at + 8 ≤ length bytes.now }
    ensures { result ≡ record {
      serial = number_in w16 bytes.now at;
      vendor = number_in w16 bytes.now (at + 2);
      originator = number_in w32 bytes.now (at + 4);
    } }
{
    Triad {
        serial: u16_in(bytes, at),
        vendor: u16_in(bytes, at + 2),
        originator: u32_in(bytes, at + 4),
    }
}

fn triad_at(bytes: &[u8]) -> Option<(Triad, &[u8])>
    ensures { Finds (λ x. (triad_numbers x.0, x.1.now)) result (fields_at triad_widths bytes.now) }
{
    if bytes.len() < 8 {
        return None;
    }
    Some((triad_in(bytes, 0), &bytes[8..]))
}

/// The triad in the data of a failure, which has 8 bytes, 10 or none.
pub fn failure_of(bytes: &[u8]) -> Result<Option<Triad>, ReadFault>
    ensures { result ≡ failure_reading bytes.now }
{
    if bytes.is_empty() {
        return Ok(None);
    }
    let Some((triad, rest)) = triad_at(bytes) else {
        return Err(ReadFault::NotEnough);
    };
    match rest.len() {
        0 | 2 => Ok(Some(triad)),
        1 => Err(ReadFault::NotEnough),
        _ => Err(ReadFault::TooMuch),
    }
}

fn opened_of(bytes: &[u8]) -> Result<Opened, ReadFault>
    ensures { result ≡ opened_reading bytes.now }
{
    let Some((success, rest)) = Success::at(bytes) else {
        return Err(ReadFault::NotEnough);
    };
    let len = 2 * usize::from(success.application_words);
    if rest.len() < len {
        return Err(ReadFault::NotEnough);
    }
    if rest.len() > len {
        return Err(ReadFault::TooMuch);
    }
    Ok(success.opened)
}

fn answer_of(fault: Fault, bytes: &[u8]) -> Result<OpenAnswer, ReadFault>
    ensures { result ≡ answer_reading fault bytes.now }
{
    if fault.general == 0 {
        return Ok(OpenAnswer::Opened(opened_of(bytes)?));
    }
    let triad = failure_of(bytes)?;
    Ok(OpenAnswer::Refused(Refused { fault, triad }))
}

fn whole_reply(bytes: &[u8]) -> Result<OpenReply, ReadFault>
    ensures { result ≡ open_reply_reading bytes.now }
{
    let Some(reply) = unread_at(bytes) else {
        return Err(ReadFault::NotEnough);
    };
    let answer = answer_of(reply.fault, reply.content)?;
    Ok(OpenReply {
        service: reply.service,
        answer,
    })
}

/// Reads a reply to a Forward_Open. General status 0 means that the connection is open; the application
/// reply is dropped. With any other status the fault keeps the first word of the extended status, and the
/// data is the connection's triad (8 bytes, or 10, of which the last two are not judged) or empty. Neither
/// the service nor the reserved byte is judged.
///
/// NotEnough where the bytes are no reply but the front of one; TooMuch where they are neither, and begin
/// with a reply; never Path.
///
/// Volume 1, chapter 3, Forward_Open service, successful and unsuccessful response.
pub fn read_open_reply(bytes: &[u8]) -> Result<OpenReply, ReadFault>
    ensures value { result ≡ open_reply_reading bytes.now }
    // The result is a reading of the bytes.
    ensures reading { IsOpenReplyReading bytes.now result }
    // The bytes have no other reading.
    ensures only { (other : Result OpenReply ReadFault) → IsOpenReplyReading bytes.now other → result ≡ other }
{
    whole_reply(bytes)
}
