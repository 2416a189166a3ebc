//! The data of a Forward_Close, and replies to it.

ghost use Rattle.std.specs.Prelude.{◌≡◌, ◌*◌, ◌%◌, ◌≤◌, ◌++◌, ℕ, List, length, Result, IfOk, IfSome, OnOk, Ok};
ghost use Rattle.cip_epath.specs.Path.{view_path};
ghost use Rattle.cip_epath.specs.Written.{path_text, AreWords};
ghost use Rattle.cip_fwdopen.specs.declared.fault.ReadFault.{ReadFault};
ghost use Rattle.cip_fwdopen.specs.declared.close.CloseReply.{CloseReply};
ghost use Rattle.cip_fwdopen.specs.Readings.{seen};
ghost use Rattle.cip_fwdopen.specs.Close.{CloseFields, CloseFits, close_contents, view_close, sent_close, IsCloseText, IsCloseReading, close_reading, close_text, closed_text, closed_reply, closed_reading, close_answer_reading, IsCloseReplyText, IsCloseReplyReading, close_reply_reading};

use crate::fault::ReadFault;
use crate::front::{CloseFront, ClosedFront, unread_at};
use crate::reply::{Refused, failure_of};
use crate::service::{FORWARD_CLOSE, REPLY};
use crate::write::{put_triad, put_two};
use cip_epath::{ConnPath, path_len, put_path};
use cip_types::fields::put_bytes;
use cip_types::{Fault, OutOfMemory, Triad};
use std::alloc::Global;

/// The bytes of a Forward_Close before its path.
const CLOSE_FRONT_LEN: usize = 12;

/// The length of the reply to a successful close, in bytes.
const CLOSED_LEN: usize = 14;

/// The data of a Forward_Close. `P` is the connection path: its bytes, not decoded, in a request that is read, and a
/// `ConnPath` in one that is sent.
///
/// Volume 1, chapter 3, Forward_Close service.
#[derive(Clone, Copy)]
pub struct CloseRequest<P> {
    /// Priority and time tick of the unconnected request.
    pub priority_tick: u8,
    /// Its time-out, in ticks.
    pub ticks: u8,
    pub triad: Triad,
    pub path: P,
}

/// The answer of a reply to a Forward_Close.
#[derive(Clone, Copy, PartialEq, Eq)]
pub enum CloseAnswer {
    Closed(Triad),
    Refused(Refused),
}

/// A reply to a Forward_Close.
///
/// Volume 1, chapter 3, Forward_Close service, successful and unsuccessful response.
#[derive(Clone, Copy, PartialEq, Eq)]
pub struct CloseReply {
    /// The reply's service byte. It is not judged.
    pub service: u8,
    pub answer: CloseAnswer,
}

fn whole_close(bytes: &[u8]) -> Result<CloseRequest<&[u8]>, ReadFault>
    ensures { seen view_close result ≡ close_reading bytes.now }
{
    let Some((front, rest)) = CloseFront::at(bytes) else {
        return Err(ReadFault::NotEnough);
    };
    let len = 2 * usize::from(front.path_words);
    if rest.len() < len {
        return Err(ReadFault::NotEnough);
    }
    if rest.len() > len {
        return Err(ReadFault::TooMuch);
    }
    Ok(CloseRequest {
        priority_tick: front.priority_tick,
        ticks: front.ticks,
        triad: front.triad,
        path: rest,
    })
}

/// Reads the data of a Forward_Close. The reserved byte is not judged.
///
/// NotEnough where the bytes end before the fields or the path do, TooMuch where bytes follow the
/// path; never Path.
///
/// Volume 1, chapter 3, Forward_Close service.
pub fn read_close(bytes: &[u8]) -> Result<CloseRequest<&[u8]>, ReadFault>
    ensures value { seen view_close result ≡ close_reading bytes.now }
    // The result is a reading of the bytes.
    ensures reading { IsCloseReading bytes.now (seen view_close result) }
    // The bytes have no other reading.
    ensures only { (other : Result CloseFields ReadFault) → IsCloseReading bytes.now other
        → seen view_close result ≡ other }
{
    whole_close(bytes)
}

fn closed_of(bytes: &[u8]) -> Result<Triad, ReadFault>
    ensures { result ≡ closed_reading bytes.now }
{
    let Some((front, rest)) = ClosedFront::at(bytes) else {
        return Err(ReadFault::NotEnough);
    };
    let len = 2 * usize::from(front.application_words);
    if rest.len() < len {
        return Err(ReadFault::NotEnough);
    }
    if rest.len() > len {
        return Err(ReadFault::TooMuch);
    }
    Ok(front.triad)
}

fn answer_of(fault: Fault, bytes: &[u8]) -> Result<CloseAnswer, ReadFault>
    ensures { result ≡ close_answer_reading fault bytes.now }
{
    if fault.general == 0 {
        return Ok(CloseAnswer::Closed(closed_of(bytes)?));
    }
    let triad = failure_of(bytes)?;
    Ok(CloseAnswer::Refused(Refused { fault, triad }))
}

fn whole_reply(bytes: &[u8]) -> Result<CloseReply, ReadFault>
    ensures { result ≡ close_reply_reading bytes.now }
{
    let Some(reply) = unread_at(bytes) else {
        return Err(ReadFault::NotEnough);
    };
    let answer = answer_of(reply.fault, reply.content)?;
    Ok(CloseReply {
        service: reply.service,
        answer,
    })
}

/// Reads a reply to a Forward_Close. General status 0 means that the connection is closed; the application
/// reply is dropped. With any other status the fault keeps the first word of the extended status, and the
/// data is the connection's triad (8 bytes, or 10, of which the last two are not judged) or empty. Neither
/// the service nor a reserved byte is judged.
///
/// NotEnough where the bytes are no reply but the front of one; TooMuch where they are neither, and begin
/// with a reply; never Path.
///
/// Volume 1, chapter 3, Forward_Close service, successful and unsuccessful response.
pub fn read_close_reply(bytes: &[u8]) -> Result<CloseReply, ReadFault>
    ensures value { result ≡ close_reply_reading bytes.now }
    // The result is a reading of the bytes.
    ensures reading { IsCloseReplyReading bytes.now result }
    // The bytes have no other reading.
    ensures only { (other : Result CloseReply ReadFault) → IsCloseReplyReading bytes.now other → result ≡ other }
{
    whole_reply(bytes)
}

/// Appends the fields of a Forward_Close before its path, with the reserved byte zero. A path of so many words is to
/// follow.
fn put_close_front<P>(
    out: &mut Vec<u8>,
    request: &CloseRequest<P>,
    words: u8,
) -> Result<(), OutOfMemory>
    ensures { (path : List ℕ) → length path ≡ 2 * words → OnOk result (CloseFits (close_contents request.now path)
        × (out.new.items ++ path ≡ out.old.items ++ close_text (close_contents request.now path))) }
{
    put_two(out, request.priority_tick, request.ticks)?;
    put_triad(out, request.triad)?;
    put_two(out, words, 0)?;
    Ok(())
}

/// The bytes of a Forward_Close's data with a path of so many bytes.
///
/// Volume 1, chapter 3, Forward_Close service.
pub fn close_len(path_len: usize) -> usize
    requires { path_len ≤ 510 }
    ensures { (request : CloseFields) → length request.path ≡ path_len → length (close_text request) ≡ result }
{
    CLOSE_FRONT_LEN + path_len
}

/// Appends the data of a Forward_Close, with the reserved byte zero. OutOfMemory is the only fault of this and the
/// other writers.
///
/// Volume 1, chapter 3, Forward_Close service.
pub fn put_close(out: &mut Vec<u8>, request: &CloseRequest<ConnPath<'_>>) -> Result<(), OutOfMemory>
    // The data segment of the path has whole words, which one byte counts.
    requires words { IfSome (view_path request.now.path).segment AreWords }
    // One byte counts the words of the path.
    requires short { length (path_text (view_path request.now.path)) ≤ 510 }
    ensures { OnOk result (out.new.items ≡ out.old.items ++ close_text (sent_close request.now)) }
{
    let words = (path_len(&request.path) / 2) as u8;
    put_close_front(out, request, words)?;
    put_path(out, &request.path)?;
    Ok(())
}

/// Writes the data of a Forward_Close, with the reserved byte zero. The path has whole words, at most 255.
///
/// Volume 1, chapter 3, Forward_Close service.
pub fn write_close(alloc: Global, request: &CloseRequest<&[u8]>) -> Result<Vec<u8>, OutOfMemory>
    requires whole_words { length request.now.path.now % 2 ≡ 0 }
    requires short { length request.now.path.now ≤ 510 }
    ensures text { IfOk result (λ v. v.items ≡ close_text (view_close request.now)) }
    ensures is_text { IfOk result (λ v. IsCloseText v.items (view_close request.now)) }
    ensures read_back { IfOk result (λ v. close_reading v.items ≡ Ok (view_close request.now)) }
{
    let mut out = Vec::new(alloc);
    put_close_front(&mut out, request, (request.path.len() / 2) as u8)?;
    put_bytes(&mut out, request.path)?;
    Ok(out)
}

/// Appends the reply to a successful close, with no application reply: 14 bytes. OutOfMemory is the only fault.
///
/// Volume 1, chapter 3, Forward_Close service, successful response.
pub fn put_closed(out: &mut Vec<u8>, triad: Triad) -> Result<(), OutOfMemory>
    ensures { OnOk result (out.new.items ≡ out.old.items ++ closed_text triad) }
{
    put_bytes(out, &[FORWARD_CLOSE | REPLY, 0, 0, 0])?;
    put_triad(out, triad)?;
    put_bytes(out, &[0, 0])
}

/// Writes the reply to a successful close, with no application reply.
///
/// Volume 1, chapter 3, Forward_Close service, successful response.
pub fn write_closed(alloc: Global, triad: Triad) -> Result<Vec<u8>, OutOfMemory>
    ensures text { IfOk result (λ v. v.items ≡ closed_text triad) }
    ensures is_text { IfOk result (λ v. IsCloseReplyText v.items (closed_reply triad)) }
    ensures read_back { IfOk result (λ v. close_reply_reading v.items ≡ Ok (closed_reply triad)) }
{
    let mut out = Vec::with_capacity(alloc, CLOSED_LEN)?;
    put_closed(&mut out, triad)?;
    Ok(out)
}
