//! A Get_Attribute_Single and replies to it.

ghost use Rattle.std.specs.Prelude.{◌≡◌, ◌++◌, Result, IfOk, OnOk, Ok};
ghost use Rattle.cip_fwdopen.specs.declared.fault.ReadFault.{ReadFault};
ghost use Rattle.cip_fwdopen.specs.Readings.{seen};
ghost use Rattle.cip_fwdopen.specs.Request.{IsRequestText, request_reading};
ghost use Rattle.cip_fwdopen.specs.Get.{GetFields, get_text, get_request, got_text, got_reply, view_answer, view_get, gotten_reading, IsGetReplyText, IsGetReplyReading, get_reply_reading};

use crate::fault::ReadFault;
use crate::front::unread_at;
use crate::reply::failure_of;
use crate::service::{GET_ATTRIBUTE_SINGLE, REPLY};
use cip_epath::{Target, write_target};
use cip_types::fields::put_bytes;
use cip_types::{Fault, OutOfMemory};
use std::alloc::Global;

/// The length of a successful reply before its value, in bytes.
const GOT_HEADER_LEN: usize = 4;

/// The answer of a reply to a Get_Attribute_Single.
#[derive(Clone, Copy, PartialEq, Eq)]
pub enum GetAnswer<'a> {
    /// The attribute's value, not decoded.
    Got(&'a [u8]),
    Refused(Fault),
}

/// A reply to a Get_Attribute_Single.
///
/// Volume 1, appendix A, Get_Attribute_Single service.
#[derive(Clone, Copy, PartialEq, Eq)]
pub struct GetReply<'a> {
    /// The reply's service byte. It is not judged.
    pub service: u8,
    pub answer: GetAnswer<'a>,
}

fn answer_of(fault: Fault, bytes: &[u8]) -> Result<GetAnswer<'_>, ReadFault>
    ensures { seen view_answer result ≡ gotten_reading fault bytes.now }
{
    if fault.general == 0 {
        return Ok(GetAnswer::Got(bytes));
    }
    // The data has to be that of a failure. Its triad is dropped.
    let _triad = failure_of(bytes)?;
    Ok(GetAnswer::Refused(fault))
}

fn whole_reply(bytes: &[u8]) -> Result<GetReply<'_>, ReadFault>
    ensures { seen view_get result ≡ get_reply_reading bytes.now }
{
    let Some(reply) = unread_at(bytes) else {
        return Err(ReadFault::NotEnough);
    };
    let answer = answer_of(reply.fault, reply.content)?;
    Ok(GetReply {
        service: reply.service,
        answer,
    })
}

/// Reads a reply to a Get_Attribute_Single. With general status 0 the value is all bytes after the extended
/// status. With any other status the fault keeps the first word of the extended status, and the data is that
/// of any failure (10 bytes, 8 or none, not judged). Neither the service nor the reserved byte is judged.
///
/// NotEnough where the bytes are no reply but the front of one; TooMuch where they are neither, and begin
/// with a reply; never Path.
///
/// Volume 1, appendix A, Get_Attribute_Single service, and chapter 2, message router response.
pub fn read_get_reply(bytes: &[u8]) -> Result<GetReply<'_>, ReadFault>
    ensures value { seen view_get result ≡ get_reply_reading bytes.now }
    // The result is a reading of the bytes.
    ensures reading { IsGetReplyReading bytes.now (seen view_get result) }
    // The bytes have no other reading.
    ensures only { (other : Result GetFields ReadFault) → IsGetReplyReading bytes.now other
        → seen view_get result ≡ other }
{
    whole_reply(bytes)
}

/// Writes the whole request for an attribute's value, with the shortest path. OutOfMemory is the only fault of
/// this and the other writers.
///
/// Volume 1, appendix A, Get_Attribute_Single service, and chapter 2, message router request.
pub fn write_get(alloc: Global, target: &Target) -> Result<Vec<u8>, OutOfMemory>
    ensures text { IfOk result (λ v. v.items ≡ get_text target.now) }
    ensures is_text { IfOk result (λ v. IsRequestText v.items (get_request target.now)) }
    ensures read_back { IfOk result (λ v. request_reading v.items ≡ Ok (get_request target.now)) }
{
    let path = write_target(alloc, target)?;
    let mut out = Vec::new(alloc);
    put_bytes(&mut out, &[GET_ATTRIBUTE_SINGLE, (path.len() / 2) as u8])?;
    put_bytes(&mut out, &path)?;
    Ok(out)
}

/// Appends the whole reply with an attribute's value. OutOfMemory is the only fault.
///
/// Volume 1, appendix A, Get_Attribute_Single service, successful response.
pub fn put_got(out: &mut Vec<u8>, value: &[u8]) -> Result<(), OutOfMemory>
    ensures { OnOk result (out.new.items ≡ out.old.items ++ got_text value.now) }
{
    put_bytes(out, &[GET_ATTRIBUTE_SINGLE | REPLY, 0, 0, 0])?;
    put_bytes(out, value)
}

/// The bytes of the reply with an attribute's value.
fn got_bytes(alloc: Global, value: &[u8]) -> Result<Vec<u8>, OutOfMemory>
    ensures { IfOk result (λ v. v.items ≡ got_text value.now) }
{
    let mut out = Vec::with_capacity(alloc, GOT_HEADER_LEN + value.len())?;
    put_got(&mut out, value)?;
    Ok(out)
}

/// Writes the whole reply with an attribute's value.
///
/// Volume 1, appendix A, Get_Attribute_Single service, successful response.
pub fn write_got(alloc: Global, value: &[u8]) -> Result<Vec<u8>, OutOfMemory>
    ensures text { IfOk result (λ v. v.items ≡ got_text value.now) }
    ensures is_text { IfOk result (λ v. IsGetReplyText v.items (got_reply value.now)) }
    ensures read_back { IfOk result (λ v. get_reply_reading v.items ≡ Ok (got_reply value.now)) }
{
    got_bytes(alloc, value)
}
