//! Writing the data of a Forward_Open, and the replies to it.

ghost use Rattle.std.specs.Prelude.{◌≡◌, ◌≢◌, ◌*◌, ◌^◌, ◌%◌, ◌<◌, ◌≤◌, ◌++◌, ◌∷◌, [], ℕ, List, length, IfOk, IfSome, OnOk, Ok};
ghost use Rattle.cip_epath.specs.Path.{view_path};
ghost use Rattle.cip_epath.specs.Written.{path_text, AreWords};
ghost use Rattle.std.specs.Int.{w32, to_le_bytes};
ghost use Rattle.cip_types.specs.Fields.{fields_text};
ghost use Rattle.cip_fwdopen.specs.Open.{OpenFields, open_contents, view_open, sent_open, params_width, params_word, greatest_size, open_text, OpenFits, IsOpenText, open_reading};
ghost use Rattle.cip_fwdopen.specs.Reply.{opened_text, opened_reply, refused_text, refused_reply, intervals_words, intervals_text, IsOpenReplyText, open_reply_reading, extended_text, failure_text, triad_widths, triad_numbers, OpenedFits, TriadFits};
ghost use Rattle.cip_fwdopen.specs.Services.{is_large_open};

use crate::open::OpenRequest;
use crate::open_service::OpenService;
use crate::reply::{AcceptableIntervals, Opened};
use crate::service::REPLY;
use cip_epath::{ConnPath, path_len, put_path};
use cip_netparams::{NetParams, write16, write32};
use cip_types::fields::{put_bytes, put_u8, put_u16, put_u32};
use cip_types::{Fault, OutOfMemory, Triad};
use std::alloc::Global;

/// The bytes of a Forward_Open before its path.
const FRONT_LEN: usize = 36;

/// The bytes of a Large_Forward_Open before its path.
const LARGE_FRONT_LEN: usize = 40;

/// The length of the reply to a successful open, in bytes.
const OPENED_LEN: usize = 30;

/// The length of a refusal that names acceptable packet intervals, in bytes.
const UNACCEPTABLE_LEN: usize = 26;

/// The extended status of requested packet intervals that are not acceptable.
const INTERVALS_CODE: u16 = 0x0112;

fn put_params(
    out: &mut Vec<u8>,
    service: OpenService,
    params: &NetParams,
) -> Result<(), OutOfMemory>
    requires { params.now.size ≤ greatest_size (is_large_open service) }
    ensures { OnOk result (out.new.items
        ≡ out.old.items ++ to_le_bytes (params_width (is_large_open service))
        (params_word (is_large_open service) params.now)) }
{
    let large = service.is_large();
    if large {
        return put_u32(out, write32(params));
    }
    put_u16(out, write16(params))
}

/// Appends two bytes. The types keep them within their fields.
pub fn put_two(out: &mut Vec<u8>, first: u8, second: u8) -> Result<(), OutOfMemory>
    ensures text { OnOk result (out.new.items ≡ out.old.items ++ first ∷ second ∷ []) }
    ensures fits { (first < 2 ^ 8) × (second < 2 ^ 8) }
{
    put_bytes(out, &[first, second])
}

/// Appends a number of four bytes. The types keep it within its field.
fn put_long(out: &mut Vec<u8>, number: u32) -> Result<(), OutOfMemory>
    ensures text { OnOk result (out.new.items ≡ out.old.items ++ to_le_bytes w32 number) }
    ensures fits { number < 2 ^ 32 }
{
    put_u32(out, number)
}

/// Appends a triad. The types keep its numbers within their fields.
pub fn put_triad(out: &mut Vec<u8>, triad: Triad) -> Result<(), OutOfMemory>
    ensures text { OnOk result (out.new.items ≡ out.old.items ++ fields_text triad_widths (triad_numbers triad)) }
    ensures fits { TriadFits triad }
{
    put_u16(out, triad.serial)?;
    put_u16(out, triad.vendor)?;
    put_u32(out, triad.originator)
}

/// Appends the packet interval and the parameters of one direction.
fn put_direction(
    out: &mut Vec<u8>,
    service: OpenService,
    rpi: u32,
    params: &NetParams,
) -> Result<(), OutOfMemory>
    requires { params.now.size ≤ greatest_size (is_large_open service) }
    ensures fits { rpi < 2 ^ 32 }
    ensures text { OnOk result (out.new.items ≡ out.old.items
        ++ (to_le_bytes w32 rpi
        ++ to_le_bytes (params_width (is_large_open service)) (params_word (is_large_open service) params.now))) }
{
    put_u32(out, rpi)?;
    put_params(out, service, params)
}

/// Appends the fields of a Forward_Open, or of a Large_Forward_Open, before its path, with reserved bytes and spare bits
/// zero. A path of so many words is to follow.
fn put_open_front<P>(
    out: &mut Vec<u8>,
    service: OpenService,
    request: &OpenRequest<P>,
    words: u8,
) -> Result<(), OutOfMemory>
    requires o_t_size { request.now.o_t_params.size ≤ greatest_size (is_large_open service) }
    requires t_o_size { request.now.t_o_params.size ≤ greatest_size (is_large_open service) }
    ensures { (path : List ℕ) → length path ≡ 2 * words
        → OnOk result (OpenFits (is_large_open service) (open_contents request.now path)
        × (out.new.items ++ path ≡ out.old.items
        ++ open_text (is_large_open service) (open_contents request.now path))) }
{
    put_two(out, request.priority_tick, request.ticks)?;
    put_long(out, request.o_t_id.0)?;
    put_long(out, request.t_o_id.0)?;
    put_triad(out, request.triad)?;
    put_two(out, request.multiplier, 0)?;
    put_two(out, 0, 0)?;
    put_direction(out, service, request.o_t_rpi, &request.o_t_params)?;
    put_direction(out, service, request.t_o_rpi, &request.t_o_params)?;
    put_two(out, request.trigger, words)?;
    Ok(())
}

/// The bytes of the data of a Forward_Open, or of a Large_Forward_Open, with a path of so many bytes.
///
/// Volume 1, chapter 3, Forward_Open and Large_Forward_Open services.
pub fn open_len(service: OpenService, path_len: usize) -> usize
    requires { path_len ≤ 510 }
    ensures { (request : OpenFields) → length request.path ≡ path_len
        → length (open_text (is_large_open service) request) ≡ result }
{
    let large = service.is_large();
    if large {
        LARGE_FRONT_LEN + path_len
    } else {
        FRONT_LEN + path_len
    }
}

/// Appends the data of a Forward_Open, or of a Large_Forward_Open, with reserved bytes and spare bits zero. In a
/// Forward_Open the sizes have at most nine bits. OutOfMemory is the only fault of this and the other writers.
///
/// Volume 1, chapter 3, Forward_Open and Large_Forward_Open services.
pub fn put_open(
    out: &mut Vec<u8>,
    service: OpenService,
    request: &OpenRequest<ConnPath<'_>>,
) -> Result<(), OutOfMemory>
    // The data segment of the path has whole words, which one byte counts.
    requires words { IfSome (view_path request.now.path).segment AreWords }
    // One byte counts the words of the path.
    requires short { length (path_text (view_path request.now.path)) ≤ 510 }
    requires o_t_size { request.now.o_t_params.size ≤ greatest_size (is_large_open service) }
    requires t_o_size { request.now.t_o_params.size ≤ greatest_size (is_large_open service) }
    ensures { OnOk result (out.new.items ≡ out.old.items ++ open_text (is_large_open service) (sent_open request.now)) }
{
    let words = (path_len(&request.path) / 2) as u8;
    put_open_front(out, service, request, words)?;
    put_path(out, &request.path)?;
    Ok(())
}

/// Writes the data of a Forward_Open or of a Large_Forward_Open, with reserved bytes and spare bits zero.
/// The path has whole words, at most 255, and in a Forward_Open the sizes have at most nine bits.
///
/// Volume 1, chapter 3, Forward_Open and Large_Forward_Open services.
pub fn write_open(
    alloc: Global,
    service: OpenService,
    request: &OpenRequest<&[u8]>,
) -> Result<Vec<u8>, OutOfMemory>
    requires whole_words { length request.now.path.now % 2 ≡ 0 }
    requires short { length request.now.path.now ≤ 510 }
    requires o_t_size { request.now.o_t_params.size ≤ greatest_size (is_large_open service) }
    requires t_o_size { request.now.t_o_params.size ≤ greatest_size (is_large_open service) }
    ensures text { IfOk result (λ v. v.items ≡ open_text (is_large_open service) (view_open request.now)) }
    ensures is_text { IfOk result (λ v. IsOpenText (is_large_open service) v.items (view_open request.now)) }
    ensures read_back { IfOk result (λ v. open_reading (is_large_open service) v.items ≡ Ok (view_open request.now)) }
{
    let mut out = Vec::new(alloc);
    put_open_front(&mut out, service, request, (request.path.len() / 2) as u8)?;
    put_bytes(&mut out, request.path)?;
    Ok(out)
}

/// Appends the whole reply to a successful Large_Forward_Open or Forward_Open, with no application reply: 30 bytes.
/// OutOfMemory is the only fault.
///
/// Volume 1, chapter 3, Forward_Open service, successful response.
pub fn put_opened(
    out: &mut Vec<u8>,
    service: OpenService,
    opened: &Opened,
) -> Result<(), OutOfMemory>
    ensures { OnOk result (OpenedFits opened.now
        × (out.new.items ≡ out.old.items ++ opened_text (is_large_open service) opened.now)) }
{
    put_bytes(out, &[service.reply_code(), 0, 0, 0])?;
    put_u32(out, opened.o_t_id.0)?;
    put_u32(out, opened.t_o_id.0)?;
    put_triad(out, opened.triad)?;
    put_u32(out, opened.o_t_api_us)?;
    put_u32(out, opened.t_o_api_us)?;
    put_bytes(out, &[0, 0])?;
    Ok(())
}

/// Writes the whole reply to a successful Large_Forward_Open or Forward_Open, with no application reply.
///
/// Volume 1, chapter 3, Forward_Open service, successful response.
pub fn write_opened(
    alloc: Global,
    service: OpenService,
    opened: &Opened,
) -> Result<Vec<u8>, OutOfMemory>
    ensures text { IfOk result (λ v. v.items ≡ opened_text (is_large_open service) opened.now) }
    ensures is_text { IfOk result (λ v. IsOpenReplyText v.items (opened_reply (is_large_open service) opened.now)) }
    ensures read_back { IfOk result
        (λ v. open_reply_reading v.items ≡ Ok (opened_reply (is_large_open service) opened.now)) }
{
    let mut out = Vec::with_capacity(alloc, OPENED_LEN)?;
    put_opened(&mut out, service, opened)?;
    Ok(out)
}

fn put_extended(out: &mut Vec<u8>, extended: Option<u16>) -> Result<(), OutOfMemory>
    ensures { OnOk result (out.new.items ≡ out.old.items ++ extended_text extended) }
{
    let Some(code) = extended else {
        return put_u8(out, 0);
    };
    put_u8(out, 1)?;
    put_u16(out, code)
}

fn put_failure(out: &mut Vec<u8>, triad: Option<Triad>) -> Result<(), OutOfMemory>
    ensures { OnOk result (out.new.items ≡ out.old.items ++ failure_text triad) }
{
    let Some(triad) = triad else {
        return Ok(());
    };
    put_triad(out, triad)?;
    put_bytes(out, &[0, 0])
}

/// Appends the whole reply that refuses a request of the service. Its data is the triad, if one is given, with
/// remaining path size 0. OutOfMemory is the only fault.
///
/// Volume 1, chapter 3, Forward_Open service, unsuccessful response.
pub fn put_refused(
    out: &mut Vec<u8>,
    service: u8,
    fault: Fault,
    triad: Option<Triad>,
) -> Result<(), OutOfMemory>
    ensures { OnOk result (out.new.items ≡ out.old.items ++ refused_text service fault triad) }
{
    put_bytes(out, &[service | REPLY, 0, fault.general])?;
    put_extended(out, fault.extended)?;
    put_failure(out, triad)
}

/// Writes the whole reply that refuses a request of the service. Its data is the triad, if one is given,
/// with remaining path size 0. The general status of a refusal is not 0.
///
/// Volume 1, chapter 3, Forward_Open service, unsuccessful response.
pub fn write_refused(
    alloc: Global,
    service: u8,
    fault: Fault,
    triad: Option<Triad>,
) -> Result<Vec<u8>, OutOfMemory>
    requires { fault.general ≢ 0 }
    ensures text { IfOk result (λ v. v.items ≡ refused_text service fault triad) }
    ensures is_text { IfOk result (λ v. IsOpenReplyText v.items (refused_reply service fault triad)) }
    ensures read_back { IfOk result (λ v. open_reply_reading v.items ≡ Ok (refused_reply service fault triad)) }
{
    let mut out = Vec::new(alloc);
    put_refused(&mut out, service, fault, triad)?;
    Ok(out)
}

/// Appends the words of an extended status 0x0112, behind their number.
#[tactic(auto, unfolding(crate::specs::Reply::intervals_words))]
fn put_intervals(out: &mut Vec<u8>, intervals: &AcceptableIntervals) -> Result<(), OutOfMemory>
    ensures { OnOk result (out.new.items ≡ out.old.items ++ intervals_words intervals.now) }
{
    put_u8(out, 6)?;
    put_u16(out, INTERVALS_CODE)?;
    put_two(out, intervals.o_t_says, intervals.t_o_says)?;
    put_u32(out, intervals.o_t_us)?;
    put_u32(out, intervals.t_o_us)
}

/// Appends the whole reply that refuses a request of the service for its packet intervals, with those that are acceptable, and the
/// triad, if one is given. OutOfMemory is the only fault.
///
/// Volume 1, chapter 3, Forward_Open service, unsuccessful response, and Connection Manager extended status codes.
pub fn put_unacceptable(
    out: &mut Vec<u8>,
    service: u8,
    intervals: &AcceptableIntervals,
    triad: Option<Triad>,
) -> Result<(), OutOfMemory>
    ensures { OnOk result (out.new.items ≡ out.old.items ++ intervals_text service intervals.now triad) }
{
    put_bytes(out, &[service | REPLY, 0, 1])?;
    put_intervals(out, intervals)?;
    put_failure(out, triad)
}

/// Writes the same.
///
/// Volume 1, chapter 3, Forward_Open service, unsuccessful response, and Connection Manager extended status codes.
pub fn write_unacceptable(
    alloc: Global,
    service: u8,
    intervals: &AcceptableIntervals,
    triad: Option<Triad>,
) -> Result<Vec<u8>, OutOfMemory>
    ensures { IfOk result (λ v. v.items ≡ intervals_text service intervals.now triad) }
{
    let mut out = Vec::with_capacity(alloc, UNACCEPTABLE_LEN)?;
    put_unacceptable(&mut out, service, intervals, triad)?;
    Ok(out)
}
